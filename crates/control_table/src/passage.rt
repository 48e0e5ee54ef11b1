//! How a route's path passes from element to element.

ghost use Rattle.std.specs.Prelude.{◌≡◌};
ghost use Rattle.control_table.specs.inside.TableTests.{Gives, may_pass, passage_behind, passages};

use crate::fault::{FaultyRoute, TableFault};
use crate::topology::{is_element, is_end, joined_to};
use layout::{Element, End, Joint, Port};
use std::alloc::Global;
use std::marker::Model;

/// The way over one element: in by one of its ports, out by another.
#[derive(Clone, Copy, Debug)]
pub(crate) struct Passage {
    /// The port by which it is entered.
    pub(crate) entered: Port,
    /// The port by which it is left.
    pub(crate) left: Port,
}

impl Model for Passage {
    ghost use Rattle.control_table.specs.Path as path;

    ghost Value = { path.Passage };

    ghost view = { λ g. record { entered = g.entered; left = g.left } };

    ghost inverse = { λ g. record { entered = g.entered; left = g.left } };
}

/// Whether a train can pass from one port to another: both are of one element, and through a point
/// one of them is the tip.
#[tactic(auto, unfolding(crate::specs::inside::TableTests::may_pass))]
fn may_pass(entered: Port, left: Port) -> bool
    ensures { result ≡ may_pass entered left }
{
    is_element(entered.element, left.element)
        && !is_end(entered.end, left.end)
        && (!matches!(entered.element, Element::Point(_))
            || is_end(entered.end, End::Tip)
            || is_end(left.end, End::Tip))
}

/// The passage over the element behind a port, out by another, if there is one.
#[tactic(auto, unfolding(crate::specs::inside::TableTests::passage_behind))]
fn passage_behind(joints: &[Joint], before: Port, left: Port) -> Option<Passage>
    ensures { result ≡ passage_behind joints.now before left }
{
    match joined_to(joints, before) {
        Some(entered) if may_pass(entered, left) => Some(Passage { entered, left }),
        _ => None,
    }
}

/// The passages of a path, from the port at which it begins, or `PathBroken`.
pub(crate) fn passages(
    alloc: Global,
    place: &FaultyRoute,
    joints: &[Joint],
    start: Port,
    path: &[Port],
) -> Result<Vec<Passage>, TableFault>
    ensures { Gives (λ v. v.items) result (passages place.now joints.now start path.now) }
{
    let mut passages = Vec::new(alloc);
    let mut before = start;
    for left in path {
        match passage_behind(joints, before, *left) {
            Some(passage) => passages.push(passage)?,
            None => return Err(TableFault::PathBroken(*place)),
        }
        before = *left;
    }
    Ok(passages)
}
