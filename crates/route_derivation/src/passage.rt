//! How a train passes from one port of an element to another.

ghost use Rattle.std.specs.Prelude.{◌≡◌};
ghost use Rattle.route_derivation.specs.inside.WaySearch.{out, first_end, second_end, first_out, second_out};

use control_table::layout::{Element, End, Port};
use std::marker::Model;

/// The way over one element: in by one of its ports, out by another.
#[derive(Clone, Copy)]
pub(crate) struct Passage {
    /// The port by which it is entered.
    pub(crate) entered: Port,
    /// The port by which it is left.
    pub(crate) left: Port,
}

impl Model for Passage {
    ghost use Rattle.control_table.specs.Path as path;

    ghost Value = { path.Passage };

    ghost view = { λ g. record { entered = g.entered; left = g.left } };

    ghost inverse = { λ g. record { entered = g.entered; left = g.left } };
}

/// The end by which a train leaves an element that it enters by another: at a point's tip the left leg.
fn first_end(entered: Port) -> Option<End>
    ensures { result ≡ first_end entered.element entered.end }
{
    match (entered.element, entered.end) {
        (Element::Track(_), End::A) => Some(End::B),
        (Element::Track(_), End::B) => Some(End::A),
        (Element::Point(_), End::Tip) => Some(End::Left),
        (Element::Point(_), End::Left | End::Right) => Some(End::Tip),
        _ => None,
    }
}

/// The other end by which a train may leave an element: at a point's tip the right leg.
fn second_end(entered: Port) -> Option<End>
    ensures { result ≡ second_end entered.element entered.end }
{
    match (entered.element, entered.end) {
        (Element::Point(_), End::Tip) => Some(End::Right),
        _ => None,
    }
}

/// The passage out by an end.
fn out(entered: Port, end: End) -> Passage
    ensures { result ≡ out entered end }
{
    let left = Port {
        element: entered.element,
        end,
    };
    Passage { entered, left }
}

/// The first passage over an element that is entered at a port: at a point's tip that to the left.
pub(crate) fn first_out(entered: Port) -> Option<Passage>
    ensures { result ≡ first_out entered }
{
    first_end(entered).map(|end| out(entered, end))
}

/// The second passage over an element that is entered at a port: at a point's tip that to the right.
pub(crate) fn second_out(entered: Port) -> Option<Passage>
    ensures { result ≡ second_out entered }
{
    second_end(entered).map(|end| out(entered, end))
}
