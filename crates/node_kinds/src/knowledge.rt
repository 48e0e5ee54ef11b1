//! All that an interlocking knows.

ghost use Rattle.std.specs.Prelude.{◌≡◌, ◌++◌, IfOk, OnOk};
ghost use Rattle.std.specs.List.{flat_map};
ghost use Rattle.node_kinds.specs.Interlockings.{all_known, all_of};

use crate::thing::Thing;
use crate::thing_known::{count, known_at};
use ixl::Interlocking;
use node_drive::node_lines::{AuxiliaryCounts, Known};
use simulator_spec::Millis;
use std::alloc::{AllocError, Global};

/// The kinds of things, in the order in which they are told.
const THINGS: [Thing; 16] = [
    Thing::SignalLink,
    Thing::PointLink,
    Thing::DetectorLink,
    Thing::Section,
    Thing::Point,
    Thing::Signal,
    Thing::Indication,
    Thing::Route,
    Thing::Release,
    Thing::SectionClosing,
    Thing::LeftClosing,
    Thing::RightClosing,
    Thing::SignalClosing,
    Thing::RouteClosing,
    Thing::Counter,
    Thing::Readiness,
];

/// Adds what is known of each thing of a kind.
fn add_each(
    all: &mut Vec<Option<Known>>,
    ixl: &Interlocking,
    counts: AuxiliaryCounts,
    now: Millis,
    thing: Thing,
) -> Result<(), AllocError>
    ensures { OnOk result (all.new.items ≡ all.old.items ++ all_of ixl.now.state.sited.site ixl.now.state.sited.table counts now ixl.now.state.ixl thing) }
{
    for place in 0..count(ixl, thing) {
        all.push(known_at(ixl, counts, now, thing, place))?;
    }
    Ok(())
}

/// Adds what is known of each thing of these kinds.
fn add_all(
    all: &mut Vec<Option<Known>>,
    ixl: &Interlocking,
    counts: AuxiliaryCounts,
    now: Millis,
    things: &[Thing],
) -> Result<(), AllocError>
    ensures { OnOk result (all.new.items ≡ all.old.items ++ flat_map (all_of ixl.now.state.sited.site ixl.now.state.sited.table counts now ixl.now.state.ixl) things.now) }
{
    for thing in things {
        add_each(all, ixl, counts, now, *thing)?;
    }
    Ok(())
}

/// What is known of each thing, in the order in which it is told.
pub(crate) fn all_known(
    alloc: Global,
    ixl: &Interlocking,
    counts: AuxiliaryCounts,
    now: Millis,
) -> Result<Vec<Option<Known>>, AllocError>
    ensures { IfOk result (λ all. all.items ≡ all_known ixl.now.state.sited.site ixl.now.state.sited.table counts now ixl.now.state.ixl) }
{
    let mut all = Vec::new(alloc);
    add_all(&mut all, ixl, counts, now, &THINGS)?;
    Ok(all)
}
