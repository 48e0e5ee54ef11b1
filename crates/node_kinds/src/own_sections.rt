//! The own sections of a detector, and what is kept of each.

ghost use Rattle.std.specs.Prelude.{◌≡◌, length, slice_set, IfOk};
ghost use Rattle.std.specs.List.{All, zip};
ghost use Rattle.simulator_spec.specs.layout.Station.{HasSection};
ghost use Rattle.node_kinds.specs.Made.{own_names};
ghost use Rattle.node_kinds.specs.Controllers.{own_place};

use simulator_spec::{Layout, Name, Occupancy, SectionId};
use std::alloc::{AllocError, Global};

/// The place of a section among a detector's own.
pub(crate) fn own_place(own: &[SectionId], section: SectionId) -> Option<usize>
    ensures { result ≡ own_place own.now section }
{
    own.iter().position(|one| one.0 == section.0)
}

/// What is kept of the section at this place is replaced, if there is one.
#[tactic(auto, using(std::proofs::lemmas::List::set_past))]
pub(crate) fn replace_at<Kept: Copy>(list: &mut [Kept], place: usize, one: Kept)
    ensures { list.new ≡ slice_set list.old place one }
{
    if place < list.len() {
        list[place] = one;
    }
}

/// The name of each section, and whether it is occupied, as far as that is known.
pub(crate) fn named(
    alloc: Global,
    layout: &Layout,
    own: &[SectionId],
    sensed: &[Occupancy],
) -> Result<Vec<(Name, Occupancy)>, AllocError>
    requires { All (HasSection layout.now) own.now }
    ensures { IfOk result (λ named. named.items ≡ zip (own_names layout.now own.now) sensed.now) }
{
    let mut named = Vec::new(alloc);
    for place in 0..own.len().min(sensed.len()) {
        let name = layout.sections()[own[place].0];
        named.push((name, sensed[place]))?;
    }
    Ok(named)
}
