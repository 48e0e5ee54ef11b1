//! What is seen of a station by the lines of its picture.

ghost use Rattle.std.specs.Prelude.{◌≡◌, IfErr, IfOk, option_copied};
ghost use Rattle.station_layout.specs.PlanText.{IsReadable};
ghost use Rattle.station_layout.specs.SeenByLines.{IsSeenBy, IsSeenIn, put, with_aspect, with_occupancy, with_position, with_set};
ghost use Rattle.station_layout.specs.inside.Drawn.{ExplainsSeen};

use crate::picture_text::read_sightings;
use crate::sighting::Sighting;
use control_table::{Checked, Layout};
use station_check::Failure;
use station_plan::Seen;
use std::alloc::{AllocError, Global};

/// What is seen by the lines of a picture, where one is given.
pub(crate) fn seen_in(
    alloc: Global,
    table: &Checked,
    picture: Option<&str>,
) -> Result<Option<Seen>, Failure>
    ensures given { IfOk result (λ _. IsReadable table.now (option_copied picture.entry)) }
    ensures seen { IfOk result (IsSeenIn table.now (option_copied picture.entry)) }
    ensures fault { IfErr result (ExplainsSeen table.now (option_copied picture.entry)) }
{
    let Some(text) = picture else {
        return Ok(None);
    };
    let sightings = match read_sightings(alloc, table, text) {
        Ok(sightings) => sightings,
        Err(fault) => return Err(Failure::Picture(fault)),
    };
    let seen = seen_by(alloc, table.layout(), &sightings)?;
    Ok(Some(seen))
}

/// What is seen by these lines: of each thing what the last line of it says, and nothing of a thing without a line.
fn seen_by(alloc: Global, layout: &Layout, sightings: &[Sighting]) -> Result<Seen, AllocError>
    ensures { IfOk result (IsSeenBy layout.now sightings.now) }
{
    let mut seen = Seen {
        aspects: vec![in alloc; None; layout.signals().len()]?,
        positions: vec![in alloc; None; layout.points().len()]?,
        occupancies: vec![in alloc; None; layout.sections().len()]?,
        set: vec![in alloc; false; layout.routes().len()]?,
    };
    for sighting in sightings {
        take(&mut seen, *sighting);
    }
    Ok(seen)
}

/// Takes what a line says.
#[tactic(auto, unfolding(crate::specs::SeenByLines::with_aspect, crate::specs::SeenByLines::with_position, crate::specs::SeenByLines::with_occupancy, crate::specs::SeenByLines::with_set))]
fn take(seen: &mut Seen, sighting: Sighting)
    ensures aspects { seen.new.aspects.items ≡ with_aspect seen.old.aspects.items sighting }
    ensures positions { seen.new.positions.items ≡ with_position seen.old.positions.items sighting }
    ensures occupancies { seen.new.occupancies.items ≡ with_occupancy seen.old.occupancies.items sighting }
    ensures set { seen.new.set.items ≡ with_set seen.old.set.items sighting }
{
    match sighting {
        Sighting::Signal(signal, aspect) => put(&mut seen.aspects, signal.0, Some(aspect)),
        Sighting::Point(point, position) => put(&mut seen.positions, point.0, Some(position)),
        Sighting::Section(section, occupancy) => {
            put(&mut seen.occupancies, section.0, Some(occupancy));
        }
        Sighting::Route(route, is_set) => put(&mut seen.set, route.0, is_set),
        Sighting::Other => {}
    }
}

/// Puts a value at a place, if the list has it.
#[tactic(auto, unfolding(crate::specs::SeenByLines::put))]
fn put<T: Copy>(list: &mut Vec<T>, place: usize, value: T)
    ensures { list.new.items ≡ put list.old.items place value }
{
    if place < list.len() {
        list[place] = value;
    }
}
