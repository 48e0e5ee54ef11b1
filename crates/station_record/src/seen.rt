//! What is seen of each lane in a world.

ghost use Rattle.std.specs.Prelude.{◌≡◌};
ghost use Rattle.replay.specs.World.{played};
ghost use Rattle.replay.specs.simulator_spec.Interlocking.{held_of};
ghost use Rattle.station_record.specs.Seen.{aspect_at, held_for, occupancy_at, position_at, progress_at, progress_of, seen_at};
ghost use Rattle.replay.specs.simulator_spec.Tried.{driven};

use crate::links::{detector_link, point_link, signal_link};
use control_table::{Aspect, Occupancy, PointId, Position, RouteId, SectionId, Side, SignalId};
use lane_chart::{Kind, Lane, Progress, Seen};
use replay::{Held, Phase, World};

/// What a signal shows.
fn aspect_at(world: &World, place: usize) -> Option<Aspect>
    ensures { result ≡ aspect_at (played world.now) place }
{
    if place < world.table().layout().signals().len() {
        Some(world.shown(SignalId(place)))
    } else {
        None
    }
}

/// The route of the first pair that is held for a signal.
fn held_for(held: &[Held], place: usize) -> Option<RouteId>
    ensures { result ≡ held_for place held.now }
{
    let pair = held.iter().find(|pair| pair.signal.0 == place)?;
    Some(pair.route)
}

/// Where a point stands.
fn position_at(world: &World, place: usize) -> Option<Position>
    ensures { result ≡ position_at (played world.now) place }
{
    if place < world.table().layout().points().len() {
        Some(world.position(PointId(place)))
    } else {
        None
    }
}

/// The side to which a point is driven.
fn driven_at(world: &World, place: usize) -> Option<Side>
    ensures { result ≡ driven (played world.now) (record { 0 = place }) }
{
    if place < world.table().layout().points().len() {
        world.driven(PointId(place))
    } else {
        None
    }
}

/// Whether a section is occupied.
fn occupancy_at(world: &World, place: usize) -> Option<Occupancy>
    ensures { result ≡ occupancy_at (played world.now) place }
{
    if place < world.table().layout().sections().len() {
        Some(world.occupancy(SectionId(place)))
    } else {
        None
    }
}

/// How far a route is, by its phase.
fn progress_of(phase: Phase) -> Progress
    ensures { result ≡ progress_of phase }
{
    match phase {
        Phase::Free => Progress::Free,
        Phase::Waiting => Progress::Waiting,
        Phase::Proceeding => Progress::Proceeding,
        Phase::Withdrawn => Progress::Withdrawn,
        Phase::Ended { clock: _, freed } => Progress::Ended(freed),
    }
}

/// How far a route is.
#[tactic(auto, using(crate::proofs::Ready::progress_there, crate::proofs::Ready::progress_lacking))]
fn progress_at(world: &World, place: usize) -> Option<Progress>
    ensures { result ≡ progress_at (played world.now) place }
{
    let state = world.interlocking();
    if place >= state.table().rows().len() {
        return None;
    }
    let route = state.route(place);
    Some(progress_of(route.phase()))
}

/// What is seen of a lane, where these pairs of signal and route are held.
pub(crate) fn seen_at(world: &World, held: &[Held], lane: Lane) -> Seen
    requires held { held.now ≡ held_of world.now.sited.table world.now.run.interlocking world.now.run.frozen }
    ensures { result ≡ seen_at (played world.now) lane }
{
    let Lane { kind, place } = lane;
    match kind {
        Kind::Aspect => Seen::Aspect(aspect_at(world, place)),
        Kind::Authority => Seen::Authority(held_for(held, place)),
        Kind::Position => Seen::Position(position_at(world, place)),
        Kind::Drive => Seen::Drive(driven_at(world, place)),
        Kind::Section => Seen::Section(occupancy_at(world, place)),
        Kind::Route => Seen::Route(progress_at(world, place)),
        Kind::SignalLink => Seen::Link(signal_link(world, place)),
        Kind::PointLink => Seen::Link(point_link(world, place)),
        Kind::DetectorLink => Seen::Link(detector_link(world, place)),
    }
}
