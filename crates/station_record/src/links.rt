//! How far the interlocking's links are.

ghost use Rattle.std.specs.Prelude.{◌≡◌};
ghost use Rattle.station_record.specs.Links.{detector_link, is_detector_ready, point_link, link_of, signal_link};

use lane_chart::Readiness;
use replay::World;

/// How far a link is that is up or not, and ready or not.
fn link_of(is_up: bool, is_ready: bool) -> Readiness
    ensures { result ≡ link_of is_up is_ready }
{
    if is_ready {
        return Readiness::Ready;
    }
    if is_up {
        Readiness::Up
    } else {
        Readiness::Down
    }
}

/// How far the link to a signal is.
pub(crate) fn signal_link(world: &World, place: usize) -> Readiness
    ensures { result ≡ signal_link world.now.run.interlocking.ixl place }
{
    let field = world.interlocking().field();
    let is_up = field.is_signal_up(place);
    link_of(is_up, field.is_signal_ready(place))
}

/// How far the link to a point is.
pub(crate) fn point_link(world: &World, place: usize) -> Readiness
    ensures { result ≡ point_link world.now.run.interlocking.ixl place }
{
    let field = world.interlocking().field();
    let is_up = field.is_point_up(place);
    link_of(is_up, field.is_point_ready(place))
}

/// Whether the link to a detector is ready.
#[tactic(auto, using(crate::proofs::Ready::passes_there, crate::proofs::Ready::passes_past))]
fn detector_is_ready(world: &World, place: usize) -> bool
    ensures { result ≡ is_detector_ready world.now.run.interlocking.ixl place }
{
    let field = world.interlocking().field();
    if place < field.detectors() {
        field.is_detector_ready(place)
    } else {
        false
    }
}

/// How far the link to a detector is.
pub(crate) fn detector_link(world: &World, place: usize) -> Readiness
    ensures { result ≡ detector_link world.now.run.interlocking.ixl place }
{
    let is_up = world.interlocking().field().is_detector_up(place);
    link_of(is_up, detector_is_ready(world, place))
}
