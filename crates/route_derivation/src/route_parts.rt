//! What a route writes that leads along a way.

ghost use Rattle.std.specs.Prelude.{◌≡◌, IfOk, map};
ghost use Rattle.std.specs.List.{filter_map};
ghost use Rattle.route_derivation.specs.inside.WaySearch.{used, flank_at};
ghost use Rattle.route_derivation.specs.inside.RouteParts.{is_over, on_path, off_path, points_of, flank_of, path_of};

use crate::passage::Passage;
use crate::sides::{flank_at, used};
use control_table::layout::{Layout, PointId, Port};
use control_table::sci_telegram::Side;
use std::alloc::{AllocError, Global};

/// Whether a passage leads over a point.
fn is_over(passage: &Passage, point: PointId) -> bool
    ensures { result ≡ is_over point (used passage.now) }
{
    match used(passage) {
        Some((passed, _)) => passed.0 == point.0,
        None => false,
    }
}

/// Whether passages lead over a point.
#[tactic(auto, unfolding(crate::specs::inside::RouteParts::on_path))]
fn on_path(path: &[Passage], point: PointId) -> bool
    ensures { result ≡ on_path path.now point }
{
    path.iter().any(|passage| is_over(passage, point))
}

/// A need of which the point lies off a path.
fn off_path(path: &[Passage], need: Option<(PointId, Side)>) -> Option<(PointId, Side)>
    ensures { result ≡ off_path path.now need }
{
    match need {
        Some((point, side)) if !on_path(path, point) => Some((point, side)),
        _ => None,
    }
}

/// The ports by which passages leave their elements.
#[tactic(auto, unfolding(crate::specs::inside::RouteParts::path_of))]
pub(crate) fn path_of(alloc: Global, passages: &[Passage]) -> Result<Vec<Port>, AllocError>
    ensures { IfOk result (λ v. v.items ≡ path_of passages.now) }
{
    passages.iter().map(|passage| passage.left).collect(alloc)
}

/// The points over which passages lead, each with its side, in their order.
#[tactic(auto, unfolding(crate::specs::inside::RouteParts::points_of))]
pub(crate) fn points_of(
    alloc: Global,
    passages: &[Passage],
) -> Result<Vec<(PointId, Side)>, AllocError>
    ensures { IfOk result (λ v. v.items ≡ points_of passages.now) }
{
    passages
        .iter()
        .filter_map(|passage| used(passage))
        .collect(alloc)
}

/// The points off a path that guard its unused legs, each with its side, in the order of the path.
#[tactic(auto, unfolding(crate::specs::inside::RouteParts::flank_of))]
pub(crate) fn flank_of(
    alloc: Global,
    layout: &Layout,
    passages: &[Passage],
) -> Result<Vec<(PointId, Side)>, AllocError>
    ensures { IfOk result (λ v. v.items ≡ flank_of layout.now passages.now) }
{
    passages
        .iter()
        .filter_map(|passage| off_path(passages, flank_at(layout, passage)))
        .collect(alloc)
}
