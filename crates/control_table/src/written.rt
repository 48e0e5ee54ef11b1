//! What a route writes under `points` and `flank`, beside what it requires.

ghost use Rattle.std.specs.Prelude.{◌≡◌, ◌&&◌};
ghost use Rattle.control_table.specs.inside.TableTests.{used, names_point, is_over, on_path, is_named, points_written, points_right, flank_right, flank_written};

use crate::passage::Passage;
use crate::sides::{has_need, used};
use layout::{PointId, Route};
use sci_telegram::Side;

/// Whether a point stands in a list, at either side.
pub(crate) fn names_point(pairs: &[(PointId, Side)], point: PointId) -> bool
    ensures { result ≡ names_point pairs.now point }
{
    pairs.iter().any(|pair| pair.0.0 == point.0)
}

/// Whether a passage leads over a point.
fn is_over(passage: &Passage, point: PointId) -> bool
    ensures { result ≡ is_over point (used passage.now) }
{
    match used(passage) {
        Some((passed, _)) => passed.0 == point.0,
        None => false,
    }
}

/// Whether a path leads over a point.
#[tactic(auto, unfolding(crate::specs::inside::TableTests::on_path))]
fn on_path(path: &[Passage], point: PointId) -> bool
    ensures { result ≡ on_path path.now point }
{
    path.iter().any(|passage| is_over(passage, point))
}

/// Whether the point of a passage, if it has one, is written.
fn is_named(points: &[(PointId, Side)], passage: &Passage) -> bool
    ensures { result ≡ is_named points.now (used passage.now) }
{
    match used(passage) {
        Some((point, _)) => names_point(points, point),
        None => true,
    }
}

/// Whether each point of the path is written under `points`.
#[tactic(auto, unfolding(crate::specs::inside::TableTests::points_written))]
pub(crate) fn points_written(route: &Route, path: &[Passage]) -> bool
    ensures { result ≡ points_written route.now path.now }
{
    path.iter().all(|passage| is_named(route.points(), passage))
}

/// Whether each point under `points` is required so and on the path.
#[tactic(auto, unfolding(crate::specs::inside::TableTests::points_right))]
fn points_right(route: &Route, path: &[Passage], needs: &[(PointId, Side)]) -> bool
    ensures { result ≡ points_right route.now path.now needs.now }
{
    route.points().iter().all(|pair| has_need(needs, pair.0, pair.1) && on_path(path, pair.0))
}

/// Whether each point under `flank` is required so and off the path.
#[tactic(auto, unfolding(crate::specs::inside::TableTests::flank_right))]
fn flank_right(route: &Route, path: &[Passage], needs: &[(PointId, Side)]) -> bool
    ensures { result ≡ flank_right route.now path.now needs.now }
{
    route.flank().iter().all(|pair| has_need(needs, pair.0, pair.1) && !on_path(path, pair.0))
}

/// Whether all that is written is required, and stands where it belongs.
pub(crate) fn written_right(route: &Route, path: &[Passage], needs: &[(PointId, Side)]) -> bool
    ensures { result ≡ (points_right route.now path.now needs.now && flank_right route.now path.now needs.now) }
{
    points_right(route, path, needs) && flank_right(route, path, needs)
}

/// Whether each required point off the path is written under `flank`.
#[tactic(auto, unfolding(crate::specs::inside::TableTests::flank_written))]
pub(crate) fn flank_written(route: &Route, path: &[Passage], needs: &[(PointId, Side)]) -> bool
    ensures { result ≡ flank_written route.now path.now needs.now }
{
    needs.iter().all(|pair| on_path(path, pair.0) || names_point(route.flank(), pair.0))
}
