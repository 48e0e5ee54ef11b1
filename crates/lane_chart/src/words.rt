//! What is seen of a lane, in words.

ghost use Rattle.std.specs.Prelude.{◌≡◌};
ghost use Rattle.lane_chart.specs.Faces.{progress_text, readiness_text, state_text};

use crate::lane::{Progress, Readiness, Seen};
use control_table::layout::Route;
use control_table::{Position, RouteId, Side};
use std::alloc::{AllocError, Global};

/// The word of a route's state, by which a style knows it.
fn progress_word(progress: Progress) -> &'static str
    ensures { result.now ≡ progress_text progress }
{
    match progress {
        Progress::Free => "free",
        Progress::Waiting => "set",
        Progress::Proceeding => "authority",
        Progress::Withdrawn => "withdrawn",
        Progress::Ended(_) => "ended",
    }
}

/// The word of a link's state, by which a style knows it.
fn readiness_word(readiness: Readiness) -> &'static str
    ensures { result.now ≡ readiness_text readiness }
{
    match readiness {
        Readiness::Down => "down",
        Readiness::Up => "up",
        Readiness::Ready => "ready",
    }
}

/// The word by which a style knows what is seen.
pub(crate) fn state_word(seen: Seen) -> &'static str
    ensures { result.now ≡ state_text seen }
{
    match seen {
        Seen::Aspect(Some(aspect)) => aspect.word(),
        Seen::Authority(Some(_)) => "held",
        // A point lies at no end while it moves: a style draws that, and none where nothing is known.
        Seen::Position(Some(Position::NoEndPosition)) => "moving",
        Seen::Position(Some(position)) => position.word(),
        Seen::Drive(Some(Side::Left)) => "driven-left",
        Seen::Drive(Some(Side::Right)) => "driven-right",
        Seen::Section(Some(occupancy)) => occupancy.word(),
        Seen::Route(Some(progress)) => progress_word(progress),
        Seen::Link(readiness) => readiness_word(readiness),
        _ => "none",
    }
}

/// The name of a route, or nothing where it is lacking.
fn route_name(routes: &[Route], route: RouteId) -> &str {
    match routes.get(route.0) {
        Some(entry) => entry.name().as_str(),
        None => "",
    }
}

/// The states that a line alone tells.
const TOLD_BY_LINE: &[&str] = &[
    "none",
    "stop",
    "clear",
    "free",
    "ready",
    "driven-left",
    "driven-right",
];

/// The word that is written for what is seen: none where its line alone tells it.
fn written_word(seen: Seen) -> &'static str {
    let word = state_word(seen);
    if TOLD_BY_LINE.contains(&word) {
        ""
    } else {
        word
    }
}

/// What is written into a span, if it is wide enough.
pub(crate) fn label(alloc: Global, routes: &[Route], seen: Seen) -> Result<String, AllocError> {
    match seen {
        Seen::Authority(Some(route)) => String::from_str(alloc, route_name(routes, route)),
        Seen::Route(Some(Progress::Ended(freed))) => format!(in alloc; "freed {freed}"),
        _ => String::from_str(alloc, written_word(seen)),
    }
}
