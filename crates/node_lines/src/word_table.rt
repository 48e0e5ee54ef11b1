//! The words for what a line tells.

ghost use Rattle.std.specs.Prelude.{◌≡◌};
ghost use Rattle.node_lines.specs.Known.{auxiliary_word, closing_word, known_occupancy_word, known_side_word, link_word, route_state_word};

use crate::operator_line::LinkState;
use closings::Auxiliary;
use replay_lines::ixl_spec::{Occupancy, Side};

pub(crate) fn link_word(state: LinkState) -> &'static str
    ensures { result.now ≡ link_word state }
{
    match state {
        LinkState::Ready => "ready",
        LinkState::Lost => "lost",
    }
}

pub(crate) fn known_occupancy_word(occupancy: Option<Occupancy>) -> &'static str
    ensures { result.now ≡ known_occupancy_word occupancy }
{
    match occupancy {
        Some(occupancy) => occupancy.word(),
        None => "unknown",
    }
}

pub(crate) fn known_side_word(side: Option<Side>) -> &'static str
    ensures { result.now ≡ known_side_word side }
{
    match side {
        Some(side) => side.word(),
        None => "unknown",
    }
}

pub(crate) fn route_state_word(is_set: bool) -> &'static str
    ensures { result.now ≡ route_state_word is_set }
{
    if is_set { "set" } else { "free" }
}

pub(crate) fn closing_word(is_closed: bool) -> &'static str
    ensures { result.now ≡ closing_word is_closed }
{
    if is_closed { "closed" } else { "open" }
}

pub(crate) fn auxiliary_word(command: Auxiliary) -> &'static str
    ensures { result.now ≡ auxiliary_word command }
{
    match command {
        Auxiliary::Release => "release",
        Auxiliary::Open => "open",
    }
}
