//! How a link stands, for a display.

ghost use Rattle.std.specs.Prelude.{◌≡◌};
ghost use Rattle.controllers_c.specs.Links.{link_number};

use rasta_core::State;

/// 0 in no connection, 1 while one opens, 2 in one.
pub(crate) fn link_number(state: State) -> u32
    ensures { result ≡ link_number state }
{
    match state {
        State::Down | State::Quiet => 0,
        State::Start => 1,
        State::Up | State::RetransmissionRequested | State::RetransmissionRunning => 2,
    }
}
