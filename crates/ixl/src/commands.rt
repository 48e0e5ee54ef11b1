//! What a command does.

ghost use Rattle.std.specs.Prelude.{◌≡◌, None};
ghost use Rattle.ixl_state.specs.rasta_core.Outbox.{HasRoomFor};
ghost use Rattle.ixl_state.specs.ixl_spec.Commands.{moved_at_once, obeyed, refusal};
ghost use Rattle.ixl_state.specs.ixl_spec.Step.{Commands, given};
ghost use Rattle.ixl_state.specs.rasta_pdu.declared.key.Key.{Key};
ghost use Rattle.ixl_state.specs.State.{AllAt, Goes};

use crate::refusals::refusal;
use ixl_state::{Command, Millis, Outbox, Refusal, State};

/// A command that isn't refused is obeyed. A move changes nothing by itself: it is given to its point.
fn obey(state: &mut State, now: Millis, command: Command)
    requires { refusal now state.old.sited.table command state.old.ixl ≡ None }
    ensures { state.new ≡ record state.old { ixl = obeyed now command state.old.ixl } }
{
    state.keeps_each_route();
    match command {
        Command::Request(route) => state.set(route.0),
        Command::Cancel(route) => state.cancel(route.0),
        Command::Resume => state.resume(),
        Command::Release(route) => state.release(route.0, now),
        Command::Move(_, _) => {}
        Command::Close(named) => state.close_named(named),
        Command::Open(named) => state.open_named(named),
    }
}

/// A move that isn't refused is given at once.
fn move_at_once(state: &mut State, now: Millis, command: Command, outbox: &mut Outbox)
    requires clock { AllAt now state.old }
    requires room { HasRoomFor 26 outbox.old }
    ensures { Goes now 2 (moved_at_once now None command) state.old outbox.old state.new outbox.new }
{
    if let Command::Move(point, side) = command {
        state.give_move(now, point.0, side, outbox);
    }
}

/// A command of the operator: it is obeyed, or refused and changes nothing.
pub(crate) fn command(
    state: &mut State,
    now: Millis,
    command: Command,
    outbox: &mut Outbox,
) -> Option<Refusal>
    requires clock { AllAt now state.old }
    requires room { HasRoomFor 26 outbox.old }
    ensures goes { (key : Key) → Goes now 2 (given now state.old.sited.table key (Commands command)) state.old outbox.old state.new outbox.new }
    ensures refusal { result ≡ refusal now state.old.sited.table command state.old.ixl }
{
    match refusal(state, now, command) {
        Some(cause) => Some(cause),
        None => {
            obey(state, now, command);
            move_at_once(state, now, command, outbox);
            None
        }
    }
}
