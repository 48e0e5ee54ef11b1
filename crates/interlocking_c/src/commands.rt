//! What an operator wants.

ghost use Rattle.std.specs.Prelude.{◌≡◌, ◌≢◌, Some};
ghost use Rattle.embedded_ixl.specs.Calls.{Obeys, after_call, answer_to};
ghost use Rattle.embedded_ixl.specs.Embedded.{EmbeddedIxlState, cause_in, reply_to};
ghost use Rattle.embedded_ixl.specs.ixl_state.ixl_spec.Step.{Commands};
ghost use Rattle.embedded_ixl.specs.ixl_state.ixl_spec.declared.command.Command.{Command as Wanted};
ghost use Rattle.embedded_ixl.specs.ixl_state.ixl_spec.declared.command.Command.TheVariants.{Resume};
ghost use Rattle.interlocking_c.specs.Answers.{after_command, answer_in, answer_to_command, number_of};
ghost use Rattle.interlocking_c.specs.Causes.{cancel, cause_told, release, request, to_close, to_move, to_open};
ghost use Rattle.interlocking_c.specs.Kept.{held_after, held_interlocking};

use crate::answers::{NOT_STARTED, OK, VALUE, number_of};
use crate::cause::{CauseTold, cause_told};
use crate::handle::Handle;
use crate::held::Held;
use crate::things::{named_of, side_of};
use embedded_ixl::{Command, PointId, RouteId};

impl Held {
    fn obey(&mut self, now: u64, command: Command, cause: &mut CauseTold) -> u32
        ensures answer { result ≡ number_of (answer_to (Obeys now command) self.old.embedded) }
        ensures does { self.new.embedded ≡ after_call (Obeys now command) self.old.embedded }
        ensures cause { result ≡ 0 → cause.new ≡ cause_told (cause_in (reply_to now (Commands command) self.old.embedded)) }
        ensures same { result ≢ 0 → cause.new ≡ cause.old }
    {
        match self.embedded.command(now, command) {
            Ok(why) => {
                *cause = cause_told(why);
                OK
            }
            Err(refusal) => number_of(Err(refusal)),
        }
    }
}

/// The operator wants this, and then the clock was read.
fn obey(handle: &mut Handle, now: u64, command: Command, cause: &mut CauseTold) -> u32
    ensures answer { result ≡ answer_in (Obeys now command) (held_interlocking handle.old.held) }
    ensures does { handle.new.held ≡ held_after (after_call (Obeys now command)) handle.old.held }
    ensures cause { result ≡ 0 → (it : EmbeddedIxlState) → held_interlocking handle.old.held ≡ Some it → cause.new ≡ cause_told (cause_in (reply_to now (Commands command) it)) }
    ensures same { result ≢ 0 → cause.new ≡ cause.old }
{
    if !handle.is_started() {
        return NOT_STARTED;
    }
    handle.get().obey(now, command, cause)
}

/// The operator wants this, if the numbers that tell it are those of something, and then the clock was read.
fn obey_if(handle: &mut Handle, now: u64, command: Option<Command>, cause: &mut CauseTold) -> u32
    ensures answer { result ≡ answer_to_command now command (held_interlocking handle.old.held) }
    ensures does { handle.new.held ≡ held_after (after_command now command) handle.old.held }
    ensures cause { result ≡ 0 → (it : EmbeddedIxlState) (wanted : Wanted) → held_interlocking handle.old.held ≡ Some it → command ≡ Some wanted → cause.new ≡ cause_told (cause_in (reply_to now (Commands wanted) it)) }
    ensures same { result ≢ 0 → cause.new ≡ cause.old }
{
    if !handle.is_started() {
        return NOT_STARTED;
    }
    match command {
        Some(command) => handle.get().obey(now, command, cause),
        None => VALUE,
    }
}

/// The operator wants a route to be set, and then the clock was read. Where the call is accepted, `cause` tells why the interlocking
/// refuses it, if it does.
#[unsafe(no_mangle)]
pub extern "C" fn zendurai_interlocking_request(
    handle: &mut Handle,
    now: u64,
    route: usize,
    cause: &mut CauseTold,
) -> u32
    ensures answer { result ≡ answer_in (Obeys now (request route)) (held_interlocking handle.old.held) }
    ensures does { handle.new.held ≡ held_after (after_call (Obeys now (request route))) handle.old.held }
    ensures cause { result ≡ 0 → (it : EmbeddedIxlState) → held_interlocking handle.old.held ≡ Some it → cause.new ≡ cause_told (cause_in (reply_to now (Commands (request route)) it)) }
    ensures same { result ≢ 0 → cause.new ≡ cause.old }
{
    obey(handle, now, Command::Request(RouteId(route)), cause)
}

/// The operator wants a route to be cancelled, and then the clock was read. Where the call is accepted, `cause` tells why the
/// interlocking refuses it, if it does.
#[unsafe(no_mangle)]
pub extern "C" fn zendurai_interlocking_cancel(
    handle: &mut Handle,
    now: u64,
    route: usize,
    cause: &mut CauseTold,
) -> u32
    ensures answer { result ≡ answer_in (Obeys now (cancel route)) (held_interlocking handle.old.held) }
    ensures does { handle.new.held ≡ held_after (after_call (Obeys now (cancel route))) handle.old.held }
    ensures cause { result ≡ 0 → (it : EmbeddedIxlState) → held_interlocking handle.old.held ≡ Some it → cause.new ≡ cause_told (cause_in (reply_to now (Commands (cancel route)) it)) }
    ensures same { result ≢ 0 → cause.new ≡ cause.old }
{
    obey(handle, now, Command::Cancel(RouteId(route)), cause)
}

/// The operator wants requests to be taken from now on, and then the clock was read. Where the call is accepted, `cause` tells why the
/// interlocking refuses it, if it does.
#[unsafe(no_mangle)]
pub extern "C" fn zendurai_interlocking_resume(
    handle: &mut Handle,
    now: u64,
    cause: &mut CauseTold,
) -> u32
    ensures answer { result ≡ answer_in (Obeys now Resume) (held_interlocking handle.old.held) }
    ensures does { handle.new.held ≡ held_after (after_call (Obeys now Resume)) handle.old.held }
    ensures cause { result ≡ 0 → (it : EmbeddedIxlState) → held_interlocking handle.old.held ≡ Some it → cause.new ≡ cause_told (cause_in (reply_to now (Commands Resume) it)) }
    ensures same { result ≢ 0 → cause.new ≡ cause.old }
{
    obey(handle, now, Command::Resume, cause)
}

/// The operator wants a route that has ended its authority to be freed 120000 ms later, and then the clock was read. Where the call is
/// accepted, `cause` tells why the interlocking refuses it, if it does.
#[unsafe(no_mangle)]
pub extern "C" fn zendurai_interlocking_release(
    handle: &mut Handle,
    now: u64,
    route: usize,
    cause: &mut CauseTold,
) -> u32
    ensures answer { result ≡ answer_in (Obeys now (release route)) (held_interlocking handle.old.held) }
    ensures does { handle.new.held ≡ held_after (after_call (Obeys now (release route))) handle.old.held }
    ensures cause { result ≡ 0 → (it : EmbeddedIxlState) → held_interlocking handle.old.held ≡ Some it → cause.new ≡ cause_told (cause_in (reply_to now (Commands (release route)) it)) }
    ensures same { result ≢ 0 → cause.new ≡ cause.old }
{
    obey(handle, now, Command::Release(RouteId(route)), cause)
}

/// The operator wants a point to be moved to a side, 1 left or 2 right, and then the clock was read. Where the call is accepted, `cause`
/// tells why the interlocking refuses it, if it does.
#[unsafe(no_mangle)]
pub extern "C" fn zendurai_interlocking_move(
    handle: &mut Handle,
    now: u64,
    point: usize,
    side: u32,
    cause: &mut CauseTold,
) -> u32
    ensures answer { result ≡ answer_to_command now (to_move point side) (held_interlocking handle.old.held) }
    ensures does { handle.new.held ≡ held_after (after_command now (to_move point side)) handle.old.held }
    ensures cause { result ≡ 0 → (it : EmbeddedIxlState) (wanted : Wanted) → held_interlocking handle.old.held ≡ Some it → to_move point side ≡ Some wanted → cause.new ≡ cause_told (cause_in (reply_to now (Commands wanted) it)) }
    ensures same { result ≢ 0 → cause.new ≡ cause.old }
{
    let command = match side_of(side) {
        Some(side) => Some(Command::Move(PointId(point), side)),
        None => None,
    };
    obey_if(handle, now, command, cause)
}

/// The operator wants a signal, 0, a point, 1, a section, 2, or a route, 3, to be closed, and then the clock was read. A point is closed
/// at a side, 1 left or 2 right, or at both, 0. Where the call is accepted, `cause` tells why the interlocking refuses it, if it does.
#[unsafe(no_mangle)]
pub extern "C" fn zendurai_interlocking_close(
    handle: &mut Handle,
    now: u64,
    kind: u32,
    place: usize,
    side: u32,
    cause: &mut CauseTold,
) -> u32
    ensures answer { result ≡ answer_to_command now (to_close kind place side) (held_interlocking handle.old.held) }
    ensures does { handle.new.held ≡ held_after (after_command now (to_close kind place side)) handle.old.held }
    ensures cause { result ≡ 0 → (it : EmbeddedIxlState) (wanted : Wanted) → held_interlocking handle.old.held ≡ Some it → to_close kind place side ≡ Some wanted → cause.new ≡ cause_told (cause_in (reply_to now (Commands wanted) it)) }
    ensures same { result ≢ 0 → cause.new ≡ cause.old }
{
    let command = match named_of(kind, place, side) {
        Some(named) => Some(Command::Close(named)),
        None => None,
    };
    obey_if(handle, now, command, cause)
}

/// The operator wants what `zendurai_interlocking_close` closes to be open, and then the clock was read. Where the call is accepted,
/// `cause` tells why the interlocking refuses it, if it does.
#[unsafe(no_mangle)]
pub extern "C" fn zendurai_interlocking_open(
    handle: &mut Handle,
    now: u64,
    kind: u32,
    place: usize,
    side: u32,
    cause: &mut CauseTold,
) -> u32
    ensures answer { result ≡ answer_to_command now (to_open kind place side) (held_interlocking handle.old.held) }
    ensures does { handle.new.held ≡ held_after (after_command now (to_open kind place side)) handle.old.held }
    ensures cause { result ≡ 0 → (it : EmbeddedIxlState) (wanted : Wanted) → held_interlocking handle.old.held ≡ Some it → to_open kind place side ≡ Some wanted → cause.new ≡ cause_told (cause_in (reply_to now (Commands wanted) it)) }
    ensures same { result ≢ 0 → cause.new ≡ cause.old }
{
    let command = match named_of(kind, place, side) {
        Some(named) => Some(Command::Open(named)),
        None => None,
    };
    obey_if(handle, now, command, cause)
}
