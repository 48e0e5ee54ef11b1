//! What a loop brings: datagrams, the clock, and that nothing came.

ghost use Rattle.std.specs.Prelude.{◌≡◌};
ghost use Rattle.embedded_ixl.specs.Calls.{FindsEmpty, Hears, Ticks, after_call, answer_to};
ghost use Rattle.interlocking_c.specs.Answers.{answer_in, number_of};
ghost use Rattle.interlocking_c.specs.Kept.{held_after, held_interlocking};

use crate::answers::{NOT_STARTED, number_of};
use crate::handle::Handle;
use crate::held::Held;

impl Held {
    fn hear(&mut self, now: u64, bytes: &[u8]) -> u32
        ensures answer { result ≡ number_of (answer_to (Hears now bytes.now) self.old.embedded) }
        ensures does { self.new.embedded ≡ after_call (Hears now bytes.now) self.old.embedded }
    {
        number_of(self.embedded.hear(now, bytes))
    }

    fn tick(&mut self, now: u64) -> u32
        ensures answer { result ≡ number_of (answer_to (Ticks now) self.old.embedded) }
        ensures does { self.new.embedded ≡ after_call (Ticks now) self.old.embedded }
    {
        number_of(self.embedded.tick(now))
    }

    fn empty(&mut self, before: u64) -> u32
        ensures answer { result ≡ number_of (answer_to (FindsEmpty before) self.old.embedded) }
        ensures does { self.new.embedded ≡ after_call (FindsEmpty before) self.old.embedded }
    {
        number_of(self.embedded.empty(before))
    }
}

/// Bytes came from a controller, and then the clock was read.
#[unsafe(no_mangle)]
pub extern "C" fn zendurai_interlocking_hear(handle: &mut Handle, now: u64, bytes: &[u8]) -> u32
    ensures answer { result ≡ answer_in (Hears now bytes.now) (held_interlocking handle.old.held) }
    ensures does { handle.new.held ≡ held_after (after_call (Hears now bytes.now)) handle.old.held }
{
    if !handle.is_started() {
        return NOT_STARTED;
    }
    handle.get().hear(now, bytes)
}

/// The clock goes on.
#[unsafe(no_mangle)]
pub extern "C" fn zendurai_interlocking_tick(handle: &mut Handle, now: u64) -> u32
    ensures answer { result ≡ answer_in (Ticks now) (held_interlocking handle.old.held) }
    ensures does { handle.new.held ≡ held_after (after_call (Ticks now)) handle.old.held }
{
    if !handle.is_started() {
        return NOT_STARTED;
    }
    handle.get().tick(now)
}

/// A receive found nothing; `before` was read before it.
#[unsafe(no_mangle)]
pub extern "C" fn zendurai_interlocking_empty(handle: &mut Handle, before: u64) -> u32
    ensures answer { result ≡ answer_in (FindsEmpty before) (held_interlocking handle.old.held) }
    ensures does { handle.new.held ≡ held_after (after_call (FindsEmpty before)) handle.old.held }
{
    if !handle.is_started() {
        return NOT_STARTED;
    }
    handle.get().empty(before)
}
