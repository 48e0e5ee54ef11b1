//! A step: the clock, the input, what is seen, the six rules, and on a tick each link's.

ghost use Rattle.std.specs.Prelude.{◌≡◌, ◌+◌};
ghost use Rattle.ixl_state.specs.rasta_core.Outbox.{HasRoomFor};
ghost use Rattle.ixl_state.specs.ixl_spec.Step.{given, reply, stepped, ticked};
ghost use Rattle.ixl_state.specs.First.{key_of};
ghost use Rattle.ixl_state.specs.State.{AllAt, Goes, MayStepAll};
ghost use Rattle.ixl.specs.Interlocking.{meant, told};
ghost use Rattle.ixl.specs.inside.Judged.{IsClocked};
ghost use Rattle.ixl.specs.inside.Parts.{answer_in};

use crate::apply_rules;
use crate::approaches_seen::watch;
use crate::commands::command;
use crate::datagrams_heard::hear;
use crate::input::{Input, Reply};
use ixl_state::{Key, Millis, Outbox, State};

/// What the step is made for.
fn give(state: &mut State, now: Millis, key: &Key, input: &Input, outbox: &mut Outbox) -> Reply
    requires clock { AllAt now state.old }
    requires clocked { IsClocked now state.old.ixl }
    requires under { key.now ≡ key_of state.old.sited.site }
    requires room { HasRoomFor 56 outbox.old }
    ensures goes { Goes now 30 (given now state.old.sited.table key.now (meant input.now)) state.old outbox.old state.new outbox.new }
    ensures answer { told result ≡ answer_in now state.old.sited.table key.now (meant input.now) state.old.ixl }
{
    match input {
        Input::Tick => Reply::Ticked,
        Input::Datagram(datagram) => Reply::Received(hear(state, now, key, datagram, outbox)),
        Input::Command(wanted) => match command(state, now, *wanted, outbox) {
            Some(refusal) => Reply::Refused(refusal),
            None => Reply::Accepted,
        },
    }
}

/// A tick is each link's too.
fn tick(state: &mut State, now: Millis, input: &Input, outbox: &mut Outbox)
    requires clock { AllAt now state.old }
    requires room { HasRoomFor (24 + 160) outbox.old }
    ensures { Goes now 160 (ticked now (meant input.now)) state.old outbox.old state.new outbox.new }
{
    match input {
        Input::Tick => state.tick(now, outbox),
        _ => {}
    }
}

/// A step at a clock reading that hasn't fallen.
pub(crate) fn step(
    state: &mut State,
    now: Millis,
    key: &Key,
    input: &Input,
    outbox: &mut Outbox,
) -> Reply
    requires clock { MayStepAll now state.old }
    requires under { key.now ≡ key_of state.old.sited.site }
    requires room { HasRoomFor (30 + 4352 + 160 + 24) outbox.old }
    ensures goes { Goes now (30 + 4352 + 160) (stepped now state.old.sited.table key.now (meant input.now)) state.old outbox.old state.new outbox.new }
    ensures answer { told result ≡ reply now state.old.sited.table key.now (meant input.now) state.old.ixl }
{
    state.settle(now);
    let reply = give(state, now, key, input, outbox);
    watch(state, now);
    apply_rules(state, now, outbox);
    tick(state, now, input, outbox);
    reply
}
