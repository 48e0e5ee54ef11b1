//! What becomes of a datagram.

ghost use Rattle.std.specs.Prelude.{◌≡◌, IfSome};
ghost use Rattle.ixl_state.specs.rasta_core.Outbox.{HasRoomFor};
ghost use Rattle.ixl_state.specs.rasta_pdu.PduRead.{reading};
ghost use Rattle.ixl_state.specs.First.{key_of};
ghost use Rattle.ixl_state.specs.ixl_spec.Step.{Datagram, given, verdict_of};
ghost use Rattle.ixl_state.specs.State.{AllAt, Goes};
ghost use Rattle.ixl.specs.inside.Judged.{IsClocked, MayJudge};

use ixl_state::ixl_known::Node;
use ixl_state::{Key, Millis, Outbox, State, Verdict, sender_of};
use rasta_pdu::{read, the_sender_is_told};

/// The controller that a datagram names as its sender, if its link may judge bytes that weren't read: a link at its limit of
/// PDUs closes with the next call, so it is called for what can be read alone.
fn judge_of(state: &State, datagram: &[u8]) -> Option<Node>
    ensures { IfSome result (MayJudge datagram.now state.now) }
{
    let node = state.field().node_of(sender_of(datagram))?;
    if state.field().client_at(node).link().is_at_limit() {
        return None;
    }
    Some(node)
}

/// A datagram is read, and goes to the link whose partner it names as its sender.
fn read_and_hear(
    state: &mut State,
    now: Millis,
    key: &Key,
    datagram: &[u8],
    outbox: &mut Outbox,
) -> Verdict
    requires clock { AllAt now state.old }
    requires room { HasRoomFor 56 outbox.old }
    ensures goes { Goes now 30 (given now state.old.sited.table key.now (Datagram datagram.now)) state.old outbox.old state.new outbox.new }
    ensures verdict { result ≡ verdict_of now datagram.now (reading key.now datagram.now) state.old.ixl }
{
    match read(key, datagram) {
        Ok(pdu) => state.hear_from(now, pdu.sender, datagram, outbox),
        Err(fault) => Verdict::Unreadable(fault),
    }
}

/// A datagram has come: it goes to the link whose partner it names as its sender, and this link reads it. So it is read here
/// only where no link may judge it.
pub(crate) fn hear(
    state: &mut State,
    now: Millis,
    key: &Key,
    datagram: &[u8],
    outbox: &mut Outbox,
) -> Verdict
    requires clock { AllAt now state.old }
    requires clocked { IsClocked now state.old.ixl }
    requires under { key.now ≡ key_of state.old.sited.site }
    requires room { HasRoomFor 56 outbox.old }
    ensures goes { Goes now 30 (given now state.old.sited.table key.now (Datagram datagram.now)) state.old outbox.old state.new outbox.new }
    ensures verdict { result ≡ verdict_of now datagram.now (reading key.now datagram.now) state.old.ixl }
{
    the_sender_is_told();
    state.keeps_its_key();
    match judge_of(state, datagram) {
        Some(node) => state.hear_at(now, node, datagram, outbox),
        None => read_and_hear(state, now, key, datagram, outbox),
    }
}
