//! The replay of a session.

ghost use Rattle.std.specs.Prelude.{◌≡◌, ◌↔◌, IsTrue, IfOk, OnOk, List};
ghost use Rattle.replay_lines.specs.Replay.{Judges};

use crate::recorded;
use crate::session::Entry;
use simulator_event::{Answer, Refused, Station};
use std::alloc::AllocError;

/// Whether a replay answers as it was recorded.
#[derive(Clone, Copy, Debug, PartialEq, Eq)]
pub enum Replayed {
    /// Each event answers as it was recorded.
    Same,
    /// The event of this line, counted from 1, is the first that doesn't.
    Differs { line: u64 },
}

/// Applies the events of a session, until one answers otherwise than it was recorded. Want of memory is
/// told instead where it is lacking.
pub fn replay<S: Station>(station: &mut S, entries: &[Entry]) -> Result<Replayed, AllocError>
    ensures { IfOk result (Judges S.does (S.state station.old) entries.now) }
{
    for (place, entry) in entries.iter().enumerate() {
        if !agrees(station, entry)? {
            let line = place as u64 + 1;
            return Ok(Replayed::Differs { line });
        }
    }
    Ok(Replayed::Same)
}

/// Applies the event of an entry, and tells whether it answers as it was recorded. One that can't happen leaves the station as
/// it is.
pub fn agrees<S: Station>(station: &mut S, entry: &Entry) -> Result<bool, AllocError>
    ensures same { IfOk result (λ same. IsTrue same ↔ (S.does.answer (S.state station.old) entry.now.event ≡ entry.now.answer)) }
    ensures happens { OnOk result (S.state station.new ≡ S.does.after (S.state station.old) entry.now.event) }
{
    let answer = recorded(station.apply(&entry.event));
    if let Err(Refused::OutOfMemory) = answer {
        return Err(AllocError);
    }
    Ok(is_same(&answer, &entry.answer))
}

fn is_same(one: &Result<Answer, Refused>, other: &Result<Answer, Refused>) -> bool
    ensures { IsTrue result ↔ (one.now ≡ other.now) }
{
    one == other
}
