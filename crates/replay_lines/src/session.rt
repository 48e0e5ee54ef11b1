//! Recorded sessions.

ghost use Rattle.std.specs.Prelude.{◌≡◌, [], ◌∷◌, ◌++◌, OnOk, IfErr, Ok};
ghost use Rattle.replay_lines.specs.Given.{Fails, Gives};
ghost use Rattle.replay_lines.specs.Text.{Tells};
ghost use Rattle.replay_lines.specs.Session.{entry, session};

use crate::{SessionFault, read_answer, read_event};
use ixl_spec::{Checked, Layout};
use replay_words::{Fault, Lines, event_and_answer};
use simulator_event::{Answer, Event, Refused};
use std::alloc::Global;

/// A line of a session: an event, and what it answered when it was recorded.
#[derive(Debug)]
pub struct Entry {
    pub event: Event,
    pub answer: Result<Answer, Refused>,
}

// Written by hand, so that it is proved and compiled here alone.
impl Drop for Entry {
    fn drop(self) {
        let Self {
            event: _,
            answer: _,
        } = self;
    }
}

/// The entries of a session, one a line, or where its first faulty line is. Fault 7 comes only where memory
/// was refused, at the line that was being read.
pub fn read_session(alloc: Global, table: &Checked, text: &str) -> Result<Vec<Entry>, SessionFault>
    ensures { Tells (λ entries. entries.items) (session table.now text.now) result }
{
    let mut entries = Vec::new(alloc);
    for (number, line) in Lines::of(text) {
        let kept = keep_entry(alloc, table, line, &mut entries);
        if let Err(fault) = kept {
            return Err(SessionFault {
                line: number,
                number: fault.number(),
            });
        }
    }
    Ok(entries)
}

// Keeps the entry of one line after those before it.
fn keep_entry(
    alloc: Global,
    table: &Checked,
    line: &str,
    entries: &mut Vec<Entry>,
) -> Result<(), Fault>
    ensures ok { OnOk result ((this : Entry) × (entry table.now line.now ≡ Ok this) × (entries.new.items ≡ entries.old.items ++ this ∷ [])) }
    ensures err { IfErr result (λ fault. Fails fault (entry table.now line.now)) }
{
    let this = read_entry(alloc, table.layout(), line)?;
    entries.push(this)?;
    Ok(())
}

// What a line of a session says.
fn read_entry(alloc: Global, layout: &Layout, line: &str) -> Result<Entry, Fault>
    ensures { Gives (λ this. this) (entry layout.now line.now) result }
{
    let (of_event, of_answer) = event_and_answer(line)?;
    let event = read_event(alloc, layout, of_event)?;
    let answer = read_answer(layout, &event, of_answer)?;
    Ok(Entry { event, answer })
}
