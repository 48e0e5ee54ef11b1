//! Scripts.

ghost use Rattle.std.specs.Prelude.{◌≡◌, [], ◌∷◌, ◌++◌, IfOk, IfErr, Ok, ℕ};
ghost use Rattle.simulator_event.specs.declared.event.Event.{Event as Happening};
ghost use Rattle.replay_lines.specs.Given.{Fails};
ghost use Rattle.replay_lines.specs.Text.{Tells};
ghost use Rattle.replay_lines.specs.Script.{script, timed, timed_line};

use crate::{SessionFault, read_script_event};
use ixl_spec::{Checked, Layout};
use replay_words::{Fault, Lines, Words, both, decimal};
use simulator_event::Event;
use std::alloc::Global;

/// The events of a script with their times in milliseconds, which never fall, or where its first faulty
/// line is. Fault 7 comes only where memory was refused, at the line that was being read.
pub fn read_script(
    alloc: Global,
    table: &Checked,
    text: &str,
) -> Result<Vec<(u64, Event)>, SessionFault>
    ensures { Tells (λ events. events.items) (script table.now text.now) result }
{
    let mut latest = 0;
    let mut events = Vec::new(alloc);
    for (number, line) in Lines::of(text) {
        match keep_event(table, line, latest, &mut events) {
            Ok(time) => latest = time,
            Err(fault) => {
                return Err(SessionFault {
                    line: number,
                    number: fault.number(),
                });
            }
        }
    }
    Ok(events)
}

// Keeps the event of one line after those before it, of which the last has the time `latest`, and tells its
// time.
fn keep_event(
    table: &Checked,
    line: &str,
    latest: u64,
    events: &mut Vec<(u64, Event)>,
) -> Result<u64, Fault>
    ensures ok { IfOk result (λ time. (this : ℕ × Happening) × (timed_line table.now latest line.now ≡ Ok this) × (time ≡ this.0) × (events.new.items ≡ events.old.items ++ this ∷ [])) }
    ensures err { IfErr result (λ fault. Fails fault (timed_line table.now latest line.now)) }
{
    let (time, event) = timed_line(table.layout(), line, latest)?;
    events.push((time, event))?;
    Ok(time)
}

// What a line of a script says after one of the time `latest`.
fn timed_line(layout: &Layout, line: &str, latest: u64) -> Result<(u64, Event), Fault>
    ensures { result ≡ timed_line layout.now latest line.now }
{
    let (time, event) = timed(layout, Words::of(line))?;
    if time < latest {
        return Err(Fault::Order);
    }
    Ok((time, event))
}

// The time and the event that words say.
fn timed(layout: &Layout, words: Words<'_>) -> Result<(u64, Event), Fault>
    ensures { result ≡ timed layout.now words.entry }
{
    let mut words = words;
    let (Some("at"), Some(time)) = (words.next(), words.next()) else {
        return Err(Fault::Words);
    };
    both(decimal(time), read_script_event(layout, words))
}
