//! What one line of a file for the simulation says.

ghost use Rattle.std.specs.Prelude.{◌≡◌};
ghost use Rattle.replay_lines.specs.Given.{Gives};
ghost use Rattle.replay_lines.specs.Line.{beginning, flow, happening, line, milliseconds, picture};

use crate::outset::{Begun, read_begun};
use crate::words::read_event;
use ixl_spec::{Layout, ROUND};
use replay_words::{Fault, Words, decimal};
use simulator_event::Event;
use std::alloc::Global;

// The bounds of a flow, in milliseconds.
const SHORTEST_FLOW: u64 = 10;

const LONGEST_FLOW: u64 = 600000;

/// What a line of a file for the simulation asks for.
#[derive(Debug)]
pub enum SimLine {
    /// How a point or a section lies when the station is started. Such lines stand before all others.
    Begins(Begun),
    /// One event.
    Event(Event),
    /// Rounds of 10 ms each, in which every datagram arrives and every driven point comes to lie; in
    /// milliseconds.
    Flow(u64),
    /// A print of the station as it is.
    Picture,
}

// Written by hand, so that it is proved and compiled here alone.
impl Drop for SimLine {
    fn drop(self) {
        match self {
            Self::Begins(_) => {}
            Self::Event(_) => {}
            Self::Flow(_) => {}
            Self::Picture => {}
        }
    }
}

/// What a line says, or the lowest fault of its words. Fault 7 comes only where memory was refused.
pub fn read_line(alloc: Global, layout: &Layout, text: &str) -> Result<SimLine, Fault>
    ensures { Gives (λ said. said) (line layout.now text.now) result }
{
    let mut words = Words::of(text);
    match words.next() {
        Some("begins") => beginning(layout, words),
        Some("flow") => flow(words),
        Some("picture") => picture(words),
        _ => happening(alloc, layout, Words::of(text)),
    }
}

fn beginning(layout: &Layout, words: Words<'_>) -> Result<SimLine, Fault>
    ensures { result ≡ beginning layout.now words.entry }
{
    Ok(SimLine::Begins(read_begun(layout, words)?))
}

fn flow(mut words: Words<'_>) -> Result<SimLine, Fault>
    ensures { result ≡ flow words.entry }
{
    let (Some(word), None) = (words.next(), words.next()) else {
        return Err(Fault::Words);
    };
    Ok(SimLine::Flow(milliseconds(word)?))
}

fn picture(mut words: Words<'_>) -> Result<SimLine, Fault>
    ensures { result ≡ picture words.entry }
{
    match words.next() {
        None => Ok(SimLine::Picture),
        Some(_) => Err(Fault::Words),
    }
}

fn happening(alloc: Global, layout: &Layout, words: Words<'_>) -> Result<SimLine, Fault>
    ensures { Gives (λ said. said) (happening layout.now words.entry) result }
{
    Ok(SimLine::Event(read_event(alloc, layout, words)?))
}

// The length of a flow: its rounds are 10 ms each.
fn milliseconds(word: &str) -> Result<u64, Fault>
    ensures { result ≡ milliseconds word.now }
{
    let length = decimal(word)?;
    if length < SHORTEST_FLOW || length > LONGEST_FLOW || length % ROUND != 0 {
        return Err(Fault::Number);
    }
    Ok(length)
}
