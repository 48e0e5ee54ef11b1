//! What a record says that came to a node, and whether the node does what it says.

ghost use Rattle.std.specs.Prelude.{◌≡◌};

use crate::entry::{Entry, entry_line};
use crate::record_lines::RecordLines;
use node_drive::{
    Arrived, BrokenOff, Fault, Layout, Lines, Network, NextDatagram, NextLine, NodeId, Origin,
    Outside, ThrownAway, ToKeep, decimal, hexadecimal_or_none, node_named,
};
use std::alloc::{AllocError, Global};

/// A record that is gone through once more: what came to the node is taken from it, and what the node does is compared with it.
pub struct Replayed<'a> {
    alloc: Global,
    layout: &'a Layout,
    lines: RecordLines<'a>,
    /// What the clock read last.
    latest: u64,
    /// Whether memory was there for each comparison.
    is_whole: bool,
}

// Written by hand, so that it is proved and compiled here alone.
impl Drop for Replayed<'_> {
    fn drop(self) {
        let Self {
            alloc: _,
            layout: _,
            lines: _,
            latest: _,
            is_whole: _,
        } = self;
    }
}

impl<'a> Replayed<'a> {
    /// What stands after the first line of a record.
    pub fn new(alloc: Global, layout: &'a Layout, lines: Lines<'a>) -> Replayed<'a> {
        let mut lines = RecordLines {
            lines,
            next: None,
            number: None,
        };
        lines.pass();
        Replayed {
            alloc,
            layout,
            lines,
            latest: 0,
            is_whole: true,
        }
    }

    /// The number of the first line that differs, if one does: one of which the node does something else, or one that is left.
    pub fn difference(&self) -> Option<u64> {
        self.lines.number
    }

    /// Whether memory was there for each comparison.
    pub fn is_whole(&self) -> bool {
        self.is_whole
    }

    /// Whether the next line is that of this call; it is gone through then.
    fn is_next(&mut self, entry: Entry<'_>) -> bool
        ensures { self.new.latest ≡ self.old.latest }
    {
        let Ok(line) = entry_line(self.alloc, self.layout, entry) else {
            self.is_whole = false;
            return false;
        };
        let next = self.lines.next;
        let is_next = matches!(next, Some(next) if next == line.as_str());
        if is_next {
            self.lines.pass();
        }
        is_next
    }

    /// The node does this.
    fn does(&mut self, entry: Entry<'_>)
        ensures { self.new.latest ≡ self.old.latest }
    {
        if !self.is_next(entry) {
            self.lines.next = None;
        }
    }
}

/// A datagram as a line has it, after its first word.
fn arrived(layout: &Layout, rest: &str) -> Option<Arrived> {
    let Some((word, rest)) = rest.split_once(' ') else {
        return None;
    };
    let (over, bytes) = over_said(rest);
    let Ok(bytes) = hexadecimal_or_none(bytes) else {
        return None;
    };
    let from = node_named(layout, word).ok();
    Some(Arrived {
        origin: Origin { from, over },
        bytes,
    })
}

/// The network over which a datagram came, as a line has it before the bytes, and what stands after it.
fn over_said(rest: &str) -> (Network, &str) {
    if let Some(bytes) = rest.strip_prefix("over 1 ") {
        return (Network::First, bytes);
    }
    match rest.strip_prefix("over 2 ") {
        Some(bytes) => (Network::Second, bytes),
        None => (Network::Alone, rest),
    }
}

/// What was thrown away, as a line has it after its first words.
fn thrown_said(rest: &str) -> Result<ThrownAway, Fault> {
    let Some(all) = rest.strip_prefix("all ") else {
        let count = decimal(rest)?;
        return Ok(ThrownAway {
            count,
            found_empty: false,
        });
    };
    let count = decimal(all)?;
    Ok(ThrownAway {
        count,
        found_empty: true,
    })
}

impl<'a> Outside for Replayed<'a> {
    ghost use Rattle.std.specs.Prelude.{None};

    ghost told = { λ replayed. record { calls = None; latest = replayed.latest } };

    fn rest(&mut self) {}

    fn read_clock(&mut self) -> u64 {
        let reading = match self.lines.rest("at ") {
            Some(reading) => decimal(reading).ok(),
            None => None,
        };
        match reading {
            Some(reading) if reading >= self.latest => {
                self.latest = reading;
                self.lines.pass();
            }
            _ => self.lines.next = None,
        }
        self.latest
    }

    fn has_listener(&mut self) -> bool {
        self.is_next(Entry::Listens)
    }

    /// After its last line a record has no more of what came, so the process ends there.
    fn next_line(&mut self, alloc: Global) -> Result<NextLine, AllocError> {
        if self.lines.next.is_none() || self.is_next(Entry::Closed) {
            return Ok(NextLine::Closed);
        }
        match self.lines.behind("hears ") {
            Some(text) => Ok(NextLine::Text(String::from_str(alloc, text)?)),
            None => Ok(NextLine::Nothing),
        }
    }

    fn next_datagram(&mut self) -> NextDatagram {
        if let Some(rest) = self.lines.behind("from ") {
            return match arrived(self.layout, rest) {
                Some(arrived) => NextDatagram::Came(arrived),
                None => NextDatagram::Failed,
            };
        }
        if self.is_next(Entry::FailsToReceive) {
            return NextDatagram::Failed;
        }
        NextDatagram::Empty
    }

    fn throw_away(&mut self) -> ThrownAway {
        let thrown = match self.lines.rest("throws away ") {
            Some(rest) => thrown_said(rest).ok(),
            None => None,
        };
        let Some(thrown) = thrown else {
            self.lines.next = None;
            return ThrownAway {
                count: 0,
                found_empty: false,
            };
        };
        self.lines.pass();
        thrown
    }

    fn write_line(&mut self, text: &str) -> Result<(), BrokenOff> {
        if self.is_next(Entry::BreaksOff(text)) {
            return Err(BrokenOff);
        }
        self.does(Entry::Writes(text));
        Ok(())
    }

    fn send(&mut self, to: NodeId, bytes: &[u8]) {
        self.does(Entry::Sends(to, bytes));
    }

    fn complain(&mut self, line: u64, fault: Fault) {
        self.does(Entry::Complains(line, fault));
    }

    fn keep(&mut self, all: ToKeep) -> bool {
        if self.is_next(Entry::Keeps(&all, false)) {
            return false;
        }
        self.does(Entry::Keeps(&all, true));
        true
    }
}
