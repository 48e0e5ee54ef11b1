//! A node's process that is recorded.

ghost use Rattle.std.specs.Prelude.{◌≡◌};

use crate::entry::{Entry, entry_line};
use node_drive::{
    BrokenOff, Fault, Layout, NextDatagram, NextLine, NodeId, Outside, ThrownAway, ToKeep,
};
use std::alloc::{AllocError, Global};
use std::io::{Eprint, Write};

/// What a process has outside, where each call is written to a record as it was answered, if there is one. A record that can't be
/// written any more is told once, and the process goes on without it.
pub struct Recorded<'a, O, W, E> {
    alloc: Global,
    layout: &'a Layout,
    outside: O,
    /// The record, as long as it can be written.
    recorder: Option<W>,
    /// Where it is told that the record can't be written any more.
    complaints: &'a E,
}

// Written by hand, so that it is proved and compiled here alone.
impl<O: Drop, W: Drop, E> Drop for Recorded<'_, O, W, E> {
    fn drop(self) {
        let Self {
            alloc: _,
            layout: _,
            outside: _,
            recorder: _,
            complaints: _,
        } = self;
    }
}

impl<'a, O: Outside, W: Write + Drop, E: Eprint> Recorded<'a, O, W, E> {
    /// A process that begins, in a station of this layout.
    pub fn new(
        alloc: Global,
        layout: &'a Layout,
        outside: O,
        recorder: Option<W>,
        complaints: &'a E,
    ) -> Recorded<'a, O, W, E>
        ensures outside { result.outside ≡ outside }
        ensures recorder { result.recorder ≡ recorder }
    {
        Recorded {
            alloc,
            layout,
            outside,
            recorder,
            complaints,
        }
    }

    /// Writes a call to the record, as long as each before it was written.
    fn note(&mut self, entry: Entry<'_>)
        ensures { self.new.outside ≡ self.old.outside }
    {
        let Some(recorder) = &mut self.recorder else {
            return;
        };
        let is_written = match entry_line(self.alloc, self.layout, entry) {
            Ok(line) => recorder.writeln(line.as_str()).is_ok(),
            Err(_) => false,
        };
        if !is_written {
            self.recorder = None;
            // Where this fails it isn't told.
            let _ = self
                .complaints
                .eprintln("the record can't be written any more");
        }
    }
}

impl<'a, O: Outside, W: Write + Drop, E: Eprint> Outside for Recorded<'a, O, W, E> {
    ghost told = { λ recorded. O.told recorded.outside };

    fn rest(&mut self) {
        self.outside.rest();
    }

    fn read_clock(&mut self) -> u64 {
        let reading = self.outside.read_clock();
        self.note(Entry::Reads(reading));
        reading
    }

    fn has_listener(&mut self) -> bool {
        let began = self.outside.has_listener();
        if began {
            self.note(Entry::Listens);
        }
        began
    }

    fn next_line(&mut self, alloc: Global) -> Result<NextLine, AllocError> {
        let next = self.outside.next_line(alloc);
        match &next {
            Ok(NextLine::Text(text)) => self.note(Entry::Hears(text.as_str())),
            Ok(NextLine::Closed) => self.note(Entry::Closed),
            Ok(NextLine::Nothing) | Err(_) => (),
        }
        next
    }

    fn next_datagram(&mut self) -> NextDatagram {
        let next = self.outside.next_datagram();
        match &next {
            NextDatagram::Came(arrived) => {
                self.note(Entry::Comes(arrived.origin, arrived.bytes.as_slice()));
            }
            NextDatagram::Empty => (),
            NextDatagram::Failed => self.note(Entry::FailsToReceive),
        }
        next
    }

    fn throw_away(&mut self) -> ThrownAway {
        let thrown = self.outside.throw_away();
        self.note(Entry::ThrowsAway(thrown));
        thrown
    }

    fn write_line(&mut self, text: &str) -> Result<(), BrokenOff> {
        let written = self.outside.write_line(text);
        self.note(match written {
            Ok(()) => Entry::Writes(text),
            Err(_) => Entry::BreaksOff(text),
        });
        written
    }

    fn send(&mut self, to: NodeId, bytes: &[u8]) {
        self.outside.send(to, bytes);
        self.note(Entry::Sends(to, bytes));
    }

    fn complain(&mut self, line: u64, fault: Fault) {
        self.outside.complain(line, fault);
        self.note(Entry::Complains(line, fault));
    }

    fn keep(&mut self, all: ToKeep) -> bool {
        let kept = self.outside.keep(all);
        self.note(Entry::Keeps(&all, kept));
        kept
    }
}
