//! What the process of an interlocking has outside, with what it counts of that.

ghost use Rattle.std.specs.Prelude.{◌≡◌, IfOk};

use crate::resident::resident;
use node_kinds::Fault;
use node_kinds::node_drive::{
    BrokenOff, NextDatagram, NextLine, NodeId, Outside, ThrownAway, ToKeep,
};
use node_kinds::run_numbers::{NumberText, Numbers, PROCESS_ROWS, Row};
use std::alloc::{AllocError, Global};
use std::fs::Files;

/// The word by which an operator asks for the numbers.
const NUMBERS: &str = "numbers";

/// What the process of an interlocking has outside, of which it counts what is sent, what comes from strangers, what is thrown away,
/// and its rounds. An operator who asks for the numbers is told these first, and then those of the node. It tells no calls.
pub(crate) struct Numbered<'a, R, O> {
    rt: &'a R,
    outside: O,
    numbers: Numbers,
    /// Whether it waited for a round since its clock was read last.
    rested: bool,
}

// Written by hand, so that it is proved and compiled here alone.
impl<R, O: Drop> Drop for Numbered<'_, R, O> {
    fn drop(self) {
        let Self {
            rt: _,
            outside: _,
            numbers: _,
            rested: _,
        } = self;
    }
}

impl<'a, R: Files + AllocGlobal, O: Outside + Drop> Numbered<'a, R, O> {
    /// Nothing was counted yet.
    pub(crate) fn new(rt: &'a R, outside: O) -> Result<Numbered<'a, R, O>, AllocError>
        ensures { IfOk result (λ numbered. numbered.outside ≡ outside) }
    {
        Ok(Numbered {
            rt,
            outside,
            numbers: Numbers::none(rt.alloc())?,
            rested: false,
        })
    }
}

impl<'a, R: Files + AllocGlobal, O: Outside> Numbered<'a, R, O> {
    /// Tells the numbers that the process counts.
    fn tell(&mut self, alloc: Global) -> Result<(), AllocError>
        ensures { (O.told self.new.outside).latest ≡ (O.told self.old.outside).latest }
    {
        if let Some(bytes) = resident(self.rt) {
            self.numbers.put(Row::Memory, bytes);
        }
        self.tell_rows(alloc, &PROCESS_ROWS)
    }

    /// Tells these numbers.
    fn tell_rows(&mut self, alloc: Global, rows: &[Row]) -> Result<(), AllocError>
        ensures { (O.told self.new.outside).latest ≡ (O.told self.old.outside).latest }
    {
        for row in rows {
            self.tell_row(alloc, *row)?;
        }
        Ok(())
    }

    /// Tells a number. A line that can't be written isn't told.
    #[tactic(auto, using(crate::proofs::Silent::writing_reads_nothing))]
    fn tell_row(&mut self, alloc: Global, row: Row) -> Result<(), AllocError>
        ensures { (O.told self.new.outside).latest ≡ (O.told self.old.outside).latest }
    {
        let text = NumberText {
            row,
            value: self.numbers.value(row),
        };
        let line = format!(in alloc; "{text}")?;
        let _ = self.outside.write_line(line.as_str());
        Ok(())
    }
}

impl<'a, R: Files + AllocGlobal, O: Outside> Outside for Numbered<'a, R, O> {
    ghost use Rattle.std.specs.Prelude.{None};

    ghost told = { λ numbered. record { calls = None; latest = (O.told numbered.outside).latest } };

    #[tactic(auto, using(crate::proofs::Silent::silent))]
    fn rest(&mut self) {
        self.outside.rest();
        self.rested = true;
    }

    #[tactic(auto, using(crate::proofs::Silent::silent))]
    fn read_clock(&mut self) -> u64 {
        let reading = self.outside.read_clock();
        if self.rested {
            self.rested = false;
            self.numbers.begin(reading);
        }
        reading
    }

    #[tactic(auto, using(crate::proofs::Silent::silent))]
    fn has_listener(&mut self) -> bool {
        self.outside.has_listener()
    }

    #[tactic(auto, using(crate::proofs::Silent::silent, crate::proofs::Silent::silent_then))]
    fn next_line(&mut self, alloc: Global) -> Result<NextLine, AllocError> {
        let next = self.outside.next_line(alloc)?;
        if is_question(&next) {
            // Where memory is lacking for a line, those after it aren't told.
            let _ = self.tell(alloc);
        }
        Ok(next)
    }

    #[tactic(auto, using(crate::proofs::Silent::silent))]
    fn next_datagram(&mut self) -> NextDatagram {
        let next = self.outside.next_datagram();
        if is_strange(&next) {
            self.numbers.count(Row::Strangers);
        }
        next
    }

    #[tactic(auto, using(crate::proofs::Silent::silent))]
    fn throw_away(&mut self) -> ThrownAway {
        let thrown = self.outside.throw_away();
        // The one that wasn't heard, and those that waited after it.
        let before = self.numbers.value(Row::TooOld);
        let now = before.saturating_add(thrown.count).saturating_add(1);
        self.numbers.put(Row::TooOld, now);
        thrown
    }

    #[tactic(auto, using(crate::proofs::Silent::silent_done, crate::proofs::Silent::silent_failed))]
    fn write_line(&mut self, text: &str) -> Result<(), BrokenOff> {
        self.outside.write_line(text)
    }

    #[tactic(auto, using(crate::proofs::Silent::silent))]
    fn send(&mut self, to: NodeId, bytes: &[u8]) {
        self.outside.send(to, bytes);
        self.numbers.note_sent(bytes);
    }

    #[tactic(auto, using(crate::proofs::Silent::silent))]
    fn complain(&mut self, line: u64, fault: Fault) {
        self.outside.complain(line, fault);
    }

    #[tactic(auto, using(crate::proofs::Silent::silent))]
    fn keep(&mut self, all: ToKeep) -> bool {
        self.outside.keep(all)
    }
}

/// Whether a line asks for the numbers.
fn is_question(next: &NextLine) -> bool {
    match next {
        NextLine::Text(text) => text.as_str() == NUMBERS,
        NextLine::Nothing | NextLine::Closed => false,
    }
}

/// Whether a datagram came from the address of no node of the station.
fn is_strange(next: &NextDatagram) -> bool {
    match next {
        NextDatagram::Came(arrived) => arrived.origin.from.is_none(),
        NextDatagram::Empty | NextDatagram::Failed => false,
    }
}
