//! What is shown now, and what was last noted.

ghost use Rattle.std.specs.Prelude.{◌≡◌, ◌<◌, IfOk, OnErr, OnOk, Some, length, string_bytes};
ghost use Rattle.serde_json.specs.Read.{read};
ghost use Rattle.panel_desk.specs.Lines.{blank, noted_at, numbered, told};
ghost use Rattle.panel_desk.specs.State.{state};

use crate::json::state_text;
use crate::noted::{Noted, show_at};
use std::alloc::{AllocError, Global};
use std::marker::Model;

/// The most lines of a log that are kept: the last ones.
const LOG: usize = 256;

/// The lines that are shown, each at its place, and the last lines of a log. A number counts how often all of them were told
/// anew: a page that says up to which number it knows them gets those that are newer.
pub struct Board {
    number: u64,
    shown: Vec<Noted>,
    log: Vec<Noted>,
}

// Written by hand, so that it is proved and compiled here alone.
impl Drop for Board {
    fn drop(self) {
        let Self {
            number: _,
            shown: _,
            log: _,
        } = self;
    }
}

impl Model for Board {
    ghost use Rattle.panel_desk.specs.Lines.{BoardView};

    ghost Value = { BoardView };

    ghost view = { λ b. record { number = b.number; shown = b.shown.items; log = b.log.items } };
}

impl Board {
    /// A board with so many places, at none of which anything was told.
    pub fn new(alloc: Global, places: usize) -> Result<Board, AllocError>
        ensures { IfOk result (λ board. board ≡ blank places) }
    {
        let mut shown = Vec::new(alloc);
        for _ in 0..places {
            shown.push(Noted::at(alloc, 0, "")?)?;
        }
        Ok(Board {
            number: 0,
            shown,
            log: Vec::new(alloc),
        })
    }

    /// What follows is told at the next number.
    pub fn count(&mut self)
        ensures { self.new ≡ numbered self.old }
    {
        self.number = self.number.saturating_add(1);
    }

    /// Shows a line at a place. It keeps its number where the line stood there already.
    pub fn show(&mut self, alloc: Global, place: usize, line: &str) -> Result<(), AllocError>
        requires { place < length self.old.shown }
        ensures done { OnOk result (self.new ≡ told place line.now self.old) }
        ensures failed { OnErr result (self.new ≡ self.old) }
    {
        show_at(alloc, self.number, &mut self.shown, place, line)
    }

    /// Notes a line after the others of the log, which loses its first where there are too many.
    pub fn note(&mut self, alloc: Global, line: &str) -> Result<(), AllocError>
        ensures done { OnOk result (self.new ≡ noted_at line.now self.old) }
        ensures failed { OnErr result (self.new ≡ self.old) }
    {
        let last = Noted::at(alloc, self.number, line)?;
        self.log.reserve(1)?;
        if self.log.len() >= LOG {
            self.log.remove(0);
        }
        let _ = self.log.push(last);
        Ok(())
    }

    /// How many places there are.
    pub fn places(&self) -> usize
        ensures { result ≡ length self.now.shown }
    {
        self.shown.len()
    }

    /// What a page lacks that knows all that was told up to a number, as JSON.
    pub fn state(&self, alloc: Global, after: u64) -> Result<String, AllocError>
        ensures { IfOk result (λ text. read (string_bytes text) ≡ Some (state after self.now)) }
    {
        state_text(alloc, after, self.number, &self.shown, &self.log)
    }
}
