//! What was seen to change.

use std::alloc::{AllocError, Global};

/// What was seen to change in the field, or told to the operator.
#[derive(Drop)]
pub(crate) struct Seen {
    alloc: Global,
    /// In words, oldest first.
    text: String,
    /// How often the operator was told that a link became ready, and that one was lost.
    ready: u64,
    lost: u64,
    /// Whether something failed: what was seen counts for nothing then.
    has_failed: bool,
}

impl Seen {
    pub(crate) fn new(alloc: Global) -> Seen {
        Seen {
            alloc,
            text: String::new(alloc),
            ready: 0,
            lost: 0,
            has_failed: false,
        }
    }

    /// Something failed.
    pub(crate) fn fail(&mut self) {
        self.has_failed = true;
    }

    /// Something was done, unless memory was lacking.
    pub(crate) fn expect(&mut self, done: Result<(), AllocError>) {
        if done.is_err() {
            self.fail();
        }
    }

    /// A thing changed.
    pub(crate) fn note(&mut self, thing: &str, change: &str) {
        let added = self.add(thing, change);
        self.expect(added);
    }

    fn add(&mut self, thing: &str, change: &str) -> Result<(), AllocError> {
        let mark = if self.text.is_empty() { "" } else { ", " };
        let words = format!(in self.alloc; "{mark}{thing} {change}")?;
        self.text.push_str(words.as_str())
    }

    /// The operator is told a line.
    pub(crate) fn listen(&mut self, line: &str) {
        match line {
            "route R1 set" => self.note("R1", "set"),
            "route R1 free" => self.note("R1", "free"),
            _ => {}
        }
        self.ready = self
            .ready
            .saturating_add(u64::from(line.ends_with(" ready")));
        self.lost = self.lost.saturating_add(u64::from(line.ends_with(" lost")));
    }

    /// Whether nothing failed.
    pub(crate) fn is_whole(&self) -> bool {
        !self.has_failed
    }

    /// Whether nothing failed, and just this changed. Otherwise what did is told on standard error.
    pub(crate) fn is(&self, rt: &HostRuntime, wanted: &str) -> bool {
        let text = self.text.as_str();
        let is_wanted = self.is_whole() && text == wanted;
        if !is_wanted {
            // Where this can't be written, the verdict has to do.
            let _ = eprintln!(rt; "{text}");
        }
        is_wanted
    }

    /// Whether so many links became ready, and so many were lost.
    pub(crate) fn has_links(&self, ready: u64, lost: u64) -> bool {
        self.ready == ready && self.lost == lost
    }
}
