//! The lines of a record that is gone through.

use node_drive::Lines;

/// The lines of a record that is gone through, up to the first that differs.
#[derive(Drop)]
pub(crate) struct RecordLines<'a> {
    pub(crate) lines: Lines<'a>,
    /// The next line, if there is one, and none differed.
    pub(crate) next: Option<&'a str>,
    /// Its number, or that of the first line that differs.
    pub(crate) number: Option<u64>,
}

impl<'a> RecordLines<'a> {
    /// The next line was gone through.
    pub(crate) fn pass(&mut self) {
        match self.lines.next() {
            Some((number, line)) => {
                self.number = Some(number);
                self.next = Some(line);
            }
            None => {
                self.number = None;
                self.next = None;
            }
        }
    }

    /// What stands after these words in the next line, which is gone through.
    pub(crate) fn behind(&mut self, words: &str) -> Option<&'a str> {
        let rest = self.rest(words);
        if rest.is_some() {
            self.pass();
        }
        rest
    }

    /// What stands after these words in the next line.
    pub(crate) fn rest(&self, words: &str) -> Option<&'a str> {
        match self.next {
            Some(line) => line.strip_prefix(words),
            None => None,
        }
    }
}
