//! Why the list of runs isn't carried out to its end.

use crate::restarts::fault::Fault;
use std::alloc::{AllocError, AllocFailed};
use std::io;

/// Why the list of runs isn't carried out to its end.
#[derive(Clone, Copy)]
pub(crate) enum Failure {
    /// A line of the list, or the beginning of a case, isn't of a known form.
    Words,
    /// A file can't be read.
    File,
    /// A part of a text that is to be changed doesn't stand there.
    Change,
    /// A layout isn't sound, where a run needs one that is.
    Layout,
    /// A node isn't made anew in all runs of a list.
    Restarts(Fault),
    OutOfMemory,
    /// An answer can't be written.
    NotWritten,
}

impl Failure {
    /// What is told of it.
    pub(crate) fn text(self) -> &'static str {
        match self {
            Failure::Words => "error: a line of the list or of a case has no known form",
            Failure::File => "error: a file cannot be read",
            Failure::Change => "error: there is nothing to change",
            Failure::Layout => "error: a layout is not sound",
            Failure::Restarts(fault) => fault.text(),
            Failure::OutOfMemory => "out of memory",
            Failure::NotWritten => "error: an answer cannot be written",
        }
    }
}

impl From<AllocError> for Failure {
    fn from(_error: AllocError) -> Failure {
        Failure::OutOfMemory
    }
}

impl<T: Drop> From<AllocFailed<T>> for Failure {
    fn from(_error: AllocFailed<T>) -> Failure {
        Failure::OutOfMemory
    }
}

impl From<Fault> for Failure {
    fn from(fault: Fault) -> Failure {
        Failure::Restarts(fault)
    }
}

/// Only writing passes on an error of this kind: what can't be read is told by `read`.
impl From<io::Error> for Failure {
    fn from(_error: io::Error) -> Failure {
        Failure::NotWritten
    }
}
