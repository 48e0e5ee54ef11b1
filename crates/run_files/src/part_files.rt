//! Where the parts of a text are written.

ghost use Rattle.std.specs.Prelude.{◌≡◌, Option};
ghost use Rattle.std.specs.Io.{WritesAtMost};
ghost use Rattle.run_files.specs.Parts.{Parts};
ghost use Rattle.run_files.specs.Written.{Begins, Takes};

use std::io;

/// The parts of a text, one behind the other. Bytes go to the last one.
pub trait PartFiles {
    /// The parts, where they are told.
    ghost parts: { Self → Option Parts };

    /// An empty part stands behind the others from now on.
    fn begin(&mut self) -> io::Result<()>
        ensures { Begins (parts self.old) (parts self.new) result };

    /// Writes bytes to the last part, and answers how many were taken.
    fn append(&mut self, bytes: &[u8]) -> io::Result<usize>
        ensures bound { WritesAtMost result bytes.now }
        ensures bytes { Takes (parts self.old) (parts self.new) result bytes.now };

    /// What was written is handed on.
    fn flush(&mut self) -> io::Result<()>
        ensures { parts self.new ≡ parts self.old };
}
