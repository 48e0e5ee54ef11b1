//! A writer whose text stands in parts.

ghost use Rattle.std.specs.Prelude.{◌≡◌, ◌==◌, ◌≤◌, ◌&&◌, false, take, IfOk, IfSome, OnErr, OnOk, length};
ghost use Rattle.std.specs.Option.{option_map};
ghost use Rattle.std.specs.Io.{WritesAtMost};
ghost use Rattle.std.specs.Io.KnownBytes.{WriteAppends};
ghost use Rattle.run_files.specs.Parts.{ends_line, nothing, ready, written};
ghost use Rattle.run_files.specs.Written.{text_of};

use crate::line_ends::ends_line;
use crate::part_files::PartFiles;
use crate::piece::piece;
use std::io;
use std::io::Write;
use std::marker::Model;

/// A writer whose text stands in parts. A part ends with the first line at whose end it has `size` bytes or more. The next one is
/// begun with the next byte, so that none is empty but the first before anything is written.
#[derive(Drop)]
pub struct InParts<P: PartFiles> {
    files: P,
    size: u64,
    /// How many bytes the last part lacks of its size.
    missing: u64,
    /// Whether the last part is full.
    full: bool,
}

impl<P: PartFiles> Model for InParts<P> {
    ghost use Rattle.run_files.specs.Written.{IsKept, Writer};

    ghost Value = { Writer };

    ghost view = { λ w. record { size = w.size; missing = w.missing; full = w.full; parts = P.parts w.files } };

    ghost invariant = { λ w. IsKept w.size w.missing w.full (P.parts w.files) };
}

impl<P: PartFiles> InParts<P> {
    /// A writer of parts of this size. Nothing may be written yet.
    pub fn new(files: P, size: u64) -> InParts<P>
        requires { IfSome (P.parts files) (λ parts. parts ≡ nothing) }
        ensures { result ≡ record { size = size; missing = size; full = false; parts = P.parts files } }
    {
        InParts {
            files,
            size,
            missing: size,
            full: false,
        }
    }

    /// Where the last part is full, the next one begins.
    fn begin_next(&mut self) -> io::Result<()>
        ensures parts { OnOk result (self.new.parts ≡ option_map (ready self.old.size) self.old.parts) }
        ensures room { OnOk result (self.new.full ≡ false) }
        ensures size { self.new.size ≡ self.old.size }
        ensures none { OnErr result (self.new ≡ self.old) }
    {
        if !self.full {
            return Ok(());
        }
        self.files.begin()?;
        self.missing = self.size;
        self.full = false;
        Ok(())
    }

    /// Writes bytes to the last part, which isn't full: at most up to the line feed with which it is.
    fn append(&mut self, bytes: &[u8]) -> io::Result<usize>
        requires { self.old.full ≡ false }
        ensures bound { WritesAtMost result bytes.now }
        ensures parts { IfOk result (λ taken. self.new.parts ≡ option_map (written self.old.size (take taken bytes.now)) self.old.parts) }
        ensures some { IfOk result (λ taken. 1 ≤ taken) }
        ensures size { self.new.size ≡ self.old.size }
        ensures none { OnErr result (self.new ≡ self.old) }
    {
        let (front, _) = bytes.split_at(piece(self.missing, bytes));
        let taken = self.files.append(front)?;
        if taken == 0 {
            return Err(io::Error::from(io::ErrorKind::WriteZero));
        }
        let (written, _) = front.split_at(taken);
        self.missing = self.missing.saturating_sub(taken as u64);
        self.full = is_full(self.missing, written);
        Ok(taken)
    }
}

/// Whether a part is full that lacks so many bytes, and ends with these.
fn is_full(missing: u64, bytes: &[u8]) -> bool
    ensures { result ≡ (ends_line bytes.now && (missing == 0)) }
{
    ends_line(bytes) && missing == 0
}

impl<P: PartFiles> Write for InParts<P> {
    ghost contents = { λ writer. text_of writer.parts };

    fn write(&mut self, bytes: &[u8]) -> io::Result<usize>
        ensures bound { WritesAtMost result bytes.now }
        ensures bytes { WriteAppends (text_of self.old.parts) (text_of self.new.parts) result bytes.now }
        ensures parts { IfOk result (λ taken. self.new.parts ≡ option_map (written self.old.size (take taken bytes.now)) self.old.parts) }
        ensures size { self.new.size ≡ self.old.size }
    {
        if bytes.is_empty() {
            return Ok(0);
        }
        self.begin_next()?;
        self.append(bytes)
    }

    fn flush(&mut self) -> io::Result<()> {
        self.files.flush()
    }
}
