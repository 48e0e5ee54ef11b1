//! What a desk has outside: the file that is drawn, whoever judges a text, and ports.

use crate::own_text::OwnText;
use std::alloc::{AllocError, Global};
use std::io;

/// What is said of a text: the status with which its check ends, what it prints, and what it tells of a fault.
#[derive(Drop)]
pub struct Verdict {
    pub status: u8,
    pub out: OwnText,
    pub err: OwnText,
}

/// What a desk has outside.
pub trait Outside {
    ghost use Rattle.std.specs.Prelude.{◌≡◌, ℕ, List, Option, IfOk, is_ok};
    ghost use Rattle.draw_desk.specs.Calls.{Call, Reads, Writes, found_of, recorded};
    ghost use Rattle.draw_desk.specs.declared.outside.Verdict.{Verdict as Judgement};

    /// The calls by which the file was read and written, where they are told.
    ghost calls: { Self → Option (List Call) };

    /// Whether a verdict is one of a text.
    ghost judges: { List ℕ → Judgement → Type 0 };

    /// Judges a text.
    fn judge(&self, alloc: Global, text: &str) -> Result<Verdict, AllocError>
        ensures { IfOk result (λ verdict. judges text.now verdict) };

    /// The text of the file, if the file is there.
    fn read(&mut self) -> io::Result<Option<OwnText>>
        ensures { calls self.new ≡ recorded (Reads (found_of result)) (calls self.old) };

    /// Puts a text in the place of the file, whole.
    fn write(&mut self, text: &str) -> io::Result<()>
        ensures { calls self.new ≡ recorded (Writes text.now (is_ok result)) (calls self.old) };

    /// Opens a port for a panel, and keeps it until it is taken.
    fn open_port(&mut self) -> io::Result<u16>
        ensures { calls self.new ≡ calls self.old };
}
