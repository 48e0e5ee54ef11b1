//! Lines from a reader that doesn't wait.

ghost use Rattle.std.specs.Prelude.{◌≡◌, [], ◌++◌, ℕ, List, IfOk, false, option_map, true};
ghost use Rattle.std.specs.Io.KnownBytes.{Consumes};
ghost use Rattle.node_drive.specs.declared.outside.NextLine.TheVariants.{Closed, Nothing};
ghost use Rattle.node_network.specs.Lines.{HandsOn, cut, nothing_waits};

use crate::line_buffer::{LineBuffer, LineBytes, PIECE};
use node_drive::NextLine;
use std::alloc::{AllocError, Global};
use std::io::{ErrorKind, Read};

/// Lines from a reader that answers `WouldBlock` where it would wait.
#[derive(Drop)]
pub(crate) struct LineInput<I> {
    pub(crate) input: I,
    pub(crate) buffer: LineBuffer,
    /// Whether nothing comes any more.
    pub(crate) ended: bool,
}

impl<I: Read> LineInput<I> {
    pub(crate) fn new(input: I) -> LineInput<I>
        ensures input { result.input ≡ input }
        ensures buffer { result.buffer ≡ nothing_waits }
        ensures open { result.ended ≡ false }
    {
        LineInput {
            input,
            buffer: LineBuffer::new(),
            ended: false,
        }
    }

    /// The next line, if there is one. It reads once at most. A beginning of a line at the end of the input is none. Where no memory
    /// is left for its text, a line is lost.
    pub(crate) fn next_line(&mut self, alloc: Global) -> Result<NextLine, AllocError>
        ensures handed { IfOk result (HandsOn (I.remaining self.old.input) (I.remaining self.new.input) self.old.buffer self.new.buffer) }
        ensures closed { IfOk result (λ answer. answer ≡ Closed → self.new.ended ≡ true) }
        ensures open { IfOk result (λ answer. answer ≡ Nothing → self.new.ended ≡ false) }
    {
        match self.take_line() {
            Some(line) => Ok(NextLine::Text(String::from_utf8_lossy(alloc, &line)?)),
            None if self.ended => Ok(NextLine::Closed),
            None => Ok(NextLine::Nothing),
        }
    }

    /// Takes the first line that is whole, perhaps once more bytes were read.
    fn take_line(&mut self) -> Option<LineBytes>
        ensures { (came : List ℕ) × Consumes (I.remaining self.old.input) (I.remaining self.new.input) came × (cut self.old.buffer.begun (self.old.buffer.behind ++ came) ≡ (option_map (λ line. line.items) result, self.new.buffer)) }
    {
        let line = self.buffer.cut();
        if line.is_some() {
            return line;
        }
        self.read_on();
        self.buffer.cut()
    }

    /// Reads once, if anything may come. Nothing is left of what was read before.
    fn read_on(&mut self)
        requires { self.old.buffer.behind ≡ [] }
        ensures { (came : List ℕ) × Consumes (I.remaining self.old.input) (I.remaining self.new.input) came × (self.new.buffer ≡ record self.old.buffer { behind = came }) }
    {
        if self.ended {
            return;
        }
        let mut bytes = [0u8; PIECE];
        match self.input.read(&mut bytes) {
            Ok(0) => self.ended = true,
            Ok(count) => {
                let (bytes, _) = bytes.as_slice().split_at(count);
                self.buffer.add(bytes);
            }
            // There was nothing to read, but may be later.
            Err(error) => {
                self.ended = !matches!(
                    error.kind(),
                    ErrorKind::WouldBlock | ErrorKind::Interrupted
                );
            }
        }
    }
}
