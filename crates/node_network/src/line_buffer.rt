//! Bytes that came, of which lines are cut.

ghost use Rattle.std.specs.Prelude.{◌≡◌, ◌≤◌, ◌∷◌, [], MatchOption, length, option_map};
ghost use Rattle.node_network.specs.Lines.{cut, nothing_waits, with_byte};

use arrayvec::ArrayVec;
use std::marker::Model;
use std::mem;

/// How many bytes are read at once.
pub(crate) const PIECE: usize = 512;

/// How many bytes of a line are kept.
const LONGEST_LINE: usize = 512;

/// What stands after them where there were more. It is in no text, so the line is faulty.
const TOO_LONG: u8 = 255;

const LINE_FEED: u8 = 10;

/// The bytes of a line, with the mark of one that is too long.
pub(crate) type LineBytes = ArrayVec<u8, 513>;

/// Bytes that came and weren't handed on. Contracts see them as a `Waiting`.
#[derive(Drop)]
pub(crate) struct LineBuffer {
    /// The line that has begun.
    begun: LineBytes,
    /// What came last.
    piece: ArrayVec<u8, 512>,
    /// How many bytes of it are in the line.
    taken: usize,
}

impl Model for LineBuffer {
    ghost use Rattle.std.specs.Prelude.{drop};
    ghost use Rattle.node_network.specs.Lines.{Waiting};

    ghost Value = { Waiting };

    ghost view = { λ b. record { begun = b.begun.items; behind = drop b.taken b.piece.items } };
}

impl LineBuffer {
    pub(crate) fn new() -> LineBuffer
        ensures { result ≡ nothing_waits }
    {
        LineBuffer {
            begun: LineBytes::new(),
            piece: ArrayVec::new(),
            taken: 0,
        }
    }

    /// Takes the first line that is whole, if there is one.
    pub(crate) fn cut(&mut self) -> Option<LineBytes>
        ensures line { option_map (λ line. line.items) result ≡ (cut self.old.begun self.old.behind).0 }
        ensures rest { self.new ≡ (cut self.old.begun self.old.behind).1 }
    {
        while let Some(byte) = self.next_byte() {
            if byte == LINE_FEED {
                return Some(mem::replace(&mut self.begun, LineBytes::new()));
            }
            self.lengthen(byte);
        }
        None
    }

    /// Takes the first byte after the line that has begun.
    fn next_byte(&mut self) -> Option<u8>
        ensures { MatchOption result ((self.old.behind ≡ []) × (self.new ≡ self.old)) (λ byte. (self.old.behind ≡ byte ∷ self.new.behind) × (self.new.begun ≡ self.old.begun)) }
    {
        let Some(byte) = self.piece.as_slice().get(self.taken) else {
            return None;
        };
        let byte = *byte;
        self.taken += 1;
        Some(byte)
    }

    /// The line that has begun has one more byte.
    fn lengthen(&mut self, byte: u8)
        ensures { self.new ≡ record self.old { begun = with_byte self.old.begun byte } }
    {
        let length = self.begun.len();
        if length < LONGEST_LINE {
            self.begun.push(byte);
        } else if length == LONGEST_LINE {
            self.begun.push(TOO_LONG);
        }
    }

    /// More bytes came, where none is left of those before.
    pub(crate) fn add(&mut self, bytes: &[u8])
        requires none { self.old.behind ≡ [] }
        requires few { length bytes.now ≤ 512 }
        ensures { self.new ≡ record self.old { behind = bytes.now } }
    {
        // So many always fit.
        if let Ok(piece) = ArrayVec::try_from(bytes) {
            self.piece = piece;
            self.taken = 0;
        }
    }
}
