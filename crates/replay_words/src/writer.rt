//! Writes a text as far as a writer takes it: what is told where something failed, of which no memory is asked.

ghost use Rattle.std.specs.Prelude.{◌≤◌, length, take};
ghost use Rattle.std.specs.Io.KnownBytes.{Appends};

use std::io::{ErrorKind, Write};

/// Writes a text to its end, or as far as the writer takes it, and answers how far that is.
#[tactic(auto, using(crate::proofs::TextInParts::more_taken, crate::proofs::TextInParts::none_taken))]
pub fn write_as_taken<E: Write>(text: &[u8], err: &mut E) -> usize
    ensures bound { result ≤ length text.now }
    ensures bytes { Appends (E.contents err.old) (E.contents err.new) (take result text.now) }
{
    let mut taken = 0;
    for _ in 0..u64::MAX {
        let (_, rest) = text.split_at(taken);
        if rest.is_empty() {
            break;
        }
        match err.write(rest) {
            Ok(0) => break,
            Ok(more) => taken += more,
            Err(error) if error.kind() == ErrorKind::Interrupted => {}
            Err(_) => break,
        }
    }
    taken
}
