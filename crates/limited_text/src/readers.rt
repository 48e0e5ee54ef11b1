//! The texts of readers.

ghost use Rattle.std.specs.Prelude.{◌≡◌, ◌<◌, ◌≤◌, ◌+◌, ◌++◌, ℕ, List, Ok, false, true, IfErr, IfOk, IfSome, length, string_bytes, string_len, take};
ghost use Rattle.std.specs.Io.KnownBytes.{Consumes, IsAtEnd};
ghost use Rattle.limited_text.specs.Limits.{longest};
ghost use Rattle.limited_text.specs.Texts.{Explains, IsOfMachine};

use crate::limits::longest;
use crate::{Content, TextFault};
use std::alloc::Global;
use std::io;
use std::io::Read;

/// How many bytes are read at once.
const PIECE: usize = 8192;

/// The text of a reader: all its bytes, where they are at most `limit`, and UTF-8.
pub fn text_up_to<R: Read>(alloc: Global, reader: &mut R, limit: u64) -> Result<String, TextFault>
    requires { limit < u64.MAX }
    ensures text { IfOk result (λ text. IfSome (R.remaining reader.old) (λ bytes. string_bytes text ≡ bytes)) }
    ensures limited { IfOk result (λ text. string_len text ≤ limit) }
    ensures refused { IfErr result (Explains limit (R.remaining reader.old)) }
    // However much the reader has, no more is taken from it than shows that it is too long.
    ensures taken { (taken : List ℕ) × (length taken ≤ limit + 1) × Consumes (R.remaining reader.old) (R.remaining reader.new) taken }
{
    let bytes = bytes_up_to(alloc, reader, limit + 1)?;
    if bytes.len() as u64 > limit {
        return Err(TextFault::TooLong);
    }
    match String::from_utf8(bytes) {
        Ok(text) => Ok(text),
        Err(_) => Err(TextFault::NotUtf8),
    }
}

/// The text of standard input or of another reader that may never end, if it isn't too long for what it is to have.
pub fn input_text<R: Read>(
    alloc: Global,
    reader: &mut R,
    content: Content,
) -> Result<String, TextFault>
    ensures text { IfOk result (λ text. IfSome (R.remaining reader.old) (λ bytes. string_bytes text ≡ bytes)) }
    ensures limited { IfOk result (λ text. string_len text ≤ longest content false) }
    ensures refused { IfErr result (Explains (longest content false) (R.remaining reader.old)) }
{
    text_up_to(alloc, reader, longest(content, false))
}

/// The bytes of a reader, or the first `count` of them.
fn bytes_up_to<R: Read>(alloc: Global, reader: &mut R, count: u64) -> Result<Vec<u8>, TextFault>
    ensures bytes { IfOk result (λ bytes. IfSome (R.remaining reader.old) (λ all. bytes.items ≡ take count all)) }
    ensures unread { IfErr result IsOfMachine }
    ensures taken { (taken : List ℕ) × (length taken ≤ count) × Consumes (R.remaining reader.old) (R.remaining reader.new) taken }
{
    let mut bytes = Vec::new(alloc);
    for _ in 0..u64::MAX {
        let room = count - bytes.len() as u64;
        if room == 0 || append(reader, &mut bytes, room)? {
            return Ok(bytes);
        }
    }
    // No text is so long.
    Err(TextFault::Unreadable)
}

/// Reads a piece behind what was read, and answers whether nothing is left.
fn append<R: Read>(reader: &mut R, bytes: &mut Vec<u8>, room: u64) -> Result<bool, TextFault>
    requires { 0 < room }
    ensures appended { (taken : List ℕ) × (length taken ≤ room) × Consumes (R.remaining reader.old) (R.remaining reader.new) taken × IfOk result (λ _. bytes.new.items ≡ bytes.old.items ++ taken) }
    ensures end { result ≡ Ok true → IsAtEnd (R.remaining reader.new) }
    ensures unread { IfErr result IsOfMachine }
{
    let mut piece = [0; PIECE];
    let most = if room < PIECE as u64 {
        room as usize
    } else {
        PIECE
    };
    match reader.read(&mut piece[..most]) {
        Ok(count) => {
            bytes.extend_from_slice(&piece[..count])?;
            Ok(count == 0)
        }
        Err(error) if error.kind() == io::ErrorKind::Interrupted => Ok(false),
        Err(error) => Err(TextFault::from(error)),
    }
}
