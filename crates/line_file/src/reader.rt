//! Reading the text of an end's file.

ghost use Rattle.std.specs.Prelude.{◌≡◌, IfOk, Ok};
ghost use Rattle.line_laws.specs.End.{File};
ghost use Rattle.line_file.specs.EndFiles.{begin_with, fault_of, four, is_cut_off, kept_in, reading, says, writing};

use crate::fault::FileFault;
use crate::writer::{LINE, kept_text, line_text, owner_text};
use line_end::{Kept, Position, Side};
use sci_telegram::Name;

/// Whether bytes begin with a text.
fn begin_with(text: &[u8], bytes: &[u8]) -> bool
    ensures { result ≡ begin_with text.now bytes.now }
{
    if bytes.len() < text.len() {
        false
    } else {
        &bytes[..text.len()] == text
    }
}

/// Whether bytes are a text that was cut off.
fn is_cut_off(text: &[u8], bytes: &[u8]) -> bool
    ensures { result ≡ is_cut_off text.now bytes.now }
{
    if bytes.len() < text.len() {
        begin_with(bytes, text)
    } else {
        false
    }
}

/// What is told of bytes that don't begin with the two lines of this end.
fn fault_of(name: &Name, side: Side, bytes: &[u8]) -> FileFault
    ensures { result ≡ fault_of name.now side bytes.now }
{
    if is_cut_off(owner_text(name, side).as_slice(), bytes) {
        FileFault::CutOff
    } else if begin_with(line_text(name).as_slice(), bytes) {
        FileFault::OtherEnd
    } else if begin_with(LINE.as_bytes(), bytes) {
        FileFault::OtherLine
    } else {
        FileFault::Damaged
    }
}

/// All that an end can keep.
fn four() -> [Kept; 4]
    ensures { result ≡ four }
{
    [
        Kept::new(true, Position::Left),
        Kept::new(true, Position::Right),
        Kept::new(false, Position::Left),
        Kept::new(false, Position::Right),
    ]
}

/// Whether the lines behind the two that name the end say that it keeps this; an error where they were cut off.
fn says(kept: Kept, rest: &[u8]) -> Result<bool, FileFault>
    ensures { result ≡ says kept rest.now }
{
    let text = kept_text(kept);
    if text.as_slice() == rest {
        Ok(true)
    } else if is_cut_off(text.as_slice(), rest) {
        Err(FileFault::CutOff)
    } else {
        Ok(false)
    }
}

/// What an end keeps where these lines stand behind the two that name it.
fn kept_in(files: &[Kept], rest: &[u8]) -> Result<Kept, FileFault>
    ensures { result ≡ kept_in files.now rest.now }
{
    for kept in files {
        if says(*kept, rest)? {
            return Ok(*kept);
        }
    }
    Err(FileFault::Damaged)
}

/// The same as its definition says it.
fn read_value(name: &Name, side: Side, bytes: &[u8]) -> Result<Kept, FileFault>
    ensures { result ≡ reading name.now side bytes.now }
{
    let owner = owner_text(name, side);
    if begin_with(owner.as_slice(), bytes) {
        let (_, rest) = bytes.split_at(owner.len());
        kept_in(&four(), rest)
    } else {
        Err(fault_of(name, side, bytes))
    }
}

/// What an end of a line finds in its file, where the file has these bytes.
pub fn read(name: &Name, side: Side, bytes: &[u8]) -> Result<Kept, FileFault>
    ensures value { result ≡ reading name.now side bytes.now }
    // What is read was written so.
    ensures found { IfOk result (λ kept. bytes.now ≡ writing name.now side kept) }
    // What was written so is read.
    ensures only { (kept : File) → bytes.now ≡ writing name.now side kept → result ≡ Ok kept }
{
    read_value(name, side, bytes)
}
