//! Reading the text of a file of closings.

ghost use Rattle.std.specs.Prelude.{◌≡◌, ◌<◌, ℕ, List, [], ◌∷◌, Result, Err, IfNone, IfOk, IfSome, MatchResult, length};
ghost use Rattle.std.specs.List.{position, slice_split};
ghost use Rattle.closings.specs.Closed.{nothing};
ghost use Rattle.closings.specs.Things.{IsPlaced};
ghost use Rattle.closings.specs.Words.{named_by};
ghost use Rattle.replay_words.specs.Read.{decimal};
ghost use Rattle.closings_file.specs.declared.fault.FileFault.{FileFault as FaultTold};
ghost use Rattle.closings_file.specs.declared.found.Said.{Said as SaidBy};
ghost use Rattle.closings_file.specs.Texts.{all_read, begin_with, ends_line, ended, fault_of, is_cut_off, lines_read, number_or_damage, number_read, number_said, opens_read, reading, said_in, said_with};

use crate::fault::FileFault;
use crate::found::Said;
use crate::writer::{CLOSED, END, LAYOUT, OPENS, RELEASES};
use closings::{AuxiliaryCounts, Closings, Layout, Named};
use replay_words::decimal;
use std::str;

/// Whether bytes are a text that was cut off.
fn is_cut_off(text: &[u8], bytes: &[u8]) -> bool
    ensures { result ≡ is_cut_off text.now bytes.now }
{
    bytes.len() < text.len() && text.starts_with(bytes)
}

/// Where the first line of a text ends, if one does.
fn end_of_line(text: &[u8]) -> Option<usize>
    ensures value { result ≡ position ends_line text.now }
    ensures within { IfSome result (λ end. end < length text.now) }
{
    text.iter().position(|byte| *byte == b'\n')
}

/// The first line of a text and what stands behind its line feed, if it has one.
fn first_line(text: &[u8]) -> Option<(&[u8], &[u8])>
    ensures none { IfNone result (slice_split ends_line text.now ≡ text.now ∷ []) }
    ensures line { IfSome result (λ parts. slice_split ends_line text.now ≡ parts.0.now ∷ slice_split ends_line parts.1.now) }
    ensures shorter { IfSome result (λ parts. length parts.1.now < length text.now) }
{
    match end_of_line(text) {
        Some(end) => Some((&text[..end], &text[end + 1..])),
        None => None,
    }
}

/// What words name.
fn named_by(layout: &Layout, words: &[u8]) -> Option<Named>
    ensures value { result ≡ named_by layout.now words.now }
    ensures placed { IfSome result IsPlaced }
{
    closings::words_say_what_is_there();
    closings::words_are_read_again();
    // Every layout is a station.
    layout.joints();
    match str::from_utf8(words) {
        Ok(words) => Named::read(layout, words),
        // What a layout has is named by letters, digits, hyphens and spaces.
        Err(_) => None,
    }
}

/// What a line says to be closed.
fn said_in(layout: &Layout, line: &[u8]) -> Result<Named, FileFault>
    ensures value { result ≡ said_in layout.now line.now }
    ensures placed { IfOk result IsPlaced }
{
    if !line.starts_with(CLOSED.as_bytes()) {
        return Err(FileFault::Damaged);
    }
    let (_, words) = line.split_at(CLOSED.len());
    match named_by(layout, words) {
        Some(named) => Ok(named),
        None => Err(FileFault::NotThere),
    }
}

/// Nothing may stand behind the last line.
fn ended(closings: Closings, behind: &[u8]) -> Result<Closings, FileFault>
    ensures { result ≡ ended closings (slice_split ends_line behind.now) }
{
    if behind.is_empty() {
        Ok(closings)
    } else {
        Err(FileFault::Damaged)
    }
}

/// What is closed by the lines behind those of numbers.
fn lines_read(layout: &Layout, text: &[u8]) -> Result<Closings, FileFault>
    ensures { result ≡ lines_read layout.now (slice_split ends_line text.now) nothing }
{
    let mut closings = Closings::none();
    let mut rest = text;
    while let Some((line, behind)) = first_line(rest) {
        if line == END.as_bytes() {
            return ended(closings, behind);
        }
        match said_in(layout, line) {
            Ok(named) => closings = closings.close(named),
            Err(fault) => return Err(fault),
        }
        rest = behind;
    }
    Err(FileFault::CutOff)
}

/// The number that digits spell.
fn number_of(digits: &[u8]) -> Result<u64, FileFault>
    ensures { result ≡ number_or_damage (decimal digits.now) }
{
    match str::from_utf8(digits) {
        Ok(word) => match decimal(word) {
            Ok(number) => Ok(number),
            Err(_) => Err(FileFault::Damaged),
        },
        // Digits are UTF-8.
        Err(_) => Err(FileFault::Damaged),
    }
}

/// The number that a line says.
fn number_said(label: &[u8], line: &[u8]) -> Result<u64, FileFault>
    ensures { result ≡ number_said label.now line.now }
{
    if !line.starts_with(label) {
        return Err(FileFault::Damaged);
    }
    let (_, digits) = line.split_at(label.len());
    number_of(digits)
}

/// The number of the first line, and what stands behind that.
fn number_read<'a>(label: &[u8], text: &'a [u8]) -> Result<(u64, &'a [u8]), FileFault>
    ensures { (behind : ℕ → List (List ℕ) → Result SaidBy FaultTold) → MatchResult result (λ read. number_read label.now (slice_split ends_line text.now) behind ≡ behind read.0 (slice_split ends_line read.1.now)) (λ fault. number_read label.now (slice_split ends_line text.now) behind ≡ Err fault) }
{
    let Some((line, behind)) = first_line(text) else {
        return Err(FileFault::CutOff);
    };
    match number_said(label, line) {
        Ok(number) => Ok((number, behind)),
        Err(fault) => Err(fault),
    }
}

/// What the lines of closed things say, where so many commands were counted.
fn closings_read(layout: &Layout, counts: AuxiliaryCounts, text: &[u8]) -> Result<Said, FileFault>
    ensures { result ≡ said_with counts (lines_read layout.now (slice_split ends_line text.now) nothing) }
{
    match lines_read(layout, text) {
        Ok(closings) => Ok(Said { counts, closings }),
        Err(fault) => Err(fault),
    }
}

/// What all lines behind that of the releases say.
fn opens_read(layout: &Layout, releases: u64, text: &[u8]) -> Result<Said, FileFault>
    ensures { result ≡ opens_read layout.now releases (slice_split ends_line text.now) }
{
    match number_read(OPENS.as_bytes(), text) {
        Ok((opens, last)) => closings_read(layout, AuxiliaryCounts { releases, opens }, last),
        Err(fault) => Err(fault),
    }
}

/// What all lines behind the first say.
fn all_read(layout: &Layout, text: &[u8]) -> Result<Said, FileFault>
    ensures { result ≡ all_read layout.now (slice_split ends_line text.now) }
{
    match number_read(RELEASES.as_bytes(), text) {
        Ok((releases, behind)) => opens_read(layout, releases, behind),
        Err(fault) => Err(fault),
    }
}

/// What is told of bytes that don't begin with the first line of this layout.
fn fault_of(head: &[u8], bytes: &[u8]) -> FileFault
    ensures { result ≡ fault_of head.now bytes.now }
{
    if is_cut_off(head, bytes) {
        FileFault::CutOff
    } else if bytes.starts_with(LAYOUT.as_bytes()) {
        FileFault::OtherLayout
    } else {
        FileFault::Damaged
    }
}

/// What a file says, where it has these bytes and this is the first line of the layout's.
pub(crate) fn read(layout: &Layout, head: &[u8], bytes: &[u8]) -> Result<Said, FileFault>
    ensures { result ≡ reading layout.now head.now bytes.now }
{
    if bytes.starts_with(head) {
        let (_, rest) = bytes.split_at(head.len());
        all_read(layout, rest)
    } else {
        Err(fault_of(head, bytes))
    }
}
