//! What a check says of a text that is no railway's.

ghost use Rattle.std.specs.Prelude.{◌≡◌, ◌++◌, IfOk, OnOk, string_bytes};
ghost use Rattle.railway_check.specs.FaultLines.{text_fault_line, text_fault_lines, text_words_line};
ghost use Rattle.railway_check.specs.RailwayVerdict.{text_verdict};
ghost use Rattle.railway_check.specs.Verdicts.{told_if};

use crate::entry_words::TextWords;
use crate::fault_lines::add_line;
use crate::verdict::Verdict;
use railway_layout::TextFault;
use std::alloc::{AllocError, Global};

/// The line of a fault: its number and name, and its place.
fn fault_line(alloc: Global, fault: &TextFault) -> Result<String, AllocError>
    ensures { IfOk result (λ line. string_bytes line ≡ text_fault_line fault.now) }
{
    format!(in alloc; "railway fault {fault}\n")
}

/// What is wrong, and what has to stand there, in a line.
fn words_line(alloc: Global, fault: &TextFault) -> Result<String, AllocError>
    ensures { IfOk result (λ line. string_bytes line ≡ text_words_line fault.now) }
{
    let words = TextWords(*fault);
    format!(in alloc; "{words}\n")
}

/// Adds the words for a fault, where that is asked for.
fn add_words(
    alloc: Global,
    text: &mut Vec<u8>,
    fault: &TextFault,
    explained: bool,
) -> Result<(), AllocError>
    ensures { OnOk result (text.new.items ≡ text.old.items ++ told_if explained (text_words_line fault.now)) }
{
    if !explained {
        return Ok(());
    }
    let line = words_line(alloc, fault)?;
    add_line(text, line.as_str())
}

/// What is told of a fault.
fn fault_lines(alloc: Global, fault: &TextFault, explained: bool) -> Result<Vec<u8>, AllocError>
    ensures { IfOk result (λ text. text.items ≡ text_fault_lines explained fault.now) }
{
    let mut text = Vec::new(alloc);
    let line = fault_line(alloc, fault)?;
    add_line(&mut text, line.as_str())?;
    add_words(alloc, &mut text, fault, explained)?;
    Ok(text)
}

/// The verdict on a text that is no railway's: its first fault is told. It fails only where memory was refused.
pub fn text_verdict(
    alloc: Global,
    fault: &TextFault,
    explained: bool,
) -> Result<Verdict, AllocError>
    ensures { IfOk result (λ verdict. verdict ≡ text_verdict explained fault.now) }
{
    Ok(Verdict {
        status: 1,
        out: Vec::new(alloc),
        err: fault_lines(alloc, fault, explained)?,
    })
}
