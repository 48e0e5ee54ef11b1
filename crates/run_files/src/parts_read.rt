//! Parts of a record are read again as one text.

ghost use Rattle.std.specs.Prelude.{◌≡◌, ◌++◌, true, Err, Some, None, OnOk, string_bytes};
ghost use Rattle.run_files.specs.Parts.{ends_line};
ghost use Rattle.run_files.specs.Reads.{with_part};
ghost use Rattle.run_files.specs.declared.parts_read.JoinFault.TheVariants as faults;

use crate::line_ends::ends_line;
use crate::names::part_name;
use limited_text::{TextFault, text_up_to};
use std::alloc::{AllocError, Global};
use std::fs;
use std::fs::{File, Files};
use std::io::ErrorKind;
use thiserror::Error;

/// The most bytes of all parts together: 4 GiB, as of a record in one file.
const LONGEST: u64 = 4_294_967_296;

/// How many numbers behind the last part are looked at for one that is missing.
const FURTHER: u64 = 16;

/// Why a part isn't joined to a text.
#[derive(Clone, Copy, Debug, PartialEq, Eq)]
pub enum JoinFault {
    /// The text doesn't end with a line.
    CutOff,
    OutOfMemory,
}

impl From<AllocError> for JoinFault {
    ghost use Rattle.run_files.specs.declared.parts_read.JoinFault.TheVariants.{OutOfMemory};

    ghost from_gives = { λ _ fault. fault ≡ OutOfMemory };

    fn from(_error: AllocError) -> JoinFault {
        JoinFault::OutOfMemory
    }
}

/// Adds a part to a text, which has to end with a line.
pub fn add_part(text: &mut String, part: &str) -> Result<(), JoinFault>
    ensures joined { OnOk result (with_part (string_bytes text.old) part.now ≡ Some (string_bytes text.new)) }
    ensures cut { result ≡ Err faults.CutOff → with_part (string_bytes text.old) part.now ≡ None }
{
    if !ends_line(text.as_str().as_bytes()) {
        return Err(JoinFault::CutOff);
    }
    text.push_str(part)?;
    Ok(())
}

/// Why the parts of a record aren't read.
#[derive(Debug, Drop, Error)]
pub enum PartsFault {
    #[error("{0} ends within a line, and a part behind it is there")]
    CutOff(String),
    #[error("{0} is missing, and a part behind it is there")]
    Missing(String),
    #[error("cannot read {0}")]
    Unreadable(String),
    #[error("out of memory")]
    OutOfMemory,
}

impl From<AllocError> for PartsFault {
    fn from(_error: AllocError) -> PartsFault {
        PartsFault::OutOfMemory
    }
}

/// The text of a record, whose first part was read: the further parts are read behind it, as long as they are there.
pub fn with_further_parts<R: Files + AllocGlobal>(
    rt: &R,
    path: &str,
    first: String,
) -> Result<String, PartsFault> {
    let mut text = first;
    for number in 2..u64::MAX {
        let name = part_name(rt.alloc(), path, number)?;
        match part_text(rt, name, &text)? {
            Some(part) => join(rt.alloc(), path, number, &mut text, part.as_str())?,
            None => {
                none_behind(rt, path, number)?;
                return Ok(text);
            }
        }
    }
    Ok(text)
}

/// The text of a part, if it is there.
fn part_text<R: Files + AllocGlobal>(
    rt: &R,
    name: String,
    before: &String,
) -> Result<Option<String>, PartsFault> {
    let mut file = match File::open(rt, name.as_str()) {
        Ok(file) => file,
        Err(error) if error.kind() == ErrorKind::NotFound => return Ok(None),
        Err(_) => return Err(PartsFault::Unreadable(name)),
    };
    let room = LONGEST.saturating_sub(before.len() as u64);
    match text_up_to(rt.alloc(), &mut file, room) {
        Ok(text) => Ok(Some(text)),
        Err(TextFault::OutOfMemory) => Err(PartsFault::OutOfMemory),
        Err(_) => Err(PartsFault::Unreadable(name)),
    }
}

/// Adds a part of this number.
fn join(
    alloc: Global,
    path: &str,
    number: u64,
    text: &mut String,
    part: &str,
) -> Result<(), PartsFault> {
    match add_part(text, part) {
        Ok(()) => Ok(()),
        Err(JoinFault::CutOff) => {
            let before = part_name(alloc, path, number.saturating_sub(1))?;
            Err(PartsFault::CutOff(before))
        }
        Err(JoinFault::OutOfMemory) => Err(PartsFault::OutOfMemory),
    }
}

/// The part of this number isn't there. Then none of the next ones may be.
fn none_behind<R: Files + AllocGlobal>(rt: &R, path: &str, number: u64) -> Result<(), PartsFault> {
    for ahead in 1..FURTHER {
        let name = part_name(rt.alloc(), path, number.saturating_add(ahead))?;
        if let Ok(true) = fs::exists(rt, name.as_str()) {
            let missing = part_name(rt.alloc(), path, number)?;
            return Err(PartsFault::Missing(missing));
        }
    }
    Ok(())
}
