//! The words of a command line.

ghost use Rattle.std.specs.Prelude.{◌≡◌, ◌≢◌, ◌↔◌, ◌≤◌, IsTrue, IfOk, codes, map};
ghost use Rattle.clap.specs.Words.{FailsBy, app_of, fault_of, first_of, kind_of, matches_of};
ghost use Rattle.clap.specs.declared.error.kind.ErrorKind.TheVariants as kind;
ghost use Rattle.simulator_pair_text.specs.CommandLine.{file_of, pair_line};

use clap::error::ErrorKind;
use clap::{Arg, Command, Error};
use std::alloc::{AllocError, Global};
use std::convert::AsStr;

/// Where the lines of events are read from.
#[derive(Clone, Copy, Debug, PartialEq, Eq)]
pub enum Asked<'a> {
    /// Standard input.
    Input,
    /// A file.
    File(&'a str),
}

const FILE: &str = "FILE";

const ABOUT: &str = "Runs lines of events over one link";

const DETAILS: &str = "Runs lines of events over one link.

A link has a client C, a server S with a lamp, and a network between them. Each line is one event
(an item is given, time passes, a datagram is delivered or lost ..), and is answered on a line of
its own. All lines are judged before the first event happens. docs/PAIR.md has their forms.";

/// The command line of `pair`.
fn pair<'a>(alloc: Global) -> Result<Command<'a>, AllocError>
    ensures { IfOk result (λ line. app_of line ≡ pair_line) }
{
    let file = Arg::new(alloc, FILE).help(
        "The lines of events; standard input where it is left out",
    );
    Command::new(alloc, "pair")
        .bin_name("pair")?
        .version("1.0.0")
        .about(ABOUT)
        .long_about(DETAILS)
        .arg(file)
}

/// What the words of a command line ask for, the first of which is the program's name.
///
/// An `Err` has the text to print (help, the version, or what is wrong).
pub fn read_words<'a, S: AsStr>(alloc: Global, words: &'a [S]) -> Result<Asked<'a>, Error>
    ensures asked { IfOk result (λ asked. file_of asked ≡ first_of (codes "FILE") (matches_of pair_line (map S.text words.entry.now))) }
    ensures kinds { FailsBy (fault_of pair_line (map S.text words.entry.now)) result }
{
    let mut command = pair(alloc)?;
    let matches = command.try_get_matches_from_mut(words)?;
    match matches.get_str(FILE) {
        Some(file) => Ok(Asked::File(file)),
        None => Ok(Asked::Input),
    }
}

/// Whether memory ran out as the words were read.
pub fn is_memory(error: &Error) -> bool
    ensures { IsTrue result ↔ (kind_of error.now ≡ kind.OutOfMemory) }
{
    matches!(error.kind(), ErrorKind::OutOfMemory)
}

/// The status to end with: 0 where help or the version was asked for, and otherwise 1.
pub fn status(error: &Error) -> u8
    ensures bound { result ≤ 1 }
    ensures wrong { (result ≡ 1) ↔ ((kind_of error.now ≢ kind.DisplayHelp) × (kind_of error.now ≢ kind.DisplayVersion)) }
{
    if error.use_stderr() { 1 } else { 0 }
}
