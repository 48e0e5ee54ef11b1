//! The program `pair [FILE]`: runs the event lines of FILE, or of standard input, over a pair of linked
//! ends and the network between them, and prints an answer for each. Its status is 0 or 1.
#![tactic(auto)]

use limited_text::{Content, TextFault, file_text, input_text};
use simulator_pair_text::{Asked, Error, is_memory, pair_text, read_words, status};
use std::io::BufWriter;
use std::process::ExitCode;
use std::{env, io};
use thiserror::Error as Told;

/// Why there is no text to run.
#[derive(Debug, Drop, Told)]
enum Failure {
    #[error("error: a word of the command line is not UTF-8")]
    Words,
    #[error("cannot read {0}")]
    File(String),
    #[error("cannot read standard input")]
    Input,
    #[error("out of memory")]
    OutOfMemory,
}

impl Failure {
    /// Want of memory, or else this failure.
    fn unless_memory(self, error: &io::Error) -> Failure {
        match error.kind() {
            io::ErrorKind::OutOfMemory => Failure::OutOfMemory,
            _ => self,
        }
    }
}

fn main(rt: HostRuntime) -> ExitCode {
    let status = match words(&rt) {
        Ok(words) => match read_words(rt.alloc(), words.as_slice()) {
            Ok(asked) => run(&rt, asked),
            Err(error) => refuse(&rt, &error),
        },
        Err(failure) => fail(&rt, &failure),
    };
    ExitCode::from(status)
}

/// The words of the command line.
fn words(rt: &HostRuntime) -> Result<Vec<String>, Failure> {
    let words = env::args(rt).map_err(|error| Failure::Words.unless_memory(&error))?;
    match words.collect(rt.alloc()) {
        Ok(words) => Ok(words),
        Err(_) => Err(Failure::OutOfMemory),
    }
}

/// Prints the help that was asked for, or what is wrong with the command line.
fn refuse(rt: &HostRuntime, error: &Error) -> u8 {
    if is_memory(error) {
        return fail(rt, &Failure::OutOfMemory);
    }
    match error.print(rt) {
        Ok(()) => status(error),
        Err(_) => 1,
    }
}

/// Tells why there is no text to run.
fn fail(rt: &HostRuntime, failure: &Failure) -> u8 {
    // Where this can't be written, the status has to do.
    let _ = eprintln!(rt; "{failure}");
    1
}

/// The text that is asked for, if it isn't too long.
fn text(rt: &HostRuntime, asked: Asked<'_>) -> Result<String, Failure> {
    match asked {
        Asked::Input => input(rt),
        Asked::File(file) => match file_text(rt, file, Content::Lines) {
            Ok(text) => Ok(text),
            Err(TextFault::OutOfMemory) => Err(Failure::OutOfMemory),
            Err(_) => match String::from_str(rt.alloc(), file) {
                Ok(name) => Err(Failure::File(name)),
                Err(_) => Err(Failure::OutOfMemory),
            },
        },
    }
}

/// The text of standard input, which may never end.
fn input(rt: &HostRuntime) -> Result<String, Failure> {
    match input_text(rt.alloc(), &mut rt.reader(), Content::Lines) {
        Ok(text) => Ok(text),
        Err(TextFault::OutOfMemory) => Err(Failure::OutOfMemory),
        Err(_) => Err(Failure::Input),
    }
}

/// Runs a text, and writes its answers at once to standard output.
fn run(rt: &HostRuntime, asked: Asked<'_>) -> u8 {
    match text(rt, asked) {
        Ok(text) => match BufWriter::new(rt.alloc(), rt.stdout()) {
            Ok(mut out) => pair_text(rt.alloc(), text.as_str(), &mut out, &mut rt.stderr()),
            Err(_) => fail(rt, &Failure::OutOfMemory),
        },
        Err(failure) => fail(rt, &failure),
    }
}
