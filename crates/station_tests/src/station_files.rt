//! What is told where a file or a word can't be read. What takes memory is done again where it is lacking, so that the answers also
//! hold with any one allocation refused.

use station_command::{Failure, text_of, words};
use std::alloc::Global;
use std::env::{Env, FillError};
use std::process::Abort;

/// Why a file can't be read, if it can't; where memory is lacking it is read once more.
fn failure_at(rt: &HostRuntime, file: &str) -> Option<Failure> {
    match text_of(rt, file) {
        Err(Failure::OutOfMemory) => text_of(rt, file).err(),
        answer => answer.err(),
    }
}

/// What is told for a failure; where memory is lacking it is made once more.
fn line_of(rt: &impl Abort, alloc: Global, failure: &Failure) -> String {
    match format!(in alloc; "{failure}") {
        Ok(text) => text,
        Err(_) => format!(in alloc; "{failure}").expect(rt, "a line"),
    }
}

#[test]
fn a_file_that_is_not_there_cannot_be_read(rt: HostRuntime) {
    let failure = failure_at(&rt, "no/such file.toml").expect(&rt, "a failure");
    let line = line_of(&rt, rt.alloc(), &failure);
    assert!(rt; line.as_str() == "cannot read no/such file.toml", "{line}");
}

/// A command line of these words.
struct Line(&'static [&'static [u8]]);

impl Env for Line {
    fn arg(&self, i: usize, buf: &mut [u8]) -> Result<usize, FillError> {
        let word = self.0.get(i).ok_or(FillError::NotPresent)?;
        match buf.get_mut(..word.len()) {
            Some(front) => {
                front.copy_from_slice(word);
                Ok(word.len())
            }
            None => Err(FillError::TooLong),
        }
    }

    fn var(&self, _name: &str, _buf: &mut [u8]) -> Result<usize, FillError> {
        Err(FillError::NotPresent)
    }

    fn var_at(&self, _i: usize, _buf: &mut [u8]) -> Result<usize, FillError> {
        Err(FillError::NotPresent)
    }
}

/// The words of a command line; where memory is lacking they are read once more.
fn words_of(alloc: Global, line: &Line) -> Result<Vec<String>, Failure> {
    match words(line, alloc) {
        Err(Failure::OutOfMemory) => words(line, alloc),
        answer => answer,
    }
}

const SOUND: Line = Line(&[b"station", b"check", b"caf\xc3\xa9.toml"]);

const NO_TEXT: Line = Line(&[b"station", b"check", b"caf\xe9.toml", b"\xff"]);

#[test]
fn words_are_read_up_to_the_first_that_is_no_text(rt: HostRuntime) {
    let words = words_of(rt.alloc(), &SOUND).expect(&rt, "words");
    assert!(rt; words.len() == 3 && words[2].as_str() == "caf\u{e9}.toml");
    let failure = words_of(rt.alloc(), &NO_TEXT).expect_err(&rt, "no text");
    let line = line_of(&rt, rt.alloc(), &failure);
    assert!(rt; line.as_str() == "argument 2 is not UTF-8", "{line}");
    assert!(rt; failure.status() == 2);
}
