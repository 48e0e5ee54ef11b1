//! The words of the command line.

use crate::Failure;
use std::alloc::Global;
use std::env::{Env, FillError};
use std::{env, io};

/// A command line that has one of the words of another, so that it can be told which word can't be read.
#[derive(Clone, Copy)]
struct OneWord<'a, E> {
    line: &'a E,
    place: usize,
}

impl<'a, E: Env> Env for OneWord<'a, E> {
    fn arg(&self, i: usize, buf: &mut [u8]) -> Result<usize, FillError> {
        if i > 0 {
            return Err(FillError::NotPresent);
        }
        self.line.arg(self.place, buf)
    }

    fn var(&self, name: &str, buf: &mut [u8]) -> Result<usize, FillError> {
        self.line.var(name, buf)
    }

    fn var_at(&self, i: usize, buf: &mut [u8]) -> Result<usize, FillError> {
        self.line.var_at(i, buf)
    }
}

/// The word of the command line at a place, if there is one. The program's name is at place 0.
fn word<E: Env>(line: &E, alloc: Global, place: usize) -> Result<Option<String>, Failure> {
    match env::args(&(OneWord { line, place }, alloc)) {
        Ok(mut words) => Ok(words.next()),
        Err(error) if error.kind() == io::ErrorKind::OutOfMemory => Err(Failure::OutOfMemory),
        Err(_) => Err(Failure::Word(place)),
    }
}

/// The words of the command line, of which the program's name is the first.
pub fn words<E: Env>(line: &E, alloc: Global) -> Result<Vec<String>, Failure> {
    let mut words = Vec::new(alloc);
    for place in 0..usize::MAX {
        match word(line, alloc, place)? {
            Some(word) => {
                if words.push(word).is_err() {
                    return Err(Failure::OutOfMemory);
                }
            }
            None => break,
        }
    }
    Ok(words)
}
