//! What comes of a command line.

use station_command::Error;
use std::alloc::Global;
use std::process::Abort;

/// What is printed for an error; where memory is lacking it is made once more.
fn printed(rt: &impl Abort, alloc: Global, error: &Error) -> String {
    match format!(in alloc; "{error}") {
        Ok(text) => text,
        Err(_) => format!(in alloc; "{error}").expect(rt, "a text"),
    }
}

/// Expects that an error prints this text, to the standard error where the command line is wrong.
pub(crate) fn expect_printed(
    rt: &impl Abort,
    alloc: Global,
    error: &Error,
    is_wrong: bool,
    text: &str,
) {
    assert!(rt; printed(rt, alloc, error).as_str() == text);
    assert!(rt; error.use_stderr() == is_wrong);
}

/// Expects what is so of a command line.
pub(crate) fn expect_of(rt: &impl Abort, is_so: bool, words: &[&str]) {
    assert!(rt; is_so, "at {words:?}");
}
