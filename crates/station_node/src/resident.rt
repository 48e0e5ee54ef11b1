//! How much memory a process takes.

use node_kinds::{Lines, decimal};
use std::fs;
use std::fs::Files;

/// Where the system tells it.
const STATUS: &str = "/proc/self/status";

/// How many bytes a kilobyte of it has.
const KILOBYTE: u64 = 1024;

/// How many bytes of memory the process takes, by what the system tells, if it does.
pub(crate) fn resident<R: Files + AllocGlobal>(rt: &R) -> Option<u64> {
    match fs::read_to_string(rt, STATUS) {
        Ok(text) => resident_of(text.as_str()),
        Err(_) => None,
    }
}

/// How many bytes a text of the system tells.
fn resident_of(status: &str) -> Option<u64> {
    for (_, line) in Lines::of(status) {
        if let Some(rest) = line.strip_prefix("VmRSS:") {
            return kilobytes(rest);
        }
    }
    None
}

/// The bytes of the first number.
fn kilobytes(text: &str) -> Option<u64> {
    let number = text.split_whitespace().next()?;
    match decimal(number) {
        Ok(count) => Some(count.saturating_mul(KILOBYTE)),
        Err(_) => None,
    }
}
