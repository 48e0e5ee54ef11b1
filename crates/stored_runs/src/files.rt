//! The files of a run, and what stands in them.

use crate::failure::Failure;
use control_table::Checked;
use station_record::table_of;
use std::alloc::Global;
use std::fs;

/// What stands in place of a word where nothing is asked for.
pub(crate) const NOTHING: &str = "-";

/// The text of a file. It is empty where no file is asked for.
pub(crate) fn read(rt: &HostRuntime, file: &str) -> Result<String, Failure> {
    if file == NOTHING {
        return Ok(String::new(rt.alloc()));
    }
    match fs::read_to_string(rt, file) {
        Ok(text) => Ok(text),
        Err(_) => Err(Failure::File),
    }
}

/// The two parts of a text at the first mark.
pub(crate) fn parts<'a>(text: &'a str, mark: &str) -> Result<(&'a str, &'a str), Failure> {
    match text.split_once(mark) {
        Some(parts) => Ok(parts),
        None => Err(Failure::Words),
    }
}

/// The control table of a layout.
pub(crate) fn table_in(alloc: Global, layout: &str) -> Result<Checked, Failure> {
    match table_of(alloc, layout) {
        Ok(table) => Ok(table),
        Err(_) => Err(Failure::Layout),
    }
}
