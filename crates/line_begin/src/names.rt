//! The names of the files of ends.

ghost use Rattle.std.specs.Prelude.{◌≡◌, IfOk, string_bytes};
ghost use Rattle.line_begin.specs.Names.{end_file_name};

use line_file::Name;
use std::alloc::{AllocError, Global};

/// The name of the file of a line's end at a station. It fails only where memory was refused.
pub fn end_file_name(alloc: Global, line: &Name, station: &Name) -> Result<String, AllocError>
    ensures { IfOk result (λ name. string_bytes name ≡ end_file_name line.now station.now) }
{
    let line = line.as_str();
    let station = station.as_str();
    format!(in alloc; "{line}.{station}.end")
}
