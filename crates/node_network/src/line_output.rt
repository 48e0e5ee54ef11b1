//! A line that is written.

ghost use Rattle.std.specs.Prelude.{◌≡◌, ◌∷◌, [], ◌++◌, OnOk};
ghost use Rattle.std.specs.Io.KnownBytes.{Appends};

use node_drive::BrokenOff;
use std::alloc::Global;
use std::io::Write;

/// Writes a text with its line feed, and hands it on. Where no memory is left for both, nothing is written.
pub(crate) fn write_line<O: Write>(
    alloc: Global,
    output: &mut O,
    text: &str,
) -> Result<(), BrokenOff>
    ensures { OnOk result (Appends (O.contents output.old) (O.contents output.new) (text.now ++ 10 ∷ [])) }
{
    let Ok(line) = format!(in alloc; "{text}\n") else {
        return Err(BrokenOff);
    };
    let written = match output.write_all(line.as_bytes()) {
        Ok(()) => output.flush(),
        failed => failed,
    };
    drop(line);
    match written {
        Ok(()) => Ok(()),
        Err(_) => Err(BrokenOff),
    }
}
