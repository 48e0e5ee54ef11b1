//! The file of an end: begun, kept and found.

ghost use Rattle.std.specs.Prelude.{◌≡◌, Err, IfNone, IfOk, IfSome, IsErr};
ghost use Rattle.line_laws.specs.Run.{first_file};
ghost use Rattle.line_laws.specs.Step.{is_first};
ghost use Rattle.line_file.specs.declared.fault.FileFault.TheVariants.{Missing, Unreadable};
ghost use Rattle.whole_file.specs.Calls.{failed_call, keep_calls, recorded};
ghost use Rattle.line_file.specs.EndFiles.{reading, writing};

use crate::fault::FileFault;
use crate::reader::read;
use crate::writer::write;
use line_end::{Kept, Position, Side};
use sci_telegram::Name;
use std::io;
use whole_file::{NotKept, Place};

/// What an end of a line that begins is to keep: the first end has the token, and the lock lies at the left.
pub fn beginning(side: Side) -> Kept
    ensures { result ≡ first_file (is_first side) }
{
    Kept::new(matches!(side, Side::First), Position::Left)
}

/// Keeps the file of an end. Where it answers Ok, it is on disk.
pub fn keep<P: Place>(place: &mut P, name: &Name, side: Side, kept: Kept) -> Result<(), NotKept>
    ensures { P.calls place.new ≡ recorded (keep_calls (writing name.now side kept) (failed_call result)) (P.calls place.old) }
{
    whole_file::keep(place, write(name, side, kept).as_slice())
}

/// What an end finds in its file, where this is what its place answered.
fn found_in(answer: io::Result<Option<Vec<u8>>>, name: &Name, side: Side) -> Result<Kept, FileFault>
    ensures read { IfOk answer (λ file. IfSome file (λ bytes. result ≡ reading name.now side bytes.items)) }
    ensures missing { IfOk answer (λ file. IfNone file (result ≡ Err Missing)) }
    ensures unreadable { IsErr answer → result ≡ Err Unreadable }
{
    match answer {
        Ok(Some(bytes)) => read(name, side, bytes.as_slice()),
        Ok(None) => Err(FileFault::Missing),
        Err(_) => Err(FileFault::Unreadable),
    }
}

/// What an end finds in its file. Where it is none of its own, or cut off, or there is none, the end doesn't start.
pub fn found<P: Place>(place: &P, name: &Name, side: Side) -> Result<Kept, FileFault> {
    found_in(place.read(), name, side)
}
