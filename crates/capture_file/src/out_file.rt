//! A capture in a file of its own.

ghost use Rattle.std.specs.Prelude.{IfErr};
ghost use Rattle.capture_file.specs.Faults.{IsOfFile};

use crate::fault::CaptureFault;
use std::fs::{File, Files};
use std::io::Write;
use std::{fs, io};

/// Writes these bytes to the file of this path, and nothing else. Only with `force` is a file written over that is there already.
pub fn write_file<R: Files>(
    rt: &R,
    path: &str,
    force: bool,
    bytes: &[u8],
) -> Result<(), CaptureFault>
    ensures { IfErr result IsOfFile }
{
    match written(rt, path, force, bytes) {
        Ok(()) => Ok(()),
        Err(error) if error.kind() == io::ErrorKind::AlreadyExists => Err(CaptureFault::Exists),
        Err(_) => Err(CaptureFault::CannotWrite),
    }
}

/// The same, with the error of the system.
fn written<R: Files>(rt: &R, path: &str, force: bool, bytes: &[u8]) -> io::Result<()> {
    let mut file = if force {
        fs::create(rt, path)?
    } else {
        File::create_new(rt, path)?
    };
    file.write_all(bytes)?;
    file.flush()
}
