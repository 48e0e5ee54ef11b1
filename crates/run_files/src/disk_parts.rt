//! Parts on the disk.

ghost use Rattle.std.specs.Prelude.{None};

use crate::in_parts::InParts;
use crate::names::part_name;
use crate::part_files::PartFiles;
use std::alloc::AllocError;
use std::fs::{File, Files};
use std::io::Write;
use std::{fs, io};

/// The parts of a text as files: `R`, `R.2`, `R.3` and so on. What the disk holds isn't told.
#[derive(Drop)]
pub struct DiskParts<'a, R: Files + AllocGlobal> {
    rt: &'a R,
    path: String,
    /// The number of the last part.
    number: u64,
    file: R::File,
}

impl<'a, R: Files + AllocGlobal> PartFiles for DiskParts<'a, R> {
    ghost parts = { λ _. None };

    /// A file that is there already isn't written over.
    fn begin(&mut self) -> io::Result<()> {
        let number = self.number.saturating_add(1);
        let name = part_name(self.rt.alloc(), self.path.as_str(), number)?;
        self.file = File::create_new(self.rt, name.as_str())?;
        self.number = number;
        Ok(())
    }

    fn append(&mut self, bytes: &[u8]) -> io::Result<usize> {
        self.file.write(bytes)
    }

    fn flush(&mut self) -> io::Result<()> {
        self.file.flush()
    }
}

/// A record on the disk, in parts or whole.
pub type RecordFile<'a, R> = InParts<DiskParts<'a, R>>;

/// Begins a record. With a size it stands in parts of so many bytes, and a first or a second part that is there already is refused.
/// Without one it stands in one file, in the place of what stood there.
pub fn record_file<'a, R: Files + AllocGlobal>(
    rt: &'a R,
    path: &str,
    size: Option<u64>,
) -> io::Result<RecordFile<'a, R>> {
    let file = match size {
        Some(_) => fresh_file(rt, path)?,
        None => fs::create(rt, path)?,
    };
    let parts = DiskParts {
        rt,
        path: String::from_str(rt.alloc(), path)?,
        number: 1,
        file,
    };
    // No file has as many bytes as the number that stands for one part.
    Ok(InParts::new(parts, size.unwrap_or(u64::MAX)))
}

/// The first part of a record, where neither it nor a second one is there.
fn fresh_file<R: Files + AllocGlobal>(rt: &R, path: &str) -> io::Result<R::File> {
    if file_there(rt, path)?.is_some() {
        return Err(io::Error::from(io::ErrorKind::AlreadyExists));
    }
    File::create_new(rt, path)
}

/// The name of the file that keeps a record in parts from beginning, if one does: its first or its second part, which is there
/// already.
pub fn file_there<R: Files + AllocGlobal>(
    rt: &R,
    path: &str,
) -> Result<Option<String>, AllocError> {
    for number in 1..3 {
        let name = part_name(rt.alloc(), path, number)?;
        if let Ok(true) = fs::exists(rt, name.as_str()) {
            return Ok(Some(name));
        }
    }
    Ok(None)
}
