//! A place on the disk.

ghost use Rattle.std.specs.Prelude.{None};

use crate::place::Place;
use std::alloc::AllocError;
use std::fs::{File, Files, OpenFile};
use std::io::{Read, Write};
use std::path::Path;
use std::{fs, io};

/// The place of a file on the disk. Its new name is its own with `.new` behind it.
#[derive(Drop)]
pub struct DiskPlace<'a, R: Files + AllocGlobal> {
    rt: &'a R,
    path: String,
    fresh: String,
    folder: String,
    /// The file under the new name, from its write until it is synced.
    open: Option<R::File>,
}

/// The folder in which a file of this path stands.
fn folder_of(path: &str) -> &str {
    match Path::new(path).parent() {
        Some(folder) => match folder.to_str() {
            Some("") | None => ".",
            Some(folder) => folder,
        },
        None => ".",
    }
}

impl<'a, R: Files + AllocGlobal> DiskPlace<'a, R> {
    pub fn new(rt: &'a R, path: &str) -> Result<DiskPlace<'a, R>, AllocError> {
        Ok(DiskPlace {
            rt,
            path: String::from_str(rt.alloc(), path)?,
            fresh: format!(in rt.alloc(); "{path}.new")?,
            folder: String::from_str(rt.alloc(), folder_of(path))?,
            open: None,
        })
    }

    /// What an earlier keep left under the new name is removed: that name may lead to a file which another name leads to
    /// as well, and which isn't to be written to.
    fn remove_new(&self) -> io::Result<()> {
        match fs::remove_file(self.rt, self.fresh.as_str()) {
            Err(error) if error.kind() != io::ErrorKind::NotFound => Err(error),
            _ => Ok(()),
        }
    }
}

impl<'a, R: Files + AllocGlobal> Place for DiskPlace<'a, R> {
    ghost calls = { λ _. None };

    fn write_new(&mut self, bytes: &[u8]) -> io::Result<()> {
        self.open = None;
        self.remove_new()?;
        let mut file = File::create_new(self.rt, self.fresh.as_str())?;
        file.write_all(bytes)?;
        self.open = Some(file);
        Ok(())
    }

    fn sync_new(&mut self) -> io::Result<()> {
        match self.open.take() {
            Some(file) => file.sync_all(),
            None => Err(io::Error::from(io::ErrorKind::NotFound)),
        }
    }

    fn replace(&mut self) -> io::Result<()> {
        fs::rename(self.rt, self.fresh.as_str(), self.path.as_str())
    }

    /// A folder is opened and synced as a file is.
    fn sync_folder(&mut self) -> io::Result<()> {
        File::open(self.rt, self.folder.as_str())?.sync_all()
    }

    fn read(&self) -> io::Result<Option<Vec<u8>>> {
        let mut file = match File::open(self.rt, self.path.as_str()) {
            Err(error) if error.kind() == io::ErrorKind::NotFound => return Ok(None),
            opened => opened?,
        };
        let mut bytes = Vec::new(self.rt.alloc());
        file.read_to_end(&mut bytes)?;
        Ok(Some(bytes))
    }
}
