//! A place in memory, for tests.

ghost use Rattle.std.specs.Prelude.{◌≡◌, ◌≤◌, ◌⊎◌, None, Some, IfErr, IfOk, IsOk, false};
ghost use Rattle.whole_file.specs.Disk.{Disk, bytes_of, cut, replaced, settled, synced, written};

use crate::place::Place;
use std::alloc::{AllocError, Global};
use std::io;
use std::marker::Model;

/// A file in memory.
#[derive(Drop)]
struct MemoryFile {
    bytes: Vec<u8>,
    synced: bool,
}

/// A place in memory. A call of it fails when it is told to, and its power can be cut.
#[derive(Drop)]
pub struct MemoryPlace {
    alloc: Global,
    fresh: Option<MemoryFile>,
    own: Option<MemoryFile>,
    durable: Option<MemoryFile>,
    /// How many calls are done before one fails, none where no call fails.
    before_failure: Option<u32>,
    /// The call that fails has its effect all the same.
    happens: bool,
}

impl MemoryFile {
    fn copy(&self) -> Result<MemoryFile, AllocError> {
        Ok(MemoryFile {
            bytes: self.bytes.clone()?,
            synced: self.synced,
        })
    }
}

fn copied(file: &Option<MemoryFile>) -> Result<Option<MemoryFile>, AllocError> {
    match file {
        Some(file) => Ok(Some(file.copy()?)),
        None => Ok(None),
    }
}

impl MemoryPlace {
    /// A place at which no file is.
    pub fn new(alloc: Global) -> MemoryPlace {
        MemoryPlace {
            alloc,
            fresh: None,
            own: None,
            durable: None,
            before_failure: None,
            happens: false,
        }
    }

    /// So many calls are done, and the next one fails; where `happens`, it has its effect all the same. The calls
    /// behind it are done.
    pub fn fail_after(&mut self, count: u32, happens: bool) {
        self.before_failure = Some(count);
        self.happens = happens;
    }

    /// What the own name leads to outlives a cut of the power from now on, without a call.
    pub fn settle(&mut self) -> Result<(), AllocError> {
        self.durable = copied(&self.own)?;
        Ok(())
    }

    /// The power is cut. The new name leads to nothing then, and a file that wasn't synced has these bytes.
    pub fn cut_power(&mut self, any: &[u8]) -> Result<(), AllocError> {
        let left = match self.durable.take() {
            Some(file) if !file.synced => Some(MemoryFile {
                bytes: Vec::from_slice(self.alloc, any)?,
                synced: true,
            }),
            file => file,
        };
        self.own = copied(&left)?;
        self.durable = left;
        self.fresh = None;
        Ok(())
    }

    /// Whether the next call is done.
    fn is_next_done(&mut self) -> bool {
        match self.before_failure {
            None => true,
            Some(0) => {
                self.before_failure = None;
                false
            }
            Some(count) => {
                self.before_failure = Some(count - 1);
                true
            }
        }
    }
}

/// The answer of a call.
fn answer(done: bool) -> io::Result<()> {
    if done {
        Ok(())
    } else {
        Err(io::Error::from(io::ErrorKind::Other))
    }
}

impl Place for MemoryPlace {
    ghost calls = { λ _. None };

    fn write_new(&mut self, bytes: &[u8]) -> io::Result<()> {
        let done = self.is_next_done();
        if done || self.happens {
            self.fresh = Some(MemoryFile {
                bytes: Vec::from_slice(self.alloc, bytes)?,
                synced: false,
            });
        }
        answer(done)
    }

    fn sync_new(&mut self) -> io::Result<()> {
        let done = self.is_next_done();
        if done || self.happens {
            self.fresh = match self.fresh.take() {
                Some(file) => Some(MemoryFile {
                    bytes: file.bytes,
                    synced: true,
                }),
                None => None,
            };
        }
        answer(done)
    }

    fn replace(&mut self) -> io::Result<()> {
        let done = self.is_next_done();
        if done || self.happens {
            self.own = self.fresh.take();
        }
        answer(done)
    }

    fn sync_folder(&mut self) -> io::Result<()> {
        let done = self.is_next_done();
        if done || self.happens {
            self.settle()?;
        }
        answer(done)
    }

    fn read(&self) -> io::Result<Option<Vec<u8>>> {
        match &self.own {
            Some(file) => Ok(Some(file.bytes.clone()?)),
            None => Ok(None),
        }
    }
}
