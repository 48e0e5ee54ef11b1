//! What the desk of a drawing has outside: a file on the disk, the check, and ports of the loopback interface.

use crate::text_judge::verdict_of;
use draw_desk::{Loopback, Outside, OwnText, Verdict};
use limited_text::{Content, file_text};
use std::alloc::{AllocError, Global};
use std::{fs, io};
use whole_file::{DiskPlace, NotKept, keep};

/// A file that is drawn, and the port that was opened for a panel of it.
#[derive(Drop)]
pub(crate) struct DrawnFile<'a> {
    rt: &'a HostRuntime,
    path: &'a str,
    listener: Option<Loopback>,
}

impl<'a> DrawnFile<'a> {
    pub(crate) fn new(rt: &'a HostRuntime, path: &'a str) -> DrawnFile<'a> {
        DrawnFile {
            rt,
            path,
            listener: None,
        }
    }

    /// The port that was opened for a panel, if one was.
    pub(crate) fn take_listener(&mut self) -> Option<Loopback> {
        self.listener.take()
    }
}

impl<'a> Outside for DrawnFile<'a> {
    ghost use Rattle.std.specs.Prelude.{◌≡◌, None};
    ghost use Rattle.station_run.specs.station_record.replay.layout.Entries.{Site};
    ghost use Rattle.station_run.specs.station_record.replay.station_check.Report.{IsSound};

    ghost calls = { λ _. None };

    // So a panel is started of a sound layout alone.
    ghost judges = { λ text verdict. verdict.status ≡ 0 → (site : Site) × IsSound text site };

    fn judge(&self, alloc: Global, text: &str) -> Result<Verdict, AllocError> {
        verdict_of(alloc, text)
    }

    fn read(&mut self) -> io::Result<Option<OwnText>> {
        if !fs::exists(self.rt, self.path)? {
            return Ok(None);
        }
        match file_text(self.rt, self.path, Content::Layout) {
            Ok(text) => Ok(Some(OwnText::new(text))),
            Err(_) => Err(io::Error::from(io::ErrorKind::InvalidData)),
        }
    }

    fn write(&mut self, text: &str) -> io::Result<()> {
        let mut place = DiskPlace::new(self.rt, self.path)?;
        match keep(&mut place, text.as_bytes()) {
            Ok(()) => Ok(()),
            Err(NotKept { call: _, error }) => Err(error),
        }
    }

    fn open_port(&mut self) -> io::Result<u16> {
        let listener = Loopback::open(self.rt, 0)?;
        let port = listener.address()?.port();
        self.listener = Some(listener);
        Ok(port)
    }
}
