//! The record of a panel.

ghost use Rattle.std.specs.Prelude.{◌≡◌};

use run_files::RecordFile;
use std::io;
use std::io::{BufWriter, Write};

/// The record of a panel, in parts or whole. It is a type with one lifetime: a type that names more of them doesn't go yet to what is
/// called with the page of a panel, whose text is a constant.
#[derive(Drop)]
pub(crate) struct PanelRecord<'a> {
    file: BufWriter<RecordFile<'a, HostRuntime>>,
}

impl<'a> PanelRecord<'a> {
    /// The record that this file is.
    pub(crate) fn of(file: BufWriter<RecordFile<'a, HostRuntime>>) -> PanelRecord<'a>
        ensures { result.file ≡ file.entry }
    {
        PanelRecord { file }
    }
}

impl<'a> Write for PanelRecord<'a> {
    fn write(&mut self, bytes: &[u8]) -> io::Result<usize> {
        self.file.write(bytes)
    }

    fn flush(&mut self) -> io::Result<()> {
        self.file.flush()
    }
}
