//! The texts of a layout and of a node's record.

ghost use Rattle.std.specs.Prelude.{IfErr, IfOk, OnOk};
ghost use Rattle.node_record.specs.DecodedRecord.{CanRead, ExplainsRecord};
ghost use Rattle.node_record.specs.inside.SoundTexts.{AreTexts};

use crate::record::{Record, read_record};
use control_table::Checked;
use station_check::{Failure, table_of};
use std::alloc::Global;

/// A layout's table, and the record of a node of it.
#[derive(Drop)]
pub(crate) struct Texts {
    pub(crate) table: Checked,
    pub(crate) read: Record,
}

/// Judges the text of a layout, and then that of the record of a node of this name.
pub(crate) fn read_texts(
    alloc: Global,
    layout: &str,
    name: &str,
    recording: &str,
) -> Result<Texts, Failure>
    ensures read { IfOk result (λ texts. AreTexts layout.now name.now recording.now texts.table texts.read) }
    ensures reads { OnOk result (CanRead layout.now name.now recording.now) }
    ensures explains { IfErr result (ExplainsRecord layout.now name.now recording.now) }
{
    let table = table_of(alloc, layout)?;
    match read_record(alloc, table.layout(), name, recording) {
        Ok(read) => Ok(Texts { table, read }),
        Err(fault) => {
            drop(table);
            Err(Failure::Line(fault))
        }
    }
}
