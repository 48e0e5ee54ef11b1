//! The texts of a layout and of a session on it.

ghost use Rattle.std.specs.Prelude.{IsErr, IfErr, IfOk, OnOk};
ghost use Rattle.replay.specs.ReplayedSession.{CanReplay, Explains};
ghost use Rattle.station_record.specs.inside.SoundTexts.{AreTexts};

use control_table::Checked;
use replay::{Entry, Failure, read_session, table_of};
use std::alloc::Global;

/// A layout's table, and a session on it.
#[derive(Drop)]
pub(crate) struct Texts {
    pub(crate) table: Checked,
    pub(crate) entries: Vec<Entry>,
}

/// Judges the text of a layout, and then that of a session on it.
pub(crate) fn read_texts(alloc: Global, layout: &str, recording: &str) -> Result<Texts, Failure>
    ensures read { IfOk result (λ texts. AreTexts layout.now recording.now texts.table texts.entries.items) }
    ensures replays { OnOk result (CanReplay layout.now recording.now) }
    ensures faulty { (CanReplay layout.now recording.now → ⊥) → IsErr result }
    ensures explains { IfErr result (Explains layout.now recording.now) }
{
    let table = table_of(alloc, layout)?;
    let entries = read_session(alloc, &table, recording)?;
    Ok(Texts { table, entries })
}
