//! The table of a layout.

ghost use Rattle.std.specs.Prelude.{◌≡◌, IsErr, IfErr, IfOk};
ghost use Rattle.control_table.specs.layout.Entries.{Site};
ghost use Rattle.station_check.specs.Report.{IsSound};
ghost use Rattle.station_check.specs.Failures.{ExplainsTable};

use crate::failure::Failure;
use control_table::{Checked, Layout, check};
use std::alloc::Global;

/// The table of a layout, where it is sound; otherwise its first fault, or the text's.
pub fn table_of(alloc: Global, text: &str) -> Result<Checked, Failure>
    ensures sound { IfOk result (IsSound text.now) }
    ensures faulty { ((site : Site) → IsSound text.now site → ⊥) → IsErr result }
    ensures explains { IfErr result (ExplainsTable text.now) }
{
    let layout = Layout::read(alloc, text)?;
    let table = check(alloc, layout)?;
    Ok(table)
}
