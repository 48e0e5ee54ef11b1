//! The control table of a text, with what is wrong written where there is none.

ghost use Rattle.std.specs.Prelude.{◌≡◌, ◌≤◌, IsErr, IfErr, IfOk, OnOk};
ghost use Rattle.control_table.specs.layout.Entries.{Site};
ghost use Rattle.station_check.specs.Failures.{Explained, Leaves};
ghost use Rattle.station_check.specs.Report.{IsSound};
ghost use Rattle.station_layout.specs.Lines.{IsTable};
ghost use Rattle.station_layout.specs.Table.{Explains, Tabled};

use crate::form::Form;
use crate::lines::lines;
use station_check::{Failure, table_of, tell};
use std::alloc::Global;
use std::io::Write;

/// Writes the control table of the text of a layout. Where it is sound, the table is written to `out`, and the status
/// is 0. Where it isn't sound, or the text is no layout, or memory is lacking, `out` stays as it is, `err` is told so
/// as `station check` tells it, and the status is 1. It is 1 also where the table couldn't be written to its end, of
/// which nothing is told.
pub fn table_text<W: Write, E: Write>(
    alloc: Global,
    layout: &str,
    form: Form,
    out: &mut W,
    err: &mut E,
) -> u8
    ensures status { result ≤ 1 }
    ensures done { result ≡ 0 → (site : Site) × IsSound layout.now site × Tabled form site (W.contents out.old) (W.contents out.new) }
    ensures faulty { ((site : Site) → IsSound layout.now site → ⊥) → (result ≡ 1) × (out.new ≡ out.old) }
    ensures silent { result ≡ 0 → err.new ≡ err.old }
    // Only a beginning of the line was told where a write to `err` failed.
    ensures explains { result ≡ 1 → Explained (Explains layout.now) result out.old out.new (E.contents err.old) (E.contents err.new) }
{
    match write_table(alloc, layout, form, out) {
        Ok(()) => 0,
        Err(failure) => tell(&failure, err),
    }
}

/// The control table of a text.
fn table_lines(alloc: Global, text: &str, form: Form) -> Result<Vec<u8>, Failure>
    ensures is { IfOk result (λ lines. (site : Site) × IsSound text.now site × IsTable form site lines.items) }
    ensures explains { IfErr result (Explains text.now) }
{
    let table = table_of(alloc, text)?;
    let lines = lines(alloc, form, &table);
    drop(table);
    Ok(lines?)
}

/// Writes the control table of a text at once.
fn write_table<W: Write>(alloc: Global, text: &str, form: Form, out: &mut W) -> Result<(), Failure>
    ensures done { OnOk result ((site : Site) × IsSound text.now site × Tabled form site (W.contents out.old) (W.contents out.new)) }
    ensures faulty { ((site : Site) → IsSound text.now site → ⊥) → IsErr result × (out.new ≡ out.old) }
    ensures explains { IfErr result (λ failure. Explains text.now failure × Leaves failure out.old out.new) }
{
    let lines = table_lines(alloc, text, form)?;
    out.write_all(&lines)?;
    out.flush()?;
    Ok(())
}
