//! The check of a text, with what it finds written.

ghost use Rattle.std.specs.Prelude.{◌≡◌, ◌≤◌, IsErr, IfErr, OnOk};
ghost use Rattle.control_table.specs.layout.Entries.{Site};
ghost use Rattle.station_check.specs.Failures.{Explained, ExplainsReport, Leaves};
ghost use Rattle.station_check.specs.Report.{IsSound, Reported};

use crate::failure::{Failure, tell};
use crate::report::write_report;
use control_table::{Layout, check};
use std::alloc::Global;
use std::io::Write;

/// Checks the text of a layout. Where its control table is sound, the size of the station and its
/// conflicting routes are written to `out`, and the status is 0. Where it isn't sound, or the text is no
/// layout, `out` stays as it is, `err` is told the first fault, and the status is 1. It is 1 also where the
/// report couldn't be written to its end, of which nothing is told.
pub fn check_text<W: Write, E: Write>(alloc: Global, layout: &str, out: &mut W, err: &mut E) -> u8
    ensures status { result ≤ 1 }
    ensures done { result ≡ 0 → (site : Site) × IsSound layout.now site × Reported site (W.contents out.old) (W.contents out.new) }
    ensures faulty { ((site : Site) → IsSound layout.now site → ⊥) → (result ≡ 1) × (out.new ≡ out.old) }
    ensures silent { result ≡ 0 → err.new ≡ err.old }
    // Only a beginning of the line was told where a write to `err` failed.
    ensures explains { result ≡ 1 → Explained (ExplainsReport layout.now) result out.old out.new (E.contents err.old) (E.contents err.new) }
{
    match report(alloc, layout, out) {
        Ok(()) => 0,
        Err(failure) => tell(&failure, err),
    }
}

fn report<W: Write>(alloc: Global, text: &str, out: &mut W) -> Result<(), Failure>
    ensures done { OnOk result ((site : Site) × IsSound text.now site × Reported site (W.contents out.old) (W.contents out.new)) }
    ensures faulty { ((site : Site) → IsSound text.now site → ⊥) → IsErr result × (out.new ≡ out.old) }
    ensures explains { IfErr result (λ failure. ExplainsReport text.now failure × Leaves failure out.old out.new) }
{
    let layout = Layout::read(alloc, text)?;
    let table = check(alloc, layout)?;
    write_report(&table, out)?;
    Ok(())
}
