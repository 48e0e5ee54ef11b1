//! The lines of a file, carried out on a station.

ghost use Rattle.std.specs.Prelude.{◌≡◌, IsErr, IfErr, OnOk};
ghost use Rattle.station_check.specs.Failures.{IsLate, LeavesParts};
ghost use Rattle.replay.specs.Transcript.{CanPlay, Explains, IsPlayed, IsTold};

use crate::line::carry_out;
use crate::outset::Outset;
use crate::run::Run;
use replay_lines::{SimLine, read_lines};
use simulator::Checked;
use station_check::{Failure, table_of};
use std::alloc::Global;
use std::io::Write;

/// Judges the texts, and then plays the lines.
pub(crate) fn play<W: Write>(
    alloc: Global,
    layout: &str,
    events: &str,
    out: &mut W,
) -> Result<(), Failure>
    ensures done { OnOk result (IsPlayed layout.now events.now (W.contents out.old) (W.contents out.new)) }
    ensures faulty { (CanPlay layout.now events.now → ⊥) → IsErr result × (out.new ≡ out.old) }
    ensures explains { IfErr result (λ failure. Explains layout.now events.now failure × LeavesParts failure out.old out.new) }
{
    let table = table_of(alloc, layout)?;
    let lines = read_lines(alloc, &table, events)?;
    perform(alloc, table, &lines, out)
}

/// Carries out lines on a station of this table, which lies as they say when it is started.
fn perform<W: Write>(
    alloc: Global,
    table: Checked,
    lines: &[SimLine],
    out: &mut W,
) -> Result<(), Failure>
    ensures done { OnOk result (IsTold table lines.now (W.contents out.old) (W.contents out.new)) }
    ensures failed { IfErr result IsLate }
{
    let outset = Outset::of(alloc, table.layout(), lines)?;
    let mut run = Run::at(alloc, table, &outset)?;
    for line in lines {
        carry_out(alloc, &mut run, line, out)?;
    }
    out.flush()?;
    Ok(())
}
