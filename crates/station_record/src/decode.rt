//! A recorded session, put into words.

ghost use Rattle.std.specs.Prelude.{◌≡◌, ◌≤◌, IsErr, IfErr, OnOk};
ghost use Rattle.replay.specs.ReplayedSession.{CanReplay, Explains};
ghost use Rattle.replay.specs.station_check.Failures.{ExplainedParts, IsLate, LeavesParts};
ghost use Rattle.std.specs.Io.KnownBytes.{Appends};
ghost use Rattle.replay.specs.World.{played};
ghost use Rattle.station_record.specs.DecodedSession.{IsDecoded, IsTold};
ghost use Rattle.station_record.specs.Lines.{lines_text};
ghost use Rattle.station_record.specs.Traffic.{traffic};

use crate::event_lines::event_lines;
use crate::texts::{Texts, read_texts};
use control_table::Checked;
use replay::{Entry, Failure, World, first_world, tell};
use std::alloc::Global;
use std::io::Write;

/// Applies a recorded session again to a new world of this layout, and writes to `out` what goes over its network: a line
/// for each datagram that is sent, and for each that is delivered or lost, in their order. The recorded answers aren't
/// looked at. Both texts are judged before the first event, the layout first: where one is faulty, `out` stays as it is.
/// The status is 0, or 1 where anything failed; `err` is then told why, unless a line couldn't be written.
pub fn decode_session_text<W: Write, E: Write>(
    alloc: Global,
    layout: &str,
    recording: &str,
    out: &mut W,
    err: &mut E,
) -> u8
    ensures status { result ≤ 1 }
    ensures done { result ≡ 0 → IsDecoded layout.now recording.now (W.contents out.old) (W.contents out.new) }
    ensures faulty { (CanReplay layout.now recording.now → ⊥) → (result ≡ 1) × (out.new ≡ out.old) }
    ensures silent { result ≡ 0 → err.new ≡ err.old }
    // Only a beginning of the line was told where a write to `err` failed.
    ensures explains { result ≡ 1 → ExplainedParts (Explains layout.now recording.now) result out.old out.new (E.contents err.old) (E.contents err.new) }
{
    match decode(alloc, layout, recording, out) {
        Ok(()) => 0,
        Err(failure) => tell(&failure, err),
    }
}

/// Judges the texts, and then writes the traffic of the session.
fn decode<W: Write>(
    alloc: Global,
    layout: &str,
    recording: &str,
    out: &mut W,
) -> Result<(), Failure>
    ensures done { OnOk result (IsDecoded layout.now recording.now (W.contents out.old) (W.contents out.new)) }
    ensures faulty { (CanReplay layout.now recording.now → ⊥) → IsErr result × (out.new ≡ out.old) }
    ensures explains { IfErr result (λ failure. Explains layout.now recording.now failure × LeavesParts failure out.old out.new) }
{
    let texts = read_texts(alloc, layout, recording)?;
    let Texts { table, entries } = texts;
    write_traffic(alloc, table, &entries, out)?;
    Ok(())
}

/// Writes what goes over the network of a new world of this table as a session is applied to it.
fn write_traffic<W: Write>(
    alloc: Global,
    table: Checked,
    entries: &[Entry],
    out: &mut W,
) -> Result<(), Failure>
    ensures done { OnOk result (IsTold table entries.now (W.contents out.old) (W.contents out.new)) }
    ensures failed { IfErr result IsLate }
{
    let mut world = first_world(alloc, table)?;
    let written = write_events(alloc, &mut world, entries, out);
    drop(world);
    written
}

/// Applies a session to a world, and writes what goes over its network by that.
fn write_events<W: Write>(
    alloc: Global,
    world: &mut World,
    entries: &[Entry],
    out: &mut W,
) -> Result<(), Failure>
    ensures done { OnOk result (Appends (W.contents out.old) (W.contents out.new) (lines_text (played world.old).sited.site (traffic (played world.old) entries.now))) }
    ensures failed { IfErr result IsLate }
{
    for entry in entries {
        let text = event_lines(alloc, world, &entry.event)?;
        out.write_all(text.as_str().as_bytes())?;
    }
    out.flush()?;
    Ok(())
}
