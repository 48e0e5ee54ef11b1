//! A recorded session as a capture.

ghost use Rattle.std.specs.Prelude.{◌≡◌, ◌≤◌, IsErr, IfErr, IfOk, OnOk};
ghost use Rattle.replay.specs.ReplayedSession.{CanReplay};
ghost use Rattle.replay.specs.World.{played};
ghost use Rattle.replay.specs.station_check.Failures.{Explained, Leaves};
ghost use Rattle.station_record.specs.CapturedSession.{Explains, IsCaptureOf, IsCaptured, IsFileOf, IsSessionCapture};
ghost use Rattle.station_record.specs.Traffic.{left_by};
ghost use Rattle.station_record.specs.inside.CapturesSoFar.{IsNoCapture, IsNoFile};

use crate::replayed::apply_all;
use crate::sent_captured::capture_of;
use crate::texts::{Texts, read_texts};
use capture_file::Endpoint;
use control_table::Checked;
use replay::{Entry, Failure, World, first_world, tell};
use std::alloc::Global;
use std::io::Write;

/// Applies a recorded session again to a new world of this layout, and writes to `out` a capture of the datagrams that are
/// sent, each at its true time from its sender to its receiver, those that are lost with a comment that says so. The
/// recorded answers aren't looked at. The first nodes are found where that is given, and an address of each other is made of
/// its place. Both texts are judged before the first event, the layout first. The status is 0, or 1
/// where anything failed; then `err` is told why, unless the capture couldn't be written, and `out` stays as it is, unless
/// the capture was begun.
pub fn capture_session<W: Write, E: Write>(
    alloc: Global,
    layout: &str,
    recording: &str,
    endpoints: &[Endpoint],
    out: &mut W,
    err: &mut E,
) -> u8
    ensures status { result ≤ 1 }
    ensures done { result ≡ 0 → IsCaptured layout.now recording.now endpoints.now (W.contents out.old) (W.contents out.new) }
    ensures faulty { (CanReplay layout.now recording.now → ⊥) → (result ≡ 1) × (out.new ≡ out.old) }
    ensures silent { result ≡ 0 → err.new ≡ err.old }
    // Only a beginning of the line was told where a write to `err` failed.
    ensures explains { result ≡ 1 → Explained (Explains layout.now recording.now) result out.old out.new (E.contents err.old) (E.contents err.new) }
{
    match capture(alloc, layout, recording, endpoints, out) {
        Ok(()) => 0,
        Err(failure) => tell(&failure, err),
    }
}

/// Writes the capture of a session.
fn capture<W: Write>(
    alloc: Global,
    layout: &str,
    recording: &str,
    endpoints: &[Endpoint],
    out: &mut W,
) -> Result<(), Failure>
    ensures done { OnOk result (IsCaptured layout.now recording.now endpoints.now (W.contents out.old) (W.contents out.new)) }
    ensures faulty { (CanReplay layout.now recording.now → ⊥) → IsErr result × (out.new ≡ out.old) }
    ensures explains { IfErr result (λ failure. Explains layout.now recording.now failure × Leaves failure out.old out.new) }
{
    let file = session_capture(alloc, layout, recording, endpoints)?;
    out.write_all(&file)?;
    out.flush()?;
    Ok(())
}

/// Judges the texts, and then makes the capture of the session.
pub(crate) fn session_capture(
    alloc: Global,
    layout: &str,
    recording: &str,
    endpoints: &[Endpoint],
) -> Result<Vec<u8>, Failure>
    ensures done { IfOk result (λ file. IsSessionCapture layout.now recording.now endpoints.now file.items) }
    ensures replays { OnOk result (CanReplay layout.now recording.now) }
    ensures faulty { (CanReplay layout.now recording.now → ⊥) → IsErr result }
    ensures explains { IfErr result (Explains layout.now recording.now) }
{
    let texts = read_texts(alloc, layout, recording)?;
    let Texts { table, entries } = texts;
    let file = file_of(alloc, table, &entries, endpoints)?;
    Ok(file)
}

/// The capture of what is sent on the network of a new world of this table as a session is applied to it.
fn file_of(
    alloc: Global,
    table: Checked,
    entries: &[Entry],
    endpoints: &[Endpoint],
) -> Result<Vec<u8>, Failure>
    ensures is { IfOk result (λ file. IsFileOf table entries.now endpoints.now file.items) }
    ensures failed { IfErr result (IsNoFile table entries.now) }
{
    let mut world = first_world(alloc, table)?;
    let file = capture_behind(alloc, &mut world, entries, endpoints);
    drop(world);
    file
}

/// Applies a session to a world, and makes the capture of all that was sent on its network.
fn capture_behind(
    alloc: Global,
    world: &mut World,
    entries: &[Entry],
    endpoints: &[Endpoint],
) -> Result<Vec<u8>, Failure>
    ensures is { IfOk result (λ file. IsCaptureOf endpoints.now (left_by (played world.old) entries.now).run.sent file.items) }
    ensures failed { IfErr result (IsNoCapture (left_by (played world.old) entries.now).run.sent) }
{
    apply_all(world, entries)?;
    capture_of(alloc, world.network(), endpoints)
}
