//! The capture of a recorded session, in a file of its own.

ghost use Rattle.std.specs.Prelude.{◌≡◌, ◌≤◌, IsErr, IfErr, OnOk};
ghost use Rattle.replay.specs.ReplayedSession.{CanReplay};
ghost use Rattle.replay.specs.station_check.Failures.{Failed};
ghost use Rattle.station_record.specs.CaptureFiles.{Explains, HasCapture};

use crate::capture::session_capture;
use capture_file::{Endpoint, write_file};
use replay::{Failure, tell};
use std::fs::Files;
use std::io::Write;

/// What `station capture` is asked: the texts of the layout and of the record, where the nodes are found, where the capture
/// goes, and whether a file that is there is written over.
#[derive(Clone, Copy)]
pub struct CaptureOptions<'a> {
    pub layout: &'a str,
    pub recording: &'a str,
    /// Where the first nodes are found; an address of each other is made of its place.
    pub endpoints: &'a [Endpoint],
    /// The path of the capture.
    pub out: &'a str,
    pub force: bool,
}

/// Makes the capture of a recorded session as `capture_session` does, and writes it to a file. The file is opened once the
/// whole capture is there: where a text is faulty, none is made and none is written over. A file that is there already is
/// written over only where that is wanted. The status is 0, or 1 where anything failed; `err` is then told why.
pub fn capture_to_file<R: Files + AllocGlobal, E: Write>(
    rt: &R,
    asked: &CaptureOptions<'_>,
    err: &mut E,
) -> u8
    ensures status { result ≤ 1 }
    ensures done { result ≡ 0 → HasCapture asked.now.layout.now asked.now.recording.now asked.now.endpoints.now }
    ensures faulty { (CanReplay asked.now.layout.now asked.now.recording.now → ⊥) → result ≡ 1 }
    ensures silent { result ≡ 0 → err.new ≡ err.old }
    // Only a beginning of the line was told where a write to `err` failed.
    ensures explains { result ≡ 1 → Failed (Explains asked.now.layout.now asked.now.recording.now asked.now.endpoints.now) result (E.contents err.old) (E.contents err.new) }
{
    match write_capture(rt, asked) {
        Ok(()) => 0,
        Err(failure) => tell(&failure, err),
    }
}

/// Makes the capture, and then writes its file.
fn write_capture<R: Files + AllocGlobal>(rt: &R, asked: &CaptureOptions<'_>) -> Result<(), Failure>
    ensures done { OnOk result (HasCapture asked.now.layout.now asked.now.recording.now asked.now.endpoints.now) }
    ensures faulty { (CanReplay asked.now.layout.now asked.now.recording.now → ⊥) → IsErr result }
    ensures explains { IfErr result (Explains asked.now.layout.now asked.now.recording.now asked.now.endpoints.now) }
{
    let capture = session_capture(rt.alloc(), asked.layout, asked.recording, asked.endpoints)?;
    write_file(rt, asked.out, asked.force, &capture)?;
    Ok(())
}
