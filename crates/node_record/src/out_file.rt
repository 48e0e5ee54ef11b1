//! The capture of a node's record, in a file of its own.

ghost use Rattle.std.specs.Prelude.{◌≡◌, ◌≤◌};
ghost use Rattle.station_check.specs.Failures.{Failed};
ghost use Rattle.node_record.specs.CapturedRecord.{Explains, HasCapture};
ghost use Rattle.node_record.specs.DecodedRecord.{CanRead};
ghost use Rattle.node_record.specs.NodeEnds.{ends_of};

use crate::capture::node_capture;
use crate::node_ends::NodeEnds;
use capture_file::write_file;
use station_check::{Failure, tell};
use std::fs::Files;
use std::io::Write;

/// What `station capture` is asked of a node's record: the texts of the layout and of the record, the name of the node, where the
/// nodes are found, where the capture goes, and whether a file that is there is written over.
#[derive(Clone, Copy)]
pub struct NodeCaptureOptions<'a> {
    pub layout: &'a str,
    pub name: &'a str,
    pub recording: &'a str,
    /// Where the nodes are found.
    pub ends: NodeEnds<'a>,
    /// The path of the capture.
    pub out: &'a str,
    pub force: bool,
}

/// Makes the capture of a node's record as `node_capture` does, and writes it to a file. The file is opened once the whole capture
/// is there: where a text is faulty, none is made and none is written over. A file that is there already is written over only
/// where that is wanted. The status is 0, or 1 where anything failed; `err` is then told why.
pub fn capture_node_to_file<R: Files + AllocGlobal, E: Write>(
    rt: &R,
    asked: &NodeCaptureOptions<'_>,
    err: &mut E,
) -> u8
    ensures status { result ≤ 1 }
    ensures done { result ≡ 0 → HasCapture asked.now.layout.now asked.now.name.now asked.now.recording.now (ends_of asked.now.ends) }
    ensures faulty { (CanRead asked.now.layout.now asked.now.name.now asked.now.recording.now → ⊥) → result ≡ 1 }
    ensures silent { result ≡ 0 → err.new ≡ err.old }
    // Only a beginning of the line was told where a write to `err` failed.
    ensures explains { result ≡ 1 → Failed (Explains asked.now.layout.now asked.now.name.now asked.now.recording.now (ends_of asked.now.ends)) result (E.contents err.old) (E.contents err.new) }
{
    let capture = match node_capture(
        rt.alloc(),
        asked.layout,
        asked.name,
        asked.recording,
        asked.ends,
    ) {
        Ok(capture) => capture,
        Err(failure) => return tell(&failure, err),
    };
    match write_file(rt, asked.out, asked.force, &capture) {
        Ok(()) => 0,
        Err(fault) => tell(&Failure::Capture(fault), err),
    }
}
