//! A node's record as a capture.

ghost use Rattle.std.specs.Prelude.{◌≡◌, IfErr, IfOk, IsErr, OnOk, map};
ghost use Rattle.node_record.specs.CapturedRecord.{Explains, IsCaptureOf, IsRecordCapture, journey, receiver_of, sender_end, sender_of, stamp};
ghost use Rattle.node_record.specs.DecodedRecord.{CanRead};
ghost use Rattle.node_record.specs.NodeEnds.{ends_of};
ghost use Rattle.node_record.specs.NodeTraffic.{traffic};
ghost use Rattle.node_record.specs.RecordLines.{told};
ghost use Rattle.node_record.specs.inside.CapturesSoFar.{Adds, HasTooLongOf, IsNoCapture};
ghost use Rattle.node_record.specs.inside.Passing.{seen};

use crate::node_ends::{NodeEnds, end_in};
use crate::passage::{Passed, Way, traffic_of};
use crate::passed_line::comment;
use crate::record::Record;
use crate::texts::read_texts;
use capture_file::{CaptureFault, Endpoint, Journey, MOST_BYTES, begin, push_datagram};
use replay_lines::MICROS;
use station_check::{Failure, Network};
use std::alloc::Global;

/// The end of an address that is no node's: the record doesn't tell it.
const NO_END: Endpoint = Endpoint {
    address: [0, 0, 0, 0],
    port: 0,
};

/// Judges the texts, and then makes a capture of what came to the node of this name and what it sent, by its record: each datagram
/// at the reading of the node's clock, with a comment where it came and wasn't delivered. What came stands at the ends in the network
/// over which it came. What was sent stands once, at those in the only network or the first.
pub fn node_capture(
    alloc: Global,
    layout: &str,
    name: &str,
    recording: &str,
    given: NodeEnds<'_>,
) -> Result<Vec<u8>, Failure>
    ensures done { IfOk result (λ file. IsRecordCapture layout.now name.now recording.now (ends_of given.entry) file.items) }
    ensures reads { OnOk result (CanRead layout.now name.now recording.now) }
    ensures faulty { (CanRead layout.now name.now recording.now → ⊥) → IsErr result }
    ensures explains { IfErr result (Explains layout.now name.now recording.now (ends_of given.entry)) }
{
    let texts = read_texts(alloc, layout, name, recording)?;
    let capture = capture_of(alloc, &texts.read, given);
    drop(texts);
    capture
}

/// The capture of the datagrams of a record.
fn capture_of(alloc: Global, read: &Record, given: NodeEnds<'_>) -> Result<Vec<u8>, Failure>
    ensures is { IfOk result (λ file. IsCaptureOf (ends_of given.entry) read.now.head.node (traffic read.now.head.node 0 (map told read.now.lines.items)) file.items) }
    ensures failed { IfErr result (IsNoCapture (traffic read.now.head.node 0 (map told read.now.lines.items))) }
{
    let node = read.head.node;
    let all = traffic_of(alloc, node, &read.lines)?;
    let mut file = begin(alloc)?;
    for one in all.as_slice() {
        push_passed(alloc, node, one, given, &mut file)?;
    }
    Ok(file)
}

/// Adds a datagram to a capture of those before it.
fn push_passed(
    alloc: Global,
    node: usize,
    one: &Passed<'_>,
    given: NodeEnds<'_>,
    file: &mut Vec<u8>,
) -> Result<(), Failure>
    ensures added { OnOk result (Adds (ends_of given.entry) node (seen one.now) file.old.items file.new.items) }
    ensures failed { IfErr result (HasTooLongOf (seen one.now)) }
{
    if one.bytes.len() > MOST_BYTES {
        return Err(Failure::Capture(CaptureFault::TooLong));
    }
    let comment = comment(one.way);
    push_datagram(alloc, file, &journey(given, node, one), one.bytes, comment)?;
    Ok(())
}

/// A reading in microseconds; the greatest number of 64 bits where it is too large.
pub(crate) fn stamp(reading: u64) -> u64
    ensures { result ≡ stamp reading }
{
    reading.saturating_mul(MICROS)
}

/// When a datagram came to a node or was sent by it, from where and to where.
fn journey(given: NodeEnds<'_>, node: usize, one: &Passed<'_>) -> Journey
    ensures { result ≡ journey (ends_of given.entry) node (seen one.now) }
{
    Journey {
        time: stamp(one.reading),
        sender: sender_of(given, node, one.way),
        receiver: receiver_of(given, node, one.way),
    }
}

fn sender_of(given: NodeEnds<'_>, node: usize, way: Way) -> Endpoint
    ensures { result ≡ sender_of (ends_of given.entry) node way }
{
    match way {
        Way::Sent { .. } => end_in(given, Network::First, node),
        Way::Came { from, over, .. } => sender_end(given, over, from),
    }
}

fn receiver_of(given: NodeEnds<'_>, node: usize, way: Way) -> Endpoint
    ensures { result ≡ receiver_of (ends_of given.entry) node way }
{
    match way {
        Way::Sent { to } => end_in(given, Network::First, to),
        Way::Came { over, .. } => end_in(given, over, node),
    }
}

/// From where a datagram came over a network.
fn sender_end(given: NodeEnds<'_>, over: Network, from: Option<usize>) -> Endpoint
    ensures { result ≡ sender_end (ends_of given.entry) over from }
{
    match from {
        Some(from) => end_in(given, over, from),
        None => NO_END,
    }
}
