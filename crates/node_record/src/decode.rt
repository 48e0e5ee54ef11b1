//! A node's record, put into words.

ghost use Rattle.std.specs.Prelude.{◌≡◌, ◌≤◌, IsErr, IfErr, OnOk, map};
ghost use Rattle.std.specs.Io.KnownBytes.{Appends};
ghost use Rattle.station_check.specs.Failures.{ExplainedParts, IsLate, LeavesParts};
ghost use Rattle.node_record.specs.DecodedRecord.{CanRead, ExplainsRecord, IsDecoded};
ghost use Rattle.node_record.specs.NodeLines.{lines_text};
ghost use Rattle.node_record.specs.NodeTraffic.{traffic};
ghost use Rattle.node_record.specs.RecordLines.{told};
ghost use Rattle.node_record.specs.inside.Passing.{seen};

use crate::passage::traffic_of;
use crate::passed_line::line;
use crate::record::Record;
use crate::texts::read_texts;
use control_table::Layout;
use station_check::{Failure, tell};
use std::alloc::Global;
use std::io::Write;

/// Writes to `out` what goes over the network by the record of the node of this name, as `station node` writes one: a line for
/// each datagram that came, with what became of it, and for each that was sent, in their order. The last line of a record that
/// was broken off counts as none. Both texts are judged before the first line is written, the layout first: where one is faulty,
/// `out` stays as it is. The status is 0, or 1 where anything failed; `err` is then told why, unless a line couldn't be written.
pub fn decode_node_text<W: Write, E: Write>(
    alloc: Global,
    layout: &str,
    name: &str,
    recording: &str,
    out: &mut W,
    err: &mut E,
) -> u8
    ensures status { result ≤ 1 }
    ensures done { result ≡ 0 → IsDecoded layout.now name.now recording.now (W.contents out.old) (W.contents out.new) }
    ensures faulty { (CanRead layout.now name.now recording.now → ⊥) → (result ≡ 1) × (out.new ≡ out.old) }
    ensures silent { result ≡ 0 → err.new ≡ err.old }
    // Only a beginning of the line was told where a write to `err` failed.
    ensures explains { result ≡ 1 → ExplainedParts (ExplainsRecord layout.now name.now recording.now) result out.old out.new (E.contents err.old) (E.contents err.new) }
{
    match decode(alloc, layout, name, recording, out) {
        Ok(()) => 0,
        Err(failure) => tell(&failure, err),
    }
}

/// Judges the texts, and then writes the traffic of the record.
fn decode<W: Write>(
    alloc: Global,
    layout: &str,
    name: &str,
    recording: &str,
    out: &mut W,
) -> Result<(), Failure>
    ensures done { OnOk result (IsDecoded layout.now name.now recording.now (W.contents out.old) (W.contents out.new)) }
    ensures faulty { (CanRead layout.now name.now recording.now → ⊥) → IsErr result × (out.new ≡ out.old) }
    ensures explains { IfErr result (λ failure. ExplainsRecord layout.now name.now recording.now failure × LeavesParts failure out.old out.new) }
{
    let texts = read_texts(alloc, layout, name, recording)?;
    let told = write_traffic(alloc, texts.table.layout(), &texts.read, out);
    drop(texts);
    told
}

/// Writes the traffic of a record.
fn write_traffic<W: Write>(
    alloc: Global,
    layout: &Layout,
    read: &Record,
    out: &mut W,
) -> Result<(), Failure>
    ensures done { OnOk result (Appends (W.contents out.old) (W.contents out.new) (lines_text layout.now read.now.head.node (traffic read.now.head.node 0 (map told read.now.lines.items)))) }
    ensures failed { IfErr result IsLate }
{
    let node = read.head.node;
    let all = traffic_of(alloc, node, &read.lines)?;
    for one in all.as_slice() {
        let text = line(alloc, layout, node, one)?;
        out.write_all(text.as_bytes())?;
    }
    out.flush()?;
    Ok(())
}
