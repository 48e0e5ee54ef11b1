//! The datagrams of which a record tells.

ghost use Rattle.std.specs.Prelude.{◌≡◌, IfOk, map};
ghost use Rattle.std.specs.Option.{option_map};
ghost use Rattle.node_record.specs.NodeTraffic.{became, is_partner, passed_at, reading_behind, traffic};
ghost use Rattle.node_record.specs.RecordLines.{told};
ghost use Rattle.node_record.specs.inside.Passing.{seen};

use crate::record_line::RecordLine;
use station_check::Network;
use std::alloc::{AllocError, Global};

/// What became of a datagram that came to a node.
#[derive(Clone, Copy)]
pub(crate) enum Reception {
    /// It came from the address of a partner.
    Delivered,
    /// It came from elsewhere, and was dropped.
    FromNoPartner,
    /// It was thrown away, since it may have waited too long.
    ThrownAway,
    /// The clock wasn't read after it: the record ends there.
    Unread,
}

/// Whither a datagram went, or whence it came. Nodes are told by their places.
#[derive(Clone, Copy)]
pub(crate) enum Way {
    /// The node sent it to another.
    Sent {
        to: usize,
    },
    /// It came from the address of a node, or from another, over a network.
    Came {
        from: Option<usize>,
        over: Network,
        reception: Reception,
    },
}

/// A datagram of which a record tells, with the reading of the node's clock, in milliseconds.
#[derive(Clone, Copy)]
pub(crate) struct Passed<'a> {
    pub(crate) reading: u64,
    pub(crate) way: Way,
    pub(crate) bytes: &'a [u8],
}

/// Whether a node has a link with the one from whose address a datagram came.
fn is_partner(node: usize, from: Option<usize>) -> bool
    ensures { result ≡ is_partner node from }
{
    match from {
        Some(from) if node == 0 => from >= 1,
        Some(from) => from == 0,
        None => false,
    }
}

/// The reading that was taken after a datagram, or else the last one before; and what became of it, by the lines after it.
fn received(latest: u64, partner: bool, behind: &[RecordLine]) -> (u64, Reception)
    ensures reading { result.0 ≡ reading_behind latest (map told behind.now) }
    ensures reception { result.1 ≡ became partner (map told behind.now) }
{
    let [RecordLine::Reads(reading), more @ ..] = behind else {
        return (latest, Reception::Unread);
    };
    let reception = match more {
        [RecordLine::ThrowsAway, ..] => Reception::ThrownAway,
        _ if partner => Reception::Delivered,
        _ => Reception::FromNoPartner,
    };
    (*reading, reception)
}

/// The datagram of which a line tells, if it tells of one.
fn datagram_at<'a>(
    node: usize,
    latest: u64,
    line: &'a RecordLine,
    behind: &[RecordLine],
) -> Option<Passed<'a>>
    ensures { option_map seen result ≡ passed_at node latest (told line.now) (map told behind.now) }
{
    match line {
        RecordLine::Comes { from, over, bytes } => {
            let (from, over) = (*from, *over);
            let (reading, reception) = received(latest, is_partner(node, from), behind);
            Some(Passed {
                reading,
                way: Way::Came {
                    from,
                    over,
                    reception,
                },
                bytes: bytes.as_slice(),
            })
        }
        RecordLine::Sends { to, bytes } => Some(Passed {
            reading: latest,
            way: Way::Sent { to: *to },
            bytes: bytes.as_slice(),
        }),
        _ => None,
    }
}

/// The datagrams of which the record of the node of this place tells, in their order.
pub(crate) fn traffic_of<'a>(
    alloc: Global,
    node: usize,
    lines: &'a [RecordLine],
) -> Result<Vec<Passed<'a>>, AllocError>
    ensures { IfOk result (λ all. map seen all.items ≡ traffic node 0 (map told lines.now)) }
{
    let mut all = Vec::new(alloc);
    let mut latest = 0;
    let mut left = lines;
    while let [line, behind @ ..] = left {
        if let Some(one) = datagram_at(node, latest, line, behind) {
            all.push(one)?;
        }
        if let RecordLine::Reads(reading) = line {
            latest = *reading;
        }
        left = behind;
    }
    Ok(all)
}
