//! The capture of the datagrams of a network.

ghost use Rattle.std.specs.Prelude.{◌≡◌, IfErr, IfOk, OnOk, slice_get};
ghost use Rattle.station_record.specs.CapturedSession.{IsCaptureOf, comment, journey};
ghost use Rattle.replay.specs.simulator.simulator_field.Network.{lent};
ghost use Rattle.station_record.specs.inside.CapturesSoFar.{Captures, IsNoCapture};

use crate::ends::sender;
use capture_file::{CaptureFault, Endpoint, Journey, MOST_BYTES, begin, end_of, push_datagram};
use replay::{Failure, Network, SentOn, receiver};
use std::alloc::Global;

/// What is remarked of a datagram.
fn comment(is_lost: bool) -> &'static str
    ensures { result.now ≡ comment is_lost }
{
    if is_lost { "lost" } else { "" }
}

/// When a datagram was sent, from where and to where.
fn journey(given: &[Endpoint], one: &SentOn<'_>) -> Journey
    ensures { result ≡ journey given.now (lent one.now) }
{
    Journey {
        time: one.at,
        sender: end_of(given, sender(one.sender, one.link).0),
        receiver: end_of(given, receiver(one.sender, one.link).0),
    }
}

/// Adds the datagram at a place to a capture of those before it.
fn push_sent(
    alloc: Global,
    network: &Network,
    given: &[Endpoint],
    place: usize,
    file: &mut Vec<u8>,
) -> Result<(), Failure>
    ensures added { OnOk result (Captures given.now (slice_get network.now.sent place) file.old.items file.new.items) }
    ensures failed { IfErr result (IsNoCapture network.now.sent) }
{
    let Some(one) = network.get(place) else {
        return Ok(());
    };
    if one.bytes.len() > MOST_BYTES {
        return Err(Failure::Capture(CaptureFault::TooLong));
    }
    push_datagram(
        alloc,
        file,
        &journey(given, &one),
        one.bytes,
        comment(one.is_lost),
    )?;
    Ok(())
}

/// A capture of all datagrams that were sent on a network.
pub(crate) fn capture_of(
    alloc: Global,
    network: &Network,
    given: &[Endpoint],
) -> Result<Vec<u8>, Failure>
    ensures is { IfOk result (λ file. IsCaptureOf given.now network.now.sent file.items) }
    ensures failed { IfErr result (IsNoCapture network.now.sent) }
{
    let mut file = begin(alloc)?;
    for place in 0..network.len() {
        push_sent(alloc, network, given, place, &mut file)?;
    }
    Ok(file)
}
