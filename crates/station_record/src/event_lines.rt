//! The lines of an event.

ghost use Rattle.std.specs.Prelude.{◌≡◌, ◌++◌, IfOk, OnOk, slice_get, string_bytes};
ghost use Rattle.replay.specs.World.{after, played};
ghost use Rattle.station_record.specs.Lines.{line_text, lines_text};
ghost use Rattle.station_record.specs.Traffic.{by_event, done_by, sent_behind};
ghost use Rattle.station_record.specs.inside.Places.{line_at, line_if};

use crate::ends::sender;
use crate::fate::Fate;
use crate::line::line;
use crate::replayed::try_event;
use control_table::Layout;
use replay::{Event, Network, Refused, World, receiver};
use std::alloc::{AllocError, Global};

/// Adds the line for what becomes of a datagram at a moment.
fn push_line(
    alloc: Global,
    layout: &Layout,
    time: u64,
    fate: Fate,
    bytes: &[u8],
    text: &mut String,
) -> Result<(), AllocError>
    ensures { OnOk result (string_bytes text.new ≡ string_bytes text.old ++ line_text layout.now (record { time = time; fate = fate; bytes = bytes.now })) }
{
    let line = line(alloc, layout, time, fate, bytes)?;
    text.push_str(line.as_str())
}

/// Adds the line of the datagram at a place, if one was sent there.
fn push_sent(
    alloc: Global,
    layout: &Layout,
    network: &Network,
    place: usize,
    text: &mut String,
) -> Result<(), AllocError>
    ensures { OnOk result (string_bytes text.new ≡ string_bytes text.old ++ line_at layout.now (slice_get network.now.sent place)) }
{
    let Some(one) = network.get(place) else {
        return Ok(());
    };
    let fate = Fate::Sent {
        sender: sender(one.sender, one.link),
        receiver: receiver(one.sender, one.link),
    };
    push_line(alloc, layout, one.at, fate, one.bytes, text)
}

/// Adds the lines of the datagrams that were sent after so many.
fn push_all_sent(
    alloc: Global,
    layout: &Layout,
    network: &Network,
    count: usize,
    text: &mut String,
) -> Result<(), AllocError>
    ensures { OnOk result (string_bytes text.new ≡ string_bytes text.old ++ lines_text layout.now (sent_behind count network.now.sent)) }
{
    for place in count..network.len() {
        push_sent(alloc, layout, network, place, text)?;
    }
    Ok(())
}

/// Adds the line of what an event does to a datagram at a moment, if it does something, where it is refused so.
fn push_done(
    alloc: Global,
    layout: &Layout,
    time: u64,
    refused: Option<Refused>,
    event: &Event,
    text: &mut String,
) -> Result<(), AllocError>
    ensures { OnOk result (string_bytes text.new ≡ string_bytes text.old ++ line_if layout.now (done_by time refused event.now)) }
{
    match event {
        Event::Deliver { node, bytes } => {
            let fate = Fate::Delivered {
                receiver: *node,
                refused,
            };
            push_line(alloc, layout, time, fate, bytes.as_slice(), text)
        }
        Event::Lose(bytes) => {
            let fate = Fate::Lost { refused };
            push_line(alloc, layout, time, fate, bytes.as_slice(), text)
        }
        _ => Ok(()),
    }
}

/// Applies an event to a world, and tells what goes over its network by that.
pub(crate) fn event_lines(
    alloc: Global,
    world: &mut World,
    event: &Event,
) -> Result<String, AllocError>
    ensures lines { IfOk result (λ text. string_bytes text ≡ lines_text world.old.sited.site (by_event event.now (played world.old))) }
    ensures world { OnOk result (played world.new ≡ after (played world.old) event.now) }
{
    let time = world.time();
    let count = world.network().len();
    let refused = try_event(world, event)?;
    let layout = world.table().layout();
    let mut text = String::new(alloc);
    push_done(alloc, layout, time, refused, event, &mut text)?;
    push_all_sent(alloc, layout, world.network(), count, &mut text)?;
    Ok(text)
}
