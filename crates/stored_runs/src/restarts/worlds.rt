//! What is asked of a world. None of these says what it answers.

use crate::restarts::fault::Fault;
use control_table::{Aspect, Checked, PointId, Side, SignalId};
use station_record::{Answer, Event, RawDatagram, Refused, World, receiver};
use std::alloc::{AllocError, Global};

/// A new world.
pub(crate) fn new_world(alloc: Global, table: &Checked) -> Result<World, AllocError> {
    World::new(alloc, table.copy(alloc)?)
}

/// Applies an event, and looks whether the station is safe after it.
pub(crate) fn answer(world: &mut World, event: &Event) -> Result<Result<Answer, Refused>, Fault> {
    let reply = world.apply(event);
    if !world.safe() {
        return Err(Fault::Unsafe);
    }
    match reply {
        Ok(reply) => Ok(Ok(reply.answer)),
        Err(why) => Ok(Err(why)),
    }
}

/// How many nodes it has.
pub(crate) fn nodes(world: &World) -> usize {
    world.table().layout().nodes()
}

/// How many datagrams were sent.
pub(crate) fn sent(world: &World) -> usize {
    world.network().len()
}

/// Whether a signal shows another aspect than stop.
pub(crate) fn is_open(world: &World) -> bool {
    for place in 0..world.table().layout().signals().len() {
        if world.shown(SignalId(place)) != Aspect::Stop {
            return true;
        }
    }
    false
}

/// The side to which a point is driven.
pub(crate) fn driven(world: &World, point: PointId) -> Option<Side> {
    if point.0 < world.table().layout().points().len() {
        world.driven(point)
    } else {
        None
    }
}

/// The delivery of a datagram, unless it is lost.
pub(crate) fn delivery(
    alloc: Global,
    world: &World,
    place: usize,
) -> Result<Option<Event>, AllocError> {
    match world.network().get(place) {
        Some(sent) if !sent.is_lost => Ok(Some(Event::Deliver {
            node: receiver(sent.sender, sent.link),
            bytes: RawDatagram::of(Vec::from_slice(alloc, sent.bytes)?),
        })),
        _ => Ok(None),
    }
}
