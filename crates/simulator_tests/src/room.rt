//! Memory for events that are still to come.

use crate::layouts::SMALL;
use crate::station::station;
use simulator::{ClockSteps, Event, NodeId, World};
use std::alloc::Global;
use std::process::Abort;

/// How many nodes the station has: the interlocking, three signals, a point and a detector.
const NODES: usize = 6;

/// For so long after it was made an interlocking opens no link, in microseconds.
const HOLD: u64 = 6_000_000;

/// Makes room for steps; where memory is lacking it is asked for once more.
fn reserve(rt: &impl Abort, world: &mut World, steps: usize) {
    if world.reserve(steps).is_err() {
        assert!(rt; world.reserve(steps).is_ok(), "there is memory");
    }
    assert!(rt; world.room() >= steps);
}

/// The hold of the interlocking passes on all clocks.
fn hold_passes(rt: &impl Abort, alloc: Global) -> Event {
    let clocks = match Vec::from_slice(alloc, &[HOLD; NODES]) {
        Ok(clocks) => clocks,
        Err(_) => Vec::from_slice(alloc, &[HOLD; NODES]).expect(rt, "there is memory"),
    };
    Event::Time {
        elapsed: HOLD,
        clocks: ClockSteps::of(clocks),
    }
}

/// How many datagrams the network still has.
fn in_bag(world: &World) -> usize {
    let mut count: usize = 0;
    for _ in world.bag() {
        count = count.saturating_add(1);
    }
    count
}

/// Steps that have room happen, and those that happen are counted. The first tick of the interlocking opens the links to five
/// controllers. There is no node 6.
fn happen(rt: &impl Abort, world: &mut World, hold_passes: Event) {
    let events = [
        hold_passes,
        Event::Tick(NodeId(0)),
        Event::Tick(NodeId(6)),
        Event::Tick(NodeId(0)),
        Event::Tick(NodeId(5)),
    ];
    reserve(rt, world, 4);
    assert!(rt; world.run(&events) == 4);
    assert!(rt; world.network().len() == 5);
    assert!(rt; in_bag(world) == 5);
}

/// Memory that no machine has is refused, and nothing changes.
fn refuses(rt: &impl Abort, world: &mut World) {
    let room = world.room();
    assert!(rt; world.reserve(usize::MAX).is_err());
    assert!(rt; world.room() == room);
}

#[test]
fn steps_that_have_room_happen_and_room_that_no_machine_has_is_refused(rt: HostRuntime) {
    let mut world = station(&rt, rt.alloc(), SMALL);
    refuses(&rt, &mut world);
    happen(&rt, &mut world, hold_passes(&rt, rt.alloc()));
}
