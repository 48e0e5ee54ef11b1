//! The events of a round of a flow.

ghost use Rattle.std.specs.Prelude.{◌≡◌, ◌++◌, ◌-◌, ◌+◌, ◌^◌, ◌<◌, IfOk, OnOk};
ghost use Rattle.simulator.specs.simulator_spec.Flow.{delivery, deliveries, reach, reaches, round_of_time, ticks};
ghost use Rattle.replay.specs.World.{arrival_in, played};

use crate::drive::{ROUNDS_DRIVEN, position_of};
use replay_lines::ROUND_MICROS;
use simulator::simulator_spec::{FoundDriven, RoundEvent};
use simulator::{
    ClockSteps, Event, Layout, NodeId, Outgoing, PointId, RawDatagram, Station, World,
};
use std::alloc::{AllocError, Global};

/// The time of a round, at equal rates.
pub(crate) fn round_of_time(alloc: Global, layout: &Layout) -> Result<Event, AllocError>
    ensures { IfOk result (λ event. event ≡ round_of_time layout.now) }
{
    let steps = vec![in alloc; ROUND_MICROS; layout.nodes()]?;
    Ok(Event::Time {
        elapsed: ROUND_MICROS,
        clocks: ClockSteps::of(steps),
    })
}

/// Adds the delivery of the datagrams from one place up to another, in the order of sending.
pub(crate) fn add_deliveries(
    alloc: Global,
    world: &World,
    first: usize,
    end: usize,
    due: &mut Vec<RoundEvent>,
) -> Result<(), AllocError>
    ensures { OnOk result (due.new.items ≡ due.old.items ++ deliveries (arrival_in (played world.now)) first (end - first)) }
{
    for place in first..end {
        add_delivery(alloc, world, place, due)?;
    }
    Ok(())
}

/// Adds the delivery of the datagram at a place, unless it is lost.
fn add_delivery(
    alloc: Global,
    world: &World,
    place: usize,
    due: &mut Vec<RoundEvent>,
) -> Result<(), AllocError>
    requires { place + 1 < 2 ^ 64 }
    ensures { OnOk result (due.new.items ≡ due.old.items ++ delivery place (arrival_in (played world.now) place)) }
{
    let Some(Outgoing { to, bytes }) = world.arrival(place) else {
        return Ok(());
    };
    let bytes = RawDatagram::of(Vec::from_slice(alloc, bytes)?);
    let event = Event::Deliver { node: to, bytes };
    let passed = place + 1;
    due.push(RoundEvent { event, passed })?;
    Ok(())
}

/// Adds a tick of each of so many nodes.
pub(crate) fn add_ticks(
    nodes: usize,
    passed: usize,
    due: &mut Vec<RoundEvent>,
) -> Result<(), AllocError>
    ensures { OnOk result (due.new.items ≡ due.old.items ++ ticks passed 0 nodes) }
{
    for node in 0..nodes {
        let event = Event::Tick(NodeId(node));
        due.push(RoundEvent { event, passed })?;
    }
    Ok(())
}

/// Adds that each point comes to lie that was found driven for long enough.
pub(crate) fn add_reaches(
    drives: &[Option<FoundDriven>],
    passed: usize,
    due: &mut Vec<RoundEvent>,
) -> Result<(), AllocError>
    ensures { OnOk result (due.new.items ≡ due.old.items ++ reaches passed 0 drives.now) }
{
    for place in 0..drives.len() {
        add_reach(PointId(place), drives[place], passed, due)?;
    }
    Ok(())
}

/// Adds that a point comes to lie, if it was found driven for long enough.
fn add_reach(
    point: PointId,
    drive: Option<FoundDriven>,
    passed: usize,
    due: &mut Vec<RoundEvent>,
) -> Result<(), AllocError>
    ensures { OnOk result (due.new.items ≡ due.old.items ++ reach passed point.0 drive) }
{
    let Some(drive) = drive else {
        return Ok(());
    };
    if drive.rounds < ROUNDS_DRIVEN {
        return Ok(());
    }
    let position = position_of(drive.side);
    let event = Event::Reach { point, position };
    due.push(RoundEvent { event, passed })?;
    Ok(())
}
