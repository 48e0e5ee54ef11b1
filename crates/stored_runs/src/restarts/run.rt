//! A run on a station that is looked at after every event.

use crate::restarts::fault::Fault;
use crate::restarts::known::Way;
use crate::restarts::rounds::{POINTS, ROUND, Rounds, time};
use crate::restarts::tally::{Tally, count};
use crate::restarts::watch::Watch;
use crate::restarts::worlds::{answer, delivery, is_open, new_world, nodes, sent};
use control_table::Checked;
use station_record::replay::SimLine;
use station_record::{Event, NodeId, World};
use std::alloc::{AllocError, Global};

/// After how many microseconds a node is made anew again.
const AGAIN: u64 = 1_500_000;

/// A station with one node that may be made anew.
#[derive(Drop)]
pub(crate) struct Run {
    world: World,
    /// The events that it kept, among them those of its rounds.
    pub(crate) events: Vec<Event>,
    rounds: Rounds,
    pub(crate) watch: Watch,
    way: Way,
    /// How many times the node is still made anew.
    left: u8,
}

impl Run {
    /// A new station, after what happened on others. Its node is made anew in a way.
    pub(crate) fn new(
        alloc: Global,
        table: &Checked,
        node: NodeId,
        way: Way,
        tally: Tally,
    ) -> Result<Run, AllocError> {
        Ok(Run {
            world: new_world(alloc, table)?,
            events: Vec::new(alloc),
            rounds: Rounds::new(),
            watch: Watch::new(node, tally),
            way,
            left: 0,
        })
    }

    /// Makes the node anew now and so many times later.
    pub(crate) fn make_anew(&mut self, later: u8) -> Result<(), Fault> {
        self.left = later;
        let event = self.watch.node.restart(self.way);
        self.look(&event)
    }

    /// Applies an event, and looks at the station. It fails where anything is wrong.
    fn look(&mut self, event: &Event) -> Result<(), Fault> {
        if matches!(event, Event::Restart { .. }) && is_open(&self.world) {
            count(&mut self.watch.tally.open);
        }
        let reply = answer(&mut self.world, event)?;
        self.watch.pass(event);
        self.watch.judge(reply)
    }

    /// Applies an event, and makes the node anew again where it is time.
    pub(crate) fn apply(&mut self, event: &Event) -> Result<(), Fault> {
        self.look(event)?;
        if self.left > 0 && self.watch.node.age >= AGAIN {
            return self.make_anew(self.left - 1);
        }
        Ok(())
    }

    /// Applies events, and makes the node anew again where it is time.
    pub(crate) fn apply_all(&mut self, events: &[Event]) -> Result<(), Fault> {
        for event in events {
            self.apply(event)?;
        }
        Ok(())
    }

    /// Applies an event, and keeps it.
    pub(crate) fn keep(&mut self, event: Event) -> Result<(), Fault> {
        let applied = self.apply(&event);
        match self.events.push(event) {
            Ok(()) => applied,
            Err(_) => Err(Fault::OutOfMemory),
        }
    }

    /// Carries out lines, whose flows are rounds that begin with what the station has sent.
    pub(crate) fn follow(&mut self, alloc: Global, lines: &[SimLine]) -> Result<(), Fault> {
        for line in lines {
            match line {
                SimLine::Begins(_) => return Err(Fault::Event),
                SimLine::Event(event) => self.apply(event)?,
                SimLine::Flow(length) => self.flow(alloc, *length)?,
                SimLine::Picture => {}
            }
        }
        Ok(())
    }

    /// Makes rounds for so many milliseconds.
    pub(crate) fn flow(&mut self, alloc: Global, length: u64) -> Result<(), Fault> {
        for _ in 0..length / ROUND {
            self.round(alloc)?;
        }
        Ok(())
    }

    /// Makes a round.
    fn round(&mut self, alloc: Global) -> Result<(), Fault> {
        let (nodes, sent) = (nodes(&self.world), sent(&self.world));
        match time(alloc, nodes) {
            Ok(event) => self.keep(event)?,
            Err(_) => return Err(Fault::OutOfMemory),
        }
        self.deliver(alloc, sent)?;
        self.tick(nodes)?;
        self.reach()?;
        self.rounds.rest(&self.world);
        Ok(())
    }

    /// What was sent up to here arrives.
    fn deliver(&mut self, alloc: Global, sent: usize) -> Result<(), Fault> {
        for place in self.rounds.passed..sent {
            match delivery(alloc, &self.world, place) {
                Ok(Some(event)) => self.keep(event)?,
                Ok(None) => {}
                Err(_) => return Err(Fault::OutOfMemory),
            }
        }
        self.rounds.passed = sent;
        Ok(())
    }

    /// Every node is called.
    fn tick(&mut self, nodes: usize) -> Result<(), Fault> {
        for node in 0..nodes {
            self.keep(Event::Tick(NodeId(node)))?;
        }
        Ok(())
    }

    /// Points come to lie that were found driven for long enough.
    fn reach(&mut self) -> Result<(), Fault> {
        for place in 0..POINTS {
            if let Some(event) = self.rounds.reach(place) {
                self.keep(event)?;
            }
        }
        Ok(())
    }

    /// The run ends, and is counted.
    pub(crate) fn end(&mut self) {
        count(&mut self.watch.tally.runs);
        if is_open(&self.world) {
            count(&mut self.watch.tally.open_later);
        }
    }
}
