//! The runs of a list.

use crate::restarts::fault::Fault;
use crate::restarts::known::Way;
use crate::restarts::run::Run;
use crate::restarts::tally::Tally;
use crate::restarts::watch::STATION;
use control_table::Checked;
use station_record::replay::SimLine;
use station_record::{Command, Event, NodeId};
use std::alloc::Global;
use std::mem;

/// How many more times the interlocking is made anew in every second run.
const MORE: u8 = 2;

/// A list.
#[derive(Drop)]
pub(crate) struct List<'a> {
    pub(crate) name: &'a str,
    pub(crate) table: &'a Checked,
    pub(crate) events: &'a [Event],
    /// What follows after the events.
    pub(crate) rounds: &'a [SimLine],
    /// A node is made anew at the first of so many places at which another station comes of it.
    pub(crate) step: usize,
}

/// What is tried in a run: a node is made anew in a way after so many events, and so many times later.
#[derive(Clone, Copy)]
struct Trial {
    node: NodeId,
    place: usize,
    way: Way,
    later: u8,
}

/// The events that lines come to on a new station, where rounds of 100 ms stand for their flows.
pub(crate) fn events_of(
    alloc: Global,
    table: &Checked,
    lines: Vec<SimLine>,
) -> Result<Vec<Event>, Fault> {
    let Ok(mut run) = Run::new(alloc, table, STATION, Way::Zero, Tally::new()) else {
        return Err(Fault::OutOfMemory);
    };
    keep_all(alloc, &mut run, lines)?;
    Ok(mem::replace(&mut run.events, Vec::new(alloc)))
}

/// Keeps what lines come to.
fn keep_all(alloc: Global, run: &mut Run, mut lines: Vec<SimLine>) -> Result<(), Fault> {
    for line in &mut lines {
        match line {
            // Each run here begins at rest.
            SimLine::Begins(_) => return Err(Fault::Event),
            // An event is taken out of its line, in which another one is left.
            SimLine::Event(event) => run.keep(mem::replace(event, Event::Tick(STATION)))?,
            SimLine::Flow(length) => run.flow(alloc, *length)?,
            SimLine::Picture => {}
        }
    }
    Ok(())
}

/// The place of the first request of a route.
fn first_request(events: &[Event]) -> Option<usize> {
    events.iter().position(|event| matches!(event, Event::Request(Command::Request(_))))
}

/// Whether an event calls another node, or brings it a datagram: so nothing of this node changes, and no time passes.
fn is_of_another(event: &Event, node: NodeId) -> bool {
    match event {
        Event::Tick(called) => called.0 != node.0,
        Event::Deliver { node: receiver, .. } => receiver.0 != node.0,
        _ => false,
    }
}

impl List<'_> {
    /// Makes a node anew at the places from the first request on, and tells what happened.
    pub(crate) fn try_node(&self, rt: &HostRuntime, node: NodeId) -> Result<Tally, Fault> {
        let Some(first) = first_request(self.events) else {
            return Err(Fault::Request);
        };
        let mut tally = Tally::new();
        let mut left = 0;
        for place in first..=self.events.len() {
            if place > first && self.is_tried_before(node, place) {
                continue;
            }
            if left == 0 {
                self.try_place(rt, node, place, &mut tally)?;
                left = self.step;
            }
            left = left.saturating_sub(1);
        }
        Ok(tally)
    }

    /// Whether the event before a place is one of another node. Then the station of the run that makes the node anew before
    /// this event is the same after it.
    fn is_tried_before(&self, node: NodeId, place: usize) -> bool {
        match self.events.get(place.saturating_sub(1)) {
            Some(event) => is_of_another(event, node),
            None => false,
        }
    }

    /// Makes a node anew after so many events, the interlocking also more often.
    fn try_place(
        &self,
        rt: &HostRuntime,
        node: NodeId,
        place: usize,
        tally: &mut Tally,
    ) -> Result<(), Fault> {
        for way in [Way::Zero, Way::Clock] {
            let trial = Trial {
                node,
                place,
                way,
                later: 0,
            };
            self.carry_out(rt, trial, tally)?;
            if node.0 == STATION.0 {
                let later = MORE;
                self.carry_out(rt, Trial { later, ..trial }, tally)?;
            }
        }
        Ok(())
    }

    /// Makes a run, and tells which one it was where it fails, and after how many events.
    fn carry_out(&self, rt: &HostRuntime, trial: Trial, tally: &mut Tally) -> Result<(), Fault> {
        let begun = tally.events;
        let tried = self.run(rt.alloc(), trial, tally);
        if tried.is_err() {
            let (name, node, place) = (self.name, trial.node.0, trial.place);
            let events = tally.events.saturating_sub(begun);
            // Where this can't be written, the fault has to do.
            let _ = eprintln!(rt;
                "{name}: node {node} behind {place} events: fails behind {events}"
            );
        }
        tried
    }

    /// Plays a run to its end.
    fn run(&self, alloc: Global, trial: Trial, tally: &mut Tally) -> Result<(), Fault> {
        let Ok(mut run) = Run::new(alloc, self.table, trial.node, trial.way, *tally) else {
            return Err(Fault::OutOfMemory);
        };
        let played = self.play(alloc, trial, &mut run);
        *tally = run.watch.tally;
        played
    }

    /// Applies the events up to the trial's place, makes the node anew, and applies what follows.
    fn play(&self, alloc: Global, trial: Trial, run: &mut Run) -> Result<(), Fault> {
        let Some((before, behind)) = self.events.split_at_checked(trial.place) else {
            return Err(Fault::Request);
        };
        run.apply_all(before)?;
        run.make_anew(trial.later)?;
        run.apply_all(behind)?;
        run.follow(alloc, self.rounds)?;
        run.end();
        Ok(())
    }
}
