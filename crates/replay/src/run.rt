//! A station as the lines of a file drive it.

ghost use Rattle.std.specs.Prelude.{◌≡◌, ◌/◌, ℕ, take, IfOk, OnOk, OnErr};
ghost use Rattle.simulator.specs.simulator_spec.First.{IsOutsetOf};
ghost use Rattle.replay.specs.inside.Outsets.{outset_in};
ghost use Rattle.replay.specs.inside.Runs.{flowing_of};

use crate::drive::note_drives;
use crate::due::{add_deliveries, add_reaches, add_ticks, round_of_time};
use crate::outset::Outset;
use replay_lines::{ROUND, recorded};
use simulator::simulator_spec::{FoundDriven, RoundEvent};
use simulator::{Answer, Checked, Event, Refused, Station, World};
use std::alloc::{AllocError, Global};

/// A world, and how far the flows of time have come on it.
#[derive(Drop)]
pub(crate) struct Run {
    pub(crate) world: World,
    /// How many of the datagrams that were sent a flow has gone past.
    passed: usize,
    /// For how long each point was found driven.
    drives: Vec<Option<FoundDriven>>,
}

impl Run {
    ghost use Rattle.simulator.specs.simulator_spec.Flow.{Flows, StopsIn, all_did, did, due, rested, round};
    ghost use Rattle.replay.specs.Transcript.{Answers, IsBeginning};

    /// A station that lies so when it is started, on which nothing has flowed.
    pub(crate) fn at(alloc: Global, table: Checked, outset: &Outset) -> Result<Self, AllocError>
        requires { IsOutsetOf table (outset_in outset.now) }
        ensures { IfOk result (λ run. IsBeginning table (outset_in outset.now) (flowing_of run)) }
    {
        // Every checked layout is a station, in which no name stands twice.
        let points = table.layout().points().len();
        Ok(Run {
            world: World::at(alloc, table, &outset.positions, &outset.occupancies)?,
            passed: 0,
            drives: vec![in alloc; None; points]?,
        })
    }

    /// Applies an event.
    pub(crate) fn event(&mut self, event: &Event) -> Result<Answer, Refused>
        ensures { Answers event.now (flowing_of self.old) result (flowing_of self.new) }
    {
        recorded(Station::apply(&mut self.world, event))
    }

    /// Lets time flow for so many milliseconds.
    pub(crate) fn flow(&mut self, alloc: Global, length: u64) -> Result<Answer, Refused>
        ensures { Flows (length / 10) (flowing_of self.old) result (flowing_of self.new) }
    {
        for _ in 0..length / ROUND {
            let Ok(()) = self.round(alloc) else {
                return Err(Refused::OutOfMemory);
            };
        }
        Ok(Answer::Done)
    }

    /// A round of a flow. Where memory is lacking it stops, in front of one of its events.
    fn round(&mut self, alloc: Global) -> Result<(), AllocError>
        ensures ok { OnOk result (flowing_of self.new ≡ round (flowing_of self.old)) }
        ensures err { OnErr result (StopsIn (flowing_of self.old) (flowing_of self.new)) }
    {
        let due = self.due(alloc)?;
        self.apply_all(&due)?;
        self.rest();
        Ok(())
    }

    /// Tries the events of a round, one after the other.
    fn apply_all(&mut self, due: &[RoundEvent]) -> Result<(), AllocError>
        ensures ok { OnOk result (flowing_of self.new ≡ all_did due.now (flowing_of self.old)) }
        ensures err { OnErr result ((count : ℕ) × (flowing_of self.new ≡ all_did (take count due.now) (flowing_of self.old))) }
    {
        for one in due {
            self.apply(one)?;
        }
        Ok(())
    }

    /// The events of a round that begins now.
    fn due(&self, alloc: Global) -> Result<Vec<RoundEvent>, AllocError>
        ensures { IfOk result (λ all. all.items ≡ due (flowing_of self.now)) }
    {
        let layout = self.world.table().layout();
        let sent = self.world.sent_count();
        let event = round_of_time(alloc, layout)?;
        let mut due = Vec::new(alloc);
        due.push(RoundEvent {
            event,
            passed: self.passed,
        })?;
        add_deliveries(alloc, &self.world, self.passed, sent, &mut due)?;
        add_ticks(layout.nodes(), sent, &mut due)?;
        add_reaches(&self.drives, sent, &mut due)?;
        Ok(due)
    }

    /// Tries an event of a round: where it can't happen, it is passed over.
    fn apply(&mut self, one: &RoundEvent) -> Result<(), AllocError>
        ensures ok { OnOk result (flowing_of self.new ≡ did one.now (flowing_of self.old)) }
        ensures err { OnErr result (flowing_of self.new ≡ flowing_of self.old) }
    {
        match Station::apply(&mut self.world, &one.event) {
            Err(Refused::OutOfMemory) => Err(AllocError),
            _ => {
                self.passed = one.passed;
                Ok(())
            }
        }
    }

    /// A round ends: it is noted which points are driven.
    fn rest(&mut self)
        ensures { flowing_of self.new ≡ rested (flowing_of self.old) }
    {
        note_drives(&self.world, &mut self.drives);
    }
}
