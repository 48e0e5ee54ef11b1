//! A pair as a text drives it.

ghost use Rattle.std.specs.Prelude.{◌≡◌, ◌≤◌, ◌<◌, ◌-◌, ◌+◌, ◌/◌, slice_get, IfOk, OnOk, OnErr, IsFalse};
ghost use Rattle.simulator_pair.specs.Events.{is_restart};
ghost use Rattle.simulator_pair_text.specs.Flow.{tried, arriving, arriving_from, round};

use crate::answer::Answer;
use rasta_core::{ROUND, ROUND_MICROS};
use simulator_pair::{Bytes, Pair, PairEvent, Refused, Role};
use std::alloc::{AllocError, Global};
use std::marker::Model;

/// How many events a round has beside its arrivals: the time, and a tick of each end.
const EVENTS_BESIDE: usize = 3;

/// A pair, and how far its flows have come.
#[derive(Debug, Drop)]
pub(crate) struct Run {
    pub(crate) pair: Pair,
    /// How many of the datagrams that were sent a flow has gone past.
    passed: usize,
}

impl Model for Run {
    ghost use Rattle.simulator_pair_text.specs.Flow.{Flowing};

    ghost Value = { Flowing };

    ghost view = { λ r. record { pair = r.pair.run; passed = r.passed } };
}

impl Run {
    ghost use Rattle.simulator_pair_text.specs.Flow.{Flows};
    ghost use Rattle.simulator_pair_text.specs.Transcript.{Answers, beginning};

    /// A new pair, of which nothing has flowed.
    pub(crate) fn new(alloc: Global) -> Result<Run, AllocError>
        ensures { IfOk result (λ run. run ≡ beginning) }
    {
        Ok(Run {
            pair: Pair::new(alloc)?,
            passed: 0,
        })
    }

    /// Applies an event.
    pub(crate) fn event(&mut self, event: &PairEvent) -> Answer
        ensures { Answers event.now self.old result self.new }
    {
        Answer::to_event(self.pair.apply(event))
    }

    /// Lets time flow for so many milliseconds.
    pub(crate) fn flow(&mut self, length: u64) -> Answer
        ensures { Flows (length / 10) self.old result self.new }
    {
        for _ in 0..length / ROUND {
            let Ok(()) = self.round() else {
                return Answer::No(Refused::OutOfMemory.number());
            };
        }
        Answer::Done
    }

    /// A round of a flow. It makes its memory first; where that is lacking, nothing changes.
    fn round(&mut self) -> Result<(), AllocError>
        ensures ok { OnOk result (self.new ≡ round self.old) }
        ensures err { OnErr result (self.new ≡ self.old) }
    {
        let sent_before = self.pair.sent().len();
        let arrivals = sent_before.saturating_sub(self.passed);
        self.pair.reserve(arrivals.saturating_add(EVENTS_BESIDE))?;
        attempt(
            &mut self.pair,
            &PairEvent::Time {
                elapsed: ROUND_MICROS,
                of_client: ROUND_MICROS,
                of_server: ROUND_MICROS,
            },
        );
        arrive_from(&mut self.pair, self.passed, sent_before);
        attempt(&mut self.pair, &PairEvent::Tick(Role::Client));
        attempt(&mut self.pair, &PairEvent::Tick(Role::Server));
        self.passed = sent_before;
        Ok(())
    }
}

/// Tries an event for which there is room: where it can't happen, it is passed over.
#[tactic(auto, unfolding(crate::specs::Flow::tried))]
fn attempt(pair: &mut Pair, event: &PairEvent)
    requires room { 0 < pair.old.room }
    requires kind { IsFalse (is_restart event.now) }
    ensures run { pair.new.run ≡ tried event.now pair.old.run }
    ensures room { pair.old.room ≤ pair.new.room + 1 }
{
    let _ = pair.apply(event);
}

/// The datagram at a place of those that were sent arrives, where there is room for an event.
#[tactic(auto, unfolding(crate::specs::Flow::tried, crate::specs::Flow::arrived, crate::specs::Flow::arriving, simulator_pair::specs::Events::refusal, simulator_pair::specs::Events::happens))]
fn arrive(pair: &mut Pair, index: usize)
    requires { 0 < pair.old.room }
    ensures run { pair.new.run ≡ arriving (slice_get pair.old.run.ends.sent index) pair.old.run }
    ensures room { pair.old.room ≤ pair.new.room + 1 }
{
    let Some(sent) = pair.sent().get(index) else {
        return;
    };
    if sent.is_lost() {
        return;
    }
    let receiver = match sent.sender() {
        Role::Client => Role::Server,
        Role::Server => Role::Client,
    };
    if let Ok(bytes) = Bytes::try_from(sent.bytes()) {
        attempt(pair, &PairEvent::Deliver(receiver, bytes));
    }
}

/// The datagrams from one place up to another arrive, in the order of sending, where there is room for them.
#[tactic(auto, unfolding(crate::specs::Flow::arriving_from))]
fn arrive_from(pair: &mut Pair, first: usize, end: usize)
    requires { end - first ≤ pair.old.room }
    ensures run { pair.new.run ≡ arriving_from first (end - first) pair.old.run }
    ensures room { pair.old.room ≤ pair.new.room + (end - first) }
{
    for index in first..end {
        arrive(pair, index);
    }
}
