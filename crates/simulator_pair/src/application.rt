//! What each event does to the parts of a pair.

ghost use Rattle.std.specs.Prelude.{◌≡◌, ◌≢◌, ◌≤◌, ◌<◌, ◌+◌, ◌*◌, ◌⊎◌, ℕ, List, nat_le, None, Some, Ok, Err, IfOk, IfErr, OnOk, OnErr, IsTrue};
ghost use Rattle.rasta_core.specs.Run.{end_of, later, lost, restarted};
ghost use Rattle.rasta_core.specs.Ends.{reading_of};
ghost use Rattle.rasta_core.specs.Ends as ends;
ghost use Rattle.rasta_core.specs.Bag.{has_copy};
ghost use Rattle.rasta_core.specs.Calls.{answer_to_send};
ghost use Rattle.rasta_core.specs.identity.Role.TheVariants.{Client, Server};
ghost use Rattle.rasta_pdu.specs.SafetyCode.{intact};
ghost use Rattle.simulator_pair.specs.Pair.{stepped};
ghost use Rattle.simulator_pair.specs.declared.event.PairEvent.TheVariants as event;
ghost use Rattle.simulator_refused.specs.declared.refused.Refused.TheVariants.{OutOfMemory};
ghost use Rattle.simulator_pair.specs.Events.{refusal, refusal_of_time, refusal_of_delivery, keeps_time, happens, answered, reply_to, is_restart, copy_of, connection_of, clock_limit};

use crate::bag;
use crate::event::{Bytes, PairAnswer, PairEvent, PairReply};
use crate::node::{Call, Node};
use crate::parts::Parts;
use rasta_core::{CLOCK_LIMIT, MICROS, Millis, Role};
use rasta_pdu::is_intact;
use signal_ctl::Lamp;
use simulator_refused::Refused;
use std::alloc::AllocError;

/// How many datagrams an event sends at most, and how many items it adds to a list: it makes at most two calls.
const DATAGRAMS_FOR_EACH_EVENT: usize = 48;

const ITEMS_FOR_EACH_EVENT: usize = 6;

/// Whether a clock that goes on by so much in a true time keeps within one part in a thousand of it.
fn keeps_time(elapsed: u64, of_clock: u64) -> bool
    ensures { result ≡ keeps_time elapsed of_clock }
{
    let (elapsed, of_clock) = (u128::from(elapsed), u128::from(of_clock));
    999 * elapsed <= 1000 * of_clock && 1000 * of_clock <= 1001 * elapsed
}

/// Whether a time or a clock may go on by so much.
fn is_within(now: u64, elapsed: u64) -> bool
    requires { now ≤ clock_limit }
    ensures { result ≡ nat_le (now + elapsed) clock_limit }
{
    elapsed <= CLOCK_LIMIT - now
}

impl Parts {
    ghost use Rattle.simulator_pair.specs.inside.Parts.{seen, seen_ends, AreSound, HaveRoom, KeepRoom, IsPair};
    ghost use Rattle.simulator_pair.specs.inside.EventTest.{Finds, StandsAt};
    ghost use Rattle.simulator_pair.specs.inside.Seen.{seen_end};

    #[tactic(auto, unfolding(crate::specs::inside::Parts::seen_ends))]
    pub(crate) fn end(&self, who: Role) -> &Node
        ensures { seen_end result.now ≡ end_of who (seen_ends self.now) }
    {
        match who {
            Role::Client => &self.client,
            Role::Server => &self.server,
        }
    }

    /// Why time can't go on so.
    #[tactic(auto, unfolding(crate::specs::Events::refusal_of_time, crate::specs::inside::Parts::seen_ends, crate::specs::inside::Seen::seen_end))]
    fn refusal_of_time(&self, elapsed: u64, of_client: u64, of_server: u64) -> Option<Refused>
        requires { AreSound self.now }
        ensures value { result ≡ refusal_of_time elapsed of_client of_server (seen_ends self.now) }
        ensures not_memory { result ≢ Some OutOfMemory }
    {
        if !keeps_time(elapsed, of_client) || !keeps_time(elapsed, of_server) {
            return Some(Refused::Drift);
        }
        let within = is_within(self.time, elapsed)
            && is_within(self.client.clock, of_client)
            && is_within(self.server.clock, of_server);
        if within {
            None
        } else {
            Some(Refused::ClockLimit)
        }
    }

    /// The connection that bytes were sent in which can be delivered to an end, or why they can't be. Of bytes that
    /// are no copy it is 0.
    #[tactic(auto, unfolding(crate::specs::Events::refusal_of_delivery, crate::specs::inside::Parts::seen_ends, crate::specs::inside::Seen::seen_end))]
    fn delivered(&self, who: Role, bytes: &Bytes) -> Result<usize, Refused>
        requires { AreSound self.now }
        ensures found { IfOk result (λ connection. (refusal_of_delivery who bytes.now.items (seen_ends self.now) ≡ None) × (connection ≡ connection_of (copy_of bytes.now.items (seen_ends self.now)))) }
        ensures refused { IfErr result (λ why. refusal_of_delivery who bytes.now.items (seen_ends self.now) ≡ Some why) }
        ensures not_memory { result ≢ Err OutOfMemory }
    {
        let copy = bag::newest_copy(
            self.sent.as_slice(),
            &self.index,
            self.time,
            bytes.as_slice(),
        );
        match copy {
            Some(connection) => Ok(connection),
            None => {
                let key = self.end(who).link.identity().key;
                if is_intact(&key, bytes.as_slice()) {
                    return Err(Refused::NeverSent);
                }
                Ok(0)
            }
        }
    }

    /// What an event needs that can happen, or why it can't.
    #[tactic(auto, unfolding(crate::specs::Events::refusal, crate::specs::inside::Parts::seen_ends))]
    fn tested(&self, event: &PairEvent) -> Result<usize, Refused>
        requires { AreSound self.now }
        ensures found { IfOk result (λ found. (refusal event.now (seen_ends self.now) ≡ None) × Finds found event.now (seen_ends self.now)) }
        ensures refused { IfErr result (λ why. refusal event.now (seen_ends self.now) ≡ Some why) }
        ensures not_memory { result ≢ Err OutOfMemory }
    {
        match event {
            PairEvent::Time {
                elapsed,
                of_client,
                of_server,
            } => match self.refusal_of_time(*elapsed, *of_client, *of_server) {
                Some(why) => Err(why),
                None => Ok(0),
            },
            PairEvent::Deliver(who, bytes) => self.delivered(*who, bytes),
            PairEvent::Lose(bytes) => match bag::oldest_copy(
                self.sent.as_slice(),
                &self.index,
                bytes.as_slice(),
            ) {
                Some(place) => Ok(place),
                None => Err(Refused::NeverSent),
            },
            PairEvent::Restart { clock, .. } if *clock > CLOCK_LIMIT / MICROS => Err(
                Refused::ClockLimit,
            ),
            _ => Ok(0),
        }
    }

    /// The timer of an end: a heartbeat that is due, and then a client that is down opens.
    #[tactic(auto, unfolding(crate::specs::Events::happens))]
    fn tick(&mut self, who: Role)
        requires sound { AreSound self.old }
        requires room { HaveRoom 2 self.old }
        ensures step { seen self.new ≡ happens (event.Tick who) (seen self.old) }
        ensures sound { AreSound self.new }
        ensures room { KeepRoom 2 self.old self.new }
    {
        let _ = self.call(who, Call::Ticks);
        if let Role::Client = who {
            let _ = self.call(who, Call::Opens);
        }
    }

    /// Time goes on.
    #[tactic(auto, unfolding(crate::specs::Events::happens, crate::specs::Events::refusal_of_time, crate::specs::inside::Parts::seen, crate::specs::inside::Parts::seen_ends, crate::proofs::Below::later))]
    fn pass(&mut self, elapsed: u64, of_client: u64, of_server: u64)
        requires sound { AreSound self.old }
        requires allowed { refusal_of_time elapsed of_client of_server (seen_ends self.old) ≡ None }
        ensures step { seen self.new ≡ happens (event.Time elapsed of_client of_server) (seen self.old) }
        ensures sound { AreSound self.new }
        ensures room { KeepRoom 2 self.old self.new }
    {
        let moment = self.sent.len();
        self.time += elapsed;
        self.client.pass(of_client, moment);
        self.server.pass(of_server, moment);
    }

    /// The oldest copy of bytes is lost, which stands at this place.
    #[tactic(auto, unfolding(crate::specs::Events::happens, crate::specs::inside::Parts::seen, crate::specs::inside::Parts::seen_ends, crate::proofs::Below::lost))]
    fn lose(&mut self, place: usize)
        requires sound { AreSound self.old }
        requires stands { (bytes : List ℕ) × StandsAt place bytes self.old.sent.items }
        ensures step { (bytes : List ℕ) → StandsAt place bytes self.old.sent.items → seen self.new ≡ record (seen self.old) { ends = lost bytes (seen_ends self.old) } }
        ensures sound { AreSound self.new }
        ensures room { KeepRoom 2 self.old self.new }
    {
        bag::lose_at(self.sent.as_mut_slice(), &mut self.index, place);
    }

    /// An end is made anew; a restarted server has a new lamp.
    #[tactic(auto, unfolding(crate::specs::Events::happens, crate::specs::inside::Parts::seen, crate::specs::inside::Parts::seen_ends, crate::specs::inside::Seen::seen_end, crate::proofs::Below::restarted, crate::proofs::Below::end_restarted))]
    fn restart(
        &mut self,
        who: Role,
        clock: Millis,
        first_sequence_number: u32,
    ) -> Result<(), AllocError>
        requires sound { AreSound self.old }
        requires allowed { clock * 1000 ≤ clock_limit }
        ensures step { OnOk result (seen self.new ≡ happens (event.Restart who clock first_sequence_number) (seen self.old)) }
        ensures same { OnErr result (self.new ≡ self.old) }
        ensures sound { AreSound self.new }
        ensures room { KeepRoom 2 self.old self.new }
    {
        let link = self
            .end(who)
            .link
            .anew(self.alloc, first_sequence_number, clock)?;
        let moment = self.sent.len();
        match who {
            Role::Client => self.client.restart(link, clock, moment),
            Role::Server => {
                self.server.restart(link, clock, moment);
                self.lamp = Lamp::new();
                self.lamp.keep(self.server.link.alive_until());
            }
        }
        Ok(())
    }

    /// An event that can happen does, with what its test found; only a restart may lack memory.
    #[tactic(auto, unfolding(crate::specs::Events::happens, crate::specs::Events::answered, crate::specs::Events::refusal, crate::specs::inside::Parts::seen, crate::specs::inside::Parts::seen_ends))]
    fn happen(&mut self, event: &PairEvent, found: usize) -> Result<PairAnswer, AllocError>
        requires sound { AreSound self.old }
        requires room { HaveRoom 2 self.old }
        requires allowed { refusal event.now (seen_ends self.old) ≡ None }
        requires found { Finds found event.now (seen_ends self.old) }
        ensures step { OnOk result (seen self.new ≡ happens event.now (seen self.old)) }
        ensures answer { IfOk result (λ answer. answer ≡ answered event.now (seen_ends self.old)) }
        ensures same { OnErr result (self.new ≡ self.old) }
        ensures only_restarts { OnErr result (IsTrue (is_restart event.now)) }
        ensures sound { AreSound self.new }
        ensures room { KeepRoom 2 self.old self.new }
    {
        match event {
            PairEvent::Give(who, item) => {
                return Ok(PairAnswer::Given(self.call(*who, Call::Sends(item))));
            }
            PairEvent::Tick(who) => self.tick(*who),
            PairEvent::Time {
                elapsed,
                of_client,
                of_server,
            } => self.pass(*elapsed, *of_client, *of_server),
            PairEvent::Deliver(who, bytes) => {
                let _ = self.call(*who, Call::Receives(bytes, found));
            }
            PairEvent::Lose(_) => self.lose(found),
            PairEvent::Close(who, why) => {
                let _ = self.call(*who, Call::Closes(*why));
            }
            PairEvent::Restart {
                end,
                clock,
                first_sequence_number,
            } => {
                self.restart(*end, *clock, *first_sequence_number)?;
            }
        }
        Ok(PairAnswer::Done)
    }

    /// Makes memory for at least so many events.
    #[tactic(auto, unfolding(crate::specs::inside::Parts::seen, crate::specs::inside::Parts::seen_ends))]
    pub(crate) fn reserve(&mut self, events: usize) -> Result<(), AllocError>
        requires { IsPair self.old }
        ensures room { OnOk result (events ≤ self.new.room) }
        ensures more { self.old.room ≤ self.new.room }
        ensures same { seen self.new ≡ seen self.old }
        ensures whole { IsPair self.new }
    {
        if events <= self.room {
            return Ok(());
        }
        let items = events.saturating_mul(ITEMS_FOR_EACH_EVENT);
        let datagrams = events.saturating_mul(DATAGRAMS_FOR_EACH_EVENT);
        self.sent.reserve(datagrams)?;
        self.index.reserve(datagrams)?;
        self.client.reserve(items)?;
        self.server.reserve(items)?;
        self.room = events;
        Ok(())
    }

    /// Applies an event, or says why it can't happen.
    #[tactic(auto, unfolding(crate::specs::Events::reply_to, crate::specs::inside::Parts::seen, crate::specs::inside::Parts::seen_ends))]
    pub(crate) fn apply(&mut self, event: &PairEvent) -> Result<PairReply, Refused>
        requires { IsPair self.old }
        ensures step { OnOk result (seen self.new ≡ happens event.now (seen self.old)) }
        ensures allowed { OnOk result (refusal event.now (seen_ends self.old) ≡ None) }
        ensures reply { IfOk result (λ reply. reply ≡ reply_to event.now (seen self.old)) }
        ensures refused { IfErr result (λ why. (refusal event.now (seen_ends self.old) ≡ Some why) ⊎ ((why ≡ OutOfMemory) × (refusal event.now (seen_ends self.old) ≡ None))) }
        ensures memory { result ≡ Err OutOfMemory → 0 < self.old.room → IsTrue (is_restart event.now) }
        ensures same { OnErr result (seen self.new ≡ seen self.old) }
        ensures room { self.old.room ≤ self.new.room + 1 }
        ensures kept { OnErr result (self.old.room ≤ self.new.room) }
        ensures whole { IsPair self.new }
    {
        let found = self.tested(event)?;
        if self.room == 0 && self.reserve(1).is_err() {
            return Err(Refused::OutOfMemory);
        }
        let sent_before = self.sent.len();
        match self.happen(event, found) {
            Ok(answer) => {
                self.room -= 1;
                let added = self.sent.len() - sent_before;
                Ok(PairReply { answer, added })
            }
            Err(_) => Err(Refused::OutOfMemory),
        }
    }
}
