//! A controller inside a program's own loop.

ghost use Rattle.std.specs.Prelude.{◌≡◌, ◌≤◌, ℕ, true, false, Ok, Err, IfOk, MatchResult};
ghost use Rattle.std.specs.Option.{option_map};
ghost use Rattle.rasta_core.specs.Clock.{alive_until, state_at};
ghost use Rattle.rasta_core.specs.identity.Role.TheVariants.{Server};
ghost use Rattle.object_host.specs.Host.{is_completed};
ghost use Rattle.object_host.specs.Hosted.{new_host};
ghost use Rattle.embedded_host.specs.Calls.{AsksOrder, Done, FindsEmpty, Hears, Senses, Takes, Ticks, after_call, answer_to, coming};
ghost use Rattle.embedded_host.specs.Embedded.{answer_to_bytes, answer_to_next, answer_to_reading, has_fallen, is_fresh, is_quiet, is_recent, leaving, started, stepped};

use crate::budget::{LONGEST_IN_SOCKET, LONGEST_WAIT, QUIET_AT_FIRST};
use crate::refusal::Refusal;
use object_host::{Controller, Hosted, Input, Parties, Sense};
use rasta_core::{Millis, Start, State};
use rasta_pdu::Datagram;
use std::alloc::{AllocError, Global};
use std::marker::Model;

/// A controller inside a program's own loop, which brings the readings of its clock. Contracts see it as an `EmbeddedState`.
///
/// A step is made by `hear`, `tick` or `sense`. After each the program reads what the object has to do, has its equipment do it,
/// says so by `done`, and then takes the datagrams of the step by `next`. A step forgets what wasn't taken.
#[derive(Drop)]
pub struct Embedded<C: Controller> {
    hosted: Hosted<C>,
    begun: Millis,
    since: Millis,
    latest: Millis,
    in_force: bool,
    empty: Option<Millis>,
}

impl<C: Controller> Model for Embedded<C> {
    ghost use Rattle.rasta_core.specs.Calls.{MayStep};
    ghost use Rattle.embedded_host.specs.Embedded.{EmbeddedState};

    ghost Value = { EmbeddedState C };

    ghost view = { λ e. record { hosted = e.hosted; begun = e.begun; since = e.since; latest = e.latest; in_force = e.in_force; empty = e.empty } };

    ghost invariant = { λ e. MayStep e.latest e.hosted.host.link };
}

/// Whether nothing that comes at a reading can have waited for more than 400 ms.
fn is_recent(now: Millis, empty: Option<Millis>) -> bool
    ensures { result ≡ is_recent now empty }
{
    match empty {
        Some(empty) => now.saturating_sub(empty) <= LONGEST_IN_SOCKET,
        None => false,
    }
}

impl<C: Controller> Embedded<C> {
    /// A controller of these names and identities that starts at a reading of its clock, with a link that isn't in a connection.
    /// `version` is the version of the telegrams. No later call takes memory.
    #[tactic(auto, unfolding(crate::proofs::Below::new_host, crate::proofs::Below::keeping, crate::proofs::Below::created))]
    pub fn new(
        alloc: Global,
        parties: Parties,
        start: Start,
        object: C,
        version: u8,
    ) -> Result<Embedded<C>, AllocError>
        ensures { IfOk result (λ embedded. embedded ≡ started (new_host C.behaviour (record { role = Server; own = parties.own; partner = parties.partner; key = parties.key }) parties.own_name parties.peer_name start.first_sequence_number start.now object version) start.now) }
    {
        let now = start.now;
        let hosted = Hosted::new(alloc, parties, start, object, version)?;
        Ok(Embedded {
            hosted,
            begun: now,
            since: now,
            latest: now,
            in_force: false,
            empty: None,
        })
    }

    /// Whether the clock has fallen since the last reading.
    fn has_fallen(&self, now: Millis) -> bool
        ensures { result ≡ has_fallen now self.now }
    {
        now < self.latest
    }

    /// Whether an earlier life of it may not be over for everyone.
    fn is_quiet(&self, now: Millis) -> bool
        ensures { result ≡ is_quiet now self.now }
    {
        now.saturating_sub(self.begun) < QUIET_AT_FIRST
    }

    /// Whether the datagrams of the last step may still leave.
    fn is_fresh(&self, now: Millis) -> bool
        ensures { result ≡ is_fresh now self.now }
    {
        now.saturating_sub(self.since) < LONGEST_WAIT
    }

    /// What is answered to a call that only brings a reading.
    fn answer_to_reading(&self, now: Millis) -> Result<(), Refusal>
        ensures { result ≡ answer_to_reading now self.now }
    {
        if self.has_fallen(now) {
            return Err(Refusal::ClockFell);
        }
        Ok(())
    }

    /// What is answered to bytes that came.
    fn answer_to_bytes(&self, now: Millis) -> Result<(), Refusal>
        ensures { result ≡ answer_to_bytes now self.now }
    {
        if self.has_fallen(now) {
            return Err(Refusal::ClockFell);
        }
        if self.is_quiet(now) {
            return Err(Refusal::TooSoon);
        }
        if !is_recent(now, self.empty) {
            return Err(Refusal::TooOld);
        }
        Ok(())
    }

    /// What is answered to the question for the next datagram.
    fn answer_to_next(&self, now: Millis) -> Result<(), Refusal>
        ensures { result ≡ answer_to_next now self.now }
    {
        if self.has_fallen(now) {
            return Err(Refusal::ClockFell);
        }
        if self.is_quiet(now) {
            return Err(Refusal::TooSoon);
        }
        if !self.in_force {
            return Err(Refusal::NotInForce);
        }
        Ok(())
    }

    /// A step at a reading that hasn't fallen.
    fn step(&mut self, now: Millis, input: Input<'_>)
        requires { self.old.latest ≤ now }
        ensures { self.new ≡ stepped C.behaviour now input.entry self.old }
    {
        self.hosted.step(now, input);
        self.since = now;
        self.latest = now;
        self.in_force = false;
    }

    /// A step with bytes.
    fn step_with_bytes(&mut self, now: Millis, bytes: &[u8])
        requires { self.old.latest ≤ now }
        ensures { self.new ≡ stepped C.behaviour now (coming bytes.now) self.old }
    {
        self.step(now, Input::Datagram(bytes));
    }

    /// Bytes came from the interlocking, and then the clock was read.
    pub fn hear(&mut self, now: Millis, bytes: &[u8]) -> Result<(), Refusal>
        ensures answer { result ≡ answer_to (Hears now bytes.now) self.old }
        ensures does { self.new ≡ after_call C.behaviour (Hears now bytes.now) self.old }
    {
        self.answer_to_bytes(now)?;
        self.step_with_bytes(now, bytes);
        Ok(())
    }

    /// The clock goes on.
    pub fn tick(&mut self, now: Millis) -> Result<(), Refusal>
        ensures answer { result ≡ answer_to (Ticks now) self.old }
        ensures does { self.new ≡ after_call C.behaviour (Ticks now) self.old }
    {
        self.answer_to_reading(now)?;
        self.step(now, Input::Tick);
        Ok(())
    }

    /// A contact has changed, and then the clock was read.
    pub fn sense(&mut self, now: Millis, sense: Sense) -> Result<(), Refusal>
        ensures answer { result ≡ answer_to (Senses now sense) self.old }
        ensures does { self.new ≡ after_call C.behaviour (Senses now sense) self.old }
    {
        self.answer_to_reading(now)?;
        self.step(now, Input::Sense(sense));
        Ok(())
    }

    /// A receive found nothing; `before` was read before it.
    pub fn empty(&mut self, before: Millis) -> Result<(), Refusal>
        ensures answer { result ≡ answer_to (FindsEmpty before) self.old }
        ensures does { self.new ≡ after_call C.behaviour (FindsEmpty before) self.old }
    {
        self.answer_to_reading(before)?;
        self.latest = before;
        self.empty = Some(before);
        Ok(())
    }

    /// What the object has to do is asked for at a reading: `object` tells it.
    pub fn ask(&mut self, now: Millis) -> Result<(), Refusal>
        ensures answer { result ≡ answer_to (AsksOrder now) self.old }
        ensures does { self.new ≡ after_call C.behaviour (AsksOrder now) self.old }
    {
        self.answer_to_reading(now)?;
        self.latest = now;
        Ok(())
    }

    /// The equipment does what the object has it do: the datagrams of the step may leave.
    pub fn done(&mut self)
        ensures { self.new ≡ after_call C.behaviour Done self.old }
    {
        self.in_force = true;
    }

    /// Takes the oldest datagram of the last step out, which has to leave at once. It answers none where none is left, or where they
    /// have waited for 500 ms.
    pub fn next(&mut self, now: Millis) -> Result<Option<Datagram>, Refusal>
        ensures answer { MatchResult result (λ left. (answer_to (Takes now) self.old ≡ Ok tt) × (option_map (λ d. d.items) left ≡ leaving now self.old)) (λ why. answer_to (Takes now) self.old ≡ Err why) }
        ensures does { self.new ≡ after_call C.behaviour (Takes now) self.old }
    {
        self.answer_to_next(now)?;
        self.latest = now;
        if !self.is_fresh(now) {
            return Ok(None);
        }
        Ok(self.hosted.take_first())
    }

    /// The field object. At and past the moment at which the link dies it is restrictive, stepped or not, and as
    /// long as the initialisation isn't completed at every clock reading.
    pub fn object(&self) -> &C
        ensures object { result.now ≡ self.now.hosted.host.object }
        ensures dies { (now : ℕ) → alive_until self.now.hosted.host.link ≤ now → C.behaviour.is_restrictive now self.now.hosted.host.object ≡ true }
        ensures uninitialised { (now : ℕ) → is_completed self.now.hosted.host.stage ≡ false → C.behaviour.is_restrictive now self.now.hosted.host.object ≡ true }
    {
        self.hosted.object()
    }

    /// How the link stands at a reading, for a display. Nothing changes.
    pub fn link(&self, now: Millis) -> State
        ensures { result ≡ state_at now self.now.hosted.host.link }
    {
        self.hosted.link().state(now)
    }
}
