//! An interlocking inside a program's own loop.

ghost use Rattle.std.specs.Prelude.{◌≡◌, ◌≤◌, true, Ok, Err, IfOk, IfErr, MatchResult, slice_get};
ghost use Rattle.std.specs.Option.{option_map};
ghost use Rattle.ixl_state.specs.control_table.Table.{Sound};
ghost use Rattle.ixl_state.specs.ixl_spec.Step.{Commands};
ghost use Rattle.ixl_state.specs.ixl_spec.View.{authority_from, indicated, is_clear, is_holding, is_known, is_occupied};
ghost use Rattle.ixl_state.specs.layout.Entries.{Site};
ghost use Rattle.ixl_state.specs.layout.NamesResolved.{layout_in};
ghost use Rattle.ixl_state.specs.sci_telegram.declared.message.Side.TheVariants as sides;
ghost use Rattle.ixl.specs.Interlocking.{meant, told};
ghost use Rattle.embedded_ixl.specs.Calls.{FindsEmpty, Hears, Obeys, Takes, Ticks, after_call, answer_to};
ghost use Rattle.embedded_ixl.specs.Display.{authority_of, is_linked, is_set_at, occupancy_known, readiness_of, side_known};
ghost use Rattle.embedded_ixl.specs.Embedded.{addressed, answer_to_bytes, answer_to_next, answer_to_reading, cause_in, has_fallen, is_fresh, is_quiet, is_recent, leaving_to, receiver_in, reply_to, stepped, without_oldest};
ghost use Rattle.embedded_ixl.specs.Made.{Explains, IsMadeOf};
ghost use Rattle.embedded_ixl.specs.Places.{count_of, name_in, place_in};
ghost use Rattle.embedded_ixl.specs.declared.start_fault.StartFault.TheVariants.{OutOfMemory};

use crate::call_refusal::CallRefusal;
use crate::display::{
    Authority, Readiness, authority_at, is_linked, is_set, point, readiness_at, section,
};
use crate::places::{Kind, count_of, name_in, place_in};
use crate::start_fault::StartFault;
use embedded_host::budget::{LONGEST_IN_SOCKET, LONGEST_WAIT, QUIET_AT_FIRST};
use ixl::{Input, Interlocking, Reply, steps_may_follow_at_later_clocks};
use ixl_state::ixl_spec::control_table::check;
use ixl_state::{
    Aspect, Closings, Command, Datagram, Layout, Millis, Name, NodeId, Occupancy, Refusal, Side,
    SignalId, receiver_of,
};
use std::alloc::Global;
use std::marker::Model;

/// A datagram, and the node to whose controller it goes.
#[derive(Drop)]
pub struct Addressed {
    pub to: NodeId,
    pub datagram: Datagram,
}

/// An interlocking inside a program's own loop, which brings the readings of its clock. Contracts see it as an `EmbeddedIxlState`.
///
/// A step is made by `hear`, `tick` or `command`. After each the program takes the datagrams of the step by `next`, and sends each at
/// once. A step forgets what wasn't taken.
#[derive(Drop)]
pub struct EmbeddedInterlocking {
    interlocking: Interlocking,
    begun: Millis,
    since: Millis,
    latest: Millis,
    empty: Option<Millis>,
}

impl Model for EmbeddedInterlocking {
    ghost use Rattle.std.specs.Prelude.{◌≤◌, ℕ};
    ghost use Rattle.std.specs.Coded.{codes};
    ghost use Rattle.ixl_state.specs.bit_row.Places.{places_code};
    ghost use Rattle.ixl_state.specs.State.{MayStepAll};
    ghost use Rattle.embedded_ixl.specs.Embedded.{EmbeddedIxlState};

    ghost Value = { EmbeddedIxlState };

    ghost coded = { Prim.hlevel (codes, places_code) };

    ghost view = { λ e. record { interlocking = e.interlocking; begun = e.begun; since = e.since; latest = e.latest; empty = e.empty } };

    ghost invariant = { λ e. (later : ℕ) → e.latest ≤ later → MayStepAll later e.interlocking.state };
}

/// Whether nothing that comes at a reading can have waited for more than 400 ms.
fn is_recent(now: Millis, empty: Option<Millis>) -> bool
    ensures { result ≡ is_recent now empty }
{
    match empty {
        Some(empty) => now.saturating_sub(empty) <= LONGEST_IN_SOCKET,
        None => false,
    }
}

/// The node that a datagram names as its receiver.
fn receiver(layout: &Layout, bytes: &[u8]) -> NodeId
    ensures { result.0 ≡ receiver_in layout.now bytes.now }
{
    match layout.link_with(receiver_of(bytes)) {
        Some(link) => NodeId(link + 1),
        None => NodeId(layout.links() + 1),
    }
}

/// Why the interlocking refuses a command, if it does.
fn cause_in(reply: Reply) -> Option<Refusal>
    ensures { result ≡ cause_in (told reply) }
{
    match reply {
        Reply::Refused(cause) => Some(cause),
        _ => None,
    }
}

impl EmbeddedInterlocking {
    /// The interlocking of the layout of a text, at a reading of its clock. It numbers its PDUs from `first` on, and no route is set.
    /// No later call takes memory.
    pub fn new(
        alloc: Global,
        text: &str,
        first: u32,
        now: Millis,
    ) -> Result<EmbeddedInterlocking, StartFault>
        ensures made { IfOk result (IsMadeOf text.now first now) }
        ensures fault { IfErr result (Explains text.now) }
        ensures complete { (site : Site) → layout_in text.now ≡ Ok site → Sound site → IfErr result (λ why. why ≡ OutOfMemory) }
    {
        let layout = Layout::read(alloc, text)?;
        let checked = check(alloc, layout)?;
        let interlocking = Interlocking::new(alloc, checked, first, now)?;
        interlocking.table().checked();
        Ok(EmbeddedInterlocking {
            interlocking,
            begun: now,
            since: now,
            latest: now,
            empty: None,
        })
    }

    /// Whether the clock has fallen since the last reading.
    fn has_fallen(&self, now: Millis) -> bool
        ensures { result ≡ has_fallen now self.now }
    {
        now < self.latest
    }

    /// Whether an earlier life of it may not be over for everyone.
    fn is_quiet(&self, now: Millis) -> bool
        ensures { result ≡ is_quiet now self.now }
    {
        now.saturating_sub(self.begun) < QUIET_AT_FIRST
    }

    /// Whether the datagrams of the last step may still leave.
    fn is_fresh(&self, now: Millis) -> bool
        ensures { result ≡ is_fresh now self.now }
    {
        now.saturating_sub(self.since) < LONGEST_WAIT
    }

    /// What is answered to a call that only brings a reading.
    fn answer_to_reading(&self, now: Millis) -> Result<(), CallRefusal>
        ensures { result ≡ answer_to_reading now self.now }
    {
        if self.has_fallen(now) {
            return Err(CallRefusal::ClockFell);
        }
        Ok(())
    }

    /// What is answered to bytes that came.
    fn answer_to_bytes(&self, now: Millis) -> Result<(), CallRefusal>
        ensures { result ≡ answer_to_bytes now self.now }
    {
        if self.has_fallen(now) {
            return Err(CallRefusal::ClockFell);
        }
        if self.is_quiet(now) {
            return Err(CallRefusal::TooSoon);
        }
        if !is_recent(now, self.empty) {
            return Err(CallRefusal::TooOld);
        }
        Ok(())
    }

    /// What is answered to the question for the next datagram.
    fn answer_to_next(&self, now: Millis) -> Result<(), CallRefusal>
        ensures { result ≡ answer_to_next now self.now }
    {
        if self.has_fallen(now) {
            return Err(CallRefusal::ClockFell);
        }
        if self.is_quiet(now) {
            return Err(CallRefusal::TooSoon);
        }
        Ok(())
    }

    /// A step at a reading that hasn't fallen.
    fn step(&mut self, now: Millis, input: Input<'_>) -> Reply
        requires { self.old.latest ≤ now }
        ensures stepped { self.new ≡ stepped now (meant input.entry) self.old }
        ensures answered { told result ≡ reply_to now (meant input.entry) self.old }
    {
        let reply = self.interlocking.step(now, input);
        steps_may_follow_at_later_clocks();
        self.since = now;
        self.latest = now;
        reply
    }

    /// Bytes came from a controller, and then the clock was read.
    pub fn hear(&mut self, now: Millis, bytes: &[u8]) -> Result<(), CallRefusal>
        ensures answer { result ≡ answer_to (Hears now bytes.now) self.old }
        ensures does { self.new ≡ after_call (Hears now bytes.now) self.old }
    {
        self.answer_to_bytes(now)?;
        self.step(now, Input::Datagram(bytes));
        Ok(())
    }

    /// The clock goes on.
    pub fn tick(&mut self, now: Millis) -> Result<(), CallRefusal>
        ensures answer { result ≡ answer_to (Ticks now) self.old }
        ensures does { self.new ≡ after_call (Ticks now) self.old }
    {
        self.answer_to_reading(now)?;
        self.step(now, Input::Tick);
        Ok(())
    }

    /// The operator wants something, and then the clock was read. Where the call is accepted it answers why the interlocking refuses
    /// the command, if it does.
    pub fn command(&mut self, now: Millis, command: Command) -> Result<Option<Refusal>, CallRefusal>
        ensures answer { MatchResult result (λ cause. (answer_to (Obeys now command) self.old ≡ Ok tt) × (cause ≡ cause_in (reply_to now (Commands command) self.old))) (λ why. answer_to (Obeys now command) self.old ≡ Err why) }
        ensures does { self.new ≡ after_call (Obeys now command) self.old }
    {
        self.answer_to_reading(now)?;
        let reply = self.step(now, Input::Command(command));
        Ok(cause_in(reply))
    }

    /// A receive found nothing; `before` was read before it.
    pub fn empty(&mut self, before: Millis) -> Result<(), CallRefusal>
        ensures answer { result ≡ answer_to (FindsEmpty before) self.old }
        ensures does { self.new ≡ after_call (FindsEmpty before) self.old }
    {
        self.answer_to_reading(before)?;
        self.latest = before;
        self.empty = Some(before);
        Ok(())
    }

    /// Takes the oldest datagram of the last step out, which has to leave at once. It answers none where none is left, or where they
    /// have waited for 500 ms.
    pub fn next(&mut self, now: Millis) -> Result<Option<Addressed>, CallRefusal>
        ensures answer { MatchResult result (λ left. (answer_to (Takes now) self.old ≡ Ok tt) × (option_map (λ a. (a.to.0, a.datagram.items)) left ≡ leaving_to now self.old)) (λ why. answer_to (Takes now) self.old ≡ Err why) }
        ensures does { self.new ≡ after_call (Takes now) self.old }
    {
        self.answer_to_next(now)?;
        self.latest = now;
        if !self.is_fresh(now) {
            return Ok(None);
        }
        Ok(self.take_first())
    }

    /// The oldest datagram, with its receiver.
    fn take_first(&mut self) -> Option<Addressed>
        ensures value { option_map (λ a. (a.to.0, a.datagram.items)) result ≡ option_map (addressed self.old.interlocking.state.sited.site) (slice_get self.old.interlocking.outbox.datagrams 0) }
        ensures rest { self.new ≡ record self.old { interlocking = record self.old.interlocking { outbox = without_oldest true self.old.interlocking.outbox } } }
    {
        let datagram = self.interlocking.take_first()?;
        let to = receiver(self.layout(), &datagram);
        Some(Addressed { to, datagram })
    }

    /// The layout of its station.
    pub fn layout(&self) -> &Layout
        ensures { result.now ≡ self.now.interlocking.state.sited.site }
    {
        self.interlocking.table().checked().layout()
    }

    /// How many things of a kind its station has.
    pub fn count(&self, kind: Kind) -> usize
        ensures { result ≡ count_of self.now.interlocking.state.sited.site kind }
    {
        count_of(self.layout(), kind)
    }

    /// The place of the thing of a kind that has this name, if one has it.
    pub fn place(&self, kind: Kind, name: &[u8]) -> Option<usize>
        ensures { result ≡ place_in self.now.interlocking.state.sited.site kind name.now }
    {
        place_in(self.layout(), kind, name)
    }

    /// The name of the thing of a kind at a place, if one is there.
    pub fn name(&self, kind: Kind, place: usize) -> Option<Name>
        ensures { result ≡ name_in self.now.interlocking.state.sited.site kind place }
    {
        name_in(self.layout(), kind, place)
    }

    /// The route that has authority from a signal, if one has it.
    pub fn authority(&self, place: usize) -> Option<Authority>
        ensures { result ≡ authority_of self.now.interlocking.state.sited.table.rows (authority_from place 0 self.now.interlocking.state.sited.table.rows self.now.interlocking.state.ixl.routes) }
    {
        authority_at(&self.interlocking, place)
    }

    /// The aspect that a signal's controller last reported in the present connection.
    pub fn indicated(&self, place: usize) -> Option<Aspect>
        ensures { result ≡ indicated self.now.interlocking.state.ixl place }
    {
        self.interlocking.indicated(SignalId(place))
    }

    /// Whether a section is known to be clear or occupied.
    pub fn section(&self, place: usize) -> Option<Occupancy>
        ensures { result ≡ occupancy_known (is_clear self.now.interlocking.state.sited.table self.now.interlocking.state.ixl place) (is_occupied self.now.interlocking.state.sited.table self.now.interlocking.state.ixl place) }
    {
        section(self.interlocking.state(), place)
    }

    /// At which side a point is known to lie.
    pub fn point(&self, place: usize) -> Option<Side>
        ensures { result ≡ side_known (is_known self.now.interlocking.state.ixl place sides.Right) (is_known self.now.interlocking.state.ixl place sides.Left) }
    {
        point(self.interlocking.state(), place)
    }

    /// Whether the initialisation of the controller of a node is completed in its present connection.
    pub fn is_linked(&self, node: usize) -> bool
        ensures { result ≡ is_linked self.now.interlocking.state.sited.site self.now.interlocking.state.ixl node }
    {
        is_linked(self.interlocking.state(), node)
    }

    /// Whether a route is set.
    pub fn is_set(&self, place: usize) -> bool
        ensures { result ≡ is_set_at self.now.interlocking.state.ixl place }
    {
        is_set(self.interlocking.state(), place)
    }

    /// What is closed.
    pub fn closed(&self) -> Closings
        ensures { result ≡ self.now.interlocking.state.ixl.closed }
    {
        self.interlocking.closed()
    }

    /// Whether requests are taken at a reading.
    pub fn readiness(&self, now: Millis) -> Readiness
        ensures { result ≡ readiness_of (is_holding now self.now.interlocking.state.ixl) self.now.interlocking.state.ixl.resumed }
    {
        readiness_at(&self.interlocking, now)
    }
}
