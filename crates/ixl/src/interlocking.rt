//! The interlocking of a station.

ghost use Rattle.std.specs.Prelude.{◌≡◌, ◌<◌, ◌≤◌, ◌↔◌, ℕ, [], drop, length, not, slice_get, IsTrue, IfOk, None, OnErr, OnOk};
ghost use Rattle.std.specs.Option.{option_map};
ghost use Rattle.ixl_state.specs.bit_row.Places.{Has};
ghost use Rattle.ixl_state.specs.layout.declared.ids.RouteId.{RouteId};
ghost use Rattle.ixl_state.specs.ixl_spec.Commands.{refusal, refused_where};
ghost use Rattle.ixl_state.specs.ixl_spec.Due.{HoldsSection};
ghost use Rattle.ixl_state.specs.ixl_spec.Operations.{has_named, has_thing};
ghost use Rattle.ixl_state.specs.ixl_spec.View.{authority_from, indicated, is_holding, is_set};
ghost use Rattle.ixl_state.specs.ixl_spec.closings.Things.{HasNamed, HasThing};
ghost use Rattle.ixl_state.specs.ixl_spec.closings.declared.thing.Named.{Named};
ghost use Rattle.ixl_state.specs.ixl_spec.closings.declared.thing.Thing.{Thing};
ghost use Rattle.ixl_state.specs.ixl_spec.declared.command.Refusal.TheVariants as refusals;
ghost use Rattle.ixl_state.specs.State.{AtRoute, MayStepAll};
ghost use Rattle.ixl_state.specs.ixl_spec.StepSoFar.{empty_outbox};
ghost use Rattle.ixl.specs.Interlocking.{HasStepped, meant, told};
ghost use Rattle.ixl_state.specs.First.{new_ixl};

use crate::authority::authority;
use crate::input::{Input, Reply};
use crate::refusals::{is_holding, refusal, refusal_of_any};
use crate::step::step;
use ixl_state::ixl_table::Table;
use ixl_state::{
    Aspect, BitRow, Checked, Closings, Command, Datagram, Key, Millis, Outbox, Refusal, RouteId,
    SignalId, State, key_of,
};
use std::alloc::{AllocError, Global};
use std::marker::Model;

/// For how many links the outbox has room: a step hands out fewer datagrams than so many links may.
const ALL_LINKS: usize = 80;

/// The interlocking of a station: the client of one link to each controller. It sets and frees routes, moves points and
/// clears signals by its rules, and rests on nothing but what the controllers told in their present connections.
#[derive(Debug)]
pub struct Interlocking {
    state: State,
    key: Key,
    outbox: Outbox,
}

// Written by hand, so that it is proved and compiled here alone.
impl Drop for Interlocking {
    fn drop(self) {
        let Self {
            state: _,
            key: _,
            outbox: _,
        } = self;
    }
}

impl Model for Interlocking {
    ghost use Rattle.std.specs.Prelude.{◌≡◌};
    ghost use Rattle.std.specs.Coded.{codes};
    ghost use Rattle.ixl_state.specs.bit_row.Places.{places_code};
    ghost use Rattle.ixl_state.specs.First.{key_of};
    ghost use Rattle.ixl.specs.Interlocking.{InterlockingState};

    ghost Value = { InterlockingState };

    ghost coded = { Prim.hlevel (codes, places_code) };

    ghost view = { λ i. record { state = i.state; outbox = i.outbox } };

    ghost invariant = { λ i. (i.key ≡ key_of i.state.sited.site) × (i.outbox.capacity ≡ 5120) };
}

/// Takes out all datagrams.
fn empty(outbox: &mut Outbox)
    ensures { outbox.new ≡ record outbox.old { datagrams = [] } }
{
    while let Some(_datagram) = outbox.take_first() {}
}

impl Interlocking {
    /// The interlocking of a table that was checked. No route is set, and every link is in no connection: it numbers its
    /// PDUs from `first_sequence_number` on, and `now` is its clock.
    pub fn new(
        alloc: Global,
        checked: Checked,
        first_sequence_number: u32,
        now: Millis,
    ) -> Result<Interlocking, AllocError>
        ensures site { IfOk result (λ i. i.state.sited.site ≡ checked) }
        ensures ixl { IfOk result (λ i. i.state.ixl ≡ new_ixl i.state.sited.site i.state.sited.table (record { clock = now; first = first_sequence_number })) }
        ensures outbox { IfOk result (λ i. i.outbox ≡ empty_outbox) }
    {
        let key = key_of(checked.layout());
        let state = State::new(alloc, checked, first_sequence_number, now)?;
        let outbox = Outbox::for_links(alloc, ALL_LINKS)?;
        Ok(Interlocking { state, key, outbox })
    }

    /// All but the table is made anew, as `new` makes it: no route is set, and every link is in no connection. The outbox is
    /// empty then. Where there is no memory for that, nothing changes.
    pub fn restart(
        &mut self,
        alloc: Global,
        first_sequence_number: u32,
        now: Millis,
    ) -> Result<(), AllocError>
        ensures sited { self.new.state.sited ≡ self.old.state.sited }
        ensures ixl { OnOk result (self.new.state.ixl ≡ new_ixl self.old.state.sited.site self.old.state.sited.table (record { clock = now; first = first_sequence_number })) }
        ensures outbox { OnOk result (self.new.outbox ≡ empty_outbox) }
        ensures unchanged { OnErr result (self.new ≡ self.old) }
    {
        self.state.restart(alloc, first_sequence_number, now)?;
        empty(&mut self.outbox);
        Ok(())
    }

    /// Whether a step at this clock reading may be made: the clock of no link has fallen.
    pub fn may_step(&self, now: Millis) -> bool
        ensures { IsTrue result ↔ MayStepAll now self.now.state }
    {
        self.state.may_step(now)
    }

    /// A step at a clock reading: the clock on every link, the input, what is seen of routes with authority, the six rules
    /// each for all routes in table order, and on a tick the heartbeats and openings of the links. The outbox then has the
    /// datagrams of this step alone.
    ///
    /// What the rules come to at each route of the table, in the state that the step has reached there, `ixl_spec` says:
    /// `stop_is_given_where_due`, `authority_ends_at_known_stop`, `section_is_freed_where_passage_lets_it_go`,
    /// `passage_frees_all_that_it_may`, `route_is_freed_where_cancel_lets_it_go`, `move_is_given_where_due` and
    /// `proceed_is_given_where_due`. Of requests `requests_are_accepted_where_admissible` says it here.
    pub fn step(&mut self, now: Millis, input: Input<'_>) -> Reply
        requires { MayStepAll now self.old.state }
        ensures { HasStepped now (meant input.entry) self.old self.new (told result) }
    {
        empty(&mut self.outbox);
        step(&mut self.state, now, &self.key, &input, &mut self.outbox)
    }

    /// The datagrams that the last step handed out and that weren't taken out since. There are 5120 at most.
    pub fn outbox(&self) -> &Outbox
        ensures outbox { result.now ≡ self.now.outbox }
        ensures few { length self.now.outbox.datagrams ≤ 5120 }
    {
        self.outbox.len();
        &self.outbox
    }

    /// Takes the oldest of them out.
    pub fn take_first(&mut self) -> Option<Datagram>
        ensures value { option_map (λ d. d.items) result ≡ slice_get self.old.outbox.datagrams 0 }
        ensures state { self.new.state ≡ self.old.state }
        ensures rest { self.new.outbox ≡ record self.old.outbox { datagrams = drop 1 self.old.outbox.datagrams } }
    {
        self.outbox.take_first()
    }

    /// The control table, as the rules read it. A route is kept of each of its rows, and what is known of each signal.
    pub fn table(&self) -> &Table
        ensures sited { result.now ≡ self.now.state.sited }
        ensures each { length self.now.state.ixl.routes ≡ length self.now.state.sited.table.rows }
        ensures known_signals { length self.now.state.ixl.known_signals ≡ length self.now.state.sited.site.signals }
    {
        self.state.table()
    }

    /// All that it keeps: how far each route is, what is closed, what is known of each controller, and whether it was told to
    /// resume.
    pub fn state(&self) -> &State
        ensures { result.now ≡ self.now.state }
    {
        &self.state
    }

    /// Why a command is refused, if it is: the first cause in their order.
    pub fn refusal(&self, now: Millis, command: Command) -> Option<Refusal>
        ensures { result ≡ refusal now self.now.state.sited.table command self.now.state.ixl }
    {
        refusal(&self.state, now, command)
    }

    /// Why each command for a route of the table or for a point is refused, whatever it is: nothing is set, cancelled, released
    /// or moved in the hold, nor before it was told to resume.
    pub fn refusal_of_any(&self, now: Millis) -> Option<Refusal>
        ensures { result ≡ refused_where (is_holding now self.now.state.ixl) refusals.Holding (refused_where (not self.now.state.ixl.resumed) refusals.NotResumed None) }
    {
        refusal_of_any(&self.state, now)
    }

    /// Whether the hold after the creation isn't over: nothing is set then.
    pub fn holding(&self, now: Millis) -> bool
        ensures { result ≡ is_holding now self.now.state.ixl }
    {
        is_holding(&self.state, now)
    }

    /// What is closed.
    pub fn closed(&self) -> Closings
        ensures { result ≡ self.now.state.ixl.closed }
    {
        self.state.closed()
    }

    /// A station has the things of its layout, and no others: so a close and an open are refused as `NoSuchThing` exactly where
    /// the layout lacks what they name.
    pub fn has_what_its_layout_has(&self)
        ensures thing { (thing : Thing) → IsTrue (has_thing self.now.state.sited.table self.now.state.ixl thing) ↔ HasThing self.now.state.sited.site thing }
        ensures named { (named : Named) → IsTrue (has_named self.now.state.sited.table self.now.state.ixl named) ↔ HasNamed self.now.state.sited.site named }
    {
        self.state.has_what_its_layout_has();
    }

    /// The clock reading at which a route was released in its last setting, if it was.
    pub fn released(&self, route: RouteId) -> Option<Millis>
        requires { route.0 < length self.now.state.sited.table.rows }
        ensures { AtRoute self.now.state route.0 (λ row kept. result ≡ kept.released) }
    {
        self.state.route(route.0).released()
    }

    /// Whether a route is set.
    pub fn is_set(&self, route: RouteId) -> bool
        requires { route.0 < length self.now.state.sited.table.rows }
        ensures { AtRoute self.now.state route.0 (λ row kept. result ≡ is_set kept.phase) }
    {
        self.state.route(route.0).is_set()
    }

    /// The sections that a route locks.
    pub fn locked(&self, route: RouteId) -> BitRow
        requires { route.0 < length self.now.state.sited.table.rows }
        ensures { AtRoute self.now.state route.0 (λ row kept. (section : ℕ) → Has result section ↔ HoldsSection row kept.phase section) }
    {
        self.state.locked(route.0)
    }

    /// The aspect that a signal's controller last indicated in the present connection: with its last report, or else with
    /// the state that it told in the initialisation.
    pub fn indicated(&self, signal: SignalId) -> Option<Aspect>
        ensures { result ≡ indicated self.now.state.ixl signal.0 }
    {
        self.state.field().indicated(signal.0)
    }

    /// The route that has authority from a signal: its aspect was given, and its authority isn't ended.
    pub fn authority(&self, signal: SignalId) -> Option<RouteId>
        ensures { option_map (λ (r : RouteId). r.0) result ≡ authority_from signal.0 0 self.now.state.sited.table.rows self.now.state.ixl.routes }
    {
        authority(&self.state, signal.0).map(RouteId)
    }
}
