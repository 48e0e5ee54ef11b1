//! The interlocking of a world.

ghost use Rattle.std.specs.Prelude.{◌≡◌, ◌≤◌, ◌↔◌, ◌+◌, ◌*◌, ◌<◌, ◌^◌, ℕ, IfOk, OnErr, OnOk, length};
ghost use Rattle.std.specs.Option.{option_map};
ghost use Rattle.ixl_state.specs.bit_row.Places.{Has};
ghost use Rattle.ixl_state.specs.layout.declared.ids.RouteId.{RouteId};
ghost use Rattle.ixl_state.specs.rasta_core.Ends.{reading_of};
ghost use Rattle.ixl.specs.Interlocking.{meant, told};
ghost use Rattle.ixl_state.specs.ixl_spec.Due.{HoldsSection};
ghost use Rattle.ixl_state.specs.ixl_spec.View.{authority_from, is_holding, is_set};
ghost use Rattle.ixl_state.specs.State.{AtRoute};
ghost use Rattle.simulator_spec.specs.First.{at_zero, first_interlocking, new_ixl};
ghost use Rattle.simulator_spec.specs.Interlocking.{interlocking_anew, sending_all};
ghost use Rattle.simulator.specs.Interlocking.{HasSteppedAndSent};
ghost use Rattle.simulator.specs.inside.Connections.{sending_by};

use crate::connections::Connections;
use ixl::{Input, Interlocking, Reply};
use ixl_state::ixl_table::Table;
use ixl_state::{BitRow, Checked, MICROS, Millis, RouteId, SignalId, State};
use simulator_field::Network;
use std::alloc::{AllocError, Global};
use std::marker::Model;

/// How many datagrams a step of the interlocking sends at most.
pub const MOST_SENT: usize = 5120;

/// The interlocking with its exact clock, and the connections that it began. Contracts see it as a `ClockedInterlockingView`.
#[derive(Debug)]
pub struct ClockedInterlocking {
    interlocking: Interlocking,
    /// Its exact clock, in microseconds.
    clock: u64,
    connections: Connections,
}

// Written by hand, so that it is proved and compiled here alone.
impl Drop for ClockedInterlocking {
    fn drop(self) {
        let Self {
            interlocking: _,
            clock: _,
            connections: _,
        } = self;
    }
}

impl Model for ClockedInterlocking {
    ghost use Rattle.std.specs.Coded.{codes};
    ghost use Rattle.ixl_state.specs.bit_row.Places.{places_code};
    ghost use Rattle.ixl_state.specs.rasta_core.Ends.{reading_of};
    ghost use Rattle.ixl_state.specs.State.{MayStepAll};
    ghost use Rattle.simulator.specs.Interlocking.{ClockedInterlockingView};

    ghost Value = { ClockedInterlockingView };

    ghost coded = { Prim.hlevel (codes, places_code) };

    ghost view = { λ s. record {
      sited = s.interlocking.state.sited;
      interlocking = record { ixl = s.interlocking.state.ixl; clock = s.clock; connections = s.connections.begun.items };
    } };

    ghost invariant = { λ s. MayStepAll (reading_of s.clock) s.interlocking.state };
}

/// The datagrams of the last step are sent, one after another.
fn send_all(interlocking: &mut Interlocking, connections: &mut Connections, network: &mut Network)
    requires { length interlocking.old.outbox.datagrams ≤ network.old.room }
    ensures sending { sending_by connections.new network.new ≡ sending_all interlocking.old.state.sited.site network.old.time interlocking.old.outbox.datagrams (sending_by connections.old network.old) }
    ensures state { interlocking.new.state ≡ interlocking.old.state }
    ensures time { network.new.time ≡ network.old.time }
    ensures room { network.new.room + length interlocking.old.outbox.datagrams ≡ network.old.room }
{
    while let Some(datagram) = interlocking.take_first() {
        let layout = interlocking.table().checked().layout();
        connections.send(layout, &datagram, network);
    }
}

impl ClockedInterlocking {
    /// The interlocking of a table that was checked: its clock and its first sequence numbers are 0, and it began no
    /// connection.
    pub fn new(alloc: Global, checked: Checked) -> Result<ClockedInterlocking, AllocError>
        ensures site { IfOk result (λ s. s.sited.site ≡ checked) }
        ensures station { IfOk result (λ s. s.interlocking ≡ first_interlocking s.sited.site s.sited.table) }
    {
        let connections = Connections::new(alloc, checked.layout())?;
        let interlocking = Interlocking::new(alloc, checked, 0, 0)?;
        Ok(ClockedInterlocking {
            interlocking,
            clock: 0,
            connections,
        })
    }

    /// Its exact clock, in microseconds.
    pub fn clock(&self) -> u64
        ensures { result ≡ self.now.interlocking.clock }
    {
        self.clock
    }

    /// What it reads of its clock.
    pub fn now(&self) -> Millis
        ensures { result ≡ reading_of self.now.interlocking.clock }
    {
        self.clock / MICROS
    }

    /// Its control table, as its rules read it. A route is kept of each of its rows, and what is known of each signal.
    pub fn table(&self) -> &Table
        ensures sited { result.now ≡ self.now.sited }
        ensures each { length self.now.interlocking.ixl.routes ≡ length self.now.sited.table.rows }
        ensures known_signals { length self.now.interlocking.ixl.known_signals ≡ length self.now.sited.site.signals }
    {
        self.interlocking.table()
    }

    /// All that it keeps.
    pub fn state(&self) -> &State
        ensures { result.now ≡ record { sited = self.now.sited; ixl = self.now.interlocking.ixl } }
    {
        self.interlocking.state()
    }

    /// Whether it takes no commands yet, since it was made less than 6000 ms before by its clock.
    pub fn is_holding(&self) -> bool
        ensures { result ≡ is_holding (reading_of self.now.interlocking.clock) self.now.interlocking.ixl }
    {
        self.interlocking.holding(self.now())
    }

    /// Whether a route is set.
    pub fn is_set(&self, route: RouteId) -> bool
        requires { route.0 < length self.now.sited.table.rows }
        ensures { AtRoute (record { sited = self.now.sited; ixl = self.now.interlocking.ixl }) route.0 (λ row kept. result ≡ is_set kept.phase) }
    {
        self.interlocking.is_set(route)
    }

    /// The sections that a route locks.
    pub fn locked(&self, route: RouteId) -> BitRow
        requires { route.0 < length self.now.sited.table.rows }
        ensures { AtRoute (record { sited = self.now.sited; ixl = self.now.interlocking.ixl }) route.0 (λ row kept. (section : ℕ) → Has result section ↔ HoldsSection row kept.phase section) }
    {
        self.interlocking.locked(route)
    }

    /// The route that has authority from a signal.
    pub fn authority(&self, signal: SignalId) -> Option<RouteId>
        ensures { option_map (λ (r : RouteId). r.0) result ≡ authority_from signal.0 0 self.now.sited.table.rows self.now.interlocking.ixl.routes }
    {
        self.interlocking.authority(signal)
    }

    /// Its clock goes on, in microseconds.
    pub fn pass(&mut self, elapsed: u64)
        requires { self.old.interlocking.clock + elapsed < 2 ^ 64 }
        ensures { self.new ≡ record self.old { interlocking = record self.old.interlocking { clock = self.old.interlocking.clock + elapsed } } }
    {
        self.clock += elapsed;
    }

    /// A step at its clock. What it hands out is sent.
    pub fn step(&mut self, input: Input<'_>, network: &mut Network) -> Reply
        requires { 5120 ≤ network.old.room }
        ensures { HasSteppedAndSent (meant input.entry) self.old network.old self.new network.new (told result) }
    {
        let now = self.now();
        let reply = self.interlocking.step(now, input);
        self.interlocking.outbox();
        send_all(&mut self.interlocking, &mut self.connections, network);
        reply
    }

    /// It is made anew, with its clock in milliseconds and the number of the first PDU of each link. It then holds.
    pub fn restart(
        &mut self,
        alloc: Global,
        clock: Millis,
        first_sequence_number: u32,
    ) -> Result<(), AllocError>
        requires fits { clock * 1000 < 2 ^ 64 }
        ensures made { OnOk result (self.new ≡ record self.old { interlocking = interlocking_anew (new_ixl self.old.sited.site self.old.sited.table (record { clock = clock; first = first_sequence_number })) clock self.old.interlocking }) }
        ensures same { OnErr result (self.new ≡ self.old) }
    {
        self.interlocking
            .restart(alloc, first_sequence_number, clock)?;
        self.clock = clock * MICROS;
        Ok(())
    }
}
