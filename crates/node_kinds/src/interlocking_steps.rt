//! An interlocking, with the reading of its last step.

ghost use Rattle.ixl_state.specs.ixl_table.Table.{IsTableOf};
ghost use Rattle.std.specs.Prelude.{◌≡◌, ◌≤◌, [], drop, slice_get, IfOk};
ghost use Rattle.std.specs.Option.{option_map};
ghost use Rattle.ixl.specs.Interlocking.{meant, told};
ghost use Rattle.simulator_spec.specs.First.{new_ixl};
ghost use Rattle.simulator_spec.specs.Nodes.{key_of};
ghost use Rattle.simulator_spec.specs.ixl_spec.Step.{reply};
ghost use Rattle.node_kinds.specs.inside.InterlockingSteps.{stepped_at};

use ixl::{Input, Interlocking, Reply, steps_may_follow_at_later_clocks};
use simulator_spec::{Checked, Datagram, Layout};
use std::alloc::{AllocError, Global};
use std::marker::Model;

/// An interlocking, with the reading of its last step. Contracts see it as a `SteppedState`.
#[derive(Drop)]
pub(crate) struct SteppedInterlocking {
    interlocking: Interlocking,
    reached: u64,
}

impl Model for SteppedInterlocking {
    ghost use Rattle.std.specs.Prelude.{◌≤◌, ℕ};
    ghost use Rattle.std.specs.Coded.{codes};
    ghost use Rattle.simulator_spec.specs.bit_row.Places.{places_code};
    ghost use Rattle.ixl_state.specs.State.{MayStepAll};
    ghost use Rattle.node_kinds.specs.inside.InterlockingSteps.{SteppedState};

    ghost Value = { SteppedState };

    ghost coded = { Prim.hlevel (codes, places_code) };

    ghost view = { λ s. record { sited = s.interlocking.state.sited; ixl = s.interlocking.state.ixl; reached = s.reached; datagrams = s.interlocking.outbox.datagrams } };

    ghost invariant = { λ s. (later : ℕ) → s.reached ≤ later → MayStepAll later s.interlocking.state };
}

impl SteppedInterlocking {
    /// The interlocking of a table that was checked, at a reading of its clock. It numbers its PDUs from `first` on.
    pub(crate) fn new(
        alloc: Global,
        checked: Checked,
        reading: u64,
        first: u32,
    ) -> Result<SteppedInterlocking, AllocError>
        ensures site { IfOk result (λ s. s.sited.site ≡ checked) }
        ensures made { IfOk result (λ s. s ≡ record { sited = s.sited; ixl = new_ixl s.sited.site s.sited.table (record { clock = reading; first = first }); reached = reading; datagrams = [] }) }
    {
        let interlocking = Interlocking::new(alloc, checked, first, reading)?;
        Ok(SteppedInterlocking {
            interlocking,
            reached: reading,
        })
    }

    /// The interlocking.
    pub(crate) fn interlocking(&self) -> &Interlocking
        ensures { result.now.state ≡ record { sited = self.now.sited; ixl = self.now.ixl } }
    {
        &self.interlocking
    }

    /// The layout of its station.
    pub(crate) fn layout(&self) -> &Layout
        ensures layout { result.now ≡ self.now.sited.site }
        ensures table { IsTableOf self.now.sited.site self.now.sited.table }
    {
        self.interlocking.table().checked().layout()
    }

    /// A step at a reading.
    pub(crate) fn step(&mut self, reading: u64, input: Input<'_>) -> Reply
        requires { self.old.reached ≤ reading }
        ensures stepped { self.new ≡ stepped_at reading (meant input.entry) self.old }
        ensures answered { told result ≡ reply reading self.old.sited.table (key_of self.old.sited.site) (meant input.entry) self.old.ixl }
    {
        let reply = self.interlocking.step(reading, input);
        steps_may_follow_at_later_clocks();
        self.reached = reading;
        reply
    }

    /// Takes out the oldest of its datagrams.
    pub(crate) fn take_first(&mut self) -> Option<Datagram>
        ensures value { option_map (λ d. d.items) result ≡ slice_get self.old.datagrams 0 }
        ensures rest { self.new ≡ record self.old { datagrams = drop 1 self.old.datagrams } }
    {
        self.interlocking.take_first()
    }
}
