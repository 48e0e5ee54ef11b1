//! A world.

ghost use Rattle.std.specs.Prelude.{◌≡◌, ◌≤◌, ◌<◌, ◌+◌, ◌↔◌, ◌⊎◌, ℕ, Err, IfErr, IfOk, IsTrue, None, OnErr, OnOk, Some, length, slice_get};
ghost use Rattle.std.specs.Option.{option_map};
ghost use Rattle.ixl_state.specs.State.{AtRoute};
ghost use Rattle.ixl_state.specs.bit_row.Places.{Has};
ghost use Rattle.ixl_state.specs.ixl_spec.Due.{HoldsSection};
ghost use Rattle.ixl_state.specs.ixl_spec.View.{is_holding, is_set};
ghost use Rattle.ixl_state.specs.ixl_table.Table.{IsTableOf};
ghost use Rattle.ixl_state.specs.rasta_core.Ends.{reading_of};
ghost use Rattle.simulator_spec.specs.simulator_event.refused.Refused.TheVariants.{OutOfMemory};
ghost use Rattle.simulator_safety.specs.Reached.{HasSafeLinks, IsReachedSafely};
ghost use Rattle.simulator_field.specs.Bag.{in_bag, not_lost};
ghost use Rattle.simulator_spec.specs.First.{first_world, world_at};
ghost use Rattle.simulator_spec.specs.Happens.{happens, is_restart, reply_to};
ghost use Rattle.simulator_spec.specs.Refusals.{driven_at, refusal};
ghost use Rattle.simulator_spec.specs.Seen.{IsSnapshotOf, shown_by};
ghost use Rattle.simulator_spec.specs.Interlocking.{held_of};
ghost use Rattle.simulator_spec.specs.simulator_event.Safe.{Safe};
ghost use Rattle.simulator_spec.specs.simulator_event.declared.snapshot.Snapshot.{Snapshot};
ghost use Rattle.simulator.specs.Runs.{Runs};
ghost use Rattle.simulator.specs.World.{IsSafeWorld};

use crate::parts::Parts;
use arrayvec::ArrayVec;
use ixl_state::State;
use simulator_field::{Bag, Network};
use simulator_safety::reached_worlds_are_safe;
use simulator_spec::{
    Aspect, BitRow, Checked, Event, Held, Occupancy, PointId, Position, Refused, Reply, RouteId,
    SectionId, Side, SignalId, Snapshot,
};
use std::alloc::{AllocError, Global};
use std::marker::Model;

/// A whole station. Events happen to it one after another, and each is tested first: the network delivers only what was
/// sent and is at most 2000 ms old, or damaged bytes; clocks keep within 1 in 1000 of true time.
pub struct World {
    parts: Parts,
}

// Written by hand, so that it is proved and compiled here alone.
impl Drop for World {
    fn drop(self) {
        let Self { parts: _ } = self;
    }
}

impl Model for World {
    ghost use Rattle.std.specs.Coded.{codes};
    ghost use Rattle.ixl_state.specs.bit_row.Places.{places_code};
    ghost use Rattle.simulator.specs.World.{View};
    ghost use Rattle.simulator.specs.inside.Parts.{HasCome, IsWhole, seen, steps_of};

    ghost Value = { View };

    ghost coded = { Prim.hlevel (codes, places_code) };

    ghost view = { λ w. record { sited = w.parts.interlocking.sited; run = seen w.parts; room = steps_of w.parts } };

    ghost invariant = { λ w. IsWhole w.parts × HasCome w.parts };
}

impl World {
    /// The first world of a table: all clocks and first sequence numbers are 0, every point stands left, every section is
    /// clear, and nothing was sent.
    pub fn new(alloc: Global, checked: Checked) -> Result<World, AllocError>
        ensures site { IfOk result (λ world. world.sited.site ≡ checked) }
        ensures run { IfOk result (λ world. world.run ≡ first_world world.sited.site world.sited.table) }
        ensures table { IfOk result (λ world. IsTableOf world.sited.site world.sited.table) }
        ensures safe { IfOk result IsSafeWorld }
        ensures links { IfOk result (λ world. HasSafeLinks world.sited.site world.run) }
        ensures reached { IfOk result (λ world. IsReachedSafely world.sited.site world.sited.table world.run) }
    {
        let layout = checked.layout();
        let positions = vec![in alloc; Position::Left; layout.points().len()]?;
        let occupancies = vec![in alloc; Occupancy::Clear; layout.sections().len()]?;
        let world = World::at(alloc, checked, &positions, &occupancies)?;
        Ok(world)
    }

    /// The world of a station as it lies when it is started: each point of the layout has its position, and each section its
    /// occupancy, both in the layout's order. All clocks and first sequence numbers are 0, and nothing was sent.
    pub fn at(
        alloc: Global,
        checked: Checked,
        positions: &[Position],
        occupancies: &[Occupancy],
    ) -> Result<World, AllocError>
        requires positions { length positions.now ≡ length checked.points }
        requires occupancies { length occupancies.now ≡ length checked.sections }
        ensures site { IfOk result (λ world. world.sited.site ≡ checked) }
        ensures run { IfOk result (λ world. world.run ≡ world_at world.sited.site world.sited.table (record { positions = positions.now; occupancies = occupancies.now })) }
        ensures table { IfOk result (λ world. IsTableOf world.sited.site world.sited.table) }
        ensures safe { IfOk result IsSafeWorld }
        ensures links { IfOk result (λ world. HasSafeLinks world.sited.site world.run) }
        ensures reached { IfOk result (λ world. IsReachedSafely world.sited.site world.sited.table world.run) }
    {
        reached_worlds_are_safe();
        let parts = Parts::at(alloc, checked, positions, occupancies)?;
        let world = World { parts };
        world.facts();
        Ok(world)
    }

    /// Applies an event and tells of it, or says why it can't happen; then nothing has changed but that the room may have
    /// grown. Where there is room for a step, only a restart can lack memory.
    pub fn apply(&mut self, event: &Event) -> Result<Reply, Refused>
        ensures step { OnOk result (self.new.run ≡ happens self.old.sited.site self.old.sited.table event.now self.old.run) }
        ensures reply { IfOk result (λ reply. reply ≡ reply_to self.old.sited.site self.old.sited.table event.now self.old.run) }
        ensures allowed { OnOk result (refusal self.old.sited.site event.now self.old.run ≡ None) }
        ensures refused { IfErr result (λ why. (refusal self.old.sited.site event.now self.old.run ≡ Some why) ⊎ ((why ≡ OutOfMemory) × (refusal self.old.sited.site event.now self.old.run ≡ None))) }
        ensures memory { result ≡ Err OutOfMemory → 0 < self.old.room → IsTrue (is_restart event.now) }
        ensures same { OnErr result (self.new.run ≡ self.old.run) }
        ensures sited { self.new.sited ≡ self.old.sited }
        ensures room { self.old.room ≤ self.new.room + 1 }
        ensures kept { OnErr result (self.old.room ≤ self.new.room) }
        ensures safe { IsSafeWorld self.new }
        ensures links { HasSafeLinks self.new.sited.site self.new.run }
        ensures reached { IsReachedSafely self.new.sited.site self.new.sited.table self.new.run }
    {
        reached_worlds_are_safe();
        self.parts.facts();
        self.parts.apply(event)
    }

    /// Applies events one after another, goes on after those that are refused, and answers how many were accepted.
    pub fn run(&mut self, events: &[Event]) -> usize
        ensures run { Runs events.now self.old result self.new }
        ensures sited { self.new.sited ≡ self.old.sited }
        ensures safe { IsSafeWorld self.new }
        ensures links { HasSafeLinks self.new.sited.site self.new.run }
        ensures reached { IsReachedSafely self.new.sited.site self.new.sited.table self.new.run }
    {
        let mut accepted = 0;
        for event in events {
            if self.apply(event).is_ok() {
                accepted += 1;
            }
        }
        self.facts();
        accepted
    }

    /// Makes memory for at least so many steps; nothing else changes.
    pub fn reserve(&mut self, steps: usize) -> Result<(), AllocError>
        ensures room { OnOk result (steps ≤ self.new.room) }
        ensures more { self.old.room ≤ self.new.room }
        ensures same { self.new.run ≡ self.old.run }
        ensures sited { self.new.sited ≡ self.old.sited }
    {
        self.parts.reserve(steps)
    }

    /// How many steps have their memory already.
    pub fn room(&self) -> usize
        ensures { result ≡ self.now.room }
    {
        self.parts.room()
    }

    /// The table that the world was made from.
    pub fn table(&self) -> &Checked
        ensures { result.now ≡ self.now.sited.site }
    {
        self.parts.table()
    }

    /// True time, in microseconds.
    #[tactic(auto, unfolding(crate::proofs::Below::world_of))]
    pub fn time(&self) -> u64
        ensures { result ≡ self.now.run.time }
    {
        self.parts.field.network.time()
    }

    /// True time and every datagram that was sent, lost or not, oldest first.
    #[tactic(auto, unfolding(crate::proofs::Below::world_of))]
    pub fn network(&self) -> &Network
        ensures time { result.now.time ≡ self.now.run.time }
        ensures sent { result.now.sent ≡ self.now.run.sent }
    {
        &self.parts.field.network
    }

    /// The datagrams that the network still has, in the order of their sending.
    #[tactic(auto, unfolding(crate::proofs::Below::world_of))]
    pub fn bag(&self) -> Bag<'_>
        ensures { in_bag result ≡ not_lost self.now.run.sent }
    {
        self.parts.field.network.bag()
    }

    /// What a signal shows at its clock.
    #[tactic(auto, unfolding(crate::proofs::Below::world_of))]
    pub fn shown(&self, signal: SignalId) -> Aspect
        requires { signal.0 < length self.now.sited.site.signals }
        ensures { option_map shown_by (slice_get self.now.run.signals signal.0) ≡ Some result }
    {
        self.parts.shown(signal)
    }

    /// The pairs of signal and route that are held: in the hold of the interlocking those that were held when it was last
    /// made anew outside one, and otherwise each signal with the route that has authority from it.
    #[tactic(auto, unfolding(crate::proofs::Below::world_of))]
    pub fn held(&self) -> ArrayVec<Held, 64>
        ensures { result.items ≡ held_of self.now.sited.table self.now.run.interlocking self.now.run.frozen }
    {
        self.parts.held()
    }

    /// Where a point stands.
    #[tactic(auto, unfolding(crate::proofs::Below::world_of))]
    pub fn position(&self, point: PointId) -> Position
        requires { point.0 < length self.now.sited.site.points }
        ensures { slice_get self.now.run.positions point.0 ≡ Some result }
    {
        self.parts.field.positions[point.0]
    }

    /// The side to which a point is driven at its controller's clock, if it is.
    #[tactic(auto, unfolding(crate::proofs::Below::world_of))]
    pub fn driven(&self, point: PointId) -> Option<Side>
        requires { point.0 < length self.now.sited.site.points }
        ensures { result ≡ driven_at point.0 self.now.run.points }
    {
        self.parts.driven(point)
    }

    /// Whether a section is occupied.
    #[tactic(auto, unfolding(crate::proofs::Below::world_of))]
    pub fn occupancy(&self, section: SectionId) -> Occupancy
        requires { section.0 < length self.now.sited.site.sections }
        ensures { slice_get self.now.run.occupancies section.0 ≡ Some result }
    {
        self.parts.field.occupancies[section.0]
    }

    /// Whether a route is set.
    #[tactic(auto, unfolding(crate::proofs::Below::world_of))]
    pub fn is_set(&self, route: RouteId) -> bool
        requires { route.0 < length self.now.sited.site.routes }
        ensures { option_map (λ kept. is_set kept.phase) (slice_get self.now.run.interlocking.ixl.routes route.0) ≡ Some result }
    {
        let _ = self.parts.interlocking.table().checked();
        self.parts.interlocking.is_set(route)
    }

    /// All that the interlocking keeps: how far each route is, and what is known of each controller.
    #[tactic(auto, unfolding(crate::proofs::Below::world_of))]
    pub fn interlocking(&self) -> &State
        ensures { result.now ≡ record { sited = self.now.sited; ixl = self.now.run.interlocking.ixl } }
    {
        self.parts.interlocking.state()
    }

    /// Whether the interlocking takes no commands yet: its hold isn't over by its clock.
    #[tactic(auto, unfolding(crate::proofs::Below::world_of))]
    pub fn is_holding(&self) -> bool
        ensures { result ≡ is_holding (reading_of self.now.run.interlocking.clock) self.now.run.interlocking.ixl }
    {
        self.parts.interlocking.is_holding()
    }

    /// The sections that a route locks.
    #[tactic(auto, unfolding(crate::proofs::Below::world_of))]
    pub fn locked(&self, route: RouteId) -> BitRow
        requires { route.0 < length self.now.sited.table.rows }
        ensures { AtRoute (record { sited = self.now.sited; ixl = self.now.run.interlocking.ixl }) route.0 (λ row kept. (section : ℕ) → Has result section ↔ HoldsSection row kept.phase section) }
    {
        self.parts.interlocking.locked(route)
    }

    /// What is seen of the station at the clocks of this moment.
    pub fn snapshot(&self) -> Snapshot
        ensures { IsSnapshotOf self.now.sited.table self.now.run result }
    {
        self.parts.snapshot()
    }

    /// What is true of every world: whatever is seen of it is safe, and so is each of its links, and what is in flight.
    fn facts(&self)
        ensures table { IsTableOf self.now.sited.site self.now.sited.table }
        ensures safe { IsSafeWorld self.now }
        ensures links { HasSafeLinks self.now.sited.site self.now.run }
        ensures reached { IsReachedSafely self.now.sited.site self.now.sited.table self.now.run }
    {
        reached_worlds_are_safe();
        self.parts.facts();
    }

    /// Whether what is seen is safe. It is.
    pub fn safe(&self) -> bool
        ensures always { IsTrue result }
        ensures seen { (seen : Snapshot) × IsSnapshotOf self.now.sited.table self.now.run seen × (IsTrue result ↔ Safe self.now.sited.site seen) }
    {
        self.facts();
        self.snapshot().safe(self.table())
    }
}
