//! The parts of a world.

ghost use Rattle.std.specs.Prelude.{◌≡◌, ◌<◌, ◌≤◌, IfOk, length, slice_get};
ghost use Rattle.std.specs.Option.{option_map};
ghost use Rattle.ixl_state.specs.layout.Once.{Once};
ghost use Rattle.ixl_state.specs.layout.Station.{IsStation};
ghost use Rattle.ixl_state.specs.ixl_table.Table.{IsTableOf};
ghost use Rattle.simulator_spec.specs.First.{world_at};
ghost use Rattle.simulator_spec.specs.Refusals.{driven_at};
ghost use Rattle.simulator_spec.specs.Seen.{shown_by};
ghost use Rattle.simulator_spec.specs.Interlocking.{held_of};
ghost use Rattle.simulator.specs.inside.Parts.{IsWhole, site_of, seen, table_of};

use crate::clocked_interlocking::ClockedInterlocking;
use arrayvec::ArrayVec;
use simulator_field::Field;
use simulator_spec::{Aspect, Checked, Held, Layout, Occupancy, PointId, Position, Side, SignalId};
use std::alloc::{AllocError, Global};

/// The interlocking, all else of a world, and the pairs of signal and route that were held when the interlocking was last
/// made anew outside a hold.
#[derive(Drop)]
pub(crate) struct Parts {
    pub(crate) interlocking: ClockedInterlocking,
    pub(crate) field: Field,
    pub(crate) frozen: ArrayVec<Held, 64>,
    pub(crate) alloc: Global,
}

impl Parts {
    /// The parts of a station as it lies when it is started.
    pub(crate) fn at(
        alloc: Global,
        checked: Checked,
        positions: &[Position],
        occupancies: &[Occupancy],
    ) -> Result<Parts, AllocError>
        requires positions { length positions.now ≡ length checked.points }
        requires occupancies { length occupancies.now ≡ length checked.sections }
        ensures site { IfOk result (λ parts. site_of parts ≡ checked) }
        ensures first { IfOk result (λ parts. seen parts ≡ world_at (site_of parts) (table_of parts) (record { positions = positions.now; occupancies = occupancies.now })) }
        ensures whole { IfOk result IsWhole }
    {
        let field = Field::at(alloc, &checked, positions, occupancies)?;
        let interlocking = ClockedInterlocking::new(alloc, checked)?;
        Ok(Parts {
            interlocking,
            field,
            frozen: ArrayVec::new(),
            alloc,
        })
    }

    /// The table that the world was made from.
    pub(crate) fn table(&self) -> &Checked
        ensures { result.now ≡ site_of self.now }
    {
        self.interlocking.table().checked()
    }

    /// The layout of the station.
    pub(crate) fn layout(&self) -> &Layout
        ensures entries { result.now ≡ site_of self.now }
        ensures few_signals { length (site_of self.now).signals ≤ 32 }
        ensures few_points { length (site_of self.now).points ≤ 32 }
    {
        self.table().layout()
    }

    /// What is always true of the table that the world was made from.
    pub(crate) fn facts(&self)
        ensures once { Once (site_of self.now) }
        ensures station { IsStation (site_of self.now) }
        ensures table { IsTableOf (site_of self.now) (table_of self.now) }
    {
        self.interlocking.table().checked();
        self.layout();
    }

    /// What a signal shows at its clock.
    pub(crate) fn shown(&self, signal: SignalId) -> Aspect
        requires { signal.0 < length self.now.field.signals.items }
        ensures { option_map shown_by (slice_get self.now.field.signals.items signal.0) ≡ Some result }
    {
        let server = &self.field.signals[signal.0];
        server.object().shown(server.now())
    }

    /// The side to which a point is driven at its controller's clock.
    #[tactic(auto, using(crate::proofs::ControllerReadings::driven_read))]
    pub(crate) fn driven(&self, point: PointId) -> Option<Side>
        requires { point.0 < length self.now.field.points.items }
        ensures { result ≡ driven_at point.0 self.now.field.points.items }
    {
        let server = &self.field.points[point.0];
        server.object().drives(server.now())
    }

    /// The pairs that are held.
    pub(crate) fn held(&self) -> ArrayVec<Held, 64>
        ensures { result.items ≡ held_of (table_of self.now) self.now.interlocking.interlocking self.now.frozen.items }
    {
        self.interlocking.held(&self.frozen)
    }
}
