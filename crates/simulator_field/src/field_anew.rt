//! Controllers that are made anew.

ghost use Rattle.std.specs.Prelude.{◌≡◌, ◌<◌, ◌≤◌, ◌*◌, ◌^◌, length, List, OnErr, OnOk, slice_get};
ghost use Rattle.simulator_spec.specs.layout.Entries.{Site};
ghost use Rattle.simulator_spec.specs.simulator_event.declared.snapshot.Held.{Held};
ghost use Rattle.simulator_spec.specs.Happens.{detector_anew, point_anew, signal_anew};
ghost use Rattle.simulator_spec.specs.State.{ClockedInterlockingState};
ghost use Rattle.simulator_field.specs.Field.{AreOf, world_of};

use crate::field::Field;
use crate::{new_detector, new_point, new_signal};
use simulator_spec::{Checked, Millis};
use std::alloc::{AllocError, Global};

impl Field {
    /// The controller of a signal is made anew, with this clock in milliseconds and this number of its first PDU.
    pub fn restart_signal(
        &mut self,
        alloc: Global,
        table: &Checked,
        place: usize,
        clock: Millis,
        first_sequence_number: u32,
    ) -> Result<(), AllocError>
        requires of { AreOf table.now self.old }
        requires there { place < length table.now.signals }
        requires fits { clock * 1000 < 2 ^ 64 }
        ensures world { OnOk result ((station : ClockedInterlockingState) (frozen : List Held) → world_of station frozen self.new ≡ signal_anew table.now (record { clock = clock; first = first_sequence_number }) place (slice_get table.now.signals place) (world_of station frozen self.old)) }
        ensures each { OnOk result (AreOf table.now self.new) }
        ensures network { OnOk result (self.new.network ≡ self.old.network) }
        ensures same { OnErr result (self.new ≡ self.old) }
    {
        let entry = &table.layout().signals()[place];
        let hosted = new_signal(alloc, table, entry, clock, first_sequence_number)?;
        let moment = self.network.len();
        self.signals[place].restart(hosted, clock, moment);
        Ok(())
    }

    /// The controller of a point is made anew; the point keeps its place.
    pub fn restart_point(
        &mut self,
        alloc: Global,
        table: &Checked,
        place: usize,
        clock: Millis,
        first_sequence_number: u32,
    ) -> Result<(), AllocError>
        requires of { AreOf table.now self.old }
        requires there { place < length table.now.points }
        requires fits { clock * 1000 < 2 ^ 64 }
        ensures world { OnOk result ((station : ClockedInterlockingState) (frozen : List Held) → world_of station frozen self.new ≡ point_anew table.now (record { clock = clock; first = first_sequence_number }) place (slice_get table.now.points place) (world_of station frozen self.old)) }
        ensures each { OnOk result (AreOf table.now self.new) }
        ensures network { OnOk result (self.new.network ≡ self.old.network) }
        ensures same { OnErr result (self.new ≡ self.old) }
    {
        let entry = &table.layout().points()[place];
        let position = self.positions[place];
        let hosted = new_point(alloc, table, entry, position, clock, first_sequence_number)?;
        let moment = self.network.len();
        self.points[place].restart(hosted, clock, moment);
        Ok(())
    }

    /// The controller of a detector is made anew; it senses its sections as they are.
    pub fn restart_detector(
        &mut self,
        alloc: Global,
        table: &Checked,
        place: usize,
        clock: Millis,
        first_sequence_number: u32,
    ) -> Result<(), AllocError>
        requires of { AreOf table.now self.old }
        requires there { place < length table.now.detectors }
        requires fits { clock * 1000 < 2 ^ 64 }
        ensures world { OnOk result ((station : ClockedInterlockingState) (frozen : List Held) → world_of station frozen self.new ≡ detector_anew table.now (record { clock = clock; first = first_sequence_number }) place (slice_get table.now.detectors place) (world_of station frozen self.old)) }
        ensures each { OnOk result (AreOf table.now self.new) }
        ensures network { OnOk result (self.new.network ≡ self.old.network) }
        ensures same { OnErr result (self.new ≡ self.old) }
    {
        let entry = &table.layout().detectors()[place];
        let occupied = self.occupancies.as_slice();
        let hosted = new_detector(alloc, table, entry, occupied, clock, first_sequence_number)?;
        let moment = self.network.len();
        self.detectors[place].restart(hosted, clock, moment);
        Ok(())
    }
}
