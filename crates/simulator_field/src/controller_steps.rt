//! Steps of controllers.

ghost use Rattle.std.specs.Prelude.{◌≡◌, ◌<◌, ◌≤◌, ◌+◌, length, List, slice_set};
ghost use Rattle.simulator_spec.specs.layout.Entries.{Site};
ghost use Rattle.simulator_spec.specs.simulator_event.declared.snapshot.Held.{Held};
ghost use Rattle.simulator_spec.specs.Happens.{detector_stepped, point_stepped, signal_stepped};
ghost use Rattle.simulator_spec.specs.State.{ClockedInterlockingState};
ghost use Rattle.simulator_field.specs.Field.{AreOf, world_of};

use crate::field::Field;
use simulator_spec::object_host::Input;
use simulator_spec::{Occupancy, Position};

impl Field {
    /// The signal at this place makes a step. A datagram that comes was sent in this connection.
    pub fn step_signal(&mut self, place: usize, input: Input<'_>, connection: usize)
        requires there { place < length self.old.signals.items }
        requires room { 23 ≤ self.old.network.room }
        ensures world { (site : Site) (station : ClockedInterlockingState) (frozen : List Held) → world_of station frozen self.new ≡ signal_stepped site input.entry connection place (world_of station frozen self.old) }
        ensures each { (site : Site) → AreOf site self.old → AreOf site self.new }
        ensures room { self.old.network.room ≤ self.new.network.room + 23 }
    {
        self.signals[place].step(input, connection, place, &mut self.network);
    }

    /// The point at this place makes a step, on this link.
    pub fn step_point(&mut self, place: usize, link: usize, input: Input<'_>, connection: usize)
        requires there { place < length self.old.points.items }
        requires room { 23 ≤ self.old.network.room }
        ensures world { (site : Site) (station : ClockedInterlockingState) (frozen : List Held) → link ≡ length site.signals + place → world_of station frozen self.new ≡ point_stepped site input.entry connection place (world_of station frozen self.old) }
        ensures each { (site : Site) → AreOf site self.old → AreOf site self.new }
        ensures room { self.old.network.room ≤ self.new.network.room + 23 }
    {
        self.points[place].step(input, connection, link, &mut self.network);
    }

    /// The detector at this place makes a step, on this link.
    pub fn step_detector(&mut self, place: usize, link: usize, input: Input<'_>, connection: usize)
        requires there { place < length self.old.detectors.items }
        requires room { 23 ≤ self.old.network.room }
        ensures world { (site : Site) (station : ClockedInterlockingState) (frozen : List Held) → link ≡ length site.signals + length site.points + place → world_of station frozen self.new ≡ detector_stepped site input.entry connection place (world_of station frozen self.old) }
        ensures each { (site : Site) → AreOf site self.old → AreOf site self.new }
        ensures room { self.old.network.room ≤ self.new.network.room + 23 }
    {
        self.detectors[place].step(input, connection, link, &mut self.network);
    }

    /// A point comes to lie somewhere; its controller isn't told yet.
    #[tactic(auto, unfolding(crate::specs::Field::world_of))]
    pub fn lay(&mut self, place: usize, position: Position)
        requires { place < length self.old.positions.items }
        ensures world { (station : ClockedInterlockingState) (frozen : List Held) → world_of station frozen self.new ≡ record (world_of station frozen self.old) { positions = slice_set self.old.positions.items place position } }
        ensures each { (site : Site) → AreOf site self.old → AreOf site self.new }
        ensures network { self.new.network ≡ self.old.network }
    {
        self.positions[place] = position;
    }

    /// A section is occupied or cleared; the detector that reports it isn't told yet.
    #[tactic(auto, unfolding(crate::specs::Field::world_of))]
    pub fn occupy(&mut self, place: usize, occupancy: Occupancy)
        requires { place < length self.old.occupancies.items }
        ensures world { (station : ClockedInterlockingState) (frozen : List Held) → world_of station frozen self.new ≡ record (world_of station frozen self.old) { occupancies = slice_set self.old.occupancies.items place occupancy } }
        ensures each { (site : Site) → AreOf site self.old → AreOf site self.new }
        ensures network { self.new.network ≡ self.old.network }
    {
        self.occupancies[place] = occupancy;
    }
}
