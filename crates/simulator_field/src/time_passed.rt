//! Time goes on.

ghost use Rattle.std.specs.Prelude.{◌≡◌, ◌+◌, ◌<◌, ◌≤◌, ◌^◌, ℕ, true, List, drop, length, slice_index_or};
ghost use Rattle.simulator_spec.specs.layout.Entries.{Site};
ghost use Rattle.simulator_spec.specs.simulator_event.declared.snapshot.Held.{Held};
ghost use Rattle.simulator_spec.specs.Happens.{all_later, passed};
ghost use Rattle.simulator_spec.specs.Refusals.{are_within};
ghost use Rattle.simulator_spec.specs.State.{ClockedInterlockingState};
ghost use Rattle.simulator_field.specs.Field.{AreOf, MayPass, world_of};

use crate::ClockedController;
use crate::field::Field;
use simulator_spec::object_host::Controller;

/// The clocks of controllers go on by their steps, when this many datagrams were sent.
fn pass_all<C: Controller>(servers: &mut Vec<ClockedController<C>>, steps: &[u64], moment: usize)
    requires enough { length servers.old.items ≤ length steps.now }
    requires within { are_within servers.old.items steps.now (λ rest. true) ≡ true }
    ensures servers { servers.new.items ≡ all_later moment steps.now servers.old.items }
    ensures each { length servers.new.items ≡ length servers.old.items }
{
    for place in 0..servers.len() {
        servers[place].pass(steps[place], moment);
    }
}

impl Field {
    /// True time and the clocks of all controllers go on by their steps, in microseconds.
    pub fn pass(&mut self, elapsed: u64, steps: &[u64])
        requires { MayPass elapsed steps.now self.old }
        ensures world { (station : ClockedInterlockingState) (frozen : List Held) (all : List ℕ) → drop 1 all ≡ steps.now → world_of (record station { clock = station.clock + slice_index_or all 0 0 }) frozen self.new ≡ passed elapsed all (world_of station frozen self.old) }
        ensures each { (site : Site) → AreOf site self.old → AreOf site self.new }
        ensures room { self.new.network.room ≡ self.old.network.room }
    {
        let moment = self.network.len();
        self.network.pass(elapsed);
        pass_all(&mut self.signals, steps, moment);
        let (_, of_points) = steps.split_at(self.signals.len());
        pass_all(&mut self.points, of_points, moment);
        let (_, of_detectors) = of_points.split_at(self.points.len());
        pass_all(&mut self.detectors, of_detectors, moment);
    }
}
