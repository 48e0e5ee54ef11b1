//! Whether time may go on.

ghost use Rattle.std.specs.Prelude.{◌≡◌, ◌≤◌, ◌+◌, nat_le, true, length};
ghost use Rattle.std.specs.List.{list_all};
ghost use Rattle.simulator_spec.specs.Nodes.{nodes};
ghost use Rattle.simulator_spec.specs.Refusals.{all_within, are_within, clock_limit, keeps_time, refusal_of_time};
ghost use Rattle.simulator.specs.inside.Parts.{IsWhole, site_of, seen};

use crate::parts::Parts;
use simulator_field::ClockedController;
use simulator_spec::object_host::Controller;
use simulator_spec::{CLOCK_LIMIT, Refused};

/// Whether a clock that goes on by so much in a true time keeps within one part in a thousand of it.
fn keeps_time(elapsed: u64, of_clock: u64) -> bool
    ensures { result ≡ keeps_time elapsed of_clock }
{
    let (elapsed, of_clock) = (u128::from(elapsed), u128::from(of_clock));
    999 * elapsed <= 1000 * of_clock && 1000 * of_clock <= 1001 * elapsed
}

/// Whether all clocks keep time.
fn all_keep_time(elapsed: u64, steps: &[u64]) -> bool
    ensures { result ≡ list_all (keeps_time elapsed) steps.now }
{
    for step in steps {
        if !keeps_time(elapsed, *step) {
            return false;
        }
    }
    true
}

/// Whether a time or a clock that goes on by so much stays within the limit.
fn is_within(now: u64, elapsed: u64) -> bool
    ensures { result ≡ nat_le (now + elapsed) clock_limit }
{
    now.saturating_add(elapsed) <= CLOCK_LIMIT
}

/// Whether the clocks of controllers stay within the limit by their steps.
fn are_within<C: Controller>(servers: &[ClockedController<C>], steps: &[u64]) -> bool
    requires { length servers.now ≤ length steps.now }
    ensures { result ≡ are_within servers.now steps.now (λ rest. true) }
{
    for place in 0..servers.len() {
        if !is_within(servers[place].clock(), steps[place]) {
            return false;
        }
    }
    true
}

impl Parts {
    /// Whether all clocks stay within the limit by their steps.
    fn all_within(&self, steps: &[u64]) -> bool
        requires whole { IsWhole self.now }
        requires each { length steps.now ≡ nodes (site_of self.now) }
        ensures { result ≡ all_within (seen self.now) steps.now }
    {
        let (of_station, of_controllers) = steps.split_at(1);
        let (_, of_points) = of_controllers.split_at(self.field.signals.len());
        let (_, of_detectors) = of_points.split_at(self.field.points.len());
        let station = is_within(self.interlocking.clock(), of_station[0]);
        let signals = are_within(&self.field.signals, of_controllers);
        let points = are_within(&self.field.points, of_points);
        let detectors = are_within(&self.field.detectors, of_detectors);
        station && signals && points && detectors
    }

    /// Why time can't go on so.
    #[tactic(auto, unfolding(crate::proofs::Below::refusal_of_time, crate::proofs::Below::world_of))]
    pub(crate) fn refusal_of_time(&self, elapsed: u64, steps: &[u64]) -> Option<Refused>
        requires { IsWhole self.now }
        ensures { result ≡ refusal_of_time (site_of self.now) elapsed steps.now (seen self.now) }
    {
        if steps.len() != self.layout().nodes() {
            return Some(Refused::NoSuchNode);
        }
        if !all_keep_time(elapsed, steps) {
            return Some(Refused::Drift);
        }
        let is_time_within = is_within(self.field.network.time(), elapsed);
        let are_clocks_within = self.all_within(steps);
        if is_time_within && are_clocks_within {
            None
        } else {
            Some(Refused::ClockLimit)
        }
    }
}
