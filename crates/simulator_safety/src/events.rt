//! Every event of the controllers of a station.

ghost use Rattle.std.specs.Prelude.{◌≡◌, None};
ghost use Rattle.simulator_link_laws.specs.layout.Entries.{Site};
ghost use Rattle.simulator_link_laws.specs.layout.Once.{Once};
ghost use Rattle.simulator_link_laws.specs.layout.Station.{IsStation};
ghost use Rattle.simulator_link_laws.specs.ixl_spec.Table.{Table};
ghost use Rattle.simulator_link_laws.specs.simulator_event.declared.event.Event.{Event};
ghost use Rattle.simulator_machine.specs.Machine.{Machine};
ghost use Rattle.simulator_safety.specs.Represents.{Represents, RepresentsAfter};
ghost use Rattle.simulator_link_laws.specs.simulator_spec.Happens.{happens};
ghost use Rattle.simulator_link_laws.specs.simulator_spec.Refusals.{refusal};
ghost use Rattle.simulator_link_laws.specs.simulator_spec.State.{WorldState};
ghost use Rattle.simulator_safety.specs.Events.{IsOfControllers};

use crate::detectors::{events_at_detectors_are_represented, losses_are_represented};
use crate::points::events_at_points_are_represented;
use crate::signals::events_at_signals_are_represented;
use simulator_machine::lists_of_moves_compose;

/// An event that can happen at a signal, a point or a detector, and a loss that can, leads the machine by its moves to one
/// that sees the world then.
pub fn controllers_events_are_represented()
    ensures { (site : Site) (table : Table) (event : Event) (world : WorldState) (machine : Machine) → IsStation site → Once site → IsOfControllers event
        → refusal site event world ≡ None → Represents site table world machine → RepresentsAfter site table machine (happens site table event world) }
{
    events_at_detectors_are_represented();
    events_at_points_are_represented();
    events_at_signals_are_represented();
    lists_of_moves_compose();
    losses_are_represented();
}
