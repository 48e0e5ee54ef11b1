//! How old a datagram is that is heard.

ghost use Rattle.std.specs.Prelude.{◌≡◌, ◌≤◌, ◌+◌, ℕ, List, [], Some, slice_get};
ghost use Rattle.node_kinds.specs.simulator_spec.First.{Outset};
ghost use Rattle.node_kinds.specs.simulator_spec.ixl_spec.Table.{Table};
ghost use Rattle.node_kinds.specs.simulator_spec.layout.Entries.{Site};
ghost use Rattle.node_kinds.specs.simulator_spec.rasta_core.Bag.{lifetime};
ghost use Rattle.node_kinds.specs.simulator_spec.simulator_event.declared.event.Event.{Event};
ghost use Rattle.simulator_node_laws.specs.Said.{Departure, LeftInTime, departures_in, time_in};
ghost use Rattle.node_safety.specs.Journeys.{IsInTime, Journey};

/// A datagram is at most 2000 ms of true time old when it is heard, where its sender, the network and its receiver keep to their shares,
/// whatever their clocks drift (*age*). So a history may have it that is sent and heard so (*fresh*).
pub fn what_keeps_its_shares_is_fresh()
    ensures age { (journey : Journey) → IsInTime journey → journey.heard.at ≤ journey.handed_out.at + lifetime }
    ensures fresh { (site : Site) (table : Table) (outset : Outset) (events : List Event) (bytes : List ℕ) (place : ℕ) (departure : Departure) → slice_get (departures_in site table outset [] events) place ≡ Some departure → departure.bytes ≡ bytes
        → (journey : Journey) → IsInTime journey → journey.handed_out.at ≡ departure.time → journey.heard.at ≡ time_in events 0 → LeftInTime site table outset events bytes }
{}
