//! What the promise of the machine says of a station that it sees.

ghost use Rattle.std.specs.Prelude.{◌≡◌, ◌<◌, ℕ, List, length, slice_get};
ghost use Rattle.std.specs.List.{All};
ghost use Rattle.simulator_link_laws.specs.layout.Entries.{Site};
ghost use Rattle.simulator_link_laws.specs.layout.Once.{Once};
ghost use Rattle.simulator_link_laws.specs.layout.Station.{IsStation};
ghost use Rattle.simulator_link_laws.specs.rasta_core.Ends.{reading_of};
ghost use Rattle.simulator_link_laws.specs.ixl_spec.Table.{Row, Table};
ghost use Rattle.simulator_link_laws.specs.ixl_spec.View.{is_holding};
ghost use Rattle.ixl_table.specs.Table.{IsTableOf};
ghost use Rattle.simulator_machine.specs.Invariant.{Invariant};
ghost use Rattle.simulator_machine.specs.Machine.{Machine, is_held};
ghost use Rattle.simulator_machine.specs.Promise.{Promise};
ghost use Rattle.simulator_machine.specs.Table.{IsSound};
ghost use Rattle.simulator_link_laws.specs.simulator_move_laws.Nodes.{route_seen};
ghost use Rattle.simulator_link_laws.specs.simulator_move_laws.Rows.{machine_table};
ghost use Rattle.simulator_link_laws.specs.simulator_spec.Seen.{IsSnapshotOf};
ghost use Rattle.simulator_link_laws.specs.simulator_spec.State.{ClockedInterlockingState, WorldState};
ghost use Rattle.simulator_link_laws.specs.simulator_spec.Interlocking.{held_of};
ghost use Rattle.simulator_link_laws.specs.simulator_event.Safe.{Safe};
ghost use Rattle.simulator_link_laws.specs.simulator_event.declared.snapshot.Held.{Held};
ghost use Rattle.simulator_link_laws.specs.simulator_event.declared.snapshot.Snapshot.{Snapshot};
ghost use Rattle.simulator_safety.specs.Seen.{AreHeldPairs, IsSeen};

use control_table::{a_route_leads_over_its_sections_alone, required_points_are_there};
use simulator_machine::equal_numbers_are_same;

/// A station that the machine sees is safe where the machine keeps its promise: what is seen of the station is a safe
/// snapshot.
pub fn seen_stations_are_safe()
    ensures { (site : Site) (table : Table) (world : WorldState) (machine : Machine) (seen : Snapshot) → Once site → IsStation site → IsTableOf site table
        → Promise (machine_table table) machine → IsSeen site table world machine → IsSnapshotOf table world seen → Safe site seen }
{
    a_route_leads_over_its_sections_alone();
    equal_numbers_are_same();
    required_points_are_there();
}

/// The pairs that a station holds are the routes that its machine holds, each with its signal: in the hold by the pairs that
/// were frozen, and otherwise since no two routes with authority begin at one signal.
pub fn held_pairs_are_held_routes()
    ensures { (table : Table) (station : ClockedInterlockingState) (frozen : List Held) (machine : Machine) → IsSound (machine_table table) → Invariant (machine_table table) machine
        → machine.holding ≡ is_holding (reading_of station.clock) station.ixl → ((route : ℕ) → machine.routes route ≡ route_seen (slice_get station.ixl.routes route))
        → length station.ixl.routes ≡ length table.rows → All (λ (row : Row). row.entry < length station.ixl.known_signals) table.rows
        → AreHeldPairs (machine_table table) frozen machine.frozen → AreHeldPairs (machine_table table) (held_of table station frozen) (is_held machine) }
{}
