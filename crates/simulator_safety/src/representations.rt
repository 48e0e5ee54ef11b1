//! A world that the machine sees.

ghost use Rattle.std.specs.Prelude.{◌≡◌, List};
ghost use Rattle.std.specs.List.{Contains};
ghost use Rattle.simulator_link_laws.specs.layout.Entries.{Site};
ghost use Rattle.simulator_link_laws.specs.layout.Once.{Once};
ghost use Rattle.simulator_link_laws.specs.layout.Station.{IsStation};
ghost use Rattle.simulator_link_laws.specs.ixl_spec.Table.{Table};
ghost use Rattle.ixl_table.specs.Table.{IsTableOf};
ghost use Rattle.simulator_machine.specs.Machine.{Machine, made_anew};
ghost use Rattle.simulator_link_laws.specs.simulator_spec.Seen.{IsSnapshotOf};
ghost use Rattle.simulator_link_laws.specs.simulator_spec.State.{WorldState};
ghost use Rattle.simulator_link_laws.specs.simulator_spec.Interlocking.{held_of};
ghost use Rattle.simulator_link_laws.specs.simulator_event.Safe.{Safe};
ghost use Rattle.simulator_link_laws.specs.simulator_event.declared.snapshot.Snapshot.{Snapshot};
ghost use Rattle.simulator_safety.specs.Represents.{AreFrozen, Represents};
ghost use Rattle.simulator_safety.specs.Seen.{IsSeen};

use crate::worlds::{held_pairs_are_held_routes, seen_stations_are_safe};
use simulator_link_laws::ends_are_those_of_the_nodes;
use simulator_link_laws::simulator_move_laws::{
    driven_points_are_seen_driven, lawful_ends_are_fit, lawful_worlds_stay_lawful,
    signal_shows_what_is_seen, tables_are_sound,
};
use simulator_machine::promise_follows;

/// A world that the machine sees is seen as far as its promise speaks of it. The pairs that are held in it are what a
/// restart of the interlocking freezes.
pub fn represented_worlds_are_seen()
    ensures seen { (site : Site) (table : Table) (world : WorldState) (machine : Machine) → IsStation site → IsTableOf site table
        → Represents site table world machine → IsSeen site table world machine }
    ensures frozen { (site : Site) (table : Table) (world : WorldState) (machine : Machine) → IsStation site → IsTableOf site table
        → Represents site table world machine → AreFrozen site table (held_of table world.interlocking world.frozen) (made_anew machine) }
{
    driven_points_are_seen_driven();
    ends_are_those_of_the_nodes();
    held_pairs_are_held_routes();
    lawful_ends_are_fit();
    lawful_worlds_stay_lawful();
    signal_shows_what_is_seen();
    tables_are_sound();
}

/// So it is safe: every snapshot of it is.
pub fn represented_worlds_are_safe()
    ensures { (site : Site) (table : Table) (world : WorldState) (machine : Machine) (seen : Snapshot) → Once site → IsStation site → IsTableOf site table
        → Represents site table world machine → IsSnapshotOf table world seen → Safe site seen }
{
    represented_worlds_are_seen();
    promise_follows();
    seen_stations_are_safe();
    tables_are_sound();
}
