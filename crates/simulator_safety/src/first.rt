//! A station as it lies when it is started, and an interlocking that is made anew.

ghost use Rattle.simulator_link_laws.specs.layout.Entries.{Site};
ghost use Rattle.simulator_link_laws.specs.layout.Once.{Once};
ghost use Rattle.simulator_link_laws.specs.layout.Station.{IsStation};
ghost use Rattle.simulator_link_laws.specs.ixl_spec.Table.{Table};
ghost use Rattle.simulator_machine.specs.Run.{first};
ghost use Rattle.simulator_link_laws.specs.simulator_move_laws.Made.{IsJustMade};
ghost use Rattle.simulator_link_laws.specs.simulator_spec.First.{Beginning, IsOutsetOf, Outset, new_ixl, world_at};
ghost use Rattle.simulator_safety.specs.Seen.{positions_at};
ghost use Rattle.simulator_safety.specs.Represents.{Represents};

use simulator_link_laws::simulator_move_laws::{
    lawful_ends_are_fit, lawful_worlds_stay_lawful, made_interlockings_are_seen, points_begin_seen,
    signals_begin_seen,
};
use simulator_link_laws::simulator_spec::{
    a_restarted_interlocking_holds, a_station_begins_its_links,
};
use simulator_link_laws::{
    layouts_name_their_links, links_are_named_by_their_controllers, stations_have_links,
};
use simulator_machine::invariant_is_kept;

/// An interlocking that is made for a layout has no connection since then, and nothing is set.
pub fn new_interlockings_are_just_made()
    ensures { (site : Site) (table : Table) (begins : Beginning) → IsJustMade (new_ixl site table begins) }
{}

/// The machine in its first state, with each point where it stands, sees a station as it lies.
pub fn stations_begin_represented()
    ensures { (site : Site) (table : Table) (outset : Outset) → IsStation site → Once site → IsOutsetOf site outset → Represents site table (world_at site table outset) (first (positions_at outset)) }
{
    a_restarted_interlocking_holds();
    invariant_is_kept();
    lawful_ends_are_fit();
    lawful_worlds_stay_lawful();
    layouts_name_their_links();
    links_are_named_by_their_controllers();
    made_interlockings_are_seen();
    new_interlockings_are_just_made();
    points_begin_seen();
    signals_begin_seen();
    stations_have_links();
    a_station_begins_its_links();
}
