//! The links of a station after every list of its events.

ghost use Rattle.std.specs.Prelude.{◌≡◌, ℕ, ◌<◌, List, None};
ghost use Rattle.simulator_spec.specs.layout.Entries.{Site};
ghost use Rattle.simulator_spec.specs.layout.Once.{Once};
ghost use Rattle.simulator_spec.specs.layout.Station.{IsStation};
ghost use Rattle.simulator_spec.specs.rasta_core.Links.{AreLinks, seen};
ghost use Rattle.simulator_spec.specs.simulator_event.declared.event.Event.{Event};
ghost use Rattle.simulator_spec.specs.ixl_spec.Table.{Table};
ghost use Rattle.simulator_spec.specs.First.{IsOutsetOf, Outset, world_at};
ghost use Rattle.simulator_spec.specs.Happens.{happens};
ghost use Rattle.simulator_spec.specs.Links.{names_at};
ghost use Rattle.simulator_spec.specs.Nodes.{links};
ghost use Rattle.simulator_spec.specs.Refusals.{refusal};
ghost use Rattle.simulator_spec.specs.State.{WorldState};
ghost use Rattle.simulator_spec.specs.Run.{CanHappen, after_all};
ghost use Rattle.simulator_link_laws.specs.HasLinks.{HasLinks, IsSafeLink, IsStanding, links_in};

use crate::events::events_are_those_of_the_links;
use rasta_core::{
    each_link_is_a_run, items_are_fresh, links_keep_time, opening_is_new, own_connection,
};
use simulator_spec::a_station_begins_its_links;

/// The links of a layout have one key, and no controller has an identity that another end uses.
pub fn layouts_name_their_links()
    ensures { (site : Site) → IsStation site → Once site → AreLinks (links site) (names_at site) }
{}

/// A station has the links of its layout, and all its nodes: at the beginning, however it lies, after every event that can happen, and so
/// after every list of them.
pub fn stations_have_links()
    ensures first { (site : Site) (table : Table) (outset : Outset) → IsStation site → IsOutsetOf site outset → IsStanding site (world_at site table outset) }
    ensures kept { (site : Site) (table : Table) (event : Event) (world : WorldState) → IsStation site → Once site → IsStanding site world
        → refusal site event world ≡ None → IsStanding site (happens site table event world) }
    ensures run { (site : Site) (table : Table) (outset : Outset) (events : List Event) → IsStation site → Once site → IsOutsetOf site outset
        → CanHappen site table events (world_at site table outset) → IsStanding site (after_all site table events (world_at site table outset)) }
{
    events_are_those_of_the_links();
    layouts_name_their_links();
    links_keep_time();
    a_station_begins_its_links();
}

/// Each link of a station is safe: what was taken is a beginning of what was given, what is held for confirmed was taken,
/// and what is taken is fresh and of its own connection.
pub fn each_link_of_a_station_is_safe()
    ensures { (site : Site) (world : WorldState) → IsStation site → Once site → (has : HasLinks site world) → (link : ℕ) → link < links site
        → IsSafeLink (names_at site link) (seen link (links_in has)) }
{
    each_link_is_a_run();
    layouts_name_their_links();
    items_are_fresh();
    links_keep_time();
    opening_is_new();
    own_connection();
}
