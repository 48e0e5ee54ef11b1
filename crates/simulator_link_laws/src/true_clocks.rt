//! The links of a station whose clocks are those of real machines: true to one part in a thousand between any two moments,
//! give or take ten microseconds, however short the events are.

ghost use Rattle.std.specs.Prelude.{ℕ, ◌∷◌, List};
ghost use Rattle.simulator_spec.specs.layout.Entries.{Site};
ghost use Rattle.simulator_spec.specs.layout.Once.{Once};
ghost use Rattle.simulator_spec.specs.layout.Station.{IsStation};
ghost use Rattle.simulator_spec.specs.rasta_core.EachLink.{AreTimely};
ghost use Rattle.simulator_spec.specs.rasta_core.Links.{Links, begun, run_links};
ghost use Rattle.simulator_spec.specs.simulator_event.declared.event.Event.{Event};
ghost use Rattle.simulator_spec.specs.ixl_spec.Table.{Table};
ghost use Rattle.simulator_spec.specs.First.{IsOutsetOf, Outset, world_at};
ghost use Rattle.simulator_spec.specs.Happens.{happens};
ghost use Rattle.simulator_spec.specs.simulator_event.declared.event.Event.TheVariants.{Time};
ghost use Rattle.simulator_spec.specs.Links.{AreLinksOf, names_at, starts_at_zero};
ghost use Rattle.simulator_spec.specs.Nodes.{links};
ghost use Rattle.simulator_spec.specs.Run.{after_all};
ghost use Rattle.simulator_spec.specs.State.{WorldState};
ghost use Rattle.simulator_spec.specs.TrueClocks.{KeepTime, MayAllCome, MayCome};
ghost use Rattle.simulator_link_laws.specs.Events.{events_of};
ghost use Rattle.simulator_link_laws.specs.TrueLinks.{AreTrueLinks, KeepLinks, links_after};
ghost use Rattle.simulator_link_laws.specs.Whole.{IsWhole};

use crate::events::events_are_those_of_the_links;
use crate::stations::{layouts_name_their_links, stations_have_links};
use rasta_core::{
    links_keep_time_by_their_offsets, offsets_stay_or_are_set, steady_clocks_are_off_little,
};
use simulator_spec::a_station_begins_its_links;

/// A station whose clocks keep time over a list of events has links that keep time: at its beginning (*first*), after each
/// event (*kept*), and so after every list of them (*run*). Where some links of it keep time after time has passed, all do
/// that were its links before and kept time (*passes*).
pub fn true_clocks_keep_links()
    ensures first { (site : Site) (table : Table) (outset : Outset) (events : List Event) → IsStation site → Once site → IsOutsetOf site outset
        → KeepTime site table events (world_at site table outset)
        → KeepLinks site table events (world_at site table outset) (begun (names_at site) starts_at_zero) }
    ensures kept { (site : Site) (table : Table) (event : Event) (others : List Event) (world : WorldState) (network : Links) → IsStation site → Once site
        → KeepLinks site table (event ∷ others) world network → MayCome site event world
        → KeepLinks site table others (happens site table event world) (run_links (events_of site table event world) network) }
    ensures passes { (site : Site) (table : Table) (elapsed : ℕ) (clocks : List ℕ) (world : WorldState) (network other : Links) → IsWhole site world
        → AreLinksOf site world network → AreTimely (links site) (names_at site) network → MayCome site (Time elapsed clocks) world
        → AreTrueLinks site (happens site table (Time elapsed clocks) world) other
        → AreTrueLinks site (happens site table (Time elapsed clocks) world) (run_links (events_of site table (Time elapsed clocks) world) network) }
    ensures timely { (site : Site) (table : Table) (todo : List Event) (world : WorldState) (network : Links) → KeepLinks site table todo world network
        → AreTimely (links site) (names_at site) network }
    ensures run { (site : Site) (table : Table) (outset : Outset) (events : List Event) → IsStation site → Once site → IsOutsetOf site outset
        → MayAllCome site table events (world_at site table outset) → KeepTime site table events (world_at site table outset)
        → AreTrueLinks site (after_all site table events (world_at site table outset))
        (links_after site table events (world_at site table outset) (begun (names_at site) starts_at_zero)) }
{
    a_station_begins_its_links();
    events_are_those_of_the_links();
    layouts_name_their_links();
    links_keep_time_by_their_offsets();
    offsets_stay_or_are_set();
    stations_have_links();
    steady_clocks_are_off_little();
}
