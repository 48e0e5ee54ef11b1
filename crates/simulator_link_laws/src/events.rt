//! Every event of a station, as events of its links.

ghost use Rattle.std.specs.Prelude.{◌≡◌, None};
ghost use Rattle.simulator_spec.specs.layout.Entries.{Site};
ghost use Rattle.simulator_spec.specs.layout.Station.{IsStation};
ghost use Rattle.simulator_spec.specs.rasta_core.EachLink.{AreTimely};
ghost use Rattle.simulator_spec.specs.rasta_core.Links.{AreLinks, Links};
ghost use Rattle.simulator_spec.specs.simulator_event.declared.event.Event.{Event};
ghost use Rattle.simulator_spec.specs.ixl_spec.Table.{Table};
ghost use Rattle.simulator_spec.specs.Happens.{happens};
ghost use Rattle.simulator_spec.specs.Links.{AreLinksOf, names_at};
ghost use Rattle.simulator_spec.specs.Nodes.{links};
ghost use Rattle.simulator_spec.specs.Refusals.{refusal};
ghost use Rattle.simulator_spec.specs.State.{WorldState};
ghost use Rattle.simulator_link_laws.specs.Events.{FollowsBy, events_of};
ghost use Rattle.simulator_link_laws.specs.Follows.{Follows};
ghost use Rattle.simulator_link_laws.specs.Whole.{IsWhole};

use rasta_core::{
    a_node_makes_a_step, a_node_restarts, calls_at_one_clock, copies_are_delivered,
    each_link_sees_its_events, links_are_settled, links_keep_time, opening_is_new,
    outside_until_it_enters, what_is_taken,
};
use rasta_pdu::intact_is_tested;
use sci_telegram::written_is_read;
use simulator_move_laws::{
    a_node_of_one_link_makes_a_step, calls_may_follow_calls, calls_of_a_server_are_sent,
    clients_ask_where_they_begin,
};
use simulator_spec::object_host::step_is_calls;
use simulator_spec::point_ctl::Point;
use simulator_spec::signal_ctl::Signal;
use simulator_spec::tds_ctl::Detection;

/// An event that can happen to a station is a list of events that may happen to its links: calls at the ends of the node
/// that makes a step, or time, a loss or a restart. After it they are the links of the station as it is then (*follow*), and
/// the events are those that the definitions say (*exactly*). It leaves every node there (*whole*).
pub fn events_are_those_of_the_links()
    ensures follow { (site : Site) (table : Table) (event : Event) (world : WorldState) (before : Links) → AreLinks (links site) (names_at site) → IsWhole site world
        → AreTimely (links site) (names_at site) before → AreLinksOf site world before → refusal site event world ≡ None → Follows site (happens site table event world) before }
    ensures exactly { (site : Site) (table : Table) (event : Event) (world : WorldState) (before : Links) → AreLinks (links site) (names_at site) → IsWhole site world
        → AreTimely (links site) (names_at site) before → AreLinksOf site world before → refusal site event world ≡ None
        → FollowsBy site (events_of site table event world) (happens site table event world) before }
    ensures whole { (site : Site) (table : Table) (event : Event) (world : WorldState) (before : Links) → AreLinks (links site) (names_at site) → IsStation site
        → IsWhole site world → AreTimely (links site) (names_at site) before → AreLinksOf site world before → refusal site event world ≡ None
        → IsWhole site (happens site table event world) }
{
    a_node_makes_a_step();
    a_node_of_one_link_makes_a_step();
    a_node_restarts();
    calls_at_one_clock();
    calls_may_follow_calls();
    calls_of_a_server_are_sent();
    clients_ask_where_they_begin();
    copies_are_delivered();
    each_link_sees_its_events();
    intact_is_tested();
    simulator_spec::ixl_spec::ixl_client::step_is_calls();
    links_are_settled();
    links_keep_time();
    opening_is_new();
    outside_until_it_enters();
    step_is_calls::<Detection>();
    step_is_calls::<Point>();
    step_is_calls::<Signal>();
    what_is_taken();
    written_is_read();
}
