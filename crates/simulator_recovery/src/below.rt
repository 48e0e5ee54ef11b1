//! What this crate borrows of the crates below it, said once: their laws, by what they speak of.

ghost use Rattle.simulator_recovery.specs.inside.LawsBelow.{LawsBelow};
ghost use Rattle.simulator_recovery.specs.inside.LawsOfHost.{LawsOfHost};
ghost use Rattle.simulator_recovery.specs.inside.LawsOfObjects.{LawsOfObjects};
ghost use Rattle.simulator_recovery.specs.inside.LawsOfInterlockings.{LawsOfInterlockings};
ghost use Rattle.simulator_recovery.specs.inside.LawsOfLinks.{LawsOfLinks};
ghost use Rattle.simulator_recovery.specs.inside.LawsOfMachine.{LawsOfMachine};
ghost use Rattle.simulator_recovery.specs.inside.LawsOfRounds.{LawsOfRounds};
ghost use Rattle.simulator_recovery.specs.inside.LawsOfStations.{LawsOfStations};

use ixl_client::{step_hears_what_was_taken, step_is_calls as client_step_is_calls};
use object_host_laws::{point_makes_a_step, step_takes_and_gives};
use rasta_core::{
    a_node_makes_a_step, calls_hand_out_pdus, copies_are_delivered, each_delivery_is_seen,
    each_link_is_a_run, each_link_sees_its_events, every_event_keeps_order, every_event_keeps_time,
    every_run_keeps_order, every_run_keeps_time, items_are_counted, links_are_settled,
    links_keep_order, links_keep_time, one_connection, opening_is_new, order_is_safe,
    outside_until_it_enters, own_connection, starts_in_time, what_is_taken,
};
use rasta_core_recovery::{
    clients_at_work_speak, quiet_clients_confirm_at_once, servers_at_work_confirm,
    servers_at_work_speak, two_ends_at_work_come_up, two_ends_at_work_confirm,
    two_ends_at_work_hand_over, what_a_server_takes_confirms, what_is_taken_confirms,
    what_servers_take_at_work_confirms, what_was_given_before_is_confirmed,
};
use rasta_pdu::{intact_is_tested, written_is_read as written_pdu_is_read};
use sci_telegram::written_is_read as written_telegram_is_read;
use simulator_link_laws::{
    deliveries_may_come, ends_are_those_of_the_nodes, events_are_those_of_the_links,
    interlockings_call_their_nodes, layouts_name_their_links, stations_have_links,
};
use simulator_machine::invariant_is_kept;
use simulator_move_laws::{
    a_client_of_many_makes_a_step, a_node_of_one_link_makes_a_step, calls_may_follow_calls,
    flows_are_in_order, lawful_worlds_stay_lawful, representations_tell_the_connection,
    servers_enter_once, tables_are_sound,
};
use simulator_safety::{
    every_world_is_reached_by_moves, every_world_is_safe, items_are_read_off_the_datagrams,
    networks_follow_their_worlds, reached_worlds_are_safe, represented_worlds_are_seen,
};
use simulator_spec::a_station_begins_its_links;
use simulator_spec::ixl_spec::{
    move_is_given_where_due, proceed_is_given_where_due, request_is_accepted_where_admissible,
    route_is_freed_where_cancel_lets_it_go, stop_is_given_where_due,
};
use simulator_spec::object_host::{
    Controller, step_is_calls, step_is_told_to_the_object, step_tells_what_was_taken,
    steps_keep_a_host,
};
use simulator_spec::point_ctl::Point;
use simulator_spec::signal_ctl::Signal;
use simulator_spec::tds_ctl::Detection;

/// What is so of the two ends of a link, and of the links of a network, whatever happens to them.
pub(crate) fn laws_of_links()
    ensures { LawsOfLinks }
{
    links_keep_time();
    a_node_makes_a_step();
    items_are_counted();
    order_is_safe();
    each_link_sees_its_events();
    each_link_is_a_run();
    one_connection();
    every_event_keeps_time();
    outside_until_it_enters();
    every_event_keeps_order();
    opening_is_new();
    what_is_taken();
    every_run_keeps_time();
    every_run_keeps_order();
    starts_in_time();
    written_pdu_is_read();
    calls_hand_out_pdus();
    links_are_settled();
    own_connection();
    each_delivery_is_seen();
    copies_are_delivered();
    intact_is_tested();
    links_keep_order();
    calls_may_follow_calls();
}

/// What two ends of a link come to in rounds at work.
pub(crate) fn laws_of_rounds()
    ensures { LawsOfRounds }
{
    two_ends_at_work_come_up();
    two_ends_at_work_confirm();
    what_was_given_before_is_confirmed();
    two_ends_at_work_hand_over();
    what_servers_take_at_work_confirms();
    servers_at_work_speak();
    servers_at_work_confirm();
    clients_at_work_speak();
    quiet_clients_confirm_at_once();
    what_is_taken_confirms();
    what_a_server_takes_confirms();
}

/// What a step of a controller of one kind is to its link.
pub(crate) fn laws_of_host<C: Controller>()
    ensures { LawsOfHost C.behaviour }
{
    step_takes_and_gives::<C>();
    steps_keep_a_host::<C>();
    step_is_calls::<C>();
}

/// What points and detectors are told in a step.
pub(crate) fn laws_of_objects()
    ensures { LawsOfObjects }
{
    point_makes_a_step();
    step_tells_what_was_taken::<Point>();
    step_is_told_to_the_object::<Detection>();
}

/// What the interlocking does in a step: its clients, and its rules.
pub(crate) fn laws_of_interlockings()
    ensures { LawsOfInterlockings }
{
    move_is_given_where_due();
    client_step_is_calls();
    request_is_accepted_where_admissible();
    stop_is_given_where_due();
    proceed_is_given_where_due();
    route_is_freed_where_cancel_lets_it_go();
    step_hears_what_was_taken();
    written_telegram_is_read();
}

/// What the machine keeps.
pub(crate) fn laws_of_machine()
    ensures { LawsOfMachine }
{
    invariant_is_kept();
}

/// What is so of a station after every list of events: its links, and what is seen of them.
pub(crate) fn laws_of_stations()
    ensures { LawsOfStations }
{
    layouts_name_their_links();
    events_are_those_of_the_links();
    a_station_begins_its_links();
    stations_have_links();
    a_node_of_one_link_makes_a_step();
    reached_worlds_are_safe();
    every_world_is_safe();
    represented_worlds_are_seen();
    servers_enter_once();
    networks_follow_their_worlds();
    lawful_worlds_stay_lawful();
    flows_are_in_order();
    representations_tell_the_connection();
    items_are_read_off_the_datagrams();
    every_world_is_reached_by_moves();
    tables_are_sound();
    ends_are_those_of_the_nodes();
    deliveries_may_come();
    a_client_of_many_makes_a_step();
    interlockings_call_their_nodes();
}

/// All of these.
pub(crate) fn laws_below()
    ensures { LawsBelow }
{
    laws_of_links();
    laws_of_rounds();
    laws_of_objects();
    laws_of_interlockings();
    laws_of_machine();
    laws_of_stations();
    laws_of_host::<Signal>();
    laws_of_host::<Point>();
    laws_of_host::<Detection>();
}
