//! Recovery of a station: what good rounds come to, whatever requests and occupancies come between them, and what the two ends of a
//! link say and expect. And silence: what a lamp and a drive come to where nothing new comes to their controller, on any network. There
//! is no code here but laws.
#![tactic(auto)]

mod below;
mod lamps;
mod links;
mod points;
mod rounds;
mod routes_coming;
mod routes_going;
mod sections;
mod silence;
mod talk;
mod windows;

pub use lamps::{aspects_stay, lamps_fall_behind_a_cancel, routes_show_their_aspect, stop_comes};
pub use links::{
    good_rounds_are_at_work_on_links, links_are_ready, links_are_ready_from_the_first_round,
    links_come_up, links_come_up_from_the_first_round, links_that_are_up_are_in_one_connection,
};
pub use points::{
    known_points_lie_at_their_sides, moves_are_answered, no_move_is_out_where_nothing_came,
    no_move_is_out_where_nothing_comes, no_move_is_unanswered, points_are_moved_once,
    points_held_with_authority_are_known,
};
pub use rounds::{
    a_station_begins_its_flow, flows_stay_flows, good_rounds_are_events,
    good_rounds_take_their_time, the_hold_ends,
};
pub use routes_coming::{
    accepted_routes_come_over_clear_sections, no_cancelled_route_waits_that_may_be_freed,
    no_move_waits_that_is_due, no_route_waits_that_may_proceed, no_stop_waits_that_is_due,
    routes_come, set_routes_come_over_clear_sections,
};
pub use routes_going::{
    authority_ends_behind_a_cancel, authority_ends_behind_a_withdrawal,
    authority_ends_within_a_heartbeat, cancelled_routes_are_free_behind_their_approach,
    ended_routes_are_free_behind_their_approach, no_section_waits_that_its_passage_lets_go,
    released_routes_are_free_behind_their_release, routes_are_free_behind_a_cancel,
    routes_are_free_behind_a_release, routes_are_free_behind_their_trains,
    waiting_routes_are_free_behind_a_cancel, withdrawn_routes_are_free_behind_their_trains,
};
pub use sections::{
    known_sections_are_as_in_the_field, sections_are_reported,
    sections_are_reported_where_nothing_came, sections_are_reported_with_room,
};
pub use silence::{connections_end_in_silence, lamps_fall_in_silence, points_rest_in_silence};
pub use talk::{clients_expect_what_comes_next, hosts_expect_what_comes_next};
pub use windows::events_close_no_link;
