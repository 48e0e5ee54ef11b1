//! What the steps of an interlocking come to, over all its parts, in the words of the field. There is no code here but laws.
#![tactic(auto)]

mod laws;
mod operations;
mod whole_step;

pub use laws::{
    cancels_are_accepted_where_a_route_is_set, datagrams_stand_in_their_order,
    moves_are_given_once, nothing_is_set_in_the_hold, refused_inputs_change_nothing,
    resumes_are_accepted_behind_the_hold, routes_go_on_in_their_order,
    routes_keep_what_was_told_since_authority, routes_with_authority_hold_all,
    sections_are_kept_as_they_were_told_last, set_routes_stand_apart, steps_are_calls,
    the_last_report_answers_the_last_move, ticks_leave_no_link_down,
};
pub use operations::{
    a_move_by_command_is_given_once, a_release_frees_only_after_its_time,
    closings_that_are_given_first_are_closed, moves_by_command_go_to_points_that_nothing_holds,
    nothing_closed_is_used, nothing_is_given_over_what_is_closed,
    operations_are_accepted_where_they_may_be, releases_are_noted_with_their_clock,
    what_is_closed_changes_by_command_alone,
};
pub use whole_step::{
    a_step_gives_each_once, an_unsound_aspect_falls, aspects_and_moves_are_telegrams,
    proceed_is_given_once_in_a_setting, two_routes_take_their_turns, whole_steps_do_what_is_due,
};
