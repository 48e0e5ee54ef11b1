//! The link after RaSTA (DIN VDE V 0831-200): what is true of one link and of many links over one network after every list
//! of events. One end stands in `rasta_core_link`, two ends with their datagrams in `rasta_core_spec`; this is the door to
//! all of it, and crates above name this one alone.
#![tactic(auto)]

mod connection_order;
mod many_links;
mod one_link;
mod true_clocks;
mod true_time;

pub use connection_order::{
    calls_carry_what_they_accept, calls_keep_order, client_alone, connection_begins,
    hearing_keeps_order, partner_stays, parts_are_safe,
};
pub use many_links::{
    a_node_makes_a_step, a_node_restarts, each_delivery_is_seen, each_link_is_a_run,
    each_link_sees_its_events, links_can_be_read_off, links_count_their_quiet, links_keep_order,
    links_keep_time, links_of_one_client,
};
pub use one_link::{
    calls_at_one_clock, calls_follow_calls, every_event_keeps_order, every_run_keeps_order,
    given_was_sent, items_are_counted, link_is_safe, newest_tells_the_connection,
    nothing_before_a_connection, order_is_safe, outside_until_it_enters, time_keeps_order,
    what_is_taken,
};
pub use rasta_core_spec::{
    CLOCK_LIMIT, Identity, Inbox, LATEST_CLOCK, LIFETIME, LIFETIME_MICROS, Link, MICROS, Millis,
    Outbox, QUIET_TIME, ROUND, ROUND_MICROS, Reason, Role, SendFault, Sent, Start, State, Verdict,
};
pub use true_clocks::{
    a_fast_clock_keeps_time, drift_by_events_keeps_time, ends_keep_time_by_their_offsets,
    links_keep_time_by_their_offsets, offsets_stay_or_are_set, steady_clocks_are_off_little,
    time_changes_no_connection, true_clocks_keep_time,
};
pub use true_time::{
    alone_after_quiet, alone_after_waiting, calls_hand_out_pdus, copies_are_delivered,
    every_event_keeps_time, every_run_keeps_time, items_are_fresh, links_are_settled,
    one_connection, opening_is_new, own_connection, quiet_is_counted, some_run_takes_an_item,
    starts_in_time,
};
