//! What this crate borrows of the crates below it, said once: their laws, by what they speak of.

ghost use Rattle.caught_up_laws.specs.inside.Laws.{Laws};

use rasta_core::{
    calls_carry_what_they_accept, calls_hand_out_pdus, calls_keep_order, client_alone,
    connection_begins, every_event_keeps_order, every_event_keeps_time, given_was_sent,
    hearing_keeps_order, links_are_settled, nothing_before_a_connection, one_connection,
    opening_is_new, outside_until_it_enters, partner_stays, starts_in_time, what_is_taken,
};
use rasta_core_spec::{read_was_written, written_is_read};

/// What is so of PDUs, of the order in a connection, of an end outside, and of two ends over time.
pub(crate) fn laws_below()
    ensures { Laws }
{
    written_is_read();
    read_was_written();
    calls_hand_out_pdus();
    calls_carry_what_they_accept();
    calls_keep_order();
    hearing_keeps_order();
    partner_stays();
    client_alone();
    connection_begins();
    opening_is_new();
    outside_until_it_enters();
    what_is_taken();
    starts_in_time();
    every_event_keeps_time();
    links_are_settled();
    one_connection();
    given_was_sent();
    every_event_keeps_order();
    nothing_before_a_connection();
}
