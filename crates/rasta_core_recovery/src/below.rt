//! What this crate borrows of the crates below it, said once: their laws, by what they speak of.

ghost use Rattle.rasta_core_recovery.specs.inside.LawsBelow.{LawsBelow};

use rasta_core::{
    calls_hand_out_pdus, connection_begins, every_event_keeps_order, every_event_keeps_time,
    links_are_settled, one_connection, opening_is_new, outside_until_it_enters, own_connection,
    starts_in_time, what_is_taken,
};
use rasta_core_spec::{read_was_written, written_is_read};

/// What is so of PDUs, of two ends and every event, of their connections, and of an end outside.
pub(crate) fn laws_below()
    ensures { LawsBelow }
{
    written_is_read();
    read_was_written();
    calls_hand_out_pdus();
    starts_in_time();
    every_event_keeps_time();
    every_event_keeps_order();
    links_are_settled();
    one_connection();
    own_connection();
    opening_is_new();
    what_is_taken();
    outside_until_it_enters();
    connection_begins();
}
