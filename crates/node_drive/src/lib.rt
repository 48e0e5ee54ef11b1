//! The engine by which a node runs as a process of its own: rounds, in which it hears lines, then datagrams, and ticks. What a step
//! writes goes out first, and its datagrams once its line is in force.
#![tactic(auto)]

mod budget;
mod course;
mod datagrams_heard;
mod datagrams_sent;
mod fault;
mod laws;
mod lines_heard;
mod node;
mod order_changes;
mod orders_written;
mod outside;
mod rounds;
mod socket_seen;
mod step;

pub use budget::LONGEST_UNSEEN;
pub use course::Course;
pub use fault::NodeFault;
pub use laws::{
    Behaves, a_node_is_what_came_to_it, datagrams_wait_for_their_line,
    rounds_are_as_worked_by_hand, the_ages_add_up, the_last_order_stands,
    what_is_heard_waited_briefly, what_is_sent_is_sent_in_time, what_was_seen_was_called,
};
pub use node::{LineMeaning, NodeMachine, Outgoing};
pub use orders_written::finish;
pub use outside::{
    Arrived, BrokenOff, Network, NextDatagram, NextLine, Origin, Outside, ThrownAway, ToKeep,
};
pub use rounds::drive;

// What crates above need of the crates below.
pub use node_lines;

// The everyday items of the crates below.
pub use node_lines::ixl_spec::{Closings, Named, Thing};
pub use node_lines::{
    Answer, AnswerText, Aspect, BitRow, BorderId, CLOCK_LIMIT, Checked, ClockSteps, Datagram,
    DetectorId, Event, Fault, Held, Key, LATEST_CLOCK, LIFETIME, LIFETIME_MICROS, LONGEST_DATAGRAM,
    Layout, Lines, MICROS, Millis, Name, Node, NodeId, Occupancy, Order, Outbox, PointId, Position,
    QUIET_TIME, ROUND, ROUND_MICROS, RawDatagram, Received, Refused, Reply, Role, RouteId,
    SectionId, SessionFault, Shown, Side, SignalId, Snapshot, Stands, Start, Verdict, Words,
    decimal, hex_word, hexadecimal_or_none, is_intact, is_request, joined_words_are_read_again,
    name_word, names_are_read_again, names_are_words, node_named, point_named, read_event,
    read_order, read_script_event, receiver_of, recorded, route_named, section_named, sender_of,
    write_as_taken, write_event,
};
