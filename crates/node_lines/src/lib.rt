//! The lines of a node: between a controller and its field equipment, and between an interlocking and its operator.
#![tactic(auto)]

mod auxiliary;
mod laws;
mod operator_command;
mod operator_line;
mod order;
mod order_read;
mod report;
mod word_table;

pub use auxiliary::counted_after;
pub use laws::{
    authority_is_told_apart, commands_are_read_again, lines_are_as_worked_by_hand,
    orders_are_read_again, reports_are_read_again,
};
pub use operator_command::{CommandText, OperatorCommand, read_command};
pub use operator_line::{Authority, Known, LinkState, OperatorLine, OperatorText};
pub use order::{Order, OrderLine};
pub use order_read::read_order;
pub use report::{FieldReport, ReportText, read_report};

// What crates above need of the crates below.
pub use closings;
pub use replay_lines;
pub use replay_lines::ixl_spec;
pub use replay_words;
pub use simulator_event;

// The everyday items of the crates below.
pub use closings::{Auxiliary, AuxiliaryCounts};
pub use replay_lines::ixl_spec::rasta_pdu::Received;
pub use replay_lines::ixl_spec::{
    Aspect, BitRow, BorderId, CLOCK_LIMIT, Checked, Closings, Command, Datagram, Detector,
    DetectorId, Key, LATEST_CLOCK, LIFETIME, LIFETIME_MICROS, LONGEST_DATAGRAM, Layout, MICROS,
    Millis, Name, Named, Node, NodeId, Occupancy, Outbox, Point, PointId, Position, Protocol,
    QUIET_TIME, ROUND, ROUND_MICROS, Role, Route, RouteId, SectionId, Side, Signal, SignalId,
    Start, Thing, Verdict, is_intact, is_request, receiver_of, sender_of,
};
pub use replay_lines::{
    AnswerText, SessionFault, name_word, names_are_read_again, names_are_words, node_named,
    point_named, read_event, read_script_event, recorded, route_named, section_named, write_event,
};
pub use replay_words::{
    Fault, Lines, Words, decimal, hex_word, hexadecimal_or_none, joined_words_are_read_again,
    write_as_taken,
};
pub use simulator_event::{
    Answer, ClockSteps, Event, Held, RawDatagram, Refused, Reply, Shown, Snapshot, Stands,
};
