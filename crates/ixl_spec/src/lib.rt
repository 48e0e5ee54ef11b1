//! What an interlocking keeps, how it is made, what it knows by that, its rules, and what these come to in the words of
//! the field.
#![tactic(auto)]

mod command;
mod just_made;
mod key;
mod laws;
mod operation_laws;
mod phase;

pub use command::{Command, HOLD_TIME, Refusal};
pub use just_made::new_interlockings_hold;
pub use key::key_of;
pub use laws::{
    authority_ends_at_known_stop, move_is_given_where_due, passage_frees_all_that_it_may,
    proceed_is_given_where_due, request_is_accepted_where_admissible,
    route_is_freed_where_cancel_lets_it_go, section_is_freed_where_passage_lets_it_go,
    stop_is_given_where_due,
};
pub use operation_laws::{
    close_is_accepted_where_nothing_is_used, move_is_accepted_where_it_may_be,
    release_is_accepted_where_it_may_be,
};
pub use phase::Phase;

// What crates above need of the crates below.
pub use closings::control_table;
pub use ixl_client;
pub use rasta_core;
pub use rasta_pdu;

// The everyday items of the crates below.
pub use closings::control_table::layout::{Detector, Point, Route, Signal};
pub use closings::control_table::sci_telegram::Protocol;
pub use closings::control_table::{
    Aspect, BitRow, BorderId, Checked, DetectorId, Layout, Name, Node, NodeId, Occupancy, PointId,
    Position, RouteId, SectionId, Side, SignalId,
};
pub use closings::{
    Closings, Named, Thing, a_command_changes_what_it_names_alone, a_name_names_what_has_it,
    all_track_is_closed, side_said, side_word, what_either_closes_is_closed,
};
pub use rasta_core::{
    CLOCK_LIMIT, LATEST_CLOCK, LIFETIME, LIFETIME_MICROS, MICROS, Millis, Outbox, QUIET_TIME,
    ROUND, ROUND_MICROS, Role, Start, Verdict,
};
pub use rasta_pdu::{
    Datagram, Key, LONGEST_DATAGRAM, is_intact, is_request, receiver_of, sender_of,
};
