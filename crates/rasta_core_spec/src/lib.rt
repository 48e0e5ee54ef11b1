//! Two ends of a link and the datagrams between them: what a run of them is.
#![tactic(auto)]

mod sent;

pub use rasta_core_link::{
    CLOCK_LIMIT, Identity, Inbox, LATEST_CLOCK, LIFETIME, LIFETIME_MICROS, Link, MICROS, Millis,
    Outbox, QUIET_TIME, ROUND, ROUND_MICROS, Reason, Role, SendFault, Start, State, Verdict,
};
pub use rasta_pdu::{read_was_written, written_is_read};
pub use sent::Sent;
