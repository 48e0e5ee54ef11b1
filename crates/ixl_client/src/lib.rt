//! The client's end of the link to one object controller: it opens the link, leads the initialisation, hands up what the
//! controller tells of its objects, and sends commands. What comes out of order closes the link with its reason. The laws
//! say what the steps of a client come to, in the words of the protocol.
#![tactic(auto)]

mod client;
mod clock_and_commands;
mod command;
mod end;
mod indication;
mod items_heard;
mod laws;
mod meaning;
mod peer;
mod protocol;
mod stage;

pub use client::Client;
pub use command::Command;
pub use indication::{Indication, Indications, ObjectState};
pub use laws::{step_hears_what_was_taken, step_is_calls, step_keeps_the_peer};
pub use peer::Peer;
pub use protocol::{
    deviations_close_the_link, initialisations_go_out_in_order,
    refusals_by_the_window_close_the_link, ticks_open_links_that_are_down,
};
