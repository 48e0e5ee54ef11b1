//! The desk of the page on which a station is drawn: what a browser asks, or why that is refused; the file that is shown and
//! written, and over which nothing is written that wasn't known; what is checked; the panel that is to run of it; and the page itself,
//! in one file.
#![tactic(auto)]

mod access;
mod answer;
mod claim;
mod desk;
mod desk_opened;
mod document;
mod head;
mod json;
mod known;
mod laws;
mod outside;
mod own_text;
mod panel_asked;
mod refusal;
mod request;
mod saving;
mod showing;

pub use access::{Access, OwnAccess};
pub use claim::{Claim, claim_of, may_write};
pub use desk::Desk;
pub use desk_opened::{PageDrawn, open_desk};
pub use document::page;
pub use known::{Checked, Known};
pub use laws::{
    a_file_is_written_over_only_where_it_is_known, nothing_is_for_other_hosts,
    requests_are_as_worked_by_hand, what_is_done_comes_from_the_page,
};
pub use outside::{Outside, Verdict};
pub use own_text::OwnText;
pub use panel_asked::{PanelAsked, PanelStage};
pub use refusal::Refusal;
pub use request::{Request, Sent, read_request};

// What crates above need of the crates below.
pub use panel_connections::{Connections, Listens, Loopback, tell_address};
