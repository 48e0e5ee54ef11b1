//! The desk of a signaller's panel: what a browser asks, or why that is refused; the lines that are shown, each
//! with the number at which it was told, and as JSON those that a page lacks; what is answered; and what a panel
//! does by itself.
#![tactic(auto)]

mod about;
mod answer;
mod board;
mod boards_followed;
mod command_line;
mod desk;
mod desk_opened;
mod flags;
mod head;
mod in_the_way;
mod json;
mod laws;
mod lines_shown;
mod noted;
mod panel_command;
mod panel_line;
mod pictured;
mod refusal;
mod request;
mod standing_laws;
mod standing_order;
mod standing_orders;
mod word_table;

pub use about::{About, about_text};
pub use board::Board;
pub use boards_followed::{a_page_shows_what_is_told, boards_follow};
pub use command_line::read_panel_command;
pub use desk::{Desk, OwnAccess};
pub use desk_opened::{PageAsked, open_desk};
pub use laws::{
    commands_come_from_the_page, nothing_is_for_other_hosts, requests_are_as_worked_by_hand,
    what_is_shown_is_the_picture,
};
pub use lines_shown::show_lines;
pub use noted::Noted;
pub use panel_command::{Disturbance, DisturbanceText, PanelCommand};
pub use panel_line::{Mode, PanelLine, PanelNetwork, PanelText};
pub use pictured::Pictured;
pub use refusal::Refusal;
pub use request::{Access, Request, Sent, read_request};
pub use standing_laws::{
    each_route_waits_once, of_two_that_conflict_only_the_one_that_waits_longer_is_tried,
    what_is_tried_waits_and_nothing_stands_against_it, what_may_be_tried_is_tried,
    what_was_cancelled_or_released_is_left_alone,
};
pub use standing_order::{StandingOrder, StandingOrderText};
pub use standing_orders::{StandingOrders, Waiting};

// What crates above need of the crates below.
pub use node_lines;
pub use run_numbers;

// The everyday items of the crates below.
pub use node_lines::{
    Answer, AnswerText, Aspect, AuxiliaryCounts, BitRow, BorderId, CLOCK_LIMIT, Checked,
    ClockSteps, Command, Datagram, DetectorId, Event, Fault, Held, Key, LATEST_CLOCK, LIFETIME,
    LIFETIME_MICROS, LONGEST_DATAGRAM, Layout, Lines, MICROS, Millis, Name, Named, Node, NodeId,
    Occupancy, Outbox, PointId, Position, QUIET_TIME, ROUND, ROUND_MICROS, RawDatagram, Refused,
    Reply, Role, RouteId, SectionId, SessionFault, Shown, Side, SignalId, Snapshot, Stands, Start,
    Thing, Verdict, Words, decimal, hex_word, hexadecimal_or_none, is_intact, is_request,
    joined_words_are_read_again, name_word, names_are_read_again, names_are_words, node_named,
    point_named, read_event, read_script_event, receiver_of, recorded, route_named, section_named,
    sender_of, write_as_taken, write_event,
};
