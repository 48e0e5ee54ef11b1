//! A telegram.

use crate::message::Message;
use crate::name::Name;

/// What one node tells another. The sender of an occupancy status is the section, and else the names
/// are those of the two nodes.
#[derive(Clone, Copy, Debug, PartialEq, Eq)]
pub struct Telegram {
    pub sender: Name,
    pub receiver: Name,
    pub message: Message,
}
