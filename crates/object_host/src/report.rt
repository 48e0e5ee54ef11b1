//! What a field object tells of itself.

use sci_telegram::{Message, Name};

/// What an object tells of itself. The receiver is always the object's peer.
#[derive(Clone, Copy, Debug, PartialEq, Eq)]
pub struct Report {
    /// The section that it is about and that stands as its sender; otherwise the controller itself sends it.
    pub section: Option<Name>,
    pub message: Message,
}
