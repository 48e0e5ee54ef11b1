//! Why an item was not sent.

use thiserror::Error;

/// Why an item was not sent.
#[derive(Clone, Copy, Debug, PartialEq, Eq, Error)]
pub enum SendFault {
    /// The link is not up.
    #[error("the link is not up")]
    NotUp = 1,
    /// 20 items are unconfirmed.
    #[error("the window is full")]
    WindowFull = 2,
}
