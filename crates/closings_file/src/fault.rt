//! Why a file of closings isn't taken at its word.

use thiserror::Error;

/// What is wrong with a file of closings.
#[derive(Clone, Copy, Debug, PartialEq, Eq, Error)]
pub enum FileFault {
    #[error("there is none")]
    Missing,
    #[error("it is cut off")]
    CutOff,
    #[error("it is of another layout")]
    OtherLayout,
    #[error("it names what the layout doesn't have")]
    NotThere,
    #[error("it is no file of closings")]
    Damaged,
    /// The system doesn't give its bytes.
    #[error("it can't be read")]
    Unreadable,
}
