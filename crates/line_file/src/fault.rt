//! Why an end doesn't start from its file.

use thiserror::Error;

/// What is wrong with the file of an end.
#[derive(Clone, Copy, Debug, PartialEq, Eq, Error)]
pub enum FileFault {
    #[error("there is none: a line begins once, and its files are written then")]
    Missing,
    #[error("it is cut off")]
    CutOff,
    #[error("it is of another line")]
    OtherLine,
    #[error("it is of the line's other end")]
    OtherEnd,
    #[error("it is no file of an end")]
    Damaged,
    /// The system doesn't give its bytes.
    #[error("it can't be read")]
    Unreadable,
}
