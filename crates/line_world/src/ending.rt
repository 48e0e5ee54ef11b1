//! How a look of an end ends.

/// How a look of an end ends.
#[derive(Clone, Copy, Debug, PartialEq, Eq)]
pub enum Ending {
    /// Its file is kept where it is to change; then all of the step leaves.
    Whole,
    /// The process is killed, or told that its file couldn't be kept, while that has what it had. Nothing leaves.
    Unwritten,
    /// The same when its file has the new. Nothing leaves.
    Written,
}
