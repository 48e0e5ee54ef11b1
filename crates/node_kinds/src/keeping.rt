//! What the process of an interlocking keeps in a file.

/// What the process of an interlocking keeps in a file, so that it is closed in the process that begins after it.
#[derive(Clone, Copy, Debug, PartialEq, Eq)]
pub enum Keeping {
    /// It has no file.
    Nothing,
    /// What is closed.
    Closings,
    /// That, and what set routes lock: the sections that they haven't freed, and the points that they hold.
    Locks,
}
