//! How far back the approach of a signal goes.

/// How far back the approach of a signal goes.
#[derive(Clone, Copy)]
pub enum ApproachRule {
    /// By every way by which a train comes, back to the signal before, a border or a dead end.
    Signal,
    /// Over the signal's own element and the tracks behind it, back to the first point, signal or border.
    Berth,
}
