//! The drive of a point.

use rasta_core::Millis;
use sci_telegram::Side;

/// A drive under way.
#[derive(Clone, Copy, Debug, PartialEq, Eq)]
pub struct Drive {
    /// The side to which the point is driven.
    pub side: Side,
    /// The reading of the controller's own clock, in ms, from which it isn't driven: the earlier of the drive's limit and the
    /// end of the link.
    pub until: Millis,
}
