//! The places of a railway's entries, counted from 0 in the order of the text.

/// A station.
#[derive(Clone, Copy, Debug, PartialEq, Eq)]
pub struct StationId(pub usize);
