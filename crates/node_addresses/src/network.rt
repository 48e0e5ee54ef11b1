//! The networks of a station.

/// A network in which each node has an address.
#[derive(Clone, Copy, Debug)]
pub enum Network {
    /// The only one.
    Alone,
    /// The first of two.
    First,
    /// The second of two.
    Second,
}
