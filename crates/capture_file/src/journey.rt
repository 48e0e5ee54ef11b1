//! When a datagram was sent, from where and to where.

/// The greatest number of bytes of a payload that is captured, and of a comment.
pub const MOST_BYTES: usize = 512;

/// An end of a journey: an address of IPv4 as its four bytes in their usual order, and a port of UDP.
#[derive(Clone, Copy, Debug, PartialEq, Eq)]
pub struct Endpoint {
    pub address: [u8; 4],
    pub port: u16,
}

/// When a datagram was sent, in microseconds since 1970, and between which ends.
#[derive(Clone, Copy, Debug, PartialEq, Eq)]
pub struct Journey {
    pub time: u64,
    pub sender: Endpoint,
    pub receiver: Endpoint,
}
