//! A PDU as a value.

use crate::body::Body;

/// A PDU, with its fields in the order of DIN VDE V 0831-200. Its length and its safety code follow from it,
/// and aren't kept.
#[derive(Debug, PartialEq, Eq, Drop)]
pub struct Pdu {
    /// Who it is for.
    pub receiver: u32,
    /// Who sent it.
    pub sender: u32,
    /// The number of this PDU; each further one of a sender has the next, modulo 2^32.
    pub sequence_number: u32,
    /// The last sequence number that the sender took from the receiver.
    pub confirmed_sequence_number: u32,
    /// The sender's clock in milliseconds, modulo 2^32.
    pub time_stamp: u32,
    /// The time stamp of the last PDU that the sender took from the receiver.
    pub confirmed_time_stamp: u32,
    /// Its type, and what it carries.
    pub body: Body,
}
