//! The fields that the PDUs of one step share.

ghost use Rattle.std.specs.Prelude.{◌≡◌};

use rasta_pdu::{Body, Pdu};

/// The fields that all PDUs of one step share.
#[derive(Clone, Copy, Debug)]
pub struct Header {
    pub(crate) receiver: u32,
    pub(crate) sender: u32,
    /// The sequence number of the sender's first PDU in the connection.
    pub(crate) first_sequence_number: u32,
    pub(crate) confirmed_sequence_number: u32,
    pub(crate) time_stamp: u32,
    pub(crate) confirmed_time_stamp: u32,
}

impl Header {
    ghost use Rattle.rasta_core_link.specs.PdusHandedOut.{pdu_of};

    /// The PDU of this count in the connection.
    #[tactic(auto, unfolding(crate::specs::PdusHandedOut::pdu_of))]
    pub(crate) fn pdu(self, count: u32, body: Body) -> Pdu
        ensures { result ≡ pdu_of self count body }
    {
        Pdu {
            receiver: self.receiver,
            sender: self.sender,
            sequence_number: self.first_sequence_number.wrapping_add(count),
            confirmed_sequence_number: self.confirmed_sequence_number,
            time_stamp: self.time_stamp,
            confirmed_time_stamp: self.confirmed_time_stamp,
            body,
        }
    }
}
