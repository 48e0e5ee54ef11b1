//! What became of a datagram.

use rasta_pdu::PduFault;

/// What became of a datagram. All but the first two refuse it, by the first test in the order of the
/// protocol that failed.
#[derive(Clone, Copy, Debug, PartialEq, Eq)]
pub enum Verdict {
    Taken,
    /// An earlier PDU is missing: it was asked for, and nothing of this one was used.
    Asked,
    /// The bytes are no PDU.
    Unreadable(PduFault),
    /// It names another receiver.
    NotForMe,
    /// It names another sender than the partner.
    WrongSender,
    /// Its sequence number isn't 0 to 200 ahead of the expected one.
    OutOfRange,
    /// It returns an older stamp than the last one returned.
    Stale,
    /// It confirms no own PDU, or one before the last confirmed.
    BadConfirm,
    /// The state doesn't allow it. In a connection this closes the link.
    WrongState,
    /// A copy of the opening request, or not what a link waits for that misses a PDU.
    Discarded,
    /// The link is quiet after a close.
    Quiet,
}
