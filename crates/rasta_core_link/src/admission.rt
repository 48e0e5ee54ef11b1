//! Which PDUs may come in a connection.

ghost use Rattle.std.specs.Prelude.{◌≡◌};

use crate::phase::Phase;
use rasta_pdu::Body;

/// What a PDU is to a connection, by its type and the phase.
#[derive(Clone, Copy, Debug)]
pub(crate) enum Admission {
    /// The phase doesn't allow it: the connection closes.
    Violates,
    /// It is not what the link waits for, and nothing comes of it.
    Discards,
    /// It closes the connection, at any number in range.
    Closes,
    /// It begins the answer to the own retransmission request, at any number in range.
    Resumes,
    /// It is taken at the expected number, and a later number shows that a PDU is missing.
    InTurn,
}

impl Admission {
    ghost use Rattle.rasta_core_link.specs.Receipt.{admission};

    pub(crate) fn of(body: &Body, phase: Phase) -> Admission
        ensures { result ≡ admission body.now phase }
    {
        match (body, phase) {
            (Body::ConnectionRequest(_) | Body::ConnectionResponse(_), _) => Admission::Violates,
            (Body::RetransmissionRequest, Phase::Start) => Admission::Violates,
            (Body::RetransmissionRequest, Phase::RetransmissionRequested) => Admission::Discards,
            (Body::RetransmissionRequest, _) => Admission::InTurn,
            (Body::RetransmissionResponse, Phase::RetransmissionRequested) => Admission::Resumes,
            (Body::RetransmissionResponse, _) => Admission::Violates,
            (Body::DisconnectionRequest { .. }, _) => Admission::Closes,
            (Body::Heartbeat | Body::Data(_), Phase::RetransmissionRequested) =>
                Admission::Discards,
            (Body::Heartbeat | Body::Data(_), _) => Admission::InTurn,
            (Body::RetransmittedData(_), Phase::RetransmissionRequested) => Admission::Discards,
            (Body::RetransmittedData(_), Phase::RetransmissionRunning) => Admission::InTurn,
            (Body::RetransmittedData(_), _) => Admission::Violates,
        }
    }
}
