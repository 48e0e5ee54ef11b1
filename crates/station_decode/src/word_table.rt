//! The words for what stands in PDUs and telegrams as a number.

ghost use Rattle.std.specs.Prelude.{◌≡◌};
ghost use Rattle.station_decode.specs.Words.{
  agreement_word,
  pdu_fault_words,
  protocol_word,
  reason_words,
  telegram_fault_words,
  type_words,
};

use ixl_spec::Protocol;
use ixl_spec::rasta_pdu::{Body, PduFault};
use sci_telegram::{Agreement, SciFault};

/// The type of a PDU.
pub(crate) fn type_words(body: &Body) -> &'static str
    ensures { result.now ≡ type_words body.now }
{
    match body {
        Body::ConnectionRequest(_) => "connection request",
        Body::ConnectionResponse(_) => "connection response",
        Body::RetransmissionRequest => "retransmission request",
        Body::RetransmissionResponse => "retransmission response",
        Body::DisconnectionRequest { .. } => "disconnection request",
        Body::Heartbeat => "heartbeat",
        Body::Data(_) => "data",
        Body::RetransmittedData(_) => "retransmitted data",
    }
}

/// Why an end closed, by the number that it tells.
pub(crate) fn reason_words(reason: u16) -> &'static str
    ensures { result.now ≡ reason_words reason }
{
    match reason {
        0 => "wish of the user",
        1 => "a PDU that the state does not allow",
        2 => "sequence numbers used up",
        3 => "time",
        4 => "another version",
        5 => "another window or the own one full",
        _ => "unknown",
    }
}

/// Why bytes are no PDU.
pub(crate) fn pdu_fault_words(fault: PduFault) -> &'static str
    ensures { result.now ≡ pdu_fault_words fault }
{
    match fault {
        PduFault::TooShort => "1 TooShort",
        PduFault::Length => "2 Length",
        PduFault::Code => "3 Code",
        PduFault::BadType => "4 BadType",
        PduFault::Body => "5 Body",
        PduFault::Items => "6 Items",
    }
}

/// Why an item is no telegram.
pub(crate) fn telegram_fault_words(fault: SciFault) -> &'static str
    ensures { result.now ≡ telegram_fault_words fault }
{
    match fault {
        SciFault::Short => "1 Short",
        SciFault::Protocol => "2 Protocol",
        SciFault::BadType => "3 BadType",
        SciFault::Length => "4 Length",
        SciFault::Name => "5 Name",
        SciFault::Value => "6 Value",
    }
}

/// A protocol.
pub(crate) fn protocol_word(protocol: Protocol) -> &'static str
    ensures { result.now ≡ protocol_word protocol }
{
    match protocol {
        Protocol::TrainDetection => "SCI-TDS",
        Protocol::LightSignal => "SCI-LS",
        Protocol::Point => "SCI-P",
    }
}

/// Whether both ends speak one version.
pub(crate) fn agreement_word(agreement: Agreement) -> &'static str
    ensures { result.now ≡ agreement_word agreement }
{
    match agreement {
        Agreement::NoMatch => "mismatch",
        Agreement::Match => "match",
    }
}
