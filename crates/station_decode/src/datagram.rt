//! The line for a datagram.

ghost use Rattle.std.specs.Prelude.{◌≡◌, ◌++◌, IfOk, OnOk, option_copied, string_bytes};
ghost use Rattle.station_decode.specs.Datagrams.{body_text, closing_text, datagram_text, ends_text, fault_text, numbers_text, opening_text, pdu_text, stamps_text, text_between, version_word};

use crate::item::{Ends, push_items};
use crate::node::{key_in, node_word};
use crate::word_table::{pdu_fault_words, reason_words, type_words};
use ixl_spec::rasta_pdu::{Body, Opening, Pdu, PduFault, read};
use ixl_spec::{Layout, Name};
use std::alloc::{AllocError, Global};

/// The words for the bytes of a datagram, read under the key of the layout: who sends to whom, the type, the sequence number
/// and the confirmed one, the time stamp and the confirmed one in milliseconds, and what it carries. Where the bytes are no
/// PDU, the words tell the fault. Without a layout the key is the standard start of MD4, and nodes are called by identities.
pub fn datagram_words(
    alloc: Global,
    layout: Option<&Layout>,
    bytes: &[u8],
) -> Result<String, AllocError>
    ensures { IfOk result (λ text. string_bytes text ≡ datagram_text (option_copied layout.entry) bytes.now) }
{
    match read(&key_in(layout), bytes) {
        Ok(pdu) => pdu_words(alloc, layout, &pdu),
        Err(fault) => fault_words(alloc, fault),
    }
}

/// The words for bytes that are no PDU.
fn fault_words(alloc: Global, fault: PduFault) -> Result<String, AllocError>
    ensures { IfOk result (λ text. string_bytes text ≡ fault_text fault) }
{
    let fault = pdu_fault_words(fault);
    format!(in alloc; "no PDU: fault {fault}")
}

/// The words for a PDU.
fn pdu_words(alloc: Global, layout: Option<&Layout>, pdu: &Pdu) -> Result<String, AllocError>
    ensures { IfOk result (λ text. string_bytes text ≡ pdu_text (option_copied layout.entry) pdu.now) }
{
    let sender = node_word(alloc, layout, pdu.sender)?;
    let receiver = node_word(alloc, layout, pdu.receiver)?;
    let ends = Ends {
        sender: sender.as_str(),
        receiver: receiver.as_str(),
    };
    words_between(alloc, ends, pdu)
}

/// The words for a PDU between these ends.
fn words_between(alloc: Global, ends: Ends<'_>, pdu: &Pdu) -> Result<String, AllocError>
    ensures { IfOk result (λ text. string_bytes text ≡ text_between ends.entry.sender.now ends.entry.receiver.now pdu.now) }
{
    let mut text = ends_words(alloc, ends, &pdu.body)?;
    push_numbers(&mut text, pdu)?;
    push_body(alloc, &mut text, ends, &pdu.body)?;
    Ok(text)
}

/// The words for the ends and the type of a PDU.
fn ends_words(alloc: Global, ends: Ends<'_>, body: &Body) -> Result<String, AllocError>
    ensures { IfOk result (λ text. string_bytes text ≡ ends_text ends.entry.sender.now ends.entry.receiver.now body.now) }
{
    let Ends { sender, receiver } = ends;
    let kind = type_words(body);
    format!(in alloc; "{sender} > {receiver} {kind}")
}

/// Adds the sequence number and the time stamp of a PDU, each with the confirmed one.
fn push_numbers(text: &mut String, pdu: &Pdu) -> Result<(), AllocError>
    ensures { OnOk result (string_bytes text.new ≡ string_bytes text.old ++ (numbers_text pdu.now ++ stamps_text pdu.now)) }
{
    let number = pdu.sequence_number;
    let taken = pdu.confirmed_sequence_number;
    let stamp = pdu.time_stamp;
    let returned = pdu.confirmed_time_stamp;
    write!(text, " SN {number} CS {taken} TS {stamp} CTS {returned}")
}

/// Adds what a PDU carries.
fn push_body(
    alloc: Global,
    text: &mut String,
    ends: Ends<'_>,
    body: &Body,
) -> Result<(), AllocError>
    ensures { OnOk result (string_bytes text.new ≡ string_bytes text.old ++ body_text ends.entry.sender.now ends.entry.receiver.now body.now) }
{
    match body {
        Body::ConnectionRequest(opening) | Body::ConnectionResponse(opening) => {
            push_opening(alloc, text, opening)
        }
        Body::DisconnectionRequest { detail, reason } => push_closing(text, *detail, *reason),
        Body::Data(items) | Body::RetransmittedData(items) => {
            push_items(alloc, text, ends, items)
        }
        Body::RetransmissionRequest | Body::RetransmissionResponse | Body::Heartbeat => Ok(()),
    }
}

/// Adds what ends tell each other as a connection opens.
fn push_opening(alloc: Global, text: &mut String, opening: &Opening) -> Result<(), AllocError>
    ensures { OnOk result (string_bytes text.new ≡ string_bytes text.old ++ opening_text opening.now) }
{
    let version = version_word(alloc, &opening.version)?;
    let version = version.as_str();
    let window = opening.window;
    let reserved = hex::encode(alloc, opening.reserved)?;
    let reserved = reserved.as_str();
    write!(
        text,
        ": version {version} window {window} reserved {reserved}"
    )
}

/// A version of the protocol: its characters where they may be a name, and otherwise their digits.
#[tactic(auto, using(crate::proofs::Versions::word_of_name, crate::proofs::Versions::word_of_other))]
fn version_word(alloc: Global, version: &[u8; 4]) -> Result<String, AllocError>
    ensures { IfOk result (λ word. string_bytes word ≡ version_word version.now) }
{
    match Name::of(version) {
        Some(name) => String::from_str(alloc, name.as_str()),
        None => hex::encode(alloc, *version),
    }
}

/// Adds why an end closed.
fn push_closing(text: &mut String, detail: u16, reason: u16) -> Result<(), AllocError>
    ensures { OnOk result (string_bytes text.new ≡ string_bytes text.old ++ closing_text detail reason) }
{
    let why = reason_words(reason);
    write!(text, ": reason {reason} {why}, detail {detail}")
}
