//! The numbers and texts of what can be wrong.

use arrayvec::ArrayString;
use rasta_core_link::SendFault;
use rasta_pdu::PduFault;
use sci_telegram::SciFault;
use std::fmt;

/// What is printed of a fault, in a place of its own.
fn text_of<F: fmt::Display>(fault: &F) -> ArrayString<64> {
    use std::fmt::Write;
    let mut text = ArrayString::new();
    let _ = write!(text, "{fault}");
    text
}

const OF_BYTES: &[(PduFault, u8, &str)] = &[
    (PduFault::TooShort, 1, "fewer than 36 bytes"),
    (
        PduFault::Length,
        2,
        "the length field is not the number of bytes",
    ),
    (PduFault::Code, 3, "the safety code is wrong"),
    (PduFault::BadType, 4, "no such type"),
    (
        PduFault::Body,
        5,
        "the payload has not the length of its type",
    ),
    (PduFault::Items, 6, "the payload is not 1 to 3 items"),
];

#[test]
fn faults_of_bytes_have_their_numbers_and_texts(rt: HostRuntime) {
    for row in OF_BYTES {
        let (fault, number, text) = *row;
        assert!(rt; fault as u8 == number);
        assert!(rt; text_of(&fault).as_str() == text);
    }
}

const OF_TELEGRAMS: &[(SciFault, u8, &str)] = &[
    (SciFault::Short, 1, "fewer than 43 bytes"),
    (SciFault::Protocol, 2, "no such protocol"),
    (SciFault::BadType, 3, "the protocol has no such type"),
    (
        SciFault::Length,
        4,
        "the payload has not the length of its type",
    ),
    (SciFault::Name, 5, "a name field holds no name"),
    (SciFault::Value, 6, "the payload has no value of its type"),
];

#[test]
fn faults_of_telegrams_have_their_numbers_and_texts(rt: HostRuntime) {
    for row in OF_TELEGRAMS {
        let (fault, number, text) = *row;
        assert!(rt; fault as u8 == number);
        assert!(rt; text_of(&fault).as_str() == text);
    }
}

const OF_SENDING: &[(SendFault, u8, &str)] = &[
    (SendFault::NotUp, 1, "the link is not up"),
    (SendFault::WindowFull, 2, "the window is full"),
];

#[test]
fn faults_of_sending_have_their_numbers_and_texts(rt: HostRuntime) {
    for row in OF_SENDING {
        let (fault, number, text) = *row;
        assert!(rt; fault as u8 == number);
        assert!(rt; text_of(&fault).as_str() == text);
    }
}
