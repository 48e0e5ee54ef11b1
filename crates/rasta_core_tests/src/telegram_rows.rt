//! The table of telegrams row by row, and bytes that are none.

use arrayvec::ArrayVec;
use rasta_pdu::Item;
use sci_telegram::{
    Agreement, Aspect, DetectionMessage, Initialisation, Message, Name, Occupancy, PointMessage,
    Position, Protocol, SciFault, Side, SignalMessage, Telegram, read, write,
};
use std::process::Abort;

/// Proceed, from IXL1 to S1.
pub(crate) const PROCEED: [u8; 61] = [
    0x30, 0x01, 0x00, 0x49, 0x58, 0x4C, 0x31, 0x5F, 0x5F, 0x5F, 0x5F, 0x5F, 0x5F, 0x5F, 0x5F, 0x5F,
    0x5F, 0x5F, 0x5F, 0x5F, 0x5F, 0x5F, 0x5F, 0x53, 0x31, 0x5F, 0x5F, 0x5F, 0x5F, 0x5F, 0x5F, 0x5F,
    0x5F, 0x5F, 0x5F, 0x5F, 0x5F, 0x5F, 0x5F, 0x5F, 0x5F, 0x5F, 0x5F, 0x04, 0xFF, 0xFF, 0xFF, 0xFF,
    0xFF, 0xFF, 0xFF, 0xFF, 0xFF, 0xFF, 0xFF, 0xFF, 0xFF, 0xFF, 0xFF, 0xFF, 0xFF,
];

/// A sender and a receiver, and how both stand in a telegram.
#[derive(Clone, Copy)]
struct Nodes {
    sender: &'static str,
    receiver: &'static str,
    bytes: &'static [u8; 40],
}

const LONG: Nodes = Nodes {
    sender: "Node-7",
    receiver: "abcdefghij-KLMNOP-19",
    bytes: b"Node-7______________abcdefghij-KLMNOP-19",
};

const TO_SIGNAL: Nodes = Nodes {
    sender: "IXL1",
    receiver: "S1",
    bytes: b"IXL1________________S1__________________",
};

const OF_SIGNAL: Nodes = Nodes {
    sender: "S1",
    receiver: "IXL1",
    bytes: b"S1__________________IXL1________________",
};

/// The payloads of aspects.
const STOP: &[u8; 18] = b"\x01\xFF\xFF\xFF\xFF\xFF\xFF\xFF\xFF\xFF\xFF\xFF\xFF\xFF\xFF\xFF\xFF\xFF";

const GO: &[u8; 18] = b"\x04\xFF\xFF\xFF\xFF\xFF\xFF\xFF\xFF\xFF\xFF\xFF\xFF\xFF\xFF\xFF\xFF\xFF";

const SLOW: &[u8; 18] = b"\x06\xFF\xFF\xFF\xFF\xFF\xFF\xFF\xFF\xFF\xFF\xFF\xFF\xFF\xFF\xFF\xFF\xFF";

const INDICATE_PROCEED: Message = Message::Signal(SignalMessage::IndicateAspect(Aspect::Proceed));

fn name(rt: &impl Abort, text: &str) -> Name {
    Name::of(text.as_bytes()).expect(rt, "a name")
}

fn telegram(rt: &impl Abort, nodes: Nodes, message: Message) -> Telegram {
    Telegram {
        sender: name(rt, nodes.sender),
        receiver: name(rt, nodes.receiver),
        message,
    }
}

fn fault_of(bytes: &[u8]) -> Option<SciFault> {
    read(bytes).err()
}

/// Whether a telegram is written as these bytes, and read from them.
fn is_spelled(telegram: &Telegram, bytes: &[u8]) -> bool {
    write(telegram).bytes() == bytes && read(bytes) == Ok(*telegram)
}

/// One row of the table of telegrams: how it begins, and its payload.
fn check_row(rt: &impl Abort, nodes: Nodes, message: Message, front: [u8; 3], payload: &[u8]) {
    let names = nodes.bytes;
    let mut bytes: ArrayVec<u8, 61> = ArrayVec::new();
    let _ = bytes.try_extend_from_slice(&front);
    let _ = bytes.try_extend_from_slice(names);
    let _ = bytes.try_extend_from_slice(payload);
    assert!(rt;
        is_spelled(&telegram(rt, nodes, message), &bytes),
        "{front:?} {payload:?}"
    );
}

/// What is said in an initialisation, in each protocol.
const INITIALISATIONS: &[(Initialisation, u8, &[u8])] = &[
    (Initialisation::InitialisationRequest, 0x21, &[]),
    (Initialisation::StartInitialisation, 0x22, &[]),
    (Initialisation::InitialisationCompleted, 0x23, &[]),
    (Initialisation::VersionCheck { version: 255 }, 0x24, &[255]),
    (
        Initialisation::VersionAnswer {
            agreement: Agreement::Match,
            version: 1,
        },
        0x25,
        &[2, 1],
    ),
];

/// What stands in one protocol alone.
const MESSAGES: &[(Nodes, Message, [u8; 3], &[u8])] = &[
    (
        LONG,
        Message::Point(PointMessage::MovePoint(Side::Right)),
        [0x40, 0x01, 0],
        &[1],
    ),
    (
        LONG,
        Message::Point(PointMessage::MovePoint(Side::Left)),
        [0x40, 0x01, 0],
        &[2],
    ),
    (
        LONG,
        Message::Point(PointMessage::PointPosition(Position::Right)),
        [0x40, 0x0B, 0],
        &[1],
    ),
    (
        LONG,
        Message::Point(PointMessage::PointPosition(Position::Left)),
        [0x40, 0x0B, 0],
        &[2],
    ),
    (
        LONG,
        Message::Point(PointMessage::PointPosition(Position::NoEndPosition)),
        [0x40, 0x0B, 0],
        &[3],
    ),
    (
        LONG,
        Message::Point(PointMessage::Timeout),
        [0x40, 0x0C, 0],
        &[],
    ),
    (
        LONG,
        Message::Signal(SignalMessage::IndicateAspect(Aspect::Stop)),
        [0x30, 0x01, 0],
        STOP,
    ),
    (LONG, INDICATE_PROCEED, [0x30, 0x01, 0], GO),
    (
        LONG,
        Message::Signal(SignalMessage::IndicatedAspect(Aspect::Stop)),
        [0x30, 0x03, 0],
        STOP,
    ),
    (
        LONG,
        Message::Signal(SignalMessage::IndicatedAspect(Aspect::Proceed)),
        [0x30, 0x03, 0],
        GO,
    ),
    (
        LONG,
        Message::Detection(DetectionMessage::OccupancyStatus(Occupancy::Clear)),
        [0x20, 0x07, 0],
        &[1],
    ),
    (
        LONG,
        Message::Detection(DetectionMessage::OccupancyStatus(Occupancy::Occupied)),
        [0x20, 0x07, 0],
        &[2],
    ),
    // Slow differs from proceed by its first byte alone, and in both directions.
    (
        TO_SIGNAL,
        Message::Signal(SignalMessage::IndicateAspect(Aspect::Slow)),
        [0x30, 0x01, 0],
        SLOW,
    ),
    (
        TO_SIGNAL,
        Message::Signal(SignalMessage::IndicatedAspect(Aspect::Slow)),
        [0x30, 0x03, 0],
        SLOW,
    ),
    (
        OF_SIGNAL,
        Message::Initialisation(
            Protocol::LightSignal,
            Initialisation::VersionAnswer {
                agreement: Agreement::NoMatch,
                version: 1,
            },
        ),
        [0x30, 0x25, 0],
        &[1, 1],
    ),
];

#[test]
fn the_example_is_read_and_written(rt: HostRuntime) {
    assert!(rt; is_spelled(&telegram(&rt, TO_SIGNAL, INDICATE_PROCEED), &PROCEED));
}

#[test]
fn rows_of_every_protocol(rt: HostRuntime) {
    for (protocol, first) in [
        (Protocol::TrainDetection, 0x20),
        (Protocol::LightSignal, 0x30),
        (Protocol::Point, 0x40),
    ] {
        for row in INITIALISATIONS {
            let (message, number, payload) = *row;
            let message = Message::Initialisation(protocol, message);
            check_row(&rt, LONG, message, [first, number, 0], payload);
        }
    }
}

#[test]
fn rows_of_one_protocol(rt: HostRuntime) {
    for row in MESSAGES {
        let (nodes, message, front, payload) = *row;
        check_row(&rt, nodes, message, front, payload);
    }
}

/// The example with these bytes in place of its own from a place on.
fn changed(place: usize, bytes: &[u8]) -> Option<SciFault> {
    let mut whole = PROCEED;
    for (byte, other) in whole.iter_mut().skip(place).zip(bytes) {
        *byte = *other;
    }
    fault_of(&whole)
}

/// Bytes in place of those from a place on. A name comes before a value.
const CHANGES: &[(usize, &[u8], SciFault)] = &[
    (0, &[0x31], SciFault::Protocol),
    (0, &[0x40], SciFault::Length),
    (0, &[0x20], SciFault::BadType),
    (2, &[0x01], SciFault::BadType),
    (3, &[0x5F], SciFault::Name),
    (9, &[0x41], SciFault::Name),
    (22, &[0x20], SciFault::Name),
    (42, &[0x00], SciFault::Name),
    (42, b"x\x05", SciFault::Name),
    (43, &[0x05], SciFault::Value),
    (43, &[0x07], SciFault::Value),
    (60, &[0xFE], SciFault::Value),
];

#[test]
fn faults_of_changed_bytes(rt: HostRuntime) {
    for row in CHANGES {
        let (place, bytes, fault) = *row;
        assert!(rt;
            changed(place, bytes) == Some(fault),
            "{bytes:?} at {place}"
        );
    }
}

#[test]
fn beginnings_are_refused(rt: HostRuntime) {
    for length in 0..61 {
        let (beginning, _) = PROCEED.split_at(length);
        let fault = if length < 43 {
            SciFault::Short
        } else {
            SciFault::Length
        };
        assert!(rt; fault_of(beginning) == Some(fault), "{length} bytes");
    }
}

/// Texts, and whether each is a name.
const NAMES: &[(&str, bool)] = &[
    ("", false),
    ("a_b", false),
    ("S 1", false),
    ("\u{e4}", false),
    ("abcdefghijklmnopqrstu", false),
    ("S", true),
    ("IXL1", true),
    ("-", true),
    ("abcdefghijklmnopqrst", true),
    ("ABCXYZabcxyz0189-", true),
];

#[test]
fn which_bytes_are_names(rt: HostRuntime) {
    for row in NAMES {
        let (text, is_name) = *row;
        let name = Name::of(text.as_bytes());
        assert!(rt; name.is_some() == is_name, "{text}");
    }
}
