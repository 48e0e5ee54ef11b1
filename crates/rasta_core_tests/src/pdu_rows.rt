//! Bytes from outside: the codes are those of another program's MD4.

use crate::telegram_rows::PROCEED as ASPECT;
use crate::wire::{item, read_pdu, written};
use arrayvec::ArrayVec;
use rasta_pdu::{Body, Item, Items, Key, Opening, Pdu, PduFault};
use std::process::Abort;

/// The key of the network.
const KEY: Key = Key(md4::STANDARD);

/// The fields of the PDUs below that all have: to 2 from 1, with the numbers 7 and 5 and the stamps 10000 and 9900.
const FIELDS: [u8; 24] = [
    0x02, 0x00, 0x00, 0x00, 0x01, 0x00, 0x00, 0x00, 0x07, 0x00, 0x00, 0x00, 0x05, 0x00, 0x00, 0x00,
    0x10, 0x27, 0x00, 0x00, 0xAC, 0x26, 0x00, 0x00,
];

/// The length of one item of 61 bytes.
const ASPECT_LENGTH: &[u8] = &[61, 0];

/// A PDU as it is spelled: its length and its type, its payload in parts, and its code.
#[derive(Clone, Copy)]
struct Spelling {
    first: [u8; 4],
    payload: &'static [&'static [u8]],
    code: [u8; 8],
}

type Bytes = ArrayVec<u8, 512>;

fn bytes_of(spelling: Spelling) -> Bytes {
    let mut bytes = Bytes::new();
    let _ = bytes.try_extend_from_slice(&spelling.first);
    let _ = bytes.try_extend_from_slice(&FIELDS);
    for part in spelling.payload {
        let _ = bytes.try_extend_from_slice(part);
    }
    let _ = bytes.try_extend_from_slice(&spelling.code);
    bytes
}

const HEARTBEAT: Spelling = Spelling {
    first: [0x24, 0x00, 0x4C, 0x18],
    payload: &[],
    code: [0x55, 0x9D, 0xC0, 0x85, 0x3F, 0x7B, 0x6D, 0x0D],
};

const REQUEST: Spelling = Spelling {
    first: [0x32, 0x00, 0x38, 0x18],
    payload: &[b"0303", &[20, 0], &[1, 2, 3, 4, 5, 6, 7, 8]],
    code: [0xBF, 0x98, 0x3F, 0xFD, 0x1F, 0x9A, 0x2D, 0x22],
};

const RESPONSE: Spelling = Spelling {
    first: [0x32, 0x00, 0x39, 0x18],
    payload: &[b"0303", &[20, 0], &[0; 8]],
    code: [0xCC, 0xCF, 0x6D, 0x2F, 0x9F, 0x6B, 0x0A, 0x2E],
};

const RETRANSMISSION_REQUEST: Spelling = Spelling {
    first: [0x24, 0x00, 0x44, 0x18],
    payload: &[],
    code: [0x85, 0x7C, 0xAE, 0x0F, 0x68, 0xBD, 0x26, 0x76],
};

const RETRANSMISSION_RESPONSE: Spelling = Spelling {
    first: [0x24, 0x00, 0x45, 0x18],
    payload: &[],
    code: [0xC1, 0xAA, 0x84, 0x1F, 0x8A, 0x72, 0x3C, 0xBC],
};

const DISCONNECTION: Spelling = Spelling {
    first: [0x28, 0x00, 0x48, 0x18],
    payload: &[&[0, 0], &[4, 0]],
    code: [0xA6, 0x3C, 0x8D, 0x03, 0x96, 0xDD, 0x56, 0x63],
};

/// 99 bytes.
const ONE_ASPECT: Spelling = Spelling {
    first: [0x63, 0x00, 0x60, 0x18],
    payload: &[ASPECT_LENGTH, &ASPECT],
    code: [0x24, 0xE1, 0xDA, 0x1F, 0xB4, 0xE4, 0xB9, 0x55],
};

/// 225 bytes.
const THREE_ASPECTS: Spelling = Spelling {
    first: [0xE1, 0x00, 0x60, 0x18],
    payload: &[
        ASPECT_LENGTH,
        &ASPECT,
        ASPECT_LENGTH,
        &ASPECT,
        ASPECT_LENGTH,
        &ASPECT,
    ],
    code: [0x8F, 0x98, 0x50, 0x2C, 0x31, 0x89, 0x28, 0x8E],
};

const TWO_AGAIN: Spelling = Spelling {
    first: [0x2B, 0x00, 0x61, 0x18],
    payload: &[&[1, 0, 4], &[2, 0, 1, 2]],
    code: [0xFB, 0xE2, 0x26, 0xA8, 0x73, 0x26, 0x62, 0xB5],
};

/// Items of these bytes.
fn items(rt: &impl Abort, parts: &[&[u8]]) -> Items {
    let mut items: ArrayVec<Item, 3> = ArrayVec::new();
    for part in parts {
        assert!(rt; items.try_push(item(rt, part)).is_ok());
    }
    Items::of(&items).expect(rt, "1 to 3 items")
}

/// A PDU from the interlocking to the signal.
fn pdu(body: Body) -> Pdu {
    Pdu {
        receiver: 2,
        sender: 1,
        sequence_number: 7,
        confirmed_sequence_number: 5,
        time_stamp: 10000,
        confirmed_time_stamp: 9900,
        body,
    }
}

fn fault_of(bytes: &[u8]) -> Option<PduFault> {
    read_pdu(&KEY, bytes).err()
}

/// A PDU with this body is written so, and is read again.
fn check(rt: &impl Abort, body: Body, spelling: Spelling) {
    let bytes = bytes_of(spelling);
    let sent = pdu(body);
    assert!(rt; written(&KEY, &sent).as_slice() == bytes.as_slice());
    assert!(rt; read_pdu(&KEY, &bytes) == Ok(sent));
}

#[test]
fn pdus_are_spelled_as_elsewhere(rt: HostRuntime) {
    let (rt, version) = (&rt, *b"0303");
    let request = Opening {
        version,
        window: 20,
        reserved: [1, 2, 3, 4, 5, 6, 7, 8],
    };
    let response = Opening {
        reserved: [0; 8],
        ..request
    };
    let disconnection = Body::DisconnectionRequest {
        detail: 0,
        reason: 4,
    };
    check(rt, Body::ConnectionRequest(request), REQUEST);
    check(rt, Body::ConnectionResponse(response), RESPONSE);
    check(rt, Body::RetransmissionRequest, RETRANSMISSION_REQUEST);
    check(rt, Body::RetransmissionResponse, RETRANSMISSION_RESPONSE);
    check(rt, disconnection, DISCONNECTION);
    check(rt, Body::Heartbeat, HEARTBEAT);
    check(rt, Body::Data(items(rt, &[&ASPECT])), ONE_ASPECT);
    let three = items(rt, &[&ASPECT, &ASPECT, &ASPECT]);
    check(rt, Body::Data(three), THREE_ASPECTS);
    let two = items(rt, &[&[4], &[1, 2]]);
    check(rt, Body::RetransmittedData(two), TWO_AGAIN);
}

#[test]
fn under_another_key_the_code_is_another(rt: HostRuntime) {
    let bytes = written(&Key([1, 2, 3, 4]), &pdu(Body::Heartbeat));
    let wanted = bytes_of(Spelling {
        code: [0x6A, 0xED, 0x72, 0x4B, 0xA9, 0x1E, 0x86, 0x86],
        ..HEARTBEAT
    });
    assert!(rt; bytes.as_slice() == wanted.as_slice());
    assert!(rt; fault_of(&bytes) == Some(PduFault::Code));
}

/// Bytes that are refused: all but the first have a right length and a right code.
const REFUSED: &[(Spelling, PduFault)] = &[
    // A heartbeat of another code, one of an unknown type, and one with a payload.
    (
        Spelling {
            code: [0x55, 0x9D, 0xC0, 0x85, 0x3F, 0x7B, 0x6D, 0x0C],
            ..HEARTBEAT
        },
        PduFault::Code,
    ),
    (
        Spelling {
            first: [0x24, 0x00, 0x46, 0x18],
            payload: &[],
            code: [0xAE, 0xC5, 0x40, 0x1B, 0xB8, 0xA8, 0x10, 0xCC],
        },
        PduFault::BadType,
    ),
    (
        Spelling {
            first: [0x25, 0x00, 0x4C, 0x18],
            payload: &[&[0]],
            code: [0xEA, 0x00, 0x27, 0x4B, 0x0B, 0x09, 0x76, 0x0B],
        },
        PduFault::Body,
    ),
    // An item without bytes, and four items.
    (
        Spelling {
            first: [0x26, 0x00, 0x60, 0x18],
            payload: &[&[0, 0]],
            code: [0xFA, 0xBB, 0x88, 0xCC, 0xCF, 0x03, 0x8B, 0x7D],
        },
        PduFault::Items,
    ),
    (
        Spelling {
            first: [0x20, 0x01, 0x60, 0x18],
            payload: &[
                ASPECT_LENGTH,
                &ASPECT,
                ASPECT_LENGTH,
                &ASPECT,
                ASPECT_LENGTH,
                &ASPECT,
                ASPECT_LENGTH,
                &ASPECT,
            ],
            code: [0x36, 0x62, 0x01, 0x58, 0x17, 0x5C, 0x5D, 0x2F],
        },
        PduFault::Items,
    ),
];

#[test]
fn bytes_that_are_no_pdu_are_refused(rt: HostRuntime) {
    for (spelling, fault) in REFUSED {
        assert!(rt; fault_of(&bytes_of(*spelling)) == Some(*fault), "{fault:?}");
    }
}

/// The PDU with one aspect, cut after so many bytes.
fn cut_behind(length: usize) -> Bytes {
    let mut bytes = bytes_of(ONE_ASPECT);
    bytes.truncate(length);
    bytes
}

#[test]
fn beginnings_are_refused(rt: HostRuntime) {
    for length in 0..99 {
        let fault = if length < 36 {
            PduFault::TooShort
        } else {
            PduFault::Length
        };
        assert!(rt;
            fault_of(&cut_behind(length)) == Some(fault),
            "{length} bytes"
        );
    }
}

/// How many bytes are given for an item, and whether they make one.
const ITEM_LENGTHS: &[(usize, bool)] = &[(0, false), (1, true), (61, true), (62, false)];

#[test]
fn an_item_has_1_to_61_bytes(rt: HostRuntime) {
    for row in ITEM_LENGTHS {
        let (length, fits) = *row;
        let item = Item::of(&cut_behind(length));
        assert!(rt; item.is_some() == fits, "{length} bytes");
    }
}

/// How many items are given for a PDU, and whether it can hold them.
const ITEM_COUNTS: &[(usize, bool)] = &[(0, false), (1, true), (3, true), (4, false)];

#[test]
fn a_pdu_has_1_to_3_items(rt: HostRuntime) {
    for row in ITEM_COUNTS {
        let (count, fits) = *row;
        let mut given: ArrayVec<Item, 4> = ArrayVec::new();
        for _ in 0..count {
            let _ = given.try_push(Item::default());
        }
        assert!(rt; Items::of(&given).is_some() == fits, "{count} items");
    }
}

#[test]
fn a_heartbeat_with_a_byte_more_or_less_is_refused(rt: HostRuntime) {
    let mut longer = bytes_of(HEARTBEAT);
    let _ = longer.try_push(0);
    assert!(rt; fault_of(&longer) == Some(PduFault::Length));
    longer.truncate(35);
    assert!(rt; fault_of(&longer) == Some(PduFault::TooShort));
}

/// Whether each of the 255 changes of the byte at a place has this fault.
fn are_refused(place: usize, fault: PduFault) -> bool {
    let mut are_refused = true;
    for change in 1..=255u8 {
        let mut bytes = bytes_of(ONE_ASPECT);
        if let Some(byte) = bytes.get_mut(place) {
            *byte ^= change;
        }
        are_refused &= fault_of(&bytes) == Some(fault);
    }
    are_refused
}

#[test]
fn changes_of_one_byte_are_refused(rt: HostRuntime) {
    for place in 0..99 {
        let fault = if place < 2 {
            PduFault::Length
        } else {
            PduFault::Code
        };
        assert!(rt; are_refused(place, fault), "at {place}");
    }
}
