//! A signal through the link that commands it.

use crate::bench::Outset::{Connected, Ready};
use crate::bench::Step::{
    Answers, Confirms, Exchanges, Forgets, HandsOut, Has, Hears, HearsNoMore, Refuses, Says,
    SaysAs, SaysBytes, Senses, ToController, ToStation,
};
use crate::bench::{OPENED_AT, Script, play};
use crate::output::Output::Shown;
use object_host::Sense;
use sci_telegram::{
    Agreement, Aspect, Initialisation, Message, Occupancy, PointMessage, Protocol, Side,
    SignalMessage,
};
use signal_ctl::Signal;

/// Proceed, from IXL1 to OC1, as it stands in an item.
const EXAMPLE: [u8; 61] = [
    0x30, 0x01, 0x00, 0x49, 0x58, 0x4C, 0x31, 0x5F, 0x5F, 0x5F, 0x5F, 0x5F, 0x5F, 0x5F, 0x5F, 0x5F,
    0x5F, 0x5F, 0x5F, 0x5F, 0x5F, 0x5F, 0x5F, 0x4F, 0x43, 0x31, 0x5F, 0x5F, 0x5F, 0x5F, 0x5F, 0x5F,
    0x5F, 0x5F, 0x5F, 0x5F, 0x5F, 0x5F, 0x5F, 0x5F, 0x5F, 0x5F, 0x5F, 0x04, 0xFF, 0xFF, 0xFF, 0xFF,
    0xFF, 0xFF, 0xFF, 0xFF, 0xFF, 0xFF, 0xFF, 0xFF, 0xFF, 0xFF, 0xFF, 0xFF, 0xFF,
];

/// The same with another last byte, with another first one, and without the last.
const OTHER_LAST: &[u8] =
    b"\x30\x01\x00IXL1________________OC1_________________\x04\xFF\xFF\xFF\xFF\xFF\xFF\xFF\xFF\xFF\xFF\xFF\xFF\xFF\xFF\xFF\xFF\xFE";

const OTHER_FIRST: &[u8] =
    b"\x31\x01\x00IXL1________________OC1_________________\x04\xFF\xFF\xFF\xFF\xFF\xFF\xFF\xFF\xFF\xFF\xFF\xFF\xFF\xFF\xFF\xFF\xFF";

const SHORTER: &[u8] =
    b"\x30\x01\x00IXL1________________OC1_________________\x04\xFF\xFF\xFF\xFF\xFF\xFF\xFF\xFF\xFF\xFF\xFF\xFF\xFF\xFF\xFF\xFF";

/// No match, and version 1, from OC1 to IXL1.
const NO_MATCH: &[u8] = b"\x30\x25\x00OC1_________________IXL1________________\x01\x01";

const INDICATE_STOP: Message = Message::Signal(SignalMessage::IndicateAspect(Aspect::Stop));

const INDICATE_SLOW: Message = Message::Signal(SignalMessage::IndicateAspect(Aspect::Slow));

const INDICATE_PROCEED: Message = Message::Signal(SignalMessage::IndicateAspect(Aspect::Proceed));

const STOP: Message = Message::Signal(SignalMessage::IndicatedAspect(Aspect::Stop));

const SLOW: Message = Message::Signal(SignalMessage::IndicatedAspect(Aspect::Slow));

const PROCEED: Message = Message::Signal(SignalMessage::IndicatedAspect(Aspect::Proceed));

const FIRST_VERSION: Initialisation = Initialisation::VersionCheck { version: 1 };

const CHECK: Message = Message::Initialisation(Protocol::LightSignal, FIRST_VERSION);

const CHECK_OF_TWO: Message = Message::Initialisation(
    Protocol::LightSignal,
    Initialisation::VersionCheck { version: 2 },
);

const HAS_ONE: Message = Message::Initialisation(
    Protocol::LightSignal,
    Initialisation::VersionAnswer {
        agreement: Agreement::Match,
        version: 1,
    },
);

const REQUEST: Message = Message::Initialisation(
    Protocol::LightSignal,
    Initialisation::InitialisationRequest,
);

const HAS_TWO: Message = Message::Initialisation(
    Protocol::LightSignal,
    Initialisation::VersionAnswer {
        agreement: Agreement::NoMatch,
        version: 2,
    },
);

const SCRIPTS: &[Script] = &[
    // The station checks version 1. Then nothing more is taken: the right check comes out of the order.
    (
        "version two answers a check for version one with its own",
        Connected(2),
        &[
            (OPENED_AT, Says(CHECK)),
            (OPENED_AT, Exchanges),
            (OPENED_AT, Hears("OC1", HAS_TWO)),
            (OPENED_AT, HearsNoMore),
            (OPENED_AT, Says(CHECK_OF_TWO)),
            (OPENED_AT, Refuses(1)),
        ],
    ),
    (
        "version one takes no slow",
        Ready(1),
        &[
            (OPENED_AT, Says(INDICATE_PROCEED)),
            (OPENED_AT, Exchanges),
            (OPENED_AT, Has(Shown(Aspect::Proceed))),
            (OPENED_AT, Says(INDICATE_SLOW)),
            (OPENED_AT, Refuses(1)),
            (OPENED_AT, Has(Shown(Aspect::Stop))),
        ],
    ),
    (
        "version two shows the aspect taken last",
        Ready(2),
        &[
            (OPENED_AT, Says(INDICATE_SLOW)),
            (OPENED_AT, Exchanges),
            (OPENED_AT, Has(Shown(Aspect::Slow))),
            (OPENED_AT, Hears("OC1", SLOW)),
            (OPENED_AT, Says(INDICATE_PROCEED)),
            (OPENED_AT, Exchanges),
            (OPENED_AT, Has(Shown(Aspect::Proceed))),
            (OPENED_AT, Hears("OC1", PROCEED)),
            (OPENED_AT, Says(INDICATE_SLOW)),
            (OPENED_AT, Exchanges),
            (OPENED_AT, Has(Shown(Aspect::Slow))),
            (OPENED_AT, Hears("OC1", SLOW)),
            (OPENED_AT, Says(INDICATE_STOP)),
            (OPENED_AT, Exchanges),
            (OPENED_AT, Has(Shown(Aspect::Stop))),
            (OPENED_AT, Hears("OC1", STOP)),
            (OPENED_AT, HearsNoMore),
        ],
    ),
    // 45 bytes in a PDU of 83.
    (
        "another version is answered byte for byte",
        Connected(1),
        &[
            (OPENED_AT, Says(CHECK_OF_TWO)),
            (OPENED_AT, ToController),
            (OPENED_AT, Answers(NO_MATCH)),
        ],
    ),
    // What the controller isn't to act on closes the link, and the lamp is at stop.
    (
        "an aspect in the name IXL2 closes",
        Ready(1),
        &[
            (OPENED_AT, SaysAs("IXL2", "OC1", INDICATE_PROCEED)),
            (OPENED_AT, Refuses(1)),
            (OPENED_AT, Has(Shown(Aspect::Stop))),
        ],
    ),
    (
        "an aspect in the name IXL closes",
        Ready(1),
        &[
            (OPENED_AT, SaysAs("IXL", "OC1", INDICATE_PROCEED)),
            (OPENED_AT, Refuses(1)),
            (OPENED_AT, Has(Shown(Aspect::Stop))),
        ],
    ),
    (
        "an aspect in the name IXL10 closes",
        Ready(1),
        &[
            (OPENED_AT, SaysAs("IXL10", "OC1", INDICATE_PROCEED)),
            (OPENED_AT, Refuses(1)),
            (OPENED_AT, Has(Shown(Aspect::Stop))),
        ],
    ),
    (
        "an aspect in the name OC1 closes",
        Ready(1),
        &[
            (OPENED_AT, SaysAs("OC1", "OC1", INDICATE_PROCEED)),
            (OPENED_AT, Refuses(1)),
            (OPENED_AT, Has(Shown(Aspect::Stop))),
        ],
    ),
    (
        "an aspect for another receiver closes",
        Ready(1),
        &[
            (OPENED_AT, SaysAs("IXL1", "OC2", INDICATE_PROCEED)),
            (OPENED_AT, Refuses(1)),
            (OPENED_AT, Has(Shown(Aspect::Stop))),
        ],
    ),
    (
        "a version check in another name closes",
        Connected(1),
        &[
            (OPENED_AT, SaysAs("IXL2", "OC1", CHECK)),
            (OPENED_AT, Refuses(1)),
            (OPENED_AT, Has(Shown(Aspect::Stop))),
        ],
    ),
    // The telegrams of the initialisation are in each protocol; a signal takes those of its own alone.
    (
        "a version check in the protocol of points closes",
        Connected(1),
        &[
            (
                OPENED_AT,
                Says(Message::Initialisation(Protocol::Point, FIRST_VERSION)),
            ),
            (OPENED_AT, Refuses(1)),
            (OPENED_AT, Has(Shown(Aspect::Stop))),
        ],
    ),
    (
        "a version check in the protocol of detectors closes",
        Connected(1),
        &[
            (
                OPENED_AT,
                Says(Message::Initialisation(Protocol::TrainDetection, FIRST_VERSION)),
            ),
            (OPENED_AT, Refuses(1)),
            (OPENED_AT, Has(Shown(Aspect::Stop))),
        ],
    ),
    (
        "a telegram of another protocol closes",
        Ready(1),
        &[
            (
                OPENED_AT,
                Says(Message::Point(PointMessage::MovePoint(Side::Right))),
            ),
            (OPENED_AT, Refuses(1)),
            (OPENED_AT, Has(Shown(Aspect::Stop))),
        ],
    ),
    // The second check comes where the request is awaited: it is answered no more.
    (
        "a second version check closes",
        Connected(1),
        &[
            (OPENED_AT, Says(CHECK)),
            (OPENED_AT, Exchanges),
            (OPENED_AT, Hears("OC1", HAS_ONE)),
            (OPENED_AT, Says(CHECK)),
            (OPENED_AT, Refuses(1)),
            (OPENED_AT, Has(Shown(Aspect::Stop))),
        ],
    ),
    (
        "an aspect before the initialisation closes",
        Connected(1),
        &[
            (OPENED_AT, Says(CHECK)),
            (OPENED_AT, Exchanges),
            (OPENED_AT, Says(INDICATE_PROCEED)),
            (OPENED_AT, Refuses(1)),
            (OPENED_AT, Has(Shown(Aspect::Stop))),
        ],
    ),
    // The last own stamp that came back is 100100, so proceed is shown until 101900, with no step between. The loss is told before
    // anything else: nothing is left of proceed.
    (
        "proceed is reported once, and falls by the clock",
        Ready(1),
        &[
            (100100, Senses(Sense::Section(0, Occupancy::Clear))),
            (100100, Says(INDICATE_STOP)),
            (100100, Exchanges),
            (100100, Says(INDICATE_PROCEED)),
            (100100, Exchanges),
            (100100, Hears("OC1", STOP)),
            (100100, Hears("OC1", PROCEED)),
            (100100, HearsNoMore),
            (101899, Has(Shown(Aspect::Proceed))),
            (101900, Has(Shown(Aspect::Stop))),
            (101900, Senses(Sense::Section(0, Occupancy::Clear))),
            (0, Has(Shown(Aspect::Stop))),
        ],
    ),
    (
        "the example shows proceed, and another last byte closes",
        Ready(1),
        &[
            (OPENED_AT, SaysBytes(&EXAMPLE)),
            (OPENED_AT, Exchanges),
            (OPENED_AT, Has(Shown(Aspect::Proceed))),
            (OPENED_AT, SaysBytes(OTHER_LAST)),
            (OPENED_AT, Refuses(1)),
            (OPENED_AT, Has(Shown(Aspect::Stop))),
        ],
    ),
    (
        "the example shows proceed, and another first byte closes",
        Ready(1),
        &[
            (OPENED_AT, SaysBytes(&EXAMPLE)),
            (OPENED_AT, Exchanges),
            (OPENED_AT, Has(Shown(Aspect::Proceed))),
            (OPENED_AT, SaysBytes(OTHER_FIRST)),
            (OPENED_AT, Refuses(1)),
            (OPENED_AT, Has(Shown(Aspect::Stop))),
        ],
    ),
    (
        "the example shows proceed, and one byte less closes",
        Ready(1),
        &[
            (OPENED_AT, SaysBytes(&EXAMPLE)),
            (OPENED_AT, Exchanges),
            (OPENED_AT, Has(Shown(Aspect::Proceed))),
            (OPENED_AT, SaysBytes(SHORTER)),
            (OPENED_AT, Refuses(1)),
            (OPENED_AT, Has(Shown(Aspect::Stop))),
        ],
    ),
    (
        "the example shows proceed, and its first byte alone closes",
        Ready(1),
        &[
            (OPENED_AT, SaysBytes(&EXAMPLE)),
            (OPENED_AT, Exchanges),
            (OPENED_AT, Has(Shown(Aspect::Proceed))),
            (OPENED_AT, SaysBytes(&[0x30])),
            (OPENED_AT, Refuses(1)),
            (OPENED_AT, Has(Shown(Aspect::Stop))),
        ],
    ),
    // Four items of the initialisation and sixteen reports fill the window. The next report stays owed, a later one takes its
    // place, and it is sent once the station has confirmed.
    (
        "a report waits for the window",
        Connected(1),
        &[
            (OPENED_AT, Says(CHECK)),
            (OPENED_AT, Says(REQUEST)),
            (OPENED_AT, Says(INDICATE_STOP)),
            (OPENED_AT, Says(INDICATE_STOP)),
            (OPENED_AT, Says(INDICATE_STOP)),
            (OPENED_AT, Says(INDICATE_STOP)),
            (OPENED_AT, Says(INDICATE_STOP)),
            (OPENED_AT, Says(INDICATE_STOP)),
            (OPENED_AT, Says(INDICATE_STOP)),
            (OPENED_AT, Says(INDICATE_STOP)),
            (OPENED_AT, Says(INDICATE_STOP)),
            (OPENED_AT, Says(INDICATE_STOP)),
            (OPENED_AT, Says(INDICATE_STOP)),
            (OPENED_AT, Says(INDICATE_STOP)),
            (OPENED_AT, Says(INDICATE_STOP)),
            (OPENED_AT, Says(INDICATE_STOP)),
            (OPENED_AT, Says(INDICATE_STOP)),
            (OPENED_AT, Says(INDICATE_STOP)),
            (OPENED_AT, ToController),
            (OPENED_AT, HandsOut(20)),
            (OPENED_AT, Says(INDICATE_STOP)),
            (OPENED_AT, Says(INDICATE_PROCEED)),
            (OPENED_AT, ToController),
            (OPENED_AT, HandsOut(20)),
            (OPENED_AT, Has(Shown(Aspect::Proceed))),
            (OPENED_AT, ToStation),
            (OPENED_AT, Forgets),
            (100400, Confirms),
            (100400, HandsOut(1)),
            (100400, ToStation),
            (100400, Hears("OC1", PROCEED)),
            (100400, HearsNoMore),
        ],
    ),
];

#[test]
fn what_a_commanded_signal_does(rt: HostRuntime) {
    for script in SCRIPTS {
        play(&rt, rt.alloc(), Signal::new(), script);
    }
}
