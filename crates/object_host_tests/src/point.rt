//! A point through the link that commands it. Each lies left.

use crate::bench::Outset::{Connected, Ready};
use crate::bench::Step::{
    Exchanges, HandsOut, Has, Hears, HearsNoMore, KeepsUp, Refuses, Says, Senses, Ticks,
    ToController, ToStation,
};
use crate::bench::{OPENED_AT, Script, play};
use crate::output::Output::Driven;
use object_host::Sense;
use point_ctl::Point;
use sci_telegram::{Agreement, Initialisation, Message, PointMessage, Position, Protocol, Side};

const CHECK: Message = Message::Initialisation(
    Protocol::Point,
    Initialisation::VersionCheck { version: 1 },
);

const REQUEST: Message = Message::Initialisation(
    Protocol::Point,
    Initialisation::InitialisationRequest,
);

const HAS_ONE: Message = Message::Initialisation(
    Protocol::Point,
    Initialisation::VersionAnswer {
        agreement: Agreement::Match,
        version: 1,
    },
);

const STARTED: Message = Message::Initialisation(
    Protocol::Point,
    Initialisation::StartInitialisation,
);

const COMPLETED: Message = Message::Initialisation(
    Protocol::Point,
    Initialisation::InitialisationCompleted,
);

const LEFT: Message = Message::Point(PointMessage::MovePoint(Side::Left));

const RIGHT: Message = Message::Point(PointMessage::MovePoint(Side::Right));

const LIES_LEFT: Message = Message::Point(PointMessage::PointPosition(Position::Left));

const LIES_RIGHT: Message = Message::Point(PointMessage::PointPosition(Position::Right));

const TIMEOUT: Message = Message::Point(PointMessage::Timeout);

const SCRIPTS: &[Script] = &[
    (
        "its initial status is the sensed position",
        Connected(1),
        &[
            (OPENED_AT, Says(CHECK)),
            (OPENED_AT, Exchanges),
            (OPENED_AT, Hears("OC1", HAS_ONE)),
            (OPENED_AT, Says(REQUEST)),
            (OPENED_AT, Exchanges),
            (OPENED_AT, Hears("OC1", STARTED)),
            (OPENED_AT, Hears("OC1", LIES_LEFT)),
            (OPENED_AT, Hears("OC1", COMPLETED)),
            (OPENED_AT, HearsNoMore),
        ],
    ),
    // The last step before the limit is at 109900, and the first after it at 110100.
    (
        "a drive ends at its limit with no step between, and the next step sends one timeout",
        Ready(1),
        &[
            (OPENED_AT, Says(RIGHT)),
            (OPENED_AT, Exchanges),
            (OPENED_AT, KeepsUp(33)),
            (109999, Has(Driven(Some(Side::Right)))),
            (110000, Has(Driven(None))),
            (110000, HearsNoMore),
            (110100, Ticks),
            (110100, HandsOut(1)),
            (110100, ToStation),
            (110100, Hears("OC1", TIMEOUT)),
            (110100, KeepsUp(3)),
            (111000, HearsNoMore),
        ],
    ),
    (
        "a move to the sensed side is answered in its step",
        Ready(1),
        &[
            (OPENED_AT, Says(LEFT)),
            (OPENED_AT, ToController),
            (OPENED_AT, Has(Driven(None))),
            (OPENED_AT, HandsOut(1)),
            (OPENED_AT, Exchanges),
            (OPENED_AT, Hears("OC1", LIES_LEFT)),
            (OPENED_AT, HearsNoMore),
        ],
    ),
    (
        "a second move before an answer closes the link, and nothing is reported",
        Ready(1),
        &[
            (OPENED_AT, Says(RIGHT)),
            (OPENED_AT, ToController),
            (OPENED_AT, Has(Driven(Some(Side::Right)))),
            (OPENED_AT, Says(LEFT)),
            (OPENED_AT, Refuses(1)),
            (OPENED_AT, Has(Driven(None))),
        ],
    ),
    (
        "a drive ends where it was commanded, and the position is reported once",
        Ready(1),
        &[
            (OPENED_AT, Says(RIGHT)),
            (OPENED_AT, Exchanges),
            (100100, Senses(Sense::Position(Position::NoEndPosition))),
            (100100, HandsOut(0)),
            (100100, Has(Driven(Some(Side::Right)))),
            (100200, Senses(Sense::Position(Position::Right))),
            (100200, Has(Driven(None))),
            (100200, Exchanges),
            (100200, Hears("OC1", LIES_RIGHT)),
            (100300, Senses(Sense::Position(Position::Right))),
            (100300, KeepsUp(3)),
            (101200, HearsNoMore),
            (101200, Says(LEFT)),
            (101200, Exchanges),
            (101200, Has(Driven(Some(Side::Left)))),
        ],
    ),
    (
        "a position that is sensed at the limit is told as a timeout",
        Ready(1),
        &[
            (OPENED_AT, Says(RIGHT)),
            (OPENED_AT, Exchanges),
            (OPENED_AT, KeepsUp(33)),
            (110000, Senses(Sense::Position(Position::Right))),
            (110000, HandsOut(1)),
            (110000, ToStation),
            (110000, Hears("OC1", TIMEOUT)),
        ],
    ),
    (
        "a telegram that a point does not take closes the link",
        Ready(1),
        &[(OPENED_AT, Says(LIES_RIGHT)), (OPENED_AT, Refuses(1))],
    ),
    // The last stamp that came back is 100000, so the link dies at 101800.
    (
        "a drive ends with its link with no step between, and nothing is reported",
        Ready(1),
        &[
            (OPENED_AT, Says(RIGHT)),
            (OPENED_AT, Exchanges),
            (101799, Has(Driven(Some(Side::Right)))),
            (101800, Has(Driven(None))),
            (102000, Senses(Sense::Position(Position::Right))),
            (102000, HandsOut(0)),
            (102000, Has(Driven(None))),
        ],
    ),
];

#[test]
fn what_a_commanded_point_does(rt: HostRuntime) {
    for script in SCRIPTS {
        play(&rt, rt.alloc(), Point::new(Position::Left), script);
    }
}
