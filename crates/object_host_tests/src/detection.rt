//! A detector of sixteen sections, which are clear, through the link that commands it.

use crate::bench::Outset::{Connected, Made, Ready};
use crate::bench::Step::{
    Confirms, Connects, Forgets, HandsOut, HasGiven, Hears, HearsNoMore, KeepsUp, KnowsTaken,
    Refuses, Says, Senses, ToController, ToStation,
};
use crate::bench::{OPENED_AT, Script, name, play};
use object_host::Sense;
use sci_telegram::{
    Agreement, DetectionMessage, Initialisation, Message, Name, Occupancy, Position, Protocol,
};
use std::process::Abort;
use tds_ctl::Detection;

fn clear(rt: &impl Abort, text: &str) -> (Name, Occupancy) {
    (name(rt, text), Occupancy::Clear)
}

fn sixteen(rt: &impl Abort) -> Detection {
    Detection::new(&[
        clear(rt, "GA"),
        clear(rt, "GB"),
        clear(rt, "GC"),
        clear(rt, "GD"),
        clear(rt, "GE"),
        clear(rt, "GF"),
        clear(rt, "GG"),
        clear(rt, "GH"),
        clear(rt, "GI"),
        clear(rt, "GJ"),
        clear(rt, "GK"),
        clear(rt, "GL"),
        clear(rt, "GM"),
        clear(rt, "GN"),
        clear(rt, "GO"),
        clear(rt, "GP"),
    ])
}

const CHECK: Message = Message::Initialisation(
    Protocol::TrainDetection,
    Initialisation::VersionCheck { version: 1 },
);

const REQUEST: Message = Message::Initialisation(
    Protocol::TrainDetection,
    Initialisation::InitialisationRequest,
);

const HAS_ONE: Message = Message::Initialisation(
    Protocol::TrainDetection,
    Initialisation::VersionAnswer {
        agreement: Agreement::Match,
        version: 1,
    },
);

const STARTED: Message = Message::Initialisation(
    Protocol::TrainDetection,
    Initialisation::StartInitialisation,
);

const COMPLETED: Message = Message::Initialisation(
    Protocol::TrainDetection,
    Initialisation::InitialisationCompleted,
);

const CLEAR: Message = Message::Detection(DetectionMessage::OccupancyStatus(Occupancy::Clear));

const OCCUPIED: Message = Message::Detection(DetectionMessage::OccupancyStatus(
    Occupancy::Occupied,
));

/// In all but the last the station asks for everything at once, so nothing that is told is confirmed meanwhile.
const SCRIPTS: &[Script] = &[
    (
        "sixteen sections are initialised in nineteen items, with none confirmed",
        Connected(1),
        &[
            (OPENED_AT, Says(CHECK)),
            (OPENED_AT, Says(REQUEST)),
            (OPENED_AT, ToController),
            (OPENED_AT, HasGiven(19)),
            (OPENED_AT, KnowsTaken(0)),
            (OPENED_AT, ToStation),
            (OPENED_AT, Hears("OC1", HAS_ONE)),
            (OPENED_AT, Hears("OC1", STARTED)),
            (OPENED_AT, Hears("GA", CLEAR)),
            (OPENED_AT, Hears("GB", CLEAR)),
            (OPENED_AT, Hears("GC", CLEAR)),
            (OPENED_AT, Hears("GD", CLEAR)),
            (OPENED_AT, Hears("GE", CLEAR)),
            (OPENED_AT, Hears("GF", CLEAR)),
            (OPENED_AT, Hears("GG", CLEAR)),
            (OPENED_AT, Hears("GH", CLEAR)),
            (OPENED_AT, Hears("GI", CLEAR)),
            (OPENED_AT, Hears("GJ", CLEAR)),
            (OPENED_AT, Hears("GK", CLEAR)),
            (OPENED_AT, Hears("GL", CLEAR)),
            (OPENED_AT, Hears("GM", CLEAR)),
            (OPENED_AT, Hears("GN", CLEAR)),
            (OPENED_AT, Hears("GO", CLEAR)),
            (OPENED_AT, Hears("GP", CLEAR)),
            (OPENED_AT, Hears("OC1", COMPLETED)),
            (OPENED_AT, HearsNoMore),
        ],
    ),
    // One more change fills the window of 20.
    (
        "a section that changes twice while the window is full sends one status, the later",
        Connected(1),
        &[
            (OPENED_AT, Says(CHECK)),
            (OPENED_AT, Says(REQUEST)),
            (OPENED_AT, ToController),
            (OPENED_AT, Senses(Sense::Section(5, Occupancy::Occupied))),
            (OPENED_AT, HasGiven(20)),
            (100001, Senses(Sense::Section(3, Occupancy::Occupied))),
            (100002, Senses(Sense::Section(3, Occupancy::Clear))),
            (100002, HasGiven(20)),
            (100002, ToStation),
            (100002, Forgets),
            (100002, KeepsUp(3)),
            (100902, Hears("GD", CLEAR)),
            (100902, HearsNoMore),
        ],
    ),
    // Three reports wait for the window. Once the station has confirmed, one step sends all of them, in the order of the list.
    (
        "a step sends every report that it owes",
        Connected(1),
        &[
            (OPENED_AT, Says(CHECK)),
            (OPENED_AT, Says(REQUEST)),
            (OPENED_AT, ToController),
            (OPENED_AT, Senses(Sense::Section(5, Occupancy::Occupied))),
            (100001, Senses(Sense::Section(15, Occupancy::Occupied))),
            (100001, Senses(Sense::Section(0, Occupancy::Occupied))),
            (100001, Senses(Sense::Section(7, Occupancy::Occupied))),
            (100001, HasGiven(20)),
            (100001, ToStation),
            (100001, Forgets),
            (100400, Confirms),
            (100400, HandsOut(3)),
            (100400, ToStation),
            (100400, Hears("GA", OCCUPIED)),
            (100400, Hears("GH", OCCUPIED)),
            (100400, Hears("GP", OCCUPIED)),
            (100400, HearsNoMore),
        ],
    ),
    (
        "a change before the initialisation is told by the initial status alone",
        Made(1),
        &[
            (95000, Senses(Sense::Section(1, Occupancy::Occupied))),
            (OPENED_AT, Connects),
            (OPENED_AT, Says(CHECK)),
            (OPENED_AT, Says(REQUEST)),
            (OPENED_AT, ToController),
            (OPENED_AT, ToStation),
            (OPENED_AT, Hears("OC1", HAS_ONE)),
            (OPENED_AT, Hears("OC1", STARTED)),
            (OPENED_AT, Hears("GA", CLEAR)),
            (OPENED_AT, Hears("GB", OCCUPIED)),
            (OPENED_AT, Forgets),
            (OPENED_AT, KeepsUp(3)),
            (100900, HearsNoMore),
        ],
    ),
    (
        "nothing is told where nothing changed",
        Ready(1),
        &[
            (OPENED_AT, Senses(Sense::Section(1, Occupancy::Clear))),
            (OPENED_AT, Senses(Sense::Section(16, Occupancy::Occupied))),
            (OPENED_AT, Senses(Sense::Position(Position::Right))),
            (OPENED_AT, HandsOut(0)),
        ],
    ),
    (
        "a telegram that a detector does not take closes the link",
        Ready(1),
        &[(OPENED_AT, Says(CLEAR)), (OPENED_AT, Refuses(1))],
    ),
];

#[test]
fn what_a_commanded_detector_does(rt: HostRuntime) {
    for script in SCRIPTS {
        play(&rt, rt.alloc(), sixteen(&rt), script);
    }
}
