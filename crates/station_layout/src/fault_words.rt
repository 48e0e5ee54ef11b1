//! What the faults mean whose place alone is told.

ghost use Rattle.std.specs.Prelude.{◌≡◌};
ghost use Rattle.station_layout.specs.FaultWords.{layout_words, limit_words, route_words, table_words};
ghost use Rattle.station_layout.specs.inside.Sentences.{sentence_words};

use crate::route_detail::route_at_fault;
use crate::sentence::Part::{self, Nothing};
use crate::sentence::{Sentence, Words};
use control_table::TableFault;
use layout_text::{LayoutFault, Place, TableName};

/// How many entries of each kind a station may have.
const MOST: [usize; 9] = [0, 64, 128, 32, 16, 0, 32, 16, 64];

/// That an entry of each kind is one too many.
const ONE_TOO_MANY: [&str; 9] = [
    "is one too many",
    "is one too many: there may be 64",
    "is one too many: there may be 128",
    "is one too many: there may be 32",
    "is one too many: there may be 16",
    "is one too many",
    "is one too many: there may be 32",
    "is one too many: there may be 16",
    "is one too many: there may be 64",
];

/// Which limit an entry goes beyond: it is too large, or one too many.
fn limit_words(place: Place) -> &'static str
    ensures { result.now ≡ limit_words place }
{
    let kind = place.table as usize;
    if place.entry > MOST[kind] {
        return ONE_TOO_MANY[kind];
    }
    match place.table {
        TableName::Detector => "reports no section, or more than 16",
        TableName::Route => "has a path of more than 64 elements",
        _ => "is too large",
    }
}

// The words for the faults of a layout.
const NO_TOML: Words = &["the text is no TOML", "", "", "", "", ""];

const MISSING_KEY: Words = &["a key is missing at ", "", "", "", "", ""];

const WRONG_KIND: Words = &["a value is of another kind or form at ", "", "", "", "", ""];

const UNKNOWN_NAME: Words = &["", " names something that isn't there", "", "", "", ""];

const DOUBLE_NAME: Words = &["", " reports a section twice", "", "", "", ""];

const DOUBLE_JOINT: Words = &["", " joins a port with itself", "", "", "", ""];

const LACKS_MEMORY: Words = &["memory is lacking", "", "", "", "", ""];

// For faults of which more is told in words, after a place or a route.
const BEHIND: Words = &["", " ", "", "", "", ""];

/// The words for a fault of a layout.
#[tactic(auto, using(crate::proofs::SentenceEnds::without_end), unfolding(crate::specs::FaultWords::layout_words, crate::specs::inside::Sentences::part_words))]
pub(crate) fn layout_sentence(fault: LayoutFault) -> Sentence
    ensures { sentence_words result ≡ layout_words fault }
{
    let (words, at, why) = match fault {
        LayoutFault::Toml => (NO_TOML, Nothing, Nothing),
        LayoutFault::MissingKey(place) => (MISSING_KEY, Part::Place(place), Nothing),
        LayoutFault::WrongKind(place) => (WRONG_KIND, Part::Place(place), Nothing),
        LayoutFault::UnknownName(place) => (UNKNOWN_NAME, Part::Place(place), Nothing),
        LayoutFault::DoubleName(place) => (DOUBLE_NAME, Part::Place(place), Nothing),
        LayoutFault::DoubleJoint(place) => (DOUBLE_JOINT, Part::Place(place), Nothing),
        LayoutFault::Limit(place) => (BEHIND, Part::Place(place), Part::Words(limit_words(place))),
        LayoutFault::OutOfMemory => (LACKS_MEMORY, Nothing, Nothing),
    };
    Sentence(words, at, why, Nothing, Nothing, Nothing)
}

/// What a fault says of its route.
#[tactic(auto, unfolding(crate::specs::FaultWords::route_words))]
fn route_words(fault: TableFault) -> &'static str
    ensures { result.now ≡ route_words fault }
{
    match fault {
        TableFault::PathBroken(_) => {
            "has a path that breaks: a port in it isn't joined to a port of the next element, or an element is left where it was entered or from leg to leg"
        }
        TableFault::PathRepeats(_) => {
            "has an element twice on its path, or comes back to a section that it left"
        }
        TableFault::PointMissing(_) => {
            "has a point on its path that isn't written under its `points`"
        }
        TableFault::PointWrong(_) => {
            "writes a point at a side that it doesn't require, or under the wrong one of `points` and `flank`"
        }
        TableFault::FlankMissing(_) => {
            "leaves a leg unused that is joined to a leg of a point that its `flank` doesn't have"
        }
        TableFault::FlankOpen(_) => {
            "leaves a leg unused that is open: no signal stands at the port that is joined to it"
        }
        TableFault::FlankContradicts(_) => "requires a point at both sides",
        TableFault::SignalPlace(_) => {
            "has an exit that isn't where its path ends, or is its entry, or has another signal in the way"
        }
        TableFault::NotSymmetric(_) => {
            "has a route under `extra` that doesn't have it there, or itself"
        }
        TableFault::OutOfMemory => "",
    }
}

/// The words for a fault of a table.
#[tactic(auto, using(crate::proofs::SentenceEnds::without_end), unfolding(crate::specs::FaultWords::table_words, crate::specs::inside::Sentences::part_words))]
pub(crate) fn table_sentence(fault: TableFault) -> Sentence
    ensures { sentence_words result ≡ table_words fault }
{
    match route_at_fault(&fault) {
        Some(route) => {
            let why = Part::Words(route_words(fault));
            Sentence(BEHIND, Part::Route(route), why, Nothing, Nothing, Nothing)
        }
        None => Sentence(LACKS_MEMORY, Nothing, Nothing, Nothing, Nothing, Nothing),
    }
}
