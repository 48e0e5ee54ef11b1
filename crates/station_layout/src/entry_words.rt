//! What is told of an entry, in words.

ghost use Rattle.std.specs.Prelude.{◌≡◌, Some};
ghost use Rattle.station_layout.specs.Advice.{entry_advice_words};
ghost use Rattle.station_layout.specs.EntryWords.{entry_form, place_words, spot_form, spot_words};
ghost use Rattle.station_layout.specs.declared.advice.EntryAdvice.TheVariants.{Shared, Unknown};
ghost use Rattle.station_layout.specs.inside.Sentences.{sentence_words};

use crate::advice::{Common, EntryAdvice, Missed, Spot};
use crate::field_key::NAME_FORM;
use crate::sentence::Part::{self, Nothing};
use crate::sentence::{Sentence, Words};
use layout_text::{Place, TableName};
use std::fmt;

/// The words for an entry of a layout, or for the key of its entries.
#[derive(Clone, Copy)]
pub(crate) struct PlaceWords(pub(crate) Place);

impl fmt::Display for PlaceWords {
    ghost output = { λ place. Some (place_words place.0) };

    #[tactic(auto, unfolding(crate::specs::EntryWords::place_words))]
    fn fmt<W: fmt::Write>(&self, f: &mut fmt::Formatter<W>) -> fmt::Result {
        let table = self.0.table;
        let entry = self.0.entry;
        let kind = match table {
            _ if entry == 0 => "key",
            TableName::Station => "table",
            _ => return write!(f, "entry {entry} of `{table}`"),
        };
        write!(f, "the {kind} `{table}`")
    }
}

/// The words for where something stands.
#[derive(Clone, Copy)]
pub(crate) struct SpotWords(pub(crate) Spot);

impl fmt::Display for SpotWords {
    ghost output = { λ spot. Some (spot_words spot.0) };

    #[tactic(auto, unfolding(crate::specs::EntryWords::spot_words))]
    fn fmt<W: fmt::Write>(&self, f: &mut fmt::Formatter<W>) -> fmt::Result {
        match self.0 {
            Spot::Entry(place) => PlaceWords(place).fmt(f),
            Spot::Field(place, key) => {
                let (key, place) = (key.word(), PlaceWords(place));
                write!(f, "`{key}` of {place}")
            }
            Spot::Item(place, key, item) => {
                let (key, place) = (key.word(), PlaceWords(place));
                write!(f, "item {item} of `{key}` of {place}")
            }
        }
    }
}

/// What an entry of each table has to be.
const WANTED: [&str; 9] = [
    "a table with `name`, `id` and, where it is wanted, `key`",
    NAME_FORM,
    "a table with `name` and `section`",
    "a table with `name`, `id` and `section`",
    NAME_FORM,
    "an array of two ports: each a name, a dot, and `a`, `b`, `tip`, `left`, `right` or `end`",
    "a table with `name`, `id` and `at`, a port",
    "a table with `name`, `id` and `sections`, an array of names",
    "a table with `name`, `entry`, `exit`, `path`, an array of ports, and `points`; where they are wanted, with `flank`, `approach`, `extra` and `aspect`",
];

/// What has to stand at a place: an entry, or under its key the array of all. The station is a table of its own.
#[tactic(auto, unfolding(crate::specs::EntryWords::entry_form))]
fn entry_form(place: Place) -> &'static str
    ensures { result.now ≡ entry_form place }
{
    match place.table {
        TableName::Station => WANTED[0],
        _ if place.entry == 0 => "an array",
        table => WANTED[table as usize],
    }
}

impl Spot {
    /// What has to stand there.
    #[tactic(auto, unfolding(crate::specs::EntryWords::spot_form))]
    fn form(self) -> &'static str
        ensures { result.now ≡ spot_form self }
    {
        match self {
            Spot::Entry(place) => entry_form(place),
            Spot::Field(_, key) => key.form(),
            Spot::Item(_, key, _) => match key.of_items() {
                Some(one) => one.form(),
                None => key.form(),
            },
        }
    }
}

// What two entries have.
const HAS_NAME: Words = &["", " has the name ", ", as ", "", "", ""];

const HAS_ID: Words = &["", " has the id ", ", as ", "", "", ""];

const REPORTS: Words = &["", " reports the section ", ", as ", "", "", ""];

const JOINS: Words = &["", " joins ", ", as ", "", "", ""];

const STANDS_AT: Words = &["", " stands at ", ", as ", "", "", ""];

impl Common {
    /// That an entry has it, as another one.
    #[tactic(auto, using(crate::proofs::SentenceEnds::without_end, crate::proofs::SentenceEnds::around), unfolding(crate::specs::Advice::entry_advice_words, crate::specs::EntryWords::common_words, crate::specs::inside::Sentences::part_words))]
    fn sentence(self, place: Place, first: Place) -> Sentence
        ensures { sentence_words result ≡ entry_advice_words (Shared place self first) }
    {
        let (words, part) = match self {
            Common::Name(name) => (HAS_NAME, Part::Name(name)),
            Common::Id(id) => (HAS_ID, Part::Id(id)),
            Common::Section(section) => (REPORTS, Part::Name(section)),
            Common::Joint(port) => (JOINS, Part::Port(port)),
            Common::Signal(port) => (STANDS_AT, Part::Port(port)),
        };
        Sentence(
            words,
            Part::Place(place),
            part,
            Part::Place(first),
            Nothing,
            Nothing,
        )
    }
}

// What an entry names, and what is wanted.
const NO_SECTION: Words = &["", " names ", ", where a section is wanted", "", "", ""];

const NO_PORT: Words = &[
    "",
    " names ",
    ", where a port of a track, a point or a border is wanted",
    "",
    "",
    "",
];

const NO_POINT: Words = &["", " names ", ", where a point is wanted", "", "", ""];

const NO_SIGNAL: Words = &["", " names ", ", where a signal is wanted", "", "", ""];

const NO_EXIT: Words = &[
    "",
    " names ",
    ", where a signal or a border is wanted",
    "",
    "",
    "",
];

const NO_ROUTE: Words = &["", " names ", ", where a route is wanted", "", "", ""];

const UNREPORTED: Words = &["", " is ", ", which no detector reports", "", "", ""];

impl Missed {
    /// That it is named somewhere, and what is wanted.
    #[tactic(auto, unfolding(crate::specs::Advice::entry_advice_words, crate::specs::EntryWords::missed_words, crate::specs::inside::Sentences::part_words))]
    fn sentence(self, at: Spot) -> Sentence
        ensures { sentence_words result ≡ entry_advice_words (Unknown at self) }
    {
        let (words, part) = match self {
            Missed::Section(name) => (NO_SECTION, Part::Name(name)),
            Missed::Port(port) => (NO_PORT, Part::Port(port)),
            Missed::Point(name) => (NO_POINT, Part::Name(name)),
            Missed::Signal(name) => (NO_SIGNAL, Part::Name(name)),
            Missed::Exit(name) => (NO_EXIT, Part::Name(name)),
            Missed::Route(name) => (NO_ROUTE, Part::Name(name)),
            Missed::Unreported(name) => (UNREPORTED, Part::Name(name)),
        };
        Sentence(words, Part::Spot(at), part, Nothing, Nothing, Nothing)
    }
}

// What else is wrong with an entry.
const ABSENT: Words = &["the key `", "` is missing", "", "", "", ""];

const MISSING: Words = &["", " has no `", "`: it has to be ", "", "", ""];

const WRONG: Words = &["", " is ", ", and has to be ", "", "", ""];

impl EntryAdvice {
    /// What is told of an entry.
    #[tactic(auto, using(crate::proofs::SentenceEnds::without_end), unfolding(crate::specs::Advice::entry_advice_words, crate::specs::EntryWords::spot_form, crate::specs::inside::Sentences::part_words))]
    pub(crate) fn sentence(self) -> Sentence
        ensures { sentence_words result ≡ entry_advice_words self }
    {
        match self {
            EntryAdvice::Absent(table) => {
                Sentence(
                    ABSENT,
                    Part::Table(table),
                    Nothing,
                    Nothing,
                    Nothing,
                    Nothing,
                )
            }
            EntryAdvice::Missing(place, key) => {
                let (at, wanted) = (Part::Place(place), Part::Words(entry_form(place)));
                Sentence(MISSING, at, Part::Key(key), wanted, Nothing, Nothing)
            }
            EntryAdvice::Wrong(at, kind) => {
                let wanted = Part::Words(at.form());
                Sentence(WRONG, Part::Spot(at), kind.part(), wanted, Nothing, Nothing)
            }
            EntryAdvice::Shared(place, common, first) => common.sentence(place, first),
            EntryAdvice::Unknown(at, missed) => missed.sentence(at),
        }
    }
}
