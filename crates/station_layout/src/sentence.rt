//! Sentences: words with names, ports, sides, places and numbers between them.

ghost use Rattle.std.specs.Prelude.{Some};
ghost use Rattle.station_layout.specs.inside.Sentences.{part_words, sentence_words};

use crate::advice::Spot;
use crate::entry_words::{PlaceWords, SpotWords};
use crate::field_key::FieldKey;
use crate::port_words::PortWords;
use control_table::{FaultyRoute, Name, Side};
use layout_text::{Place, PortName, TableName};
use std::fmt;

/// What stands between the words of a sentence.
#[derive(Clone, Copy)]
pub(crate) enum Part {
    Nothing,
    Words(&'static str),
    Key(FieldKey),
    Name(Name),
    Port(PortName),
    Side(Side),
    Id(u32),
    Number(usize),
    Integer(i64),
    Table(TableName),
    Place(Place),
    Spot(Spot),
    Route(FaultyRoute),
}

impl fmt::Display for Part {
    ghost output = { λ part. Some (part_words part) };

    #[tactic(auto, unfolding(crate::specs::inside::Sentences::part_words))]
    fn fmt<W: fmt::Write>(&self, f: &mut fmt::Formatter<W>) -> fmt::Result {
        match self {
            Part::Nothing => Ok(()),
            Part::Words(words) => f.write_str(words),
            Part::Key(key) => f.write_str(key.word()),
            Part::Name(name) => f.write_str(name.as_str()),
            Part::Port(port) => PortWords(*port).fmt(f),
            Part::Side(side) => f.write_str(side.word()),
            Part::Id(id) => id.fmt(f),
            Part::Number(number) => number.fmt(f),
            Part::Integer(value) => value.fmt(f),
            Part::Table(table) => table.fmt(f),
            Part::Place(place) => PlaceWords(*place).fmt(f),
            Part::Spot(spot) => SpotWords(*spot).fmt(f),
            Part::Route(route) => route.fmt(f),
        }
    }
}

/// The words of a sentence: before its first part, between each two, and after the last.
pub(crate) type Words = &'static [&'static str; 6];

/// Words with up to five parts between them.
#[derive(Clone, Copy)]
pub(crate) struct Sentence(
    pub(crate) Words,
    pub(crate) Part,
    pub(crate) Part,
    pub(crate) Part,
    pub(crate) Part,
    pub(crate) Part,
);

impl fmt::Display for Sentence {
    ghost output = { λ sentence. Some (sentence_words sentence) };

    fn fmt<W: fmt::Write>(&self, f: &mut fmt::Formatter<W>) -> fmt::Result {
        let Sentence(words, first, second, third, fourth, fifth) = self;
        let [begin, then, on, further, at_last, end] = words;
        write!(
            f,
            "{begin}{first}{then}{second}{on}{third}{further}{fourth}{at_last}{fifth}{end}"
        )
    }
}
