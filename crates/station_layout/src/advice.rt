//! What is told in a second line.

ghost use Rattle.std.specs.Prelude.{◌≡◌, IfOk, Some};
ghost use Rattle.station_layout.specs.Advice.{advice_line};

use crate::detail::RouteAdvice;
use crate::fault_words::{layout_sentence, table_sentence};
use crate::field_key::{FieldKey, Kind};
use crate::sentence::Part::{self, Nothing};
use crate::sentence::{Sentence, Words};
use crate::text_place::TextPlace;
use arrayvec::ArrayString;
use control_table::layout::{LayoutFault, Place, TableName};
use control_table::{Name, TableFault};
use layout_text::PortName;
use std::fmt;

/// More bytes than any advice has.
const ADVICE_LENGTH: usize = 640;

/// What is told in a second line.
#[derive(Clone, Copy)]
pub(crate) enum Advice {
    /// The text is no TOML from a place on.
    Broken(TextPlace),
    /// This is wrong with an entry.
    Entry(EntryAdvice),
    /// Another fault of the layout.
    Layout(LayoutFault),
    /// This is wrong with a route.
    Route(RouteAdvice),
    /// Another fault of the table.
    Table(TableFault),
    /// There is no fault.
    Nothing,
}

/// What is told of an entry of a layout, or of the key of its entries.
#[derive(Clone, Copy)]
pub(crate) enum EntryAdvice {
    /// The key isn't there.
    Absent(TableName),
    /// An entry lacks a key.
    Missing(Place, FieldKey),
    /// Another kind of value than is wanted stands somewhere, or one of another form.
    Wrong(Spot, Kind),
    /// An entry has something that the one at the second place has.
    Shared(Place, Common, Place),
    /// An entry, or an item of an array in it, names this, which isn't there or is of another kind than is wanted.
    Unknown(Spot, Missed),
}

/// Where something stands in a layout.
#[derive(Clone, Copy)]
pub(crate) enum Spot {
    /// It is an entry, or what stands under the key of its entries.
    Entry(Place),
    /// Under a key of an entry.
    Field(Place, FieldKey),
    /// As an item of the array under a key of an entry, counted from 1.
    Item(Place, FieldKey, usize),
}

/// What two entries have that may stand in a layout once.
#[derive(Clone, Copy)]
pub(crate) enum Common {
    /// A name.
    Name(Name),
    /// An identity.
    Id(u32),
    /// A section that both report.
    Section(Name),
    /// A port that both join.
    Joint(PortName),
    /// A port at which both stand.
    Signal(PortName),
}

/// What an entry names that isn't there, or is of another kind, by what is wanted.
#[derive(Clone, Copy)]
pub(crate) enum Missed {
    /// A section.
    Section(Name),
    /// A port of a track, a point or a border.
    Port(PortName),
    /// A point.
    Point(Name),
    /// A signal.
    Signal(Name),
    /// A signal or a border.
    Exit(Name),
    /// A route.
    Route(Name),
    /// The section itself, which no detection controller reports.
    Unreported(Name),
}

// A text that is no TOML from a place on.
const BROKEN: Words = &[
    "the text is no TOML from line ",
    ", column ",
    " on",
    "",
    "",
    "",
];

// A line of its own.
impl fmt::Display for Advice {
    ghost output = { λ advice. Some (advice_line advice) };

    #[tactic(auto, using(crate::proofs::SentenceEnds::around), unfolding(crate::specs::Advice::advice_line, crate::specs::inside::Sentences::part_words))]
    fn fmt<W: fmt::Write>(&self, f: &mut fmt::Formatter<W>) -> fmt::Result {
        let sentence = match *self {
            Advice::Broken(at) => {
                let (line, column) = (Part::Number(at.line), Part::Number(at.column));
                Sentence(BROKEN, line, column, Nothing, Nothing, Nothing)
            }
            Advice::Entry(advice) => advice.sentence(),
            Advice::Layout(fault) => layout_sentence(fault),
            Advice::Route(advice) => advice.sentence(),
            Advice::Table(fault) => table_sentence(fault),
            Advice::Nothing => return Ok(()),
        };
        write!(f, "{sentence}\n")
    }
}

/// The line of an advice, in a place of its own: it takes no memory, which may be what is lacking.
pub(crate) fn line(advice: &Advice) -> Result<ArrayString<ADVICE_LENGTH>, fmt::Error>
    ensures { IfOk result (λ line. line.bytes ≡ advice_line advice.now) }
{
    use std::fmt::Write;
    let mut line = ArrayString::new();
    write!(line, "{advice}")?;
    Ok(line)
}
