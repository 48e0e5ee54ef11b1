//! A number as a line tells it.

ghost use Rattle.std.specs.Prelude.{◌≡◌};
ghost use Rattle.replay_words.specs.Cut.{words};
ghost use Rattle.run_numbers.specs.Lines.{number_said, row_among};

use crate::row::Row;
use crate::rows::ROWS;
use replay_words::{Fault, Words, decimal};
use std::fmt;

/// A number as its line tells it.
#[derive(Clone, Copy)]
pub struct NumberText {
    pub row: Row,
    pub value: u64,
}

impl fmt::Display for NumberText {
    ghost use Rattle.std.specs.Prelude.{Some};
    ghost use Rattle.run_numbers.specs.Lines.{number_text};

    ghost output = { λ text. Some (number_text text.row text.value) };

    fn fmt<W: fmt::Write>(&self, f: &mut fmt::Formatter<W>) -> fmt::Result {
        let (name, label) = (self.row.name(), self.row.label());
        let value = self.value;
        write!(f, "number {name} {label} {value}")
    }
}

/// The number that a line tells, or the lowest fault of its words.
pub fn read_number(line: &str) -> Result<(Row, u64), Fault>
    ensures { result ≡ number_said (words line.now) }
{
    let mut words = Words::of(line);
    let (Some(first), Some(name), Some(label), Some(value), None) = (
        words.next(),
        words.next(),
        words.next(),
        words.next(),
        words.next(),
    ) else {
        return Err(Fault::Words);
    };
    if first != "number" {
        return Err(Fault::Words);
    }
    let row = row_among(name, label, &ROWS)?;
    let value = decimal(value)?;
    Ok((row, value))
}

/// The first of these rows with this name and this label.
fn row_among(name: &str, label: &str, rows: &[Row]) -> Result<Row, Fault>
    ensures { result ≡ row_among name.now label.now rows.now }
{
    for row in rows {
        if name == row.name() && label == row.label() {
            return Ok(*row);
        }
    }
    Err(Fault::Name)
}
