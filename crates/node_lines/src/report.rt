//! What field equipment tells its controller.

ghost use Rattle.std.specs.Prelude.{◌≡◌};
ghost use Rattle.replay_words.specs.Cut.{words};
ghost use Rattle.node_lines.specs.Reports.{contact, done, reach, report_said};

use replay_lines::ixl_spec::{Layout, Occupancy, Position, SectionId};
use replay_lines::{occupancy_verb, section_named, section_word};
use replay_words::{Fault, Words, decimal};
use std::fmt;

/// What field equipment tells.
#[derive(Clone, Copy)]
pub enum FieldReport {
    /// The order of this number is in force.
    Done {
        number: u64,
    },
    /// The contact of a section.
    Section {
        section: SectionId,
        occupancy: Occupancy,
    },
    /// The contacts of the point.
    Point(Position),
}

/// What field equipment tells, as its line tells it.
#[derive(Clone, Copy)]
pub struct ReportText<'a> {
    pub layout: &'a Layout,
    pub report: FieldReport,
}

impl<'a> fmt::Display for ReportText<'a> {
    ghost use Rattle.std.specs.Prelude.{Some};
    ghost use Rattle.node_lines.specs.Reports.{report_text};

    ghost output = { λ text. Some (report_text text.layout.now text.report) };

    fn fmt<W: fmt::Write>(&self, f: &mut fmt::Formatter<W>) -> fmt::Result {
        match self.report {
            FieldReport::Done { number } => write!(f, "done {number}"),
            FieldReport::Section { section, occupancy } => {
                let word = occupancy_verb(occupancy);
                let section = section_word(self.layout, section);
                write!(f, "{word} {section}")
            }
            FieldReport::Point(position) => {
                let position = position.word();
                write!(f, "reach {position}")
            }
        }
    }
}

/// What a line of field equipment tells, or the lowest fault of its words.
pub fn read_report(layout: &Layout, line: &str) -> Result<FieldReport, Fault>
    ensures { result ≡ report_said layout.now (words line.now) }
{
    let mut words = Words::of(line);
    match words.next() {
        Some("done") => done(words),
        Some("occupy") => contact(layout, Occupancy::Occupied, words),
        Some("clear") => contact(layout, Occupancy::Clear, words),
        Some("reach") => reach(words),
        _ => Err(Fault::Words),
    }
}

fn done(mut words: Words<'_>) -> Result<FieldReport, Fault>
    ensures { result ≡ done words.entry }
{
    let (Some(number), None) = (words.next(), words.next()) else {
        return Err(Fault::Words);
    };
    Ok(FieldReport::Done {
        number: decimal(number)?,
    })
}

// The contact of a section, which tells so.
fn contact(
    layout: &Layout,
    occupancy: Occupancy,
    mut words: Words<'_>,
) -> Result<FieldReport, Fault>
    ensures { result ≡ contact layout.now occupancy words.entry }
{
    let (Some(section), None) = (words.next(), words.next()) else {
        return Err(Fault::Words);
    };
    Ok(FieldReport::Section {
        section: section_named(layout, section)?,
        occupancy,
    })
}

fn reach(mut words: Words<'_>) -> Result<FieldReport, Fault>
    ensures { result ≡ reach words.entry }
{
    let (Some(position), None) = (words.next(), words.next()) else {
        return Err(Fault::Words);
    };
    Ok(FieldReport::Point(Position::of_word(position).ok_or(Fault::Words)?))
}
