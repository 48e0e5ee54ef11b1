//! How a station lies when it is started, as the first lines of a file for the simulation say.

ghost use Rattle.std.specs.Prelude.{◌≡◌};
ghost use Rattle.std.specs.List.{list_all, list_any};
ghost use Rattle.replay_lines.specs.Outset.{begins, begins_same, is_begun, may_stand, name_same, point_begun, section_begun};

use crate::line::SimLine;
use crate::names::{point_named, section_named};
use crate::words::position_named;
use ixl_spec::{Layout, Occupancy, PointId, Position, SectionId};
use replay_words::{Fault, Words};

/// A point or a section, and how it lies when the station is started.
#[derive(Clone, Copy, Debug)]
pub enum Begun {
    Point {
        point: PointId,
        position: Position,
    },
    Section {
        section: SectionId,
        occupancy: Occupancy,
    },
}

/// What the words after the first say, or their lowest fault.
pub(crate) fn read_begun(layout: &Layout, mut words: Words<'_>) -> Result<Begun, Fault>
    ensures { result ≡ begins layout.now words.entry }
{
    let (Some(name), Some(lies), None) = (words.next(), words.next(), words.next()) else {
        return Err(Fault::Words);
    };
    match Occupancy::of_word(lies) {
        Some(occupancy) => section_begun(layout, name, occupancy),
        None => point_begun(layout, name, lies),
    }
}

// A section that is clear or occupied.
fn section_begun(layout: &Layout, name: &str, occupancy: Occupancy) -> Result<Begun, Fault>
    ensures { result ≡ section_begun layout.now name.now occupancy }
{
    let section = section_named(layout, name)?;
    Ok(Begun::Section { section, occupancy })
}

// A point that stands at a side, or at none.
fn point_begun(layout: &Layout, name: &str, side: &str) -> Result<Begun, Fault>
    ensures { result ≡ point_begun layout.now name.now side.now }
{
    let position = position_named(side)?;
    let point = point_named(layout, name)?;
    Ok(Begun::Point { point, position })
}

/// Whether a line may stand after earlier ones: one that says how a point or a section begins stands after such lines
/// alone, of which none names the same.
pub(crate) fn may_stand(earlier: &[SimLine], line: &SimLine) -> Result<(), Fault>
    ensures { result ≡ may_stand earlier.now line.now }
{
    let SimLine::Begins(begun) = line else {
        return Ok(());
    };
    if has_begun(earlier, *begun) {
        return Err(Fault::Name);
    }
    if !are_begun(earlier) {
        return Err(Fault::Order);
    }
    Ok(())
}

// Whether some line says how this point or section begins.
fn has_begun(lines: &[SimLine], begun: Begun) -> bool
    ensures { result ≡ list_any (begins_same begun) lines.now }
{
    lines.iter().any(|line| begins_same(begun, line))
}

// Whether each line says how a point or a section begins.
fn are_begun(lines: &[SimLine]) -> bool
    ensures { result ≡ list_all is_begun lines.now }
{
    lines.iter().all(|line| is_begun(line))
}

// Whether a line says how this point or section begins.
fn begins_same(begun: Begun, line: &SimLine) -> bool
    ensures { result ≡ begins_same begun line.now }
{
    match line {
        SimLine::Begins(other) => name_same(begun, *other),
        _ => false,
    }
}

// Whether a line says how a point or a section begins.
fn is_begun(line: &SimLine) -> bool
    ensures { result ≡ is_begun line.now }
{
    matches!(line, SimLine::Begins(_))
}

// Whether both name the same point, or the same section.
fn name_same(one: Begun, other: Begun) -> bool
    ensures { result ≡ name_same one other }
{
    match (one, other) {
        (Begun::Point { point, .. }, Begun::Point { point: same, .. }) => point.0 == same.0,
        (Begun::Section { section, .. }, Begun::Section { section: same, .. }) => {
            section.0 == same.0
        }
        _ => false,
    }
}
