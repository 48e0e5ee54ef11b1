//! The text of a file of closings.

ghost use Rattle.std.specs.Prelude.{◌≡◌, ◌++◌, IfOk, OnOk, string_bytes};
ghost use Rattle.closings_file.specs.Texts.{heading, line_of, lines_counted, lines_of, number_line, writing};

use closings::{AuxiliaryCounts, Closings, Layout, Named, Thing};
use std::alloc::{AllocError, Global};

/// What stands before the digest.
pub(crate) const LAYOUT: &str = "layout ";

/// What stands before the number of releases that were accepted.
pub(crate) const RELEASES: &str = "counted release ";

/// What stands before the number of opens that were accepted.
pub(crate) const OPENS: &str = "counted open ";

/// What stands before the words of a closed thing.
pub(crate) const CLOSED: &str = "closed ";

/// The last line.
pub(crate) const END: &str = "end";

/// The first line of the file of a layout of this digest.
pub(crate) fn heading(alloc: Global, digest: &str) -> Result<String, AllocError>
    ensures { IfOk result (λ text. string_bytes text ≡ heading digest.now) }
{
    let mut text = String::from_str(alloc, LAYOUT)?;
    text.push_str(digest)?;
    text.push_str("\n")?;
    Ok(text)
}

/// Appends the line of a number.
fn add_number(text: &mut String, alloc: Global, label: &str, number: u64) -> Result<(), AllocError>
    ensures { OnOk result (string_bytes text.new ≡ string_bytes text.old ++ number_line label.now number) }
{
    let digits = format!(in alloc; "{number}")?;
    text.push_str(label)?;
    text.push_str(digits.as_str())?;
    text.push_str("\n")
}

/// Appends the lines of the auxiliary commands that were counted.
fn add_counts(text: &mut String, alloc: Global, counts: AuxiliaryCounts) -> Result<(), AllocError>
    ensures { OnOk result (string_bytes text.new ≡ string_bytes text.old ++ lines_counted counts) }
{
    add_number(text, alloc, RELEASES, counts.releases)?;
    add_number(text, alloc, OPENS, counts.opens)
}

/// Appends the line of a closed thing.
fn add_line(layout: &Layout, text: &mut String, thing: Thing) -> Result<(), AllocError>
    ensures { OnOk result (string_bytes text.new ≡ string_bytes text.old ++ line_of layout.now thing) }
{
    text.push_str(CLOSED)?;
    Named::One(thing).write(layout, text)?;
    text.push_str("\n")
}

/// Appends the lines of closed things.
fn add_lines(layout: &Layout, text: &mut String, things: &[Thing]) -> Result<(), AllocError>
    ensures { OnOk result (string_bytes text.new ≡ string_bytes text.old ++ lines_of layout.now things.now) }
{
    for thing in things {
        add_line(layout, text, *thing)?;
    }
    Ok(())
}

/// The text of a file with this first line, where so many auxiliary commands were counted and these things are closed.
pub(crate) fn write(
    alloc: Global,
    layout: &Layout,
    head: &str,
    counts: AuxiliaryCounts,
    closings: &Closings,
) -> Result<String, AllocError>
    ensures { IfOk result (λ text. string_bytes text ≡ writing layout.now head.now counts closings.now) }
{
    let mut text = String::from_str(alloc, head)?;
    add_counts(&mut text, alloc, counts)?;
    let things = closings.things(alloc, layout)?;
    add_lines(layout, &mut text, &things)?;
    text.push_str(END)?;
    text.push_str("\n")?;
    Ok(text)
}
