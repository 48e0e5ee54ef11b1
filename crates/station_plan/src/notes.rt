//! What stands below a plan beside its detection controllers: what the marks mean.

use crate::element_marks::moved;
use crate::marks::Marks;
use crate::shown::{Shown, route_words};
use crate::units::Units;
use control_table::Layout;
use control_table::layout::Route;
use drawing::{Anchor, Spot};
use std::alloc::AllocError;

/// The distance of lines.
pub(crate) const LINES: Units = Units(17);

/// What is drawn before the words of a line.
#[derive(Clone, Copy)]
enum Sample {
    /// A line of this class.
    Line(&'static str),
    /// The leg of a point that protects a flank, with its guard.
    Guard,
    /// The lamps of a signal, by their classes.
    Lamps(&'static str, &'static str),
}

/// What marks a route, after its own line.
const ROUTE_LINES: &[(Sample, &str)] = &[
    (
        Sample::Guard,
        "point that protects its flank, and the leg to which it has to lie",
    ),
    (
        Sample::Line("sample approach-sample"),
        "section of its approach",
    ),
];

/// What marks what is seen.
const SEEN_LINES: &[(Sample, &str)] = &[
    (Sample::Line("sample occupied-sample"), "occupied section"),
    (
        Sample::Line("sample unknown-sample"),
        "section of which nothing is known",
    ),
    (Sample::Line("sample set-sample"), "route that is set"),
    (Sample::Lamps("lamp red", "lamp"), "stop"),
    (Sample::Lamps("lamp", "lamp green"), "proceed"),
    (Sample::Lamps("lamp yellow", "lamp yellow"), "slow"),
    (
        Sample::Line("sample off-sample"),
        "leg to which a point doesn't lie; dashed while it has no end position",
    ),
];

/// Draws what the marks of a route and of what is seen mean, from a line on.
pub(crate) fn draw_legend(
    marks: &mut Marks,
    layout: &Layout,
    shown: &Shown,
    mut at: Spot,
) -> Result<(), AllocError> {
    if let Some(route) = shown.route(layout) {
        draw_route(marks, layout, route, at)?;
        at = moved(at, 0, LINES.times(3).0);
    }
    if shown.seen.is_some() {
        draw_lines(marks, at, SEEN_LINES)?;
    }
    Ok(())
}

/// Draws what the marks of a route mean, after what is said of it.
fn draw_route(
    marks: &mut Marks,
    layout: &Layout,
    route: &Route,
    at: Spot,
) -> Result<(), AllocError> {
    let words = route_words(marks.alloc, layout, route)?;
    let sample = Sample::Line("sample path-sample");
    draw_line(marks, at, &sample, words.as_str())?;
    draw_lines(marks, moved(at, 0, LINES.0), ROUTE_LINES)
}

/// Draws lines of the legend, each below the one before.
fn draw_lines(marks: &mut Marks, at: Spot, lines: &[(Sample, &str)]) -> Result<(), AllocError> {
    let mut next = at;
    for (sample, words) in lines {
        draw_line(marks, next, sample, words)?;
        next = moved(next, 0, LINES.0);
    }
    Ok(())
}

/// Draws a line of the legend: a sample, and what it means.
fn draw_line(marks: &mut Marks, at: Spot, sample: &Sample, words: &str) -> Result<(), AllocError> {
    draw_sample(marks, at, sample)?;
    marks.text("label", moved(at, 30, 0), Anchor::Start, words)
}

fn draw_sample(marks: &mut Marks, at: Spot, sample: &Sample) -> Result<(), AllocError> {
    match sample {
        Sample::Line(class) => marks.line(class, moved(at, 0, -4), moved(at, 22, -4)),
        Sample::Guard => {
            let guard = moved(at, 4, -4);
            marks.line("flank-sample", guard, moved(at, 22, -4))?;
            marks.circle("guard", guard, 4)
        }
        Sample::Lamps(first, second) => {
            marks.circle(first, moved(at, 8, -4), 4)?;
            marks.circle(second, moved(at, 16, -4), 4)
        }
    }
}
