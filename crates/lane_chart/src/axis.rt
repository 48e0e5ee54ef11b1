//! The axis of true time.

use crate::marks::Marks;
use crate::scale::{LEFT, RIGHT, Window};
use drawing::{Anchor, Spot};
use rasta_core_link::MICROS;
use std::alloc::AllocError;

/// Where the axis lies.
const AXIS: i32 = 106;

/// How far marks of the axis lie apart at least, in units.
const APART: u64 = 90;

/// How many marks there are at most.
const MOST_MARKS: u64 = 20;

/// How far marks may lie apart, in milliseconds.
const STEPS: &[u64] = &[
    1,
    2,
    5,
    10,
    20,
    50,
    100,
    200,
    500,
    1000,
    2000,
    5000,
    10_000,
    20_000,
    50_000,
    100_000,
    200_000,
    500_000,
    1_000_000,
    2_000_000,
    5_000_000,
    10_000_000,
    20_000_000,
    50_000_000,
    100_000_000,
    200_000_000,
    500_000_000,
    1_000_000_000,
];

/// How far the marks lie apart, in microseconds.
fn step(window: Window) -> u64 {
    for millis in STEPS {
        let micros = millis.saturating_mul(MICROS);
        if window.units(micros) >= APART {
            return micros;
        }
    }
    u64::MAX
}

/// The first whole number of steps from a time on.
fn first_behind(time: u64, step: u64) -> u64 {
    let past = time.saturating_add(step.saturating_sub(1));
    past.checked_div(step).unwrap_or(0).saturating_mul(step)
}

/// Draws a mark of the axis, down to the end of the rows.
fn draw_mark(marks: &mut Marks, window: Window, time: u64, bottom: i32) -> Result<(), AllocError> {
    let x = window.place(time);
    let millis = time / MICROS;
    let words = format!(in marks.alloc; "{millis} ms")?;
    marks.upright_line("grid", x, AXIS, bottom)?;
    let at = Spot {
        x,
        y: AXIS.saturating_sub(4),
    };
    marks.text("time", at, Anchor::Middle, words.as_str())
}

/// Draws the axis, and its marks down to the end of the rows.
pub(crate) fn draw_axis(marks: &mut Marks, window: Window, bottom: i32) -> Result<(), AllocError> {
    marks.level_line("axis", LEFT, RIGHT, AXIS)?;
    let step = step(window);
    let first = first_behind(window.from, step);
    for number in 0..MOST_MARKS {
        let time = first.saturating_add(step.saturating_mul(number));
        if window.has(time) {
            draw_mark(marks, window, time, bottom)?;
        }
    }
    Ok(())
}
