//! How a plan is laid on paper: as it lies, or in strips where it is too wide.

use crate::extent::{EVERYWHERE, Extent, reach_of_marks, reach_of_things};
use crate::thing::Thing;
use crate::units::{Units, count};
use drawing::{Frame, Mark, Strip};
use std::alloc::AllocError;

/// The widest picture.
const WIDEST: Units = Units(1600);
/// How much of its neighbour each strip shows.
const OVERLAP: Units = Units(60);
/// The free room round a plan.
const MARGIN: Units = Units(12);

/// Adds a strip below those that are there, and tells how far down the next one lies.
fn add_strip(strips: &mut Vec<Strip>, down: Units, shows: Extent) -> Result<Units, AllocError> {
    let frame = shows.frame();
    let at = Frame {
        left: 0,
        top: down.0,
        ..frame
    };
    strips.push(Strip { at, shows: frame })?;
    Ok(down + shows.height())
}

/// A part of the plan as wide as the paper, cut to its height.
fn window(things: &[Thing], left: Units) -> Extent {
    let right = left + WIDEST;
    let reach = reach_of_things(things, false, left, right).grown(MARGIN);
    Extent {
        left,
        top: reach.top,
        right,
        bottom: reach.bottom,
    }
}

/// Adds the strips that show all of a plan and what stands below it, and tells how far down they come.
fn add_strips(
    strips: &mut Vec<Strip>,
    things: &[Thing],
    all: Extent,
    below: Extent,
) -> Result<Units, AllocError> {
    let step = WIDEST - OVERLAP;
    let mut down = Units(0);
    for number in 0..1000 {
        let begin = all.left + step.times(count(number));
        if (begin + OVERLAP).0 < all.right.0 {
            down = add_strip(strips, down, window(things, begin))?;
        }
    }
    add_strip(strips, down, below)
}

/// Lays a plan on paper, which it tells: adds the strips, if the plan is too wide.
pub(crate) fn lay_paper(
    strips: &mut Vec<Strip>,
    things: &[Thing],
    notes: &[Mark],
) -> Result<Frame, AllocError> {
    let (left, right) = EVERYWHERE;
    let below = reach_of_things(things, true, left, right).with(reach_of_marks(notes, left, right));
    let all = reach_of_things(things, false, left, right)
        .with(below)
        .grown(MARGIN);
    if all.width().0 <= WIDEST.0 {
        return Ok(all.frame());
    }
    let down = add_strips(strips, things, all, below.grown(MARGIN))?;
    Ok(Frame {
        left: 0,
        top: 0,
        width: WIDEST.0.unsigned_abs(),
        height: down.0.unsigned_abs(),
    })
}
