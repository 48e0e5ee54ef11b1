//! The lines of a round.

ghost use Rattle.std.specs.Prelude.{◌≡◌, ◌≤◌, ◌++◌, ℕ, Bool, List, length, map, IfOk, OnErr, OnOk};
ghost use Rattle.node_drive.specs.Drives.{Performs, Stops, Timed, line_in, lines_end};
ghost use Rattle.node_drive.specs.Inside.{OneLine, OneLineCut, closed_end, standing_of};

use crate::course::Course;
use crate::datagrams_sent::release;
use crate::fault::NodeFault;
use crate::node::NodeMachine;
use crate::outside::{NextLine, Outside};
use crate::step::hear_line;
use std::alloc::Global;

/// How many lines a round takes at most.
const MOST_LINES: usize = 64;

/// The lines that have come, each at a reading taken after it came.
pub(crate) fn hear_lines<N: NodeMachine, O: Outside>(
    alloc: Global,
    node: &mut N,
    course: &mut Course,
    outside: &mut O,
) -> Result<(), NodeFault>
    requires { (N.node node.old).reached ≤ (O.told outside.old).latest }
    ensures done { OnOk result ((lines : List (Timed (List ℕ))) × (length lines ≤ 64) × Performs N.does (map line_in lines ++ lines_end (length lines)) (standing_of (N.node node.old) course.old) (standing_of (N.node node.new) course.new) (O.told outside.old) (O.told outside.new)) }
    ensures reached { OnOk result ((N.node node.new).reached ≤ (O.told outside.new).latest) }
    ensures stopped { OnErr result ((lines : List (Timed (List ℕ))) × (closed : Bool) × (length lines ≤ 64) × Stops N.does (map line_in lines ++ closed_end closed) (standing_of (N.node node.old) course.old) (O.told outside.old) (O.told outside.new)) }
{
    for taken in 0..MOST_LINES {
        if !hear_next(alloc, node, course, outside)? {
            return Ok(());
        }
    }
    Ok(())
}

/// The next line, at a reading taken after it came. It answers whether there was one.
fn hear_next<N: NodeMachine, O: Outside>(
    alloc: Global,
    node: &mut N,
    course: &mut Course,
    outside: &mut O,
) -> Result<bool, NodeFault>
    requires { (N.node node.old).reached ≤ (O.told outside.old).latest }
    ensures done { IfOk result (λ came. OneLine N.does came (standing_of (N.node node.old) course.old) (standing_of (N.node node.new) course.new) (O.told outside.old) (O.told outside.new)) }
    ensures reached { OnOk result ((N.node node.new).reached ≤ (O.told outside.new).latest) }
    ensures stopped { OnErr result (OneLineCut N.does (standing_of (N.node node.old) course.old) (O.told outside.old) (O.told outside.new)) }
{
    let line = outside.next_line(alloc)?;
    match line {
        NextLine::Text(text) => {
            let reading = outside.read_clock();
            course.note_reading(reading);
            hear_line(alloc, node, course, outside, reading, text.as_str())?;
            release(course, outside);
            Ok(true)
        }
        NextLine::Nothing => Ok(false),
        NextLine::Closed => Err(NodeFault::LinesEnded),
    }
}
