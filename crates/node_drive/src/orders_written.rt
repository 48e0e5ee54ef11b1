//! The lines of a step, and the order that they end with.

ghost use Rattle.std.specs.Prelude.{◌≡◌, ◌∷◌, [], ℕ, suc, map, IfOk, OnErr, OnOk, Some};
ghost use Rattle.node_drive.specs.Calls.{Calls, CallsCut, Reads, Writes};
ghost use Rattle.node_drive.specs.Beginning.{last_line};
ghost use Rattle.node_drive.specs.Rounds.{count, line_of, new_order, with_order};

use crate::course::Course;
use crate::fault::NodeFault;
use crate::node::NodeMachine;
use crate::outside::Outside;
use node_lines::{Order, OrderLine};
use std::alloc::Global;

/// Writes the lines that a node tells, the first one first.
pub(crate) fn say_all<N: NodeMachine, O: Outside>(
    node: &mut N,
    outside: &mut O,
) -> Result<(), NodeFault>
    ensures done { OnOk result (Calls (O.told outside.old) (O.told outside.new) (map Writes (N.node node.old).said)) }
    ensures node { OnOk result (N.node node.new ≡ record (N.node node.old) { said = [] }) }
    ensures stopped { OnErr result (CallsCut (O.told outside.old) (O.told outside.new) (map Writes (N.node node.old).said)) }
{
    while let Some(line) = node.take_saying() {
        outside.write_line(line.as_str())?;
    }
    Ok(())
}

/// Writes an order with the next number, where it isn't that of the last line.
pub(crate) fn write_order<O: Outside>(
    alloc: Global,
    course: &mut Course,
    outside: &mut O,
    reading: u64,
    order: Option<Order>,
) -> Result<(), NodeFault>
    ensures done { OnOk result (Calls (O.told outside.old) (O.told outside.new) (line_of (count (new_order course.old.order order) course.old.written) reading (new_order course.old.order order))) }
    ensures course { OnOk result (course.new ≡ with_order (new_order course.old.order order) course.old) }
    ensures stopped { OnErr result (CallsCut (O.told outside.old) (O.told outside.new) (line_of (count (new_order course.old.order order) course.old.written) reading (new_order course.old.order order))) }
{
    let Some(order) = course.order_to_write(order) else {
        return Ok(());
    };
    let number = write_next(alloc, course.written(), outside, reading, order)?;
    course.note_order(number, order);
    Ok(())
}

/// The equipment is told to rest, if it does anything. Nothing that waits leaves.
pub fn finish<O: Outside>(
    alloc: Global,
    course: &Course,
    outside: &mut O,
    rest: Option<Order>,
) -> Result<(), NodeFault>
    ensures done { OnOk result ((reading : ℕ) × Calls (O.told outside.old) (O.told outside.new) (Reads reading ∷ last_line reading rest course.now)) }
    ensures stopped { OnErr result ((reading : ℕ) × CallsCut (O.told outside.old) (O.told outside.new) (Reads reading ∷ last_line reading rest course.now)) }
{
    let reading = outside.read_clock();
    let Some(order) = rest else {
        return Ok(());
    };
    write_next(alloc, course.written(), outside, reading, order)?;
    Ok(())
}

/// Writes an order after so many, and answers its number.
fn write_next<O: Outside>(
    alloc: Global,
    written: u64,
    outside: &mut O,
    reading: u64,
    order: Order,
) -> Result<u64, NodeFault>
    ensures number { IfOk result (λ number. number ≡ suc written) }
    ensures done { OnOk result (Calls (O.told outside.old) (O.told outside.new) (line_of (suc written) reading (Some order))) }
    ensures stopped { OnErr result (CallsCut (O.told outside.old) (O.told outside.new) (line_of (suc written) reading (Some order))) }
{
    let Some(number) = written.checked_add(1) else {
        return Err(NodeFault::OutOfNumbers);
    };
    let line = OrderLine {
        number,
        reading,
        order,
    };
    let text = format!(in alloc; "{line}")?;
    outside.write_line(text.as_str())?;
    Ok(number)
}
