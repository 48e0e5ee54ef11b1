//! What a process does after each step of its node, and with a line.

ghost use Rattle.std.specs.Prelude.{◌≡◌, ◌≤◌, [], Bool, List, None, OnErr, OnOk};
ghost use Rattle.node_drive.specs.Calls.{Calls, CallsCut};
ghost use Rattle.node_drive.specs.Kinds.{node_kept};
ghost use Rattle.node_drive.specs.Rounds.{kept_by, line, new_order, performed, put_in_force, steps, with_datagrams, with_order};
ghost use Rattle.node_drive.specs.Inside.{standing_of};

use crate::course::Course;
use crate::datagrams_sent::take_datagrams;
use crate::fault::NodeFault;
use crate::node::{LineMeaning, NodeMachine};
use crate::orders_written::{say_all, write_order};
use crate::outside::Outside;
use node_lines::Fault;
use std::alloc::Global;

/// What a step asks for is kept, before a line of it is told: what is told as accepted outlives the process.
fn keep<N: NodeMachine, O: Outside>(node: &mut N, outside: &mut O) -> Result<(), NodeFault>
    ensures done { OnOk result ((kept : Bool) × Calls (O.told outside.old) (O.told outside.new) (kept_by kept (N.node node.old).keeps) × (N.node node.new ≡ node_kept kept (N.node node.old))) }
    ensures stopped { OnErr result ((kept : Bool) × Calls (O.told outside.old) (O.told outside.new) (kept_by kept (N.node node.old).keeps)) }
{
    let Some(all) = node.to_keep() else {
        return Ok(());
    };
    let kept = outside.keep(all);
    node.note_kept(kept)?;
    Ok(())
}

/// What a step has left is performed: what it asks for is kept, its lines are written, and its datagrams wait.
pub(crate) fn perform<N: NodeMachine, O: Outside>(
    alloc: Global,
    node: &mut N,
    course: &mut Course,
    outside: &mut O,
    reading: u64,
) -> Result<(), NodeFault>
    ensures done { OnOk result ((kept : Bool) × Calls (O.told outside.old) (O.told outside.new) (performed reading kept (N.node node.old).keeps (N.node node.old).said (N.does.order (N.node node.old).state) (N.node node.old).handed course.old).0) }
    // How far the process has come doesn't depend on what was answered.
    ensures course { OnOk result (course.new ≡ with_datagrams reading (N.node node.old).handed (with_order (new_order course.old.order (N.does.order (N.node node.old).state)) course.old)) }
    ensures node { OnOk result (N.node node.new ≡ record (N.node node.old) { handed = []; keeps = None; said = [] }) }
    ensures stopped { OnErr result ((kept : Bool) × CallsCut (O.told outside.old) (O.told outside.new) (performed reading kept (N.node node.old).keeps (N.node node.old).said (N.does.order (N.node node.old).state) (N.node node.old).handed course.old).0) }
{
    keep(node, outside)?;
    say_all(node, outside)?;
    write_order(alloc, course, outside, reading, node.order())?;
    take_datagrams(node, course, reading)?;
    Ok(())
}

/// An order that was written is in force, and so is each before it. A number that no line has is a fault.
fn put_in_force<O: Outside>(course: &mut Course, outside: &mut O, number: u64)
    ensures done { Calls (O.told outside.old) (O.told outside.new) (put_in_force number course.old).0 }
    ensures course { course.new ≡ (put_in_force number course.old).1 }
{
    if number > course.written() {
        outside.complain(course.heard(), Fault::Number);
        return;
    }
    course.note_in_force(number);
}

/// The inputs of a line come to the node one after another, each as a step of its own.
fn step_through<N: NodeMachine, O: Outside>(
    alloc: Global,
    node: &mut N,
    course: &mut Course,
    outside: &mut O,
    reading: u64,
) -> Result<(), NodeFault>
    requires { (N.node node.old).reached ≤ reading }
    ensures done { OnOk result ((kept : List Bool) × Calls (O.told outside.old) (O.told outside.new) (steps N.does reading kept (N.node node.old).left (standing_of (N.node node.old) course.old)).0) }
    ensures standing { OnOk result (standing_of (N.node node.new) course.new ≡ (steps N.does reading [] (N.node node.old).left (standing_of (N.node node.old) course.old)).1) }
    ensures reached { OnOk result ((N.node node.new).reached ≤ reading) }
    ensures stopped { OnErr result ((kept : List Bool) × CallsCut (O.told outside.old) (O.told outside.new) (steps N.does reading kept (N.node node.old).left (standing_of (N.node node.old) course.old)).0) }
{
    while node.step_on(alloc, reading)? {
        perform(alloc, node, course, outside, reading)?;
    }
    Ok(())
}

/// A line comes at a reading.
pub(crate) fn hear_line<N: NodeMachine, O: Outside>(
    alloc: Global,
    node: &mut N,
    course: &mut Course,
    outside: &mut O,
    reading: u64,
    text: &str,
) -> Result<(), NodeFault>
    requires { (N.node node.old).reached ≤ reading }
    ensures done { OnOk result ((kept : List Bool) × Calls (O.told outside.old) (O.told outside.new) (line N.does reading kept text.now (standing_of (N.node node.old) course.old)).0) }
    ensures standing { OnOk result (standing_of (N.node node.new) course.new ≡ (line N.does reading [] text.now (standing_of (N.node node.old) course.old)).1) }
    ensures reached { OnOk result ((N.node node.new).reached ≤ reading) }
    ensures stopped { OnErr result ((kept : List Bool) × CallsCut (O.told outside.old) (O.told outside.new) (line N.does reading kept text.now (standing_of (N.node node.old) course.old)).0) }
{
    let Some(heard) = course.hear_line() else {
        return Err(NodeFault::OutOfNumbers);
    };
    let told = node.take_line(alloc, reading, text)?;
    match told {
        LineMeaning::InForce(number) => {
            put_in_force(course, outside, number);
            Ok(())
        }
        LineMeaning::Comes => {
            say_all(node, outside)?;
            step_through(alloc, node, course, outside, reading)
        }
        LineMeaning::Faulty(fault) => {
            outside.complain(heard, fault);
            Ok(())
        }
    }
}
