//! The datagrams of a step, which wait until its line is in force.

ghost use Rattle.std.specs.Prelude.{◌≡◌, ◌∷◌, ◌++◌, [], false, map, IfNone, IfSome, OnOk};
ghost use Rattle.node_drive.specs.Calls.{Calls};
ghost use Rattle.node_drive.specs.Inside.{waiting_of_code};
ghost use Rattle.node_drive.specs.Rounds.{released, sent, with_datagrams};
ghost use Rattle.node_drive.specs.Waiting.{is_free, is_fresh, leaving, unless_stale, waiting_of, waiting_on, waits_on};

use crate::budget::LONGEST_WAIT;
use crate::course::{Course, Delayed};
use crate::fault::NodeFault;
use crate::node::NodeMachine;
use crate::outside::Outside;
use std::collections::VecDeque;

/// The datagrams that a node hands out wait after the last line.
pub(crate) fn take_datagrams<N: NodeMachine>(
    node: &mut N,
    course: &mut Course,
    reading: u64,
) -> Result<(), NodeFault>
    ensures course { OnOk result (course.new ≡ with_datagrams reading (N.node node.old).handed course.old) }
    ensures node { OnOk result (N.node node.new ≡ record (N.node node.old) { handed = [] }) }
{
    let behind = course.written;
    add_datagrams(node, &mut course.waiting, behind, reading)
}

fn add_datagrams<N: NodeMachine>(
    node: &mut N,
    waiting: &mut VecDeque<Delayed>,
    behind: u64,
    since: u64,
) -> Result<(), NodeFault>
    ensures waiting { OnOk result (map waiting_of_code waiting.new.items ≡ map waiting_of_code waiting.old.items ++ waiting_of behind since (N.node node.old).handed) }
    ensures node { OnOk result (N.node node.new ≡ record (N.node node.old) { handed = [] }) }
{
    while let Some(one) = node.take_datagram() {
        let delayed = Delayed {
            behind,
            since,
            to: one.to,
            datagram: one.datagram,
        };
        waiting.push_back(delayed)?;
    }
    Ok(())
}

/// Those that needn't wait any more are sent, in their order, and those that waited too long are dropped. The clock is read just
/// before, where any waits. It answers the reading.
pub(crate) fn release<O: Outside>(course: &mut Course, outside: &mut O) -> u64
    ensures done { Calls (O.told outside.old) (O.told outside.new) (released result course.old).0 }
    ensures course { course.new ≡ (released result course.old).1 }
{
    if course.has_none_waiting() {
        return 0;
    }
    let reading = outside.read_clock();
    course.note_reading(reading);
    let in_force = course.in_force;
    send_free(&mut course.waiting, in_force, outside, reading);
    reading
}

/// The same of those that wait, where this line is in force.
fn send_free<O: Outside>(
    waiting: &mut VecDeque<Delayed>,
    in_force: u64,
    outside: &mut O,
    reading: u64,
)
    ensures done { Calls (O.told outside.old) (O.told outside.new) (sent (leaving reading in_force (map waiting_of_code waiting.old.items))) }
    ensures waiting { map waiting_of_code waiting.new.items ≡ waiting_on reading in_force (map waiting_of_code waiting.old.items) }
{
    while let Some(one) = take_first(waiting, in_force, reading) {
        send_fresh(&one, outside, reading);
    }
}

/// Takes out the first of those that wait, unless that one waits on.
fn take_first(waiting: &mut VecDeque<Delayed>, in_force: u64, reading: u64) -> Option<Delayed>
    ensures some { IfSome result (λ one. (waiting.old.items ≡ one ∷ waiting.new.items) × (waits_on reading in_force (waiting_of_code one) ≡ false)) }
    ensures none { IfNone result ((leaving reading in_force (map waiting_of_code waiting.old.items) ≡ []) × (map waiting_of_code waiting.new.items ≡ waiting_on reading in_force (map waiting_of_code waiting.old.items))) }
{
    let Some(first) = waiting.front() else {
        return None;
    };
    if waits_on(reading, in_force, first) {
        return None;
    }
    waiting.pop_front()
}

/// Sends a datagram, unless it waited too long.
fn send_fresh<O: Outside>(one: &Delayed, outside: &mut O, reading: u64)
    ensures { Calls (O.told outside.old) (O.told outside.new) (sent (unless_stale reading (waiting_of_code one.now))) }
{
    if !is_fresh(reading, one) {
        return;
    }
    outside.send(one.to, &one.datagram);
}

/// Whether a datagram may still leave, but not yet.
fn waits_on(reading: u64, in_force: u64, one: &Delayed) -> bool
    ensures { result ≡ waits_on reading in_force (waiting_of_code one.now) }
{
    is_fresh(reading, one) && !is_free(in_force, one)
}

/// Whether a datagram may still leave at a reading.
fn is_fresh(reading: u64, one: &Delayed) -> bool
    ensures { result ≡ is_fresh reading (waiting_of_code one.now) }
{
    reading < one.since || reading - one.since < LONGEST_WAIT
}

/// Whether the line of its step is in force.
fn is_free(in_force: u64, one: &Delayed) -> bool
    ensures { result ≡ is_free in_force (waiting_of_code one.now) }
{
    one.behind <= in_force
}
