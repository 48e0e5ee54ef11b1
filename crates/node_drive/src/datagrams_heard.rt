//! The datagrams of a round.

ghost use Rattle.std.specs.Prelude.{◌≡◌, ◌≤◌, ◌++◌, ℕ, Bool, List, length, map, true, IfOk, OnErr, OnOk};
ghost use Rattle.node_drive.specs.Calls.{Arrival, Calls, CallsCut};
ghost use Rattle.node_drive.specs.Drives.{AreHeard, EndsDatagrams, Performs, Stops, Timed, datagram_in};
ghost use Rattle.node_drive.specs.Inside.{OneDatagram, OneDatagramCut, standing_of};
ghost use Rattle.node_drive.specs.Rounds.{Coming, all_come, datagram, is_taken};

use crate::course::Course;
use crate::datagrams_sent::release;
use crate::fault::NodeFault;
use crate::node::NodeMachine;
use crate::outside::{Arrived, NextDatagram, Outside};
use crate::step::perform;
use node_lines::NodeId;
use std::alloc::Global;

/// How many datagrams a round takes at most.
const MOST_DATAGRAMS: usize = 64;

/// The datagrams that have come, each at a reading taken after it came. Where one may be too old, it is thrown away with those that
/// wait after it.
pub(crate) fn hear_datagrams<N: NodeMachine, O: Outside>(
    alloc: Global,
    node: &mut N,
    course: &mut Course,
    outside: &mut O,
) -> Result<(), NodeFault>
    requires { (N.node node.old).reached ≤ (O.told outside.old).latest }
    ensures done { OnOk result ((datagrams : List (Timed Arrival)) × (ends : List (ℕ × Coming)) × (length datagrams ≤ 64) × AreHeard N.does datagrams (standing_of (N.node node.old) course.old) × EndsDatagrams (all_come N.does (map datagram_in datagrams) (standing_of (N.node node.old) course.old)).1.course.seen (length datagrams) ends × Performs N.does (map datagram_in datagrams ++ ends) (standing_of (N.node node.old) course.old) (standing_of (N.node node.new) course.new) (O.told outside.old) (O.told outside.new)) }
    ensures reached { OnOk result ((N.node node.new).reached ≤ (O.told outside.new).latest) }
    ensures stopped { OnErr result ((datagrams : List (Timed Arrival)) × (ends : List (ℕ × Coming)) × (length datagrams ≤ 64) × AreHeard N.does datagrams (standing_of (N.node node.old) course.old) × EndsDatagrams (all_come N.does (map datagram_in datagrams) (standing_of (N.node node.old) course.old)).1.course.seen (length datagrams) ends × Stops N.does (map datagram_in datagrams ++ ends) (standing_of (N.node node.old) course.old) (O.told outside.old) (O.told outside.new)) }
{
    for taken in 0..MOST_DATAGRAMS {
        if !hear_next(alloc, node, course, outside)? {
            return Ok(());
        }
    }
    Ok(())
}

/// The next datagram. It answers whether there was one that is heard.
fn hear_next<N: NodeMachine, O: Outside>(
    alloc: Global,
    node: &mut N,
    course: &mut Course,
    outside: &mut O,
) -> Result<bool, NodeFault>
    requires { (N.node node.old).reached ≤ (O.told outside.old).latest }
    ensures done { IfOk result (λ came. OneDatagram N.does came (standing_of (N.node node.old) course.old) (standing_of (N.node node.new) course.new) (O.told outside.old) (O.told outside.new)) }
    ensures reached { OnOk result ((N.node node.new).reached ≤ (O.told outside.new).latest) }
    ensures stopped { OnErr result (OneDatagramCut N.does (standing_of (N.node node.old) course.old) (O.told outside.old) (O.told outside.new)) }
{
    match outside.next_datagram() {
        NextDatagram::Came(arrived) => {
            let reading = outside.read_clock();
            course.note_reading(reading);
            if !course.is_heard(reading) {
                let thrown = outside.throw_away();
                course.note_thrown_away(thrown);
                return Ok(false);
            }
            hear_datagram(alloc, node, course, outside, reading, &arrived)?;
            release(course, outside);
            Ok(true)
        }
        NextDatagram::Empty => {
            course.note_empty();
            Ok(false)
        }
        NextDatagram::Failed => Ok(false),
    }
}

/// A datagram from the address of a partner comes to the node. All others are dropped, and counted.
fn hear_datagram<N: NodeMachine, O: Outside>(
    alloc: Global,
    node: &mut N,
    course: &mut Course,
    outside: &mut O,
    reading: u64,
    arrived: &Arrived,
) -> Result<(), NodeFault>
    requires { (N.node node.old).reached ≤ reading }
    ensures done { OnOk result ((kept : Bool) × Calls (O.told outside.old) (O.told outside.new) (datagram N.does reading kept arrived.now.origin arrived.now.bytes.items (standing_of (N.node node.old) course.old)).0) }
    ensures standing { OnOk result (standing_of (N.node node.new) course.new ≡ (datagram N.does reading true arrived.now.origin arrived.now.bytes.items (standing_of (N.node node.old) course.old)).1) }
    ensures reached { OnOk result ((N.node node.new).reached ≤ reading) }
    ensures stopped { OnErr result ((kept : Bool) × CallsCut (O.told outside.old) (O.told outside.new) (datagram N.does reading kept arrived.now.origin arrived.now.bytes.items (standing_of (N.node node.old) course.old)).0) }
{
    if !is_taken(node, arrived.origin.from) {
        course.note_stranger();
        return Ok(());
    }
    node.hear(alloc, reading, &arrived.bytes)?;
    perform(alloc, node, course, outside, reading)
}

/// Whether what comes from there is taken.
fn is_taken<N: NodeMachine>(node: &N, from: Option<NodeId>) -> bool
    ensures { result ≡ is_taken N.does from }
{
    match from {
        Some(from) => node.is_partner(from),
        None => false,
    }
}
