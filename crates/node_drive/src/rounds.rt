//! The rounds of a node's process.

ghost use Rattle.std.specs.Prelude.{◌≡◌, ◌≤◌, ◌-◌, ◌∷◌, [], ℕ, Bool, false, IfOk, OnErr, OnOk};
ghost use Rattle.node_drive.specs.Drives.{CutOff, IsRound, Performs, Ran, Round, Stops, in_round, is_over, opening};
ghost use Rattle.node_drive.specs.Inside.{standing_of};
ghost use Rattle.node_drive.specs.Rounds.{Ends, Tick};

use crate::course::Course;
use crate::datagrams_heard::hear_datagrams;
use crate::datagrams_sent::release;
use crate::fault::NodeFault;
use crate::lines_heard::hear_lines;
use crate::node::NodeMachine;
use crate::orders_written::say_all;
use crate::outside::Outside;
use crate::step::perform;
use std::alloc::Global;

/// Drives a node: round after round, up to and with the first that ticks `for_ms` later than `first`, which is the reading at which
/// the node was made, or after which the node has nothing more to do and its last order is in force. It answers the reading of the
/// last tick.
pub fn drive<N: NodeMachine, O: Outside>(
    alloc: Global,
    node: &mut N,
    course: &mut Course,
    outside: &mut O,
    first: u64,
    for_ms: u64,
) -> Result<u64, NodeFault>
    requires { (N.node node.old).reached ≤ (O.told outside.old).latest }
    ensures done { IfOk result (λ ticks. Ran N.does for_ms first ticks (standing_of (N.node node.old) course.old) (standing_of (N.node node.new) course.new) (O.told outside.old) (O.told outside.new)) }
    ensures reached { IfOk result (λ ticks. ticks ≤ (O.told outside.new).latest) }
    // So the node may be driven on.
    ensures kept { OnOk result ((N.node node.new).reached ≤ (O.told outside.new).latest) }
    // It ends with a fault exactly as it would have gone on without, but cut off.
    ensures stopped { OnErr result (CutOff N.does for_ms first (standing_of (N.node node.old) course.old) (O.told outside.old) (O.told outside.new)) }
{
    for _ in 0..u64::MAX {
        let ticks = round(alloc, node, course, outside)?;
        if is_over(node, course, ticks.saturating_sub(first), for_ms) {
            return Ok(ticks);
        }
    }
    Err(NodeFault::OutOfNumbers)
}

/// Whether a process ends after a round that ticked so many milliseconds after its beginning.
fn is_over<N: NodeMachine>(node: &N, course: &Course, passed: u64, for_ms: u64) -> bool
    ensures { (first ticks : ℕ) → passed ≡ ticks - first → result ≡ is_over N.does for_ms first ticks (standing_of (N.node node.now) course.now) }
{
    passed >= for_ms || (node.is_done() && course.is_settled())
}

/// A round: field lines first, then datagrams, a tick last. It answers the reading of its tick.
fn round<N: NodeMachine, O: Outside>(
    alloc: Global,
    node: &mut N,
    course: &mut Course,
    outside: &mut O,
) -> Result<u64, NodeFault>
    requires { (N.node node.old).reached ≤ (O.told outside.old).latest }
    ensures ticks { IfOk result (λ ticks. ticks ≤ (O.told outside.new).latest) }
    ensures done { IfOk result (λ ticks. (round : Round) × IsRound N.does (standing_of (N.node node.old) course.old) round × (round.closed ≡ false) × (round.ticks ≡ ticks) × Performs N.does (in_round round) (standing_of (N.node node.old) course.old) (standing_of (N.node node.new) course.new) (O.told outside.old) (O.told outside.new)) }
    ensures reached { OnOk result ((N.node node.new).reached ≤ (O.told outside.new).latest) }
    ensures stopped { OnErr result ((round : Round) × IsRound N.does (standing_of (N.node node.old) course.old) round × Stops N.does (in_round round) (standing_of (N.node node.old) course.old) (O.told outside.old) (O.told outside.new)) }
{
    begin_round(alloc, node, course, outside)?;
    hear_lines(alloc, node, course, outside)?;
    hear_datagrams(alloc, node, course, outside)?;
    tick(alloc, node, course, outside)
}

/// A round begins when it is due. An operator who began to listen is told all that stands.
fn begin_round<N: NodeMachine, O: Outside>(
    alloc: Global,
    node: &mut N,
    course: &mut Course,
    outside: &mut O,
) -> Result<(), NodeFault>
    requires { (N.node node.old).reached ≤ (O.told outside.old).latest }
    ensures done { OnOk result ((begins : ℕ) × (listened : Bool) × Performs N.does (opening begins listened) (standing_of (N.node node.old) course.old) (standing_of (N.node node.new) course.new) (O.told outside.old) (O.told outside.new)) }
    ensures reached { OnOk result ((N.node node.new).reached ≤ (O.told outside.new).latest) }
    ensures stopped { OnErr result ((begins : ℕ) × (listened : Bool) × Stops N.does (opening begins listened) (standing_of (N.node node.old) course.old) (O.told outside.old) (O.told outside.new)) }
{
    outside.rest();
    let begins = outside.read_clock();
    course.note_reading(begins);
    if !outside.has_listener() {
        return Ok(());
    }
    node.tell_all(alloc, begins)?;
    say_all(node, outside)?;
    Ok(())
}

/// The clock goes on.
fn tick<N: NodeMachine, O: Outside>(
    alloc: Global,
    node: &mut N,
    course: &mut Course,
    outside: &mut O,
) -> Result<u64, NodeFault>
    requires { (N.node node.old).reached ≤ (O.told outside.old).latest }
    ensures ticks { IfOk result (λ ticks. ticks ≤ (O.told outside.new).latest) }
    ensures done { IfOk result (λ ticks. (ends : Ends) × Performs N.does ((ticks, Tick ends) ∷ []) (standing_of (N.node node.old) course.old) (standing_of (N.node node.new) course.new) (O.told outside.old) (O.told outside.new)) }
    ensures reached { OnOk result ((N.node node.new).reached ≤ (O.told outside.new).latest) }
    ensures stopped { OnErr result ((ticks : ℕ) × (ends : Ends) × Stops N.does ((ticks, Tick ends) ∷ []) (standing_of (N.node node.old) course.old) (O.told outside.old) (O.told outside.new)) }
{
    let ticks = outside.read_clock();
    course.note_reading(ticks);
    node.tick(alloc, ticks)?;
    perform(alloc, node, course, outside, ticks)?;
    release(course, outside);
    Ok(ticks)
}
