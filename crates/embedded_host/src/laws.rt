//! What the calls of a loop come to: laws, as functions that do nothing.

ghost use Rattle.std.specs.Prelude.{◌≡◌, ◌≤◌, ◌+◌, ◌++◌, ℕ, false, true, is_ok, Ok, Err, Some, List};
ghost use Rattle.rasta_core.specs.identity.Identity.{Identity};
ghost use Rattle.object_host.specs.Host.{HostState};
ghost use Rattle.object_host.specs.Hosted.{new_host};
ghost use Rattle.embedded_host.specs.Calls.{Call, Hears, Takes, after_calls, answer_to, leaves_by};
ghost use Rattle.embedded_host.specs.Causes.{HasCause};
ghost use Rattle.embedded_host.specs.Embedded.{EmbeddedState, started};
ghost use Rattle.embedded_host.specs.Inputs.{Rise, host_after, inputs_by};
ghost use Rattle.embedded_host.specs.Leaving.{IsHandedOutBy, LeavesRightly, WaitedBriefly};
ghost use Rattle.embedded_host.specs.Orders.{FollowsABeginning, followed_after, up_to_done};
ghost use Rattle.embedded_host.specs.Worked.{Worked};
ghost use Rattle.embedded_host.specs.declared.refusal.Refusal.{Refusal};

use object_host::Controller;

/// Whatever is called, the controller is what came of it by the inputs of the calls that were accepted, one after another, and their
/// readings don't fall.
#[tactic(auto, using(crate::proofs::Runs::host_is_what_came, crate::proofs::Runs::readings_rise))]
pub fn calls_are_inputs<C: Controller>()
    ensures host { (calls : List Call) (it : EmbeddedState C) → (after_calls C.behaviour calls it).hosted.host ≡ host_after C.behaviour (inputs_by C.behaviour calls it) it.hosted.host }
    ensures rise { (calls : List Call) (it : EmbeddedState C) → Rise it.latest (inputs_by C.behaviour calls it) }
{}

/// Each datagram that leaves, whatever is called, is one that the last step handed out. The order of that step was put in force
/// after it, the datagram leaves less than 500 ms after the reading of the step, and none leaves in the first 2000 ms.
#[tactic(auto, using(crate::proofs::Started::leaves_rightly))]
pub fn what_leaves_is_in_force_and_fresh<C: Controller>()
    ensures { (host : HostState C) (begun : ℕ) (calls : List Call) (now : ℕ) (datagram : List ℕ) → leaves_by (Takes now) (after_calls C.behaviour calls (started host begun)) ≡ Some datagram
        → LeavesRightly C.behaviour (started host begun) calls now datagram × (begun + 2000 ≤ now) }
{}

/// So it is of a step that counts, whatever is called later: it was handed out as an input came by the calls up to the last `done`.
pub fn what_leaves_counts<C: Controller>()
    ensures { (host : HostState C) (begun : ℕ) (calls later : List Call) (now : ℕ) (datagram : List ℕ) → leaves_by (Takes now) (after_calls C.behaviour calls (started host begun)) ≡ Some datagram
        → IsHandedOutBy C.behaviour (inputs_by C.behaviour (up_to_done (calls ++ later)) (started host begun)) host now datagram }
{}

/// Bytes are heard, whatever was called before, only where they have waited for at most 400 ms: so much before at most the clock
/// was read, and then a receive found nothing. None are heard in the first 2000 ms.
#[tactic(auto, using(crate::proofs::Started::waited_briefly))]
pub fn what_is_heard_waited_briefly<C: Controller>()
    ensures { (host : HostState C) (begun : ℕ) (calls : List Call) (now : ℕ) (bytes : List ℕ) → answer_to (Hears now bytes) (after_calls C.behaviour calls (started host begun)) ≡ Ok tt
        → WaitedBriefly C.behaviour (started host begun) calls now × (begun + 2000 ≤ now) }
{}

/// A call is refused only where the cause of that refusal is there, and always where the cause of one is there.
#[tactic(auto, using(crate::proofs::Causes::has_cause, crate::proofs::Causes::refuses))]
pub fn a_refusal_has_its_cause<C: Controller>()
    ensures cause { (call : Call) (it : EmbeddedState C) (why : Refusal) → answer_to call it ≡ Err why → HasCause why call it }
    ensures refused { (call : Call) (it : EmbeddedState C) (why : Refusal) → HasCause why call it → is_ok (answer_to call it) ≡ false }
{}

/// What the equipment follows, where it does from `done` on what the controller has it do then, is the order of a controller to which
/// came what came up to the last `done`. So it is at first, where the equipment follows the order of the start.
#[tactic(auto, using(crate::proofs::Followed::follows_a_beginning))]
pub fn the_equipment_follows_a_beginning<C: Controller>()
    ensures { (calls : List Call) (it : EmbeddedState C) → FollowsABeginning C.behaviour it calls (followed_after C.behaviour calls it it.hosted.host.object) }
{}

/// It is the order of a controller to which came what came by the calls up to the last `done`, and nothing else.
pub fn the_equipment_follows_what_counts<C: Controller>()
    ensures { (calls : List Call) (it : EmbeddedState C) → followed_after C.behaviour calls it it.hosted.host.object ≡ (host_after C.behaviour (inputs_by C.behaviour (up_to_done calls) it) it.hosted.host).object }
{}

/// One that has just started has its equipment rest at every reading: stop, no drive.
#[tactic(auto, using(crate::proofs::Resting::rests))]
pub fn one_that_starts_rests<C: Controller>()
    ensures { (identity : Identity) (own_name peer_name : List ℕ) (first_sequence_number now version reading : ℕ) (object : C)
        → C.behaviour.is_restrictive reading (started (new_host C.behaviour identity own_name peer_name first_sequence_number now object version) now).hosted.host.object ≡ true }
{}

/// Small loops, worked by hand.
#[tactic(auto, using(crate::proofs::WorkedLoops::worked))]
pub fn loops_are_as_worked_by_hand<C: Controller>()
    ensures { (host : HostState C) → Worked C.behaviour host }
{}
