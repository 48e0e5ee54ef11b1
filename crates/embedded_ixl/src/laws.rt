//! What the calls of a loop come to: laws, as functions that do nothing.

ghost use Rattle.std.specs.Prelude.{◌≡◌, ◌≤◌, ◌<◌, ◌+◌, ◌↔◌, ℕ, false, true, is_ok, Ok, Err, None, Some, List};
ghost use Rattle.ixl_state.specs.State.{StateView};
ghost use Rattle.ixl_state.specs.ixl_spec.Due.{Admissible};
ghost use Rattle.ixl_state.specs.ixl_spec.Refusals.{IsRequestRefused};
ghost use Rattle.ixl_state.specs.ixl_spec.Step.{Commands, all_clocked};
ghost use Rattle.ixl_state.specs.ixl_spec.View.{authority_from};
ghost use Rattle.ixl_state.specs.ixl_spec.declared.command.Command.TheVariants as commands;
ghost use Rattle.ixl_state.specs.ixl_spec.declared.command.Refusal.{Refusal};
ghost use Rattle.ixl_state.specs.ixl_table.Table.{SitedTable};
ghost use Rattle.ixl_state.specs.layout.declared.ids.RouteId.{RouteId};
ghost use Rattle.embedded_ixl.specs.Calls.{Call, Hears, Takes, after_calls, answer_to, leaves_by};
ghost use Rattle.embedded_ixl.specs.Causes.{HasCause};
ghost use Rattle.embedded_ixl.specs.Embedded.{EmbeddedIxlState, cause_in, new_state, reply_to, started};
ghost use Rattle.embedded_ixl.specs.Inputs.{Rise, inputs_by, state_after};
ghost use Rattle.embedded_ixl.specs.Leaving.{LeavesRightly, WaitedBriefly};
ghost use Rattle.embedded_ixl.specs.Worked.{Worked};
ghost use Rattle.embedded_ixl.specs.declared.call_refusal.CallRefusal.{CallRefusal};

use ixl_state::ixl_spec::request_is_accepted_where_admissible;

/// Whatever is called, the interlocking is what came of it by the inputs of the calls that were accepted, one after another, and their
/// readings don't fall.
#[tactic(auto, using(crate::proofs::Runs::state_is_what_came, crate::proofs::Runs::readings_rise))]
pub fn calls_are_inputs()
    ensures state { (calls : List Call) (it : EmbeddedIxlState) → (after_calls calls it).interlocking.state ≡ state_after (inputs_by calls it) it.interlocking.state }
    ensures rise { (calls : List Call) (it : EmbeddedIxlState) → Rise it.latest (inputs_by calls it) }
{}

/// Each datagram that leaves, whatever is called, is one that the last step handed out, whole. It leaves less than 500 ms after the
/// reading of the step, and none leaves in the first 2000 ms.
#[tactic(auto, using(crate::proofs::Started::leaves_rightly))]
pub fn what_leaves_is_fresh()
    ensures { (state : StateView) (begun : ℕ) (calls : List Call) (now : ℕ) (datagram : List ℕ) → leaves_by (Takes now) (after_calls calls (started state begun)) ≡ Some datagram
        → LeavesRightly (started state begun) calls now datagram × (begun + 2000 ≤ now) }
{}

/// Bytes are heard, whatever was called before, only where they have waited for at most 400 ms: so much before at most the clock
/// was read, and then a receive found nothing. None are heard in the first 2000 ms.
#[tactic(auto, using(crate::proofs::Started::waited_briefly))]
pub fn what_is_heard_waited_briefly()
    ensures { (state : StateView) (begun : ℕ) (calls : List Call) (now : ℕ) (bytes : List ℕ) → answer_to (Hears now bytes) (after_calls calls (started state begun)) ≡ Ok tt
        → WaitedBriefly (started state begun) calls now × (begun + 2000 ≤ now) }
{}

/// A call is refused only where the cause of that refusal is there, and always where the cause of one is there.
#[tactic(auto, using(crate::proofs::Causes::has_cause, crate::proofs::Causes::refuses))]
pub fn a_refusal_has_its_cause()
    ensures cause { (call : Call) (it : EmbeddedIxlState) (why : CallRefusal) → answer_to call it ≡ Err why → HasCause why call it }
    ensures refused { (call : Call) (it : EmbeddedIxlState) (why : CallRefusal) → HasCause why call it → is_ok (answer_to call it) ≡ false }
{}

/// The interlocking accepts a request exactly where it is admissible once the clock has acted, and refuses it for the first cause
/// that is given.
#[tactic(auto, using(crate::proofs::Requests::cause_is))]
pub fn a_request_is_accepted_where_admissible()
    ensures accepted { (now : ℕ) (route : RouteId) (it : EmbeddedIxlState) → cause_in (reply_to now (Commands (commands.Request route)) it) ≡ None
        ↔ Admissible now it.interlocking.state.sited.table (all_clocked now it.interlocking.state.ixl) route.0 }
    ensures refused { (now : ℕ) (route : RouteId) (it : EmbeddedIxlState) (cause : Refusal) → cause_in (reply_to now (Commands (commands.Request route)) it) ≡ Some cause
        → IsRequestRefused now it.interlocking.state.sited.table (all_clocked now it.interlocking.state.ixl) route.0 cause }
{
    request_is_accepted_where_admissible();
}

/// One that has just started gives no signal authority.
#[tactic(auto, using(crate::proofs::JustStarted::gives_nothing))]
pub fn one_that_starts_gives_nothing()
    ensures { (sited : SitedTable) (first now signal : ℕ) → authority_from signal 0 sited.table.rows (new_state sited first now).ixl.routes ≡ None }
{}

/// Small loops, worked by hand.
#[tactic(auto, using(crate::proofs::WorkedLoops::worked))]
pub fn loops_are_as_worked_by_hand()
    ensures { (state : StateView) → Worked state }
{}
