//! Two ends at work: they are given items in the rounds, come up, and hand over what they are given.

ghost use Rattle.std.specs.Prelude.{List, drop, length, suc, ℕ, ◌++◌, ◌+◌, ◌≡◌, ◌≤◌};
ghost use Rattle.rasta_core_spec.specs.Each.{Each};
ghost use Rattle.rasta_core_spec.specs.Events.{Event, MayRun, Start, started};
ghost use Rattle.rasta_core_spec.specs.Names.{AreNames, Names};
ghost use Rattle.rasta_core_spec.specs.Run.{later};
ghost use Rattle.rasta_core_recovery.specs.FirstRound.{BeginAtWork};
ghost use Rattle.rasta_core_recovery.specs.Rounds.{AreUp, Flow, comings, flow_after, good_round, own_work};
ghost use Rattle.rasta_core_recovery.specs.Work.{HandOver, HaveRoom, IsAtWork, LeavesOpen, StayBelow, recovery_rounds_at_work, work_round, work_rounds};

use crate::below::laws_below;

/// Good rounds are rounds at work, in which no end is given an item and none is closed.
pub fn good_rounds_are_at_work()
    ensures work { (names : Names) (f : Flow) → IsAtWork names f (comings (f.ends.time + 10000) (drop f.passed f.ends.sent) ++ own_work) }
    ensures stays_open { (f : Flow) → Each LeavesOpen (comings (f.ends.time + 10000) (drop f.passed f.ends.sent) ++ own_work) }
    ensures same { (f : Flow) → good_round f ≡ work_round (comings (f.ends.time + 10000) (drop f.passed f.ends.sent) ++ own_work) f }
{}

/// Two ends at work come up, too: whatever has happened to them before, and whatever items they are given meanwhile, both are up
/// after each round at work from the 1561st on, so for good 15.61 s after these rounds began. That is where nothing closes
/// an end in them, and no end comes to the limit of PDUs in a connection. In the first of them anything may come that was sent
/// before it, in any order, again and again, or never; and of what is said in it also what the client says, where that was in a connection before.
pub fn two_ends_at_work_come_up()
    ensures { (names : Names) (start : Start) (events : List Event) (passed : ℕ) (rounds : List (List Event)) → AreNames names → MayRun names events (started names start)
        → BeginAtWork names rounds (flow_after names start events passed) → Each (Each LeavesOpen) rounds → StayBelow rounds (flow_after names start events passed)
        → recovery_rounds_at_work ≤ length rounds
        → AreUp (work_rounds rounds (flow_after names start events passed)).ends }
{
    laws_below();
}

/// Two ends at work hand over what they are given: whatever has happened to them before, after each round at work from the 1561st
/// on each end has taken all that the other had given after the round before, in the connection that both are in; and after that
/// one the client was up. So nothing that is given is lost or waits for long, as long as nothing closes an end and none comes
/// to the limit of PDUs. In the first of these rounds the same may come.
pub fn two_ends_at_work_hand_over()
    ensures { (names : Names) (start : Start) (events : List Event) (passed : ℕ) (rounds : List (List Event)) (calls : List Event) → AreNames names
        → MayRun names events (started names start) → BeginAtWork names rounds (flow_after names start events passed) → Each (Each LeavesOpen) rounds
        → StayBelow rounds (flow_after names start events passed) → recovery_rounds_at_work ≤ suc (length rounds)
        → IsAtWork names (work_rounds rounds (flow_after names start events passed)) calls → Each LeavesOpen calls
        → HaveRoom calls (later 10000 10000 10000 (work_rounds rounds (flow_after names start events passed)).ends)
        → HandOver (work_rounds rounds (flow_after names start events passed)).ends (work_round calls (work_rounds rounds (flow_after names start events passed))).ends }
{
    laws_below();
}
