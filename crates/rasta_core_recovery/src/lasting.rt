//! What was sent long ago is confirmed; and what two ends at work gave before is, as long as they stay in their connection.

ghost use Rattle.std.specs.Prelude.{List, length, ℕ, ◌≤◌};
ghost use Rattle.rasta_core_spec.specs.Each.{Each};
ghost use Rattle.rasta_core_spec.specs.Events.{Event, MayRun, Start, run, started};
ghost use Rattle.rasta_core_spec.specs.Names.{AreNames, Names};
ghost use Rattle.rasta_core_spec.specs.Run.{end_of};
ghost use Rattle.rasta_core_spec.specs.identity.Role.{Role};
ghost use Rattle.rasta_core_recovery.specs.FirstRound.{BeginAtWork};
ghost use Rattle.rasta_core_recovery.specs.LongAgo.{AreStillIn, AsksNothingAgain, StayIn, WaitsAsGiven, WaitsAsGivenSince, WaitsSince, lasting_rounds};
ghost use Rattle.rasta_core_recovery.specs.Rounds.{flow_after};
ghost use Rattle.rasta_core_recovery.specs.Work.{LeavesOpen, StayBelow, work_rounds};

use crate::below::laws_below;

/// What waits was sent lately: of the PDUs that an end had sent 1800 ms ago or before, none has an item any more that waits to be confirmed, as long
/// as both ends stay in the connection in which they were then. So it is after every list of events, and at both ends. For what waits is younger
/// than the own stamp that came back last: the PDU that returned that confirmed all that its sender had taken, and so what was sent before (*client*,
/// *server*). An item that was asked for again counts from its last repetition. Where nothing was asked for again since, no more items wait than the
/// end has given since: what it gave 1800 ms ago or before is confirmed (*given*).
pub fn what_was_sent_long_ago_is_confirmed()
    ensures client { (names : Names) (start : Start) (events more : List Event) → AreNames names → MayRun names events (started names start)
        → MayRun names more (run events (started names start)) → StayIn (run events (started names start)) (run more (run events (started names start)))
        → WaitsSince (run events (started names start)).client.link (run more (run events (started names start))).client.link }
    ensures server { (names : Names) (start : Start) (events more : List Event) → AreNames names → MayRun names events (started names start)
        → MayRun names more (run events (started names start)) → StayIn (run events (started names start)) (run more (run events (started names start)))
        → WaitsSince (run events (started names start)).server.link (run more (run events (started names start))).server.link }
    ensures given { (names : Names) (start : Start) (events more : List Event) (who : Role) → AreNames names → MayRun names events (started names start)
        → MayRun names more (run events (started names start)) → StayIn (run events (started names start)) (run more (run events (started names start)))
        → Each (AsksNothingAgain names who) more
        → WaitsAsGiven (end_of who (run events (started names start))) (end_of who (run more (run events (started names start)))) }
{
    laws_below();
}

/// Where two ends at work stay in one connection, what they gave in it before these rounds is confirmed: whatever has happened to them before, after
/// the 600th of these rounds, and after each later one, no more items of an end wait than it was given since the rounds began. It is so at both ends,
/// also where one was asked in the first of these rounds to send again what waits. In the first of them anything may come that was sent before it. Both
/// stay in the connection where they are in it after the last of these rounds, and it was the server's last before the first.
pub fn what_was_given_before_is_confirmed()
    ensures { (names : Names) (start : Start) (events : List Event) (passed : ℕ) (rounds : List (List Event)) (who : Role) → AreNames names → MayRun names events (started names start)
        → BeginAtWork names rounds (flow_after names start events passed) → Each (Each LeavesOpen) rounds → StayBelow rounds (flow_after names start events passed)
        → lasting_rounds ≤ length rounds → AreStillIn (run events (started names start)) (work_rounds rounds (flow_after names start events passed)).ends
        → WaitsAsGivenSince (end_of who (run events (started names start))) (end_of who (work_rounds rounds (flow_after names start events passed)).ends) }
{
    laws_below();
}
