//! What an end says in rounds at work confirms what it has taken, and each says something again and again.

ghost use Rattle.std.specs.Prelude.{List, length, ℕ, ◌++◌, ◌<◌, ◌≤◌};
ghost use Rattle.rasta_core_spec.specs.Each.{Each};
ghost use Rattle.rasta_core_spec.specs.Events.{Event, MayRun, Start, started};
ghost use Rattle.rasta_core_spec.specs.Names.{AreNames, Names};
ghost use Rattle.rasta_core_spec.specs.State.{confirmed_items};
ghost use Rattle.rasta_core_recovery.specs.Replies.{Accepts, ClientSpeaks, SpeaksAlone, StaysAtWork, in_round, speaking_rounds, with_reply};
ghost use Rattle.rasta_core_recovery.specs.Rounds.{flow_after};
ghost use Rattle.rasta_core_recovery.specs.Work.{AreAtWork, LeavesOpen, StayBelow, recovery_rounds_at_work, work_round, work_rounds};

use crate::below::laws_below;

/// And what the other end has taken is confirmed to the client, where the server says something: whatever has happened to them before,
/// where in a round at work from the 1562nd on the server accepts an item, then after the next round the client's link holds for
/// confirmed all that the server had taken as it accepted that.
pub fn two_ends_at_work_confirm()
    ensures { (names : Names) (start : Start) (events : List Event) (passed : ℕ) (rounds : List (List Event)) (front : List Event) (item : List ℕ) (rest calls : List Event) → AreNames names
        → MayRun names events (started names start) → AreAtWork names rounds (flow_after names start events passed) → Each (Each LeavesOpen) rounds
        → StayBelow rounds (flow_after names start events passed) → recovery_rounds_at_work ≤ length rounds
        → StaysAtWork names (work_rounds rounds (flow_after names start events passed)) (with_reply front item rest)
        → StaysAtWork names (work_round (with_reply front item rest) (work_rounds rounds (flow_after names start events passed))) calls
        → Accepts (in_round front (work_rounds rounds (flow_after names start events passed))).server
        → (in_round front (work_rounds rounds (flow_after names start events passed))).server.link.taken
        ≤ confirmed_items (work_round calls (work_round (with_reply front item rest) (work_rounds rounds (flow_after names start events passed)))).ends.client.link }
{
    laws_below();
}

/// And what the client has taken is confirmed to the server, where the client says something: whatever has happened to them before,
/// where in a round at work from the 1562nd on the client says something after some calls, then after the next round the server's link
/// holds for confirmed all that the client had taken after those calls.
pub fn clients_at_work_confirm()
    ensures { (names : Names) (start : Start) (events : List Event) (passed : ℕ) (rounds : List (List Event)) (front rest calls : List Event) → AreNames names
        → MayRun names events (started names start) → AreAtWork names rounds (flow_after names start events passed) → Each (Each LeavesOpen) rounds
        → StayBelow rounds (flow_after names start events passed) → recovery_rounds_at_work ≤ length rounds
        → StaysAtWork names (work_rounds rounds (flow_after names start events passed)) (front ++ rest)
        → StaysAtWork names (work_round (front ++ rest) (work_rounds rounds (flow_after names start events passed))) calls
        → ClientSpeaks front rest (work_rounds rounds (flow_after names start events passed))
        → (in_round front (work_rounds rounds (flow_after names start events passed))).client.link.taken
        ≤ confirmed_items (work_round calls (work_round (front ++ rest) (work_rounds rounds (flow_after names start events passed)))).ends.server.link }
{
    laws_below();
}

/// And the client says something in each 30 rounds, so in each 300 ms: whatever has happened to them before, after a round at work from the
/// 1561st on and 30 more it has sent more PDUs in its connection than before these.
pub fn clients_at_work_speak()
    ensures { (names : Names) (start : Start) (events : List Event) (passed : ℕ) (rounds more : List (List Event)) → AreNames names
        → MayRun names events (started names start) → AreAtWork names rounds (flow_after names start events passed) → Each (Each LeavesOpen) rounds
        → StayBelow rounds (flow_after names start events passed) → recovery_rounds_at_work ≤ length rounds
        → AreAtWork names more (work_rounds rounds (flow_after names start events passed)) → Each (Each LeavesOpen) more
        → StayBelow more (work_rounds rounds (flow_after names start events passed)) → speaking_rounds ≤ length more
        → (work_rounds rounds (flow_after names start events passed)).ends.client.link.sent
        < (work_rounds more (work_rounds rounds (flow_after names start events passed))).ends.client.link.sent }
{
    laws_below();
}

/// A client that is given nothing confirms all at once, by a heartbeat: where it says something in the second of two rounds at work, from the
/// 1562nd on, and was given nothing in both, the server hears nothing in that round, and so holds no more for confirmed after it (*still*);
/// and after the next it holds for confirmed all that the client had taken after that round (*all*).
pub fn quiet_clients_confirm_at_once()
    ensures still { (names : Names) (start : Start) (events : List Event) (passed : ℕ) (rounds : List (List Event)) (one two : List Event) → AreNames names
        → MayRun names events (started names start) → AreAtWork names rounds (flow_after names start events passed) → Each (Each LeavesOpen) rounds
        → StayBelow rounds (flow_after names start events passed) → recovery_rounds_at_work ≤ length rounds
        → SpeaksAlone names (work_rounds rounds (flow_after names start events passed)) one two
        → confirmed_items (work_round two (work_round one (work_rounds rounds (flow_after names start events passed)))).ends.server.link ≤ confirmed_items (work_round one (work_rounds rounds (flow_after names start events passed))).ends.server.link }
    ensures all { (names : Names) (start : Start) (events : List Event) (passed : ℕ) (rounds : List (List Event)) (one two three : List Event) → AreNames names
        → MayRun names events (started names start) → AreAtWork names rounds (flow_after names start events passed) → Each (Each LeavesOpen) rounds
        → StayBelow rounds (flow_after names start events passed) → recovery_rounds_at_work ≤ length rounds
        → SpeaksAlone names (work_rounds rounds (flow_after names start events passed)) one two
        → StaysAtWork names (work_round two (work_round one (work_rounds rounds (flow_after names start events passed)))) three
        → (work_round two (work_round one (work_rounds rounds (flow_after names start events passed)))).ends.client.link.taken
        ≤ confirmed_items (work_round three (work_round two (work_round one (work_rounds rounds (flow_after names start events passed))))).ends.server.link }
{
    laws_below();
}

/// What a server takes in a round at work confirms what its client had taken by the end of the round before last, already in the midst of that
/// round: whatever has happened to the two before, where the server has taken an item in the second of two rounds at work, from the 1562nd
/// on, after some calls of it, then its link holds for confirmed after these all that the client had taken before the first.
pub fn what_servers_take_at_work_confirms()
    ensures { (names : Names) (start : Start) (events : List Event) (passed : ℕ) (rounds : List (List Event)) (one front rest : List Event) → AreNames names
        → MayRun names events (started names start) → AreAtWork names rounds (flow_after names start events passed) → Each (Each LeavesOpen) rounds
        → StayBelow rounds (flow_after names start events passed) → recovery_rounds_at_work ≤ length rounds
        → StaysAtWork names (work_rounds rounds (flow_after names start events passed)) one
        → StaysAtWork names (work_round one (work_rounds rounds (flow_after names start events passed))) (front ++ rest)
        → (work_round one (work_rounds rounds (flow_after names start events passed))).ends.server.link.taken
        < (in_round front (work_round one (work_rounds rounds (flow_after names start events passed)))).server.link.taken
        → (work_rounds rounds (flow_after names start events passed)).ends.client.link.taken
        ≤ confirmed_items (in_round front (work_round one (work_rounds rounds (flow_after names start events passed)))).server.link }
{
    laws_below();
}

/// A server says something in each 30 rounds, so in each 300 ms, as its client does: whatever has happened to the two before, after a round
/// at work from the 1561st on and 30 more it has sent more PDUs in its connection than before these.
pub fn servers_at_work_speak()
    ensures { (names : Names) (start : Start) (events : List Event) (passed : ℕ) (rounds more : List (List Event)) → AreNames names
        → MayRun names events (started names start) → AreAtWork names rounds (flow_after names start events passed) → Each (Each LeavesOpen) rounds
        → StayBelow rounds (flow_after names start events passed) → recovery_rounds_at_work ≤ length rounds
        → AreAtWork names more (work_rounds rounds (flow_after names start events passed)) → Each (Each LeavesOpen) more
        → StayBelow more (work_rounds rounds (flow_after names start events passed)) → speaking_rounds ≤ length more
        → (work_rounds rounds (flow_after names start events passed)).ends.server.link.sent
        < (work_rounds more (work_rounds rounds (flow_after names start events passed))).ends.server.link.sent }
{
    laws_below();
}

/// And what it says confirms what it has taken, whatever it is: whatever has happened to the two before, where the server says something in a
/// round at work from the 1562nd on, then after the next round the client's link holds for confirmed all that the server had taken before.
pub fn servers_at_work_confirm()
    ensures { (names : Names) (start : Start) (events : List Event) (passed : ℕ) (rounds : List (List Event)) (one two : List Event) → AreNames names
        → MayRun names events (started names start) → AreAtWork names rounds (flow_after names start events passed) → Each (Each LeavesOpen) rounds
        → StayBelow rounds (flow_after names start events passed) → recovery_rounds_at_work ≤ length rounds
        → StaysAtWork names (work_rounds rounds (flow_after names start events passed)) one
        → StaysAtWork names (work_round one (work_rounds rounds (flow_after names start events passed))) two
        → (work_rounds rounds (flow_after names start events passed)).ends.server.link.sent < (work_round one (work_rounds rounds (flow_after names start events passed))).ends.server.link.sent
        → (work_rounds rounds (flow_after names start events passed)).ends.server.link.taken
        ≤ confirmed_items (work_round two (work_round one (work_rounds rounds (flow_after names start events passed)))).ends.client.link }
{
    laws_below();
}
