//! Two ends come up whatever comes in the first of the good rounds.

ghost use Rattle.std.specs.Prelude.{List, suc, ℕ, ◌≤◌};
ghost use Rattle.rasta_core_spec.specs.Ends.{Sent};
ghost use Rattle.rasta_core_spec.specs.Events.{Event, MayRun, Start, started};
ghost use Rattle.rasta_core_spec.specs.Names.{AreNames, Names};
ghost use Rattle.rasta_core_recovery.specs.FirstRound.{ComeFirst, StayBelowLimitFrom, round_of};
ghost use Rattle.rasta_core_recovery.specs.Rounds.{AreUp, flow_after, good_rounds, recovery_rounds};

use crate::below::laws_below;

/// And so they do whatever comes in the first of these rounds (`round_of`), of all that was sent by then: in any order, again and again,
/// or never. Also what an end says as something comes to it may come in it at once. The good rounds after it are counted with it: after
/// each from the 1561st on both ends are up.
pub fn two_ends_come_up_whatever_comes_first()
    ensures { (names : Names) (start : Start) (events : List Event) (due : List Sent) (n : ℕ) → AreNames names → MayRun names events (started names start)
        → ComeFirst names due (flow_after names start events 0) → recovery_rounds ≤ suc n → StayBelowLimitFrom due n (flow_after names start events 0)
        → AreUp (good_rounds n (round_of due (flow_after names start events 0))).ends }
{
    laws_below();
}
