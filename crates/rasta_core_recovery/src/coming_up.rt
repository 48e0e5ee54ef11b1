//! Two ends come up, whatever has happened to them before, and stay so but for short gaps.

ghost use Rattle.std.specs.Prelude.{List, ℕ, ◌+◌, ◌<◌, ◌≤◌};
ghost use Rattle.rasta_core_spec.specs.Events.{Event, MayRun, Start, started};
ghost use Rattle.rasta_core_spec.specs.Names.{AreNames, Names};
ghost use Rattle.rasta_core_recovery.specs.Rounds.{AreUp, Flow, StayBelowLimit, calm_rounds, flow_after, gap_rounds, good_rounds, recovery_rounds};
ghost use Rattle.rasta_core_recovery.specs.WrongRounds.{NeverUp, RestsFor, asks_in_vain, asks_once, ends_at_limit, rounds_where};

use crate::below::laws_below;

/// Two ends come up whatever has happened to them before: after each good round from the 1561st on both are up, so for
/// good 15.61 s after the good rounds began. That is where no end comes to the limit of PDUs in a connection till then.
/// What was sent before the good rounds may come in the first of them, or never.
pub fn two_ends_come_up()
    ensures { (names : Names) (start : Start) (events : List Event) (passed n : ℕ) → AreNames names → MayRun names events (started names start)
        → recovery_rounds ≤ n → StayBelowLimit n (flow_after names start events passed)
        → AreUp (good_rounds n (flow_after names start events passed)).ends }
{
    laws_below();
}

/// Two ends that have come up are up again 6040 ms later at the latest, whenever one of them comes to the limit of PDUs in a
/// connection: so from a good round from the 1561st on, till which no end came to it, each good round is one of two that are up,
/// or has such a one at most 604 rounds after it.
pub fn gaps_are_short()
    ensures { (names : Names) (start : Start) (events : List Event) (passed m n : ℕ) → AreNames names → MayRun names events (started names start)
        → recovery_rounds ≤ m → StayBelowLimit m (flow_after names start events passed) → m ≤ n
        → (k : ℕ) × (k ≤ gap_rounds) × AreUp (good_rounds (k + n) (flow_after names start events passed)).ends }
{
    laws_below();
}

/// And gaps are rare. Where an end isn't up after a good round from the 1561st on, both are up after each round from 604 to
/// 64,000,000,000 after it: for more than 20 years.
pub fn gaps_are_rare()
    ensures { (names : Names) (start : Start) (events : List Event) (passed m n k : ℕ) → AreNames names → MayRun names events (started names start)
        → recovery_rounds ≤ m → StayBelowLimit m (flow_after names start events passed) → m ≤ n
        → (AreUp (good_rounds n (flow_after names start events passed)).ends → ⊥) → gap_rounds ≤ k → k < calm_rounds
        → AreUp (good_rounds (k + n) (flow_after names start events passed)).ends }
{
    laws_below();
}

/// Clients that go wrong, and are safe. One that asks once and never again is never up where its request was lost (*once*). Two ends
/// outside stay so for ever if the client never opens again after it closed at the limit of PDUs (*limit*).
pub fn wrong_clients_never_come_up()
    ensures once { (names : Names) → NeverUp names asks_once asks_in_vain }
    ensures limit { (n : ℕ) (f : Flow) → RestsFor ends_at_limit f → RestsFor ends_at_limit (rounds_where ends_at_limit n f) }
{}
