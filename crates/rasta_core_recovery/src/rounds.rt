//! Good rounds are events like any others.

ghost use Rattle.std.specs.Prelude.{ℕ, ◌≡◌};
ghost use Rattle.rasta_core_spec.specs.Events.{MayRun, run};
ghost use Rattle.rasta_core_spec.specs.Names.{Names};
ghost use Rattle.rasta_core_recovery.specs.Rounds.{Flow, events_of, good_rounds};

/// Good rounds are events that may happen to two ends, one after another. So whatever is true after every list of events is true
/// after good rounds.
pub fn good_rounds_may_happen()
    ensures may { (names : Names) (n : ℕ) (f : Flow) → MayRun names (events_of n f) f.ends }
    ensures lead { (n : ℕ) (f : Flow) → (good_rounds n f).ends ≡ run (events_of n f) f.ends }
{}
