//! The order between two ends, with all that was sent.

ghost use Rattle.std.specs.Prelude.{List, false, ℕ};
ghost use Rattle.rasta_core_spec.specs.Events.{Event, MayRun, Start, run, started};
ghost use Rattle.rasta_core_spec.specs.Names.{AreNames, Names};
ghost use Rattle.rasta_core_spec.specs.identity.Role.{Role};
ghost use Rattle.caught_up_laws.specs.Chain.{Chained};
ghost use Rattle.caught_up_laws.specs.Exact.{Exact, pdus_of};

use crate::below::laws_below;

/// After every list of events the two ends are in order, and the flow of each is just what it sent in their connection.
pub fn order_is_exact()
    ensures { (names : Names) (start : Start) (events : List Event) → AreNames names → MayRun names events (started names start)
        → Exact names (run events (started names start)) }
{
    laws_below();
}

/// Whatever happens, what an end says in a connection repeats an item only after the beginning of a retransmission, or after
/// another repetition.
pub fn items_are_repeated_in_retransmissions()
    ensures { (names : Names) (start : Start) (events : List Event) → AreNames names → MayRun names events (started names start)
        → (who : Role) (connection : ℕ) → Chained false (pdus_of names who connection (run events (started names start)).sent) }
{
    laws_below();
}
