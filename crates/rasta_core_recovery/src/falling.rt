//! Nothing that an end sends in a connection falls after what it sent there before.

ghost use Rattle.std.specs.Prelude.{List};
ghost use Rattle.rasta_core_spec.specs.Events.{Event, May, MayRun, Start, happened, run, started};
ghost use Rattle.rasta_core_spec.specs.Names.{AreNames, Names};
ghost use Rattle.rasta_core_spec.specs.Run.{Ends};
ghost use Rattle.rasta_core.specs.Invariant.{Timely};
ghost use Rattle.rasta_core.specs.Ordered.{Ordered};
ghost use Rattle.rasta_core_recovery.specs.Falls.{NothingFalls};

use crate::below::laws_below;

/// Nothing falls: while two ends are in a connection, neither the stamps of what each has sent in it, nor the counts that it confirms, nor
/// the stamps that it returns fall from one of its datagrams to the next that may still be delivered; and each that its partner may still take
/// bears a stamp no older than the one that the partner keeps. So no PDU is stale for those that were sent before it. It is so at the
/// beginning (*starts*), every event keeps it (*kept*), and so it is after every list of events (*always*).
pub fn nothing_falls()
    ensures starts { (names : Names) (start : Start) → NothingFalls names (started names start) }
    ensures kept { (names : Names) (event : Event) (ends : Ends) → AreNames names → Timely names ends → Ordered names ends
        → May names event ends → NothingFalls names ends → NothingFalls names (happened event ends) }
    ensures always { (names : Names) (start : Start) (events : List Event) → AreNames names → MayRun names events (started names start)
        → NothingFalls names (run events (started names start)) }
{
    laws_below();
}
