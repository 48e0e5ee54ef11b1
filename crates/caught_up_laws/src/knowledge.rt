//! How old what an end doesn't know can be: whoever is caught up has taken all that its partner gave before.

ghost use Rattle.std.specs.Prelude.{List};
ghost use Rattle.rasta_core_spec.specs.Events.{Event, Start};
ghost use Rattle.rasta_core_spec.specs.Names.{AreNames, Names};
ghost use Rattle.rasta_core_spec.specs.identity.Role.{Role};
ghost use Rattle.caught_up_laws.specs.Knowledge.{KnowsAllBy, KnowsAllInTime, KnowsUntil};
ghost use Rattle.caught_up_laws.specs.Observer.{caught_up};

use crate::below::laws_below;

/// An end that is up and caught up has taken, in its connection, all that its partner had given at any moment at which the end's
/// own clock read 1800 ms less than now, or still less (*by_clock*), and all that it had given 1802 ms of true time ago, or before
/// (*in_time*). So it is after every list of events from two ends that were just created, whatever the network loses, and whoever
/// closes or is made anew meanwhile. Whether it is caught up or not, an end that is up has taken all that its partner had given
/// before the own clock read what it read 1800 ms before the end ceases to be caught up (*until*).
pub fn who_is_caught_up_knows_all()
    ensures by_clock { (who : Role) (names : Names) (start : Start) (earlier later : List Event) → AreNames names → KnowsAllBy caught_up who names start earlier later }
    ensures in_time { (who : Role) (names : Names) (start : Start) (earlier later : List Event) → AreNames names → KnowsAllInTime who names start earlier later }
    ensures until { (who : Role) (names : Names) (start : Start) (earlier later : List Event) → AreNames names → KnowsUntil who names start earlier later }
{
    laws_below();
}
