//! Time for clocks that are true to one part in a thousand, give or take ten microseconds, between any two moments: the clocks
//! of real machines, however short the events are.

ghost use Rattle.std.specs.Prelude.{◌≡◌, ◌⊎◌, ℕ, ◌-◌, ◌<◌, true, List};
ghost use Rattle.rasta_core_spec.specs.Events.{Event, IsWithinDrift, May, MayRun, Start, happened, run, started};
ghost use Rattle.rasta_core_spec.specs.Names.{AreNames, Names};
ghost use Rattle.rasta_core_spec.specs.Run.{Ends, later};
ghost use Rattle.rasta_core_spec.specs.Safe.{AreSafe};
ghost use Rattle.rasta_core_spec.specs.TrueClocks.{GoesOff, GoesOffSince, IsAtOnce, IsOffSince, IsSteady, KeepTime, MayAllCome, Moment, Offset, moment_of, moment_on, offsets_after, set};
ghost use Rattle.rasta_core_spec.specs.identity.Role.{Role};
ghost use Rattle.rasta_core_spec.specs.identity.Role.TheVariants as role;
ghost use Rattle.rasta_core.specs.Invariant.{Timely, TimelyBy};
ghost use Rattle.rasta_core.specs.EachLink.{AreTimely, AreTimelyBy};
ghost use Rattle.rasta_core.specs.Links.{AreAtOnce, AreLinks, Links, LinksEvent, LinksStart, MayRunLinks, PassesFor, all_offsets_on, begun, happened_to, run_links, seen};
ghost use Rattle.rasta_core.specs.Nodes.{is_among, restarts_of};
ghost use Rattle.rasta_core_spec.specs.Given.{IsGiven};
ghost use Rattle.rasta_core_spec.specs.Newest.{IsNewest, IsUnused};
ghost use Rattle.rasta_core.specs.Ordered.{Ordered};
ghost use Rattle.rasta_core.specs.Worked.{IsWithinDriftAnew, fast_clock, fast_from, runaway};

use crate::{every_event_keeps_order, order_is_safe, time_keeps_order};
use rasta_core_spec::{read_was_written, written_is_read};

/// How far a clock is off between the moments after it and now. Where it is steady since both, it is off no further than
/// ten microseconds.
pub fn steady_clocks_are_off_little()
    ensures { (slow fast now : Moment) (old : Offset) (elapsed own : ℕ) → IsOffSince slow fast now old → IsSteady slow (moment_on elapsed own now)
        → IsSteady fast (moment_on elapsed own now) → GoesOffSince slow fast now old elapsed own }
{}

/// Two ends keep time as long as their clocks are off by no more than ten microseconds: at the beginning (*starts*), while time
/// passes (*passes*), and over every other event (*at_once*).
pub fn ends_keep_time_by_their_offsets()
    ensures starts { (names : Names) (start : Start) → AreNames names → TimelyBy names (λ who. set) (started names start) }
    ensures passes { (names : Names) (old new : Role → Offset) (elapsed of_client of_server : ℕ) (ends : Ends) → TimelyBy names old ends
        → GoesOff elapsed of_client (old role.Client) (new role.Client) → GoesOff elapsed of_server (old role.Server) (new role.Server)
        → TimelyBy names new (later elapsed of_client of_server ends) }
    ensures at_once { (names : Names) (offsets : Role → Offset) (event : Event) (ends : Ends) → AreNames names → TimelyBy names offsets ends → IsAtOnce event
        → May names event ends → TimelyBy names (offsets_after event offsets) (happened event ends) }
{
    written_is_read();
    read_was_written();
}

/// Time changes nothing of what was sent, given and entered, whatever the clocks do: an end's last connection (*newest*), what
/// it gave there (*given*), and that it has given and taken nothing without one (*unused*) are read off as before.
pub fn time_changes_no_connection()
    ensures newest { (elapsed of_client of_server : ℕ) (ends : Ends) (who : Role) → IsNewest who ends → IsNewest who (later elapsed of_client of_server ends) }
    ensures given { (names : Names) (elapsed of_client of_server : ℕ) (ends : Ends) (who : Role) → IsGiven names who ends
        → IsGiven names who (later elapsed of_client of_server ends) }
    ensures unused { (elapsed of_client of_server : ℕ) (ends : Ends) (who : Role) → IsUnused who ends → IsUnused who (later elapsed of_client of_server ends) }
{}

/// Each link of a world keeps time as long as its clocks are off by no more than ten microseconds: at the beginning
/// (*starts*), while time passes (*passes*), and over every list of other events (*at_once*).
pub fn links_keep_time_by_their_offsets()
    ensures starts { (count : ℕ) (names : ℕ → Names) (start : LinksStart) → AreLinks count names
        → AreTimelyBy count names (λ link who. set) (begun names start) }
    ensures passes { (count : ℕ) (names : ℕ → Names) (old new : ℕ → Role → Offset) (elapsed : ℕ) (of_clients of_servers : ℕ → ℕ) (links : Links)
        → AreTimelyBy count names old links
        → ((link : ℕ) → link < count → GoesOff elapsed (of_clients link) (old link role.Client) (new link role.Client)
        × GoesOff elapsed (of_servers link) (old link role.Server) (new link role.Server))
        → AreTimelyBy count names new (happened_to (PassesFor elapsed of_clients of_servers) links) }
    ensures at_once { (count : ℕ) (names : ℕ → Names) (offsets : ℕ → Role → Offset) (events : List LinksEvent) (links : Links) → AreLinks count names
        → AreTimelyBy count names offsets links → AreAtOnce events → MayRunLinks count names events links
        → AreTimelyBy count names (all_offsets_on events offsets) (run_links events links) }
    ensures timely { (count : ℕ) (names : ℕ → Names) (offsets : ℕ → Role → Offset) (links : Links) → AreTimelyBy count names offsets links
        → AreTimely count names links }
{
    ends_keep_time_by_their_offsets();
}

/// In events of a world in which no time passes, the clock of an end is set, or it and its offset stay (*stays*). It is set
/// where its node is made anew (*restarts*).
pub fn offsets_stay_or_are_set()
    ensures stays { (offsets : ℕ → Role → Offset) (events : List LinksEvent) (links : Links) (link : ℕ) (who : Role) → AreAtOnce events
        → (all_offsets_on events offsets link who ≡ set)
        ⊎ ((all_offsets_on events offsets link who ≡ offsets link who)
        × (moment_of who (seen link (run_links events links)) ≡ moment_of who (seen link links))) }
    ensures restarts { (who : Role) (clock : ℕ) (firsts : ℕ → ℕ) (numbers : List ℕ) (offsets : ℕ → Role → Offset) (link : ℕ)
        → is_among link numbers ≡ true → all_offsets_on (restarts_of who clock firsts numbers) offsets link who ≡ set }
{}

/// After every list of events over which both clocks keep time, the two ends keep time (*time*), are in order (*order*), and
/// are safe (*safe*).
pub fn true_clocks_keep_time()
    ensures time { (names : Names) (start : Start) (events : List Event) → AreNames names → MayAllCome names events (started names start)
        → KeepTime events (started names start) → Timely names (run events (started names start)) }
    ensures order { (names : Names) (start : Start) (events : List Event) → AreNames names → MayAllCome names events (started names start)
        → KeepTime events (started names start) → Ordered names (run events (started names start)) }
    ensures safe { (names : Names) (start : Start) (events : List Event) → AreNames names → MayAllCome names events (started names start)
        → KeepTime events (started names start) → AreSafe (run events (started names start)) }
{
    steady_clocks_are_off_little();
    ends_keep_time_by_their_offsets();
    every_event_keeps_order();
    time_keeps_order();
    order_is_safe();
}

/// A clock that runs 1 in 1000 fast over 20 ms, by events of 100 microseconds, keeps time (*keeps*), and so its link is safe
/// (*safe*). Event by event it doesn't keep within its drift (*refused*). Were slack given anew in each event, a clock could
/// run twice as fast as true time (*anew*): this keeps no time (*runs_away*).
pub fn a_fast_clock_keeps_time()
    ensures keeps { (names : Names) (start : Start) → KeepTime (fast_from 0 200) (started names start) }
    ensures safe { (names : Names) (start : Start) → AreNames names → AreSafe (run (fast_from 0 200) (started names start)) }
    ensures last { fast_clock 200 ≡ 20020 }
    ensures refused { IsWithinDrift 100 (fast_clock 10 - fast_clock 9) → ⊥ }
    ensures anew { IsWithinDriftAnew 1 2 }
    ensures runs_away { (names : Names) (start : Start) → KeepTime (runaway 20) (started names start) → ⊥ }
{
    true_clocks_keep_time();
}

/// Clocks that keep within one part in a thousand in each event keep time: so this is more general than what an event may be.
pub fn drift_by_events_keeps_time()
    ensures come { (names : Names) (events : List Event) (ends : Ends) → MayRun names events ends → MayAllCome names events ends }
    ensures time { (names : Names) (events : List Event) (ends : Ends) → MayRun names events ends → KeepTime events ends }
{}
