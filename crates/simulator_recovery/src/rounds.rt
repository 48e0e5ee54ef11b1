//! Good rounds of a station, and flows of them.

ghost use Rattle.std.specs.Prelude.{◌≡◌, List, length, replicate, None, ◌≤◌, ◌<◌, false, ◌∷◌};
ghost use Rattle.ixl_table.specs.Table.{IsTableOf};
ghost use Rattle.simulator_spec.specs.First.{IsOutsetOf, Outset, world_at};
ghost use Rattle.simulator_spec.specs.Flow.{Flowing, round};
ghost use Rattle.simulator_spec.specs.ixl_spec.View.{is_holding};
ghost use Rattle.simulator_spec.specs.layout.Once.{Once};
ghost use Rattle.simulator_spec.specs.layout.Station.{IsStation};
ghost use Rattle.simulator_spec.specs.rasta_core.Each.{Each};
ghost use Rattle.simulator_spec.specs.rasta_core.Ends.{reading_of};
ghost use Rattle.simulator_spec.specs.simulator_event.declared.event.Event.{Event};
ghost use Rattle.simulator_safety.specs.Reached.{IsReached};
ghost use Rattle.simulator_recovery.specs.Flows.{IsFlow};
ghost use Rattle.simulator_recovery.specs.Rounds.{all_tried, good_rounds, AllCome, HasTime, IsWork, LeavesFresh, clocks_of, hold_rounds, rounds_later};

use crate::below::laws_below;

/// A station begins its flow: where a station was just started, however it lies, and no point was found driven yet, it is a flow of the
/// station (`IsFlow`), of which the laws over good rounds speak (*first*). So a session begins with one. And wherever some list of events
/// has led a flow may begin so (*reached*), however many datagrams it has gone past.
pub fn a_station_begins_its_flow()
    ensures first { (flowing : Flowing) (outset : Outset) → Once flowing.state.sited.site → IsStation flowing.state.sited.site → IsTableOf flowing.state.sited.site flowing.state.sited.table
        → IsOutsetOf flowing.state.sited.site outset → flowing.state.run ≡ world_at flowing.state.sited.site flowing.state.sited.table outset
        → flowing.drives ≡ replicate (length flowing.state.sited.site.points) None → IsFlow flowing }
    ensures reached { (flowing : Flowing) → Once flowing.state.sited.site → IsStation flowing.state.sited.site → IsTableOf flowing.state.sited.site flowing.state.sited.table
        → IsReached flowing.state.sited.site flowing.state.sited.table flowing.state.run
        → flowing.drives ≡ replicate (length flowing.state.sited.site.points) None → IsFlow flowing }
{}

/// A flow of a station stays one: over a good round (*round*), over events that are tried, of whatever kind (*events*), and over good rounds
/// with events between them (*rounds*).
pub fn flows_stay_flows()
    ensures round { (flowing : Flowing) → IsFlow flowing → IsFlow (round flowing) }
    ensures events { (events : List Event) (flowing : Flowing) → IsFlow flowing → IsFlow (all_tried events flowing) }
    ensures rounds { (between : List (List Event)) (flowing : Flowing) → IsFlow flowing → IsFlow (good_rounds between flowing) }
{
    laws_below();
}

/// Good rounds, and what comes between them, are events that can happen: they lead from a world that is reached to one that is.
/// So whatever is true after every list of events is true after good rounds.
pub fn good_rounds_are_events()
    ensures { (between : List (List Event)) (flowing : Flowing) → IsReached flowing.state.sited.site flowing.state.sited.table flowing.state.run
        → IsReached flowing.state.sited.site flowing.state.sited.table (good_rounds between flowing).state.run }
{
    laws_below();
}

/// In each good round true time and the clock of every node go on by 10 ms, as long as none comes to its limit, whatever
/// requests and occupancies come between the rounds.
pub fn good_rounds_take_their_time()
    ensures { (between : List (List Event)) (flowing : Flowing) → IsFlow flowing → Each (Each IsWork) between → HasTime (length between) flowing.state.run
        → clocks_of (good_rounds between flowing).state.run ≡ rounds_later (length between) (clocks_of flowing.state.run) }
{
    laws_below();
}

/// After a good round, and what comes after it, a flow has gone past all that was sent before the round. All that was sent since
/// was sent at the true time of this moment, and none of it is lost.
pub(crate) fn good_rounds_leave_fresh_datagrams()
    ensures { (between : List Event) (flowing : Flowing) → Each IsWork between → LeavesFresh flowing (all_tried between (round flowing)) }
{}

/// What was sent since a good round began comes in the next one, in the order of sending: each datagram to the node at the other
/// end of its link, and none of these deliveries is refused.
pub(crate) fn each_round_delivers_what_the_last_one_left()
    ensures { (old new : Flowing) (leaves : LeavesFresh old new) → IsFlow new → AllCome old new leaves }
{
    laws_below();
}

/// After any list of events, and after each good round from the 600th on, an interlocking doesn't hold: no request is refused
/// any more for the hold, whatever requests and occupancies come between the rounds. One that was made anew still waits to
/// be told to resume.
pub fn the_hold_ends()
    ensures { (between : List (List Event)) (flowing : Flowing) → IsFlow flowing → Each (Each IsWork) between → HasTime (length between) flowing.state.run
        → hold_rounds ≤ length between
        → is_holding (reading_of (good_rounds between flowing).state.run.interlocking.clock) (good_rounds between flowing).state.run.interlocking.ixl ≡ false }
{
    laws_below();
}
