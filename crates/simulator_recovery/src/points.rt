//! What points come to in good rounds: how their moves are given and answered, and where they lie.

ghost use Rattle.std.specs.List.{Contains};
ghost use Rattle.std.specs.Prelude.{◌≡◌, ◌≤◌, ◌<◌, ℕ, suc, List, [], ◌∷◌, ◌++◌, length, Some, slice_get, ◌⊎◌};
ghost use Rattle.ixl_table.specs.Table.{IsTableOf};
ghost use Rattle.simulator_spec.specs.Flow.{Flowing, round, position_of};
ghost use Rattle.simulator_spec.specs.Nodes.{point_link, detector_link};
ghost use Rattle.simulator_spec.specs.State.{WorldState};
ghost use Rattle.simulator_spec.specs.ixl_spec.Due.{At, IsAvailable, IsRouteOf, IsHeldAt, Known};
ghost use Rattle.simulator_spec.specs.ixl_spec.State.{RouteState};
ghost use Rattle.simulator_spec.specs.ixl_spec.Table.{Table, Need, Row};
ghost use Rattle.simulator_spec.specs.layout.Entries.{Site};
ghost use Rattle.simulator_spec.specs.layout.Once.{Once};
ghost use Rattle.simulator_spec.specs.layout.Station.{IsStation};
ghost use Rattle.simulator_spec.specs.rasta_core.Each.{Each};
ghost use Rattle.simulator_spec.specs.sci_telegram.declared.message.Side.{Side};
ghost use Rattle.simulator_spec.specs.simulator_event.declared.event.Event.{Event};
ghost use Rattle.simulator_safety.specs.Reached.{IsReached};
ghost use Rattle.simulator_recovery.specs.Answered.{HasGivenSince, IsOccupancy, NoneWaitsFor, answered_rounds};
ghost use Rattle.simulator_recovery.specs.BeginsOfMoves.{TakesReportBehind};
ghost use Rattle.simulator_recovery.specs.Flows.{IsFlow};
ghost use Rattle.simulator_recovery.specs.HandedOver.{HasHandedOver};
ghost use Rattle.simulator_recovery.specs.KnownAgain.{AnswerComes, HaveTold, IsReportedBack};
ghost use Rattle.simulator_recovery.specs.LinkRounds.{StaysBelowLimit, IsUpOn};
ghost use Rattle.simulator_recovery.specs.Moves.{AreAnswered, DrivesSince, HasTakenMoves, HaveOwed, IsDrivenBehind, ReportsBehind, ReportsCome, drive_rounds, move_rounds, IsDriving, ReportComesBehind, drive_time};
ghost use Rattle.simulator_recovery.specs.NothingDue.{IsPointReady, Proceeds, IsUpAtClock, HasAspect, Waits};
ghost use Rattle.simulator_recovery.specs.OnceMoved.{HasGivenOn, HasGivenOneAtMost};
ghost use Rattle.simulator_recovery.specs.Quiet.{IsOccupancyElsewhere, IsTimeToReport, IsWorkElsewhere};
ghost use Rattle.simulator_recovery.specs.Ready.{IsReadyOn, ready_rounds};
ghost use Rattle.simulator_recovery.specs.Rounds.{HasTime, InGoodRounds, IsWork, all_tried, good_rounds};
ghost use Rattle.simulator_recovery.specs.SidesOfMoves.{AwaitsMove, HaveMovesWhereHeld};
ghost use Rattle.simulator_recovery.specs.UnheldPoints.{HoldsWithAuthority};

use crate::below::laws_below;
use crate::links::links_are_ready;
use crate::rounds::good_rounds_are_events;
use crate::routes_coming::{links_stay_up, points_of_proceeding_routes_are_known};
use crate::sections::detectors_windows_have_room;
use crate::windows::points_controllers_never_fill_their_windows;

/// Driven points reach their side: after at most 50 good rounds, one after another, a point is found driven to one side, whatever
/// requests and occupancies come between them, and on any network. For in the next one it comes to lie there, if its drive hasn't
/// ended before. A flow of a station notes for how long each point was found driven (`IsFlow`).
pub(crate) fn driven_points_reach()
    ensures { (rounds : List (List Event)) (flowing : Flowing) (place : ℕ) (side : Side) → IsFlow flowing → Each (Each IsWork) rounds
        → IsDrivenBehind place side rounds flowing → length rounds ≤ drive_rounds }
{}

/// Points report each move: after every list of events of a station, on any network, a point's controller whose initialisation was
/// completed has given in its connection a report for each move that it has taken there, but for one at most that waits for
/// its report. And where it drives for that, this is the last move that it has taken.
pub(crate) fn points_report_each_move()
    ensures { (site : Site) (table : Table) (world : WorldState) → IsStation site → Once site → IsTableOf site table → IsReached site table world → HaveOwed site world }
{
    laws_below();
}

/// Moves come over: where the link of a point has handed over from one moment to a later one, and is ready at both ends then, the
/// controller has taken each move that the interlocking had given by the first, and has reported it, but for one at most that waits
/// for its report.
pub(crate) fn moves_come_over()
    ensures { (site : Site) (table : Table) (old new : WorldState) (place : ℕ) → Once site → IsStation site → IsTableOf site table → IsReached site table new → place < length site.points
        → (over : HasHandedOver (point_link site place) old new) → IsReadyOn site (point_link site place) new → At new.points place (HasTakenMoves over.before.client.given) }
{
    laws_below();
}

/// Each move is answered: after each good round from the 1565th on, the moves that a point was given by then are answered 52 good rounds
/// later, 520 ms: the interlocking has taken a report for each, whatever requests and occupancies come between the rounds. No report
/// waits for the window of the point's controller (`points_controllers_never_fill_their_windows`). The premises are those of
/// `links_are_ready`, of the point's link.
pub fn moves_are_answered()
    ensures { (between : List Event) (later more : List (List Event)) (flowing : Flowing) (place : ℕ) → InGoodRounds between (later ++ more) flowing → place < length flowing.state.sited.site.points
        → ready_rounds ≤ suc (length later) → length more ≡ move_rounds
        → StaysBelowLimit flowing.state.sited.site (point_link flowing.state.sited.site place) (later ++ more) (all_tried between (round flowing))
        → AreAnswered (point_link flowing.state.sited.site place) (good_rounds (between ∷ later) flowing).state.run (good_rounds (between ∷ (later ++ more)) flowing).state.run }
{
    laws_below();
    points_controllers_never_fill_their_windows();
}

/// Drives end with their reports: where after a good round, from the 1565th on, a point's controller drives for a move, then after one of the
/// next 50 good rounds the controller has answered the move, in the same connection, and has sent one item more there: the report that the
/// point lies at the side it was driven to. So it is whenever the drive began, and whatever requests and occupancies come between the
/// rounds. The premises are else those of `reports_of_drives_come_back`.
pub(crate) fn drives_end_with_their_reports()
    ensures { (between : List Event) (later more : List (List Event)) (flowing : Flowing) (place : ℕ) (side : Side) (since : ℕ) → InGoodRounds between (later ++ more) flowing → place < length flowing.state.sited.site.points
        → ready_rounds ≤ suc (length later) → length more ≡ suc drive_rounds
        → StaysBelowLimit flowing.state.sited.site (point_link flowing.state.sited.site place) (later ++ more) (all_tried between (round flowing))
        → DrivesSince place side since (good_rounds (between ∷ later) flowing).state.run
        → ReportsBehind flowing.state.sited.site place side more (good_rounds (between ∷ later) flowing) }
{
    reports_of_drives_come_back();
}

/// Reports come back: from one good round to the next, from the 1565th on, the interlocking's end of a point's link takes all that the
/// controller had sent in their connection after the first of them, as the datagrams tell it, each item once and in order; what it has
/// taken is a beginning of what the controller has sent there after the second. The premises are those of `links_are_ready`, of the
/// point's link.
pub(crate) fn reports_come_back()
    ensures { (between last : List Event) (later : List (List Event)) (flowing : Flowing) (place : ℕ) → InGoodRounds between (later ++ last ∷ []) flowing → place < length flowing.state.sited.site.points
        → ready_rounds ≤ suc (length later)
        → StaysBelowLimit flowing.state.sited.site (point_link flowing.state.sited.site place) (later ++ last ∷ []) (all_tried between (round flowing))
        → ReportsCome flowing.state.sited.site place (good_rounds (between ∷ later) flowing).state.run (good_rounds (between ∷ (later ++ last ∷ [])) flowing).state.run }
{
    laws_below();
}

/// A point whose moves are answered is available: where those are answered that it was given by an earlier moment, and it was given no
/// more since, its link is ready and each move that it was given in this connection is answered.
pub(crate) fn answered_points_are_available()
    ensures { (site : Site) (table : Table) (old new : WorldState) (place : ℕ) → Once site → IsStation site → IsTableOf site table → IsReached site table new → place < length site.points
        → (all : AreAnswered (point_link site place) old new) → IsReadyOn site (point_link site place) new → all.behind.client.given ≡ all.before.client.given → IsAvailable new.interlocking.ixl place }
{
    laws_below();
}

/// A move that is out is new: after each good round from the 1617th on, where the interlocking awaits the report of a point's move, it has
/// given that move within the last 52 rounds, 520 ms: more was given on the point's link since. So no move is out that was given before
/// the good rounds began, nor any that was given to this point longer ago. Whatever requests and occupancies come between the rounds.
/// The premises are those of `moves_are_answered`.
pub(crate) fn moves_that_are_out_are_new()
    ensures { (between : List Event) (later more : List (List Event)) (flowing : Flowing) (place : ℕ) → InGoodRounds between (later ++ more) flowing → place < length flowing.state.sited.site.points
        → answered_rounds ≤ suc (length (later ++ more)) → length more ≡ move_rounds
        → StaysBelowLimit flowing.state.sited.site (point_link flowing.state.sited.site place) (later ++ more) (all_tried between (round flowing))
        → AwaitsMove place (good_rounds (between ∷ (later ++ more)) flowing).state.run
        → HasGivenSince (point_link flowing.state.sited.site place) (good_rounds (between ∷ later) flowing).state.run (good_rounds (between ∷ (later ++ more)) flowing).state.run }
{
    laws_below();
    good_rounds_are_events();
    links_are_ready();
    moves_are_answered();
}

/// No move is unanswered, where no route waits for its point, and no request comes: where after a good round from the 1565th on no route
/// waits that requires the point, but one that is cancelled, and no request comes any more, no move of the point is out after the 52nd
/// round after, 520 ms later, nor after any later one. So from the 1617th round on (`answered_rounds`), 16,170 ms after the good rounds
/// began, none is, if no route waits for the point at the 1565th. Sections may be occupied and left as they like. The premises are else
/// those of `moves_are_answered`.
pub fn no_move_is_unanswered()
    ensures { (between : List Event) (later more last : List (List Event)) (flowing : Flowing) (place : ℕ) → InGoodRounds between ((later ++ more) ++ last) flowing → place < length flowing.state.sited.site.points
        → ready_rounds ≤ suc (length later) → length last ≡ move_rounds
        → StaysBelowLimit flowing.state.sited.site (point_link flowing.state.sited.site place) ((later ++ more) ++ last) (all_tried between (round flowing))
        → Each (Each IsOccupancy) (more ++ last) → NoneWaitsFor flowing.state.sited.table (good_rounds (between ∷ later) flowing).state.run.interlocking.ixl place
        → AwaitsMove place (good_rounds (between ∷ ((later ++ more) ++ last)) flowing).state.run → ⊥ }
{
    laws_below();
    good_rounds_are_events();
    links_are_ready();
    moves_that_are_out_are_new();
}

/// Nor is a move out to a point of a route that has its aspect, as long as the point's link is ready: after every list of events, on any network.
/// So it is after the 52nd round of a set route that comes (`set_routes_come_in_time`), and as long as it has its aspect.
pub(crate) fn points_of_proceeding_routes_await_nothing()
    ensures { (site : Site) (table : Table) (world : WorldState) (number : ℕ) (row : Row) (route : RouteState) (need : Need) → IsTableOf site table → IsReached site table world
        → IsRouteOf table world.interlocking.ixl number row route → Proceeds route → Contains row.needs need → IsPointReady world.interlocking.ixl need.point → AwaitsMove need.point world → ⊥ }
{
    points_of_proceeding_routes_are_known();
}

/// Nor is one out to a point that a route holds with authority, whether the route proceeds, was withdrawn, or its authority has ended: after every
/// list of events, on any network, in whichever state the point's link is. For a route is given authority where its points are known, and a point
/// of which a move is out isn't; and a point that is held with authority isn't moved.
pub(crate) fn points_held_with_authority_await_nothing()
    ensures { (site : Site) (table : Table) (world : WorldState) (number : ℕ) (row : Row) (route : RouteState) (need : Need) → IsTableOf site table → IsReached site table world
        → IsRouteOf table world.interlocking.ixl number row route → HoldsWithAuthority need route → Contains row.needs need → AwaitsMove need.point world → ⊥ }
{
    laws_below();
}

/// Drives stay far from their limit: where a point's controller drives for a move after a good round from the 1565th on, it will be at least
/// 510 ms more until that drive comes to its limit, whenever it began. For a drive is found after 50 good rounds at most, so it began in
/// one of the last ones. So no drive times out from then on. The premises are those of `links_are_ready`, of the point's link.
pub(crate) fn drives_stay_far_from_their_limit()
    ensures { (between : List Event) (later : List (List Event)) (flowing : Flowing) (place : ℕ) (side : Side) (since : ℕ) → InGoodRounds between later flowing → place < length flowing.state.sited.site.points
        → ready_rounds ≤ suc (length later)
        → StaysBelowLimit flowing.state.sited.site (point_link flowing.state.sited.site place) later (all_tried between (round flowing))
        → DrivesSince place side since (good_rounds (between ∷ later) flowing).state.run → IsDriving place side since drive_time (good_rounds (between ∷ later) flowing).state.run }
{
    laws_below();
}

/// Reports of drives come back: where a point's controller drives for a move after a good round from the 1565th on, whenever that drive began,
/// then within the next 51 good rounds, 510 ms, it reports, as its next item in this connection, that the point lies at the side it was
/// driven to, and the interlocking's end takes this report. The premises are else those of `moves_are_answered`.
pub(crate) fn reports_of_drives_come_back()
    ensures { (between : List Event) (later more : List (List Event)) (flowing : Flowing) (place : ℕ) (side : Side) (since : ℕ)
        → InGoodRounds between (later ++ more) flowing → place < length flowing.state.sited.site.points
        → ready_rounds ≤ suc (length later) → length more ≡ suc drive_rounds
        → StaysBelowLimit flowing.state.sited.site (point_link flowing.state.sited.site place) (later ++ more) (all_tried between (round flowing))
        → DrivesSince place side since (good_rounds (between ∷ later) flowing).state.run
        → ReportComesBehind flowing.state.sited.site place side more (good_rounds (between ∷ later) flowing) }
{
    laws_below();
    points_controllers_never_fill_their_windows();
}

/// Moves that are out are reported where routes want them: where after a good round from the 1565th on the interlocking awaits the report of a
/// point's move, and set routes hold the point at a side, then within the next 52 good rounds, 520 ms, the interlocking's end takes, as
/// the next item after all that it had taken, the report that the point lies at this side. So it is whether the move or its report is on
/// its way, or the point is driven for it; and one that lies at the side already is reported so. The premises are else those of
/// `moves_are_answered`.
pub(crate) fn moves_that_are_out_are_reported()
    ensures { (between : List Event) (later more : List (List Event)) (flowing : Flowing) (place : ℕ) (side : Side)
        → InGoodRounds between (later ++ more) flowing → place < length flowing.state.sited.site.points
        → ready_rounds ≤ suc (length later) → length more ≡ move_rounds
        → StaysBelowLimit flowing.state.sited.site (point_link flowing.state.sited.site place) (later ++ more) (all_tried between (round flowing))
        → AwaitsMove place (good_rounds (between ∷ later) flowing).state.run
        → IsHeldAt flowing.state.sited.table (good_rounds (between ∷ later) flowing).state.run.interlocking.ixl place side
        → TakesReportBehind flowing.state.sited.site place side more (good_rounds (between ∷ later) flowing) }
{
    laws_below();
    points_controllers_never_fill_their_windows();
}

/// The link of a point counts on: from a good round on, the 1565th or a later one, it stays in its connection, and what the interlocking has given
/// on it grows or stays, after however many rounds, and whatever requests and occupancies come between them. The premises are those of
/// `links_are_ready`.
pub(crate) fn links_of_points_count_on()
    ensures { (between : List Event) (later more : List (List Event)) (flowing : Flowing) (place : ℕ) → InGoodRounds between (later ++ more) flowing → place < length flowing.state.sited.site.points
        → ready_rounds ≤ suc (length later)
        → StaysBelowLimit flowing.state.sited.site (point_link flowing.state.sited.site place) (later ++ more) (all_tried between (round flowing))
        → HasGivenOn (point_link flowing.state.sited.site place) (good_rounds (between ∷ later) flowing).state.run (good_rounds (between ∷ (later ++ more)) flowing).state.run }
{
    laws_below();
}

/// A point is moved once: where after a good round from the 1565th on no request comes any more, the interlocking gives the point one move at most
/// from there on, after however many rounds. The link stays in one connection (`links_of_points_count_on`), and is ready, so what is given on it
/// are moves. Sections may be occupied and left as they like: a route that waits for its point doesn't move it again. The premises
/// are else those of `links_are_ready`.
pub fn points_are_moved_once()
    ensures { (between : List Event) (later more : List (List Event)) (flowing : Flowing) (place : ℕ) → InGoodRounds between (later ++ more) flowing → place < length flowing.state.sited.site.points
        → ready_rounds ≤ suc (length later)
        → StaysBelowLimit flowing.state.sited.site (point_link flowing.state.sited.site place) (later ++ more) (all_tried between (round flowing))
        → Each (Each IsOccupancy) more
        → HasGivenOneAtMost (point_link flowing.state.sited.site place) (good_rounds (between ∷ later) flowing).state.run (good_rounds (between ∷ (later ++ more)) flowing).state.run }
{
    laws_below();
    good_rounds_are_events();
    links_are_ready();
}

/// A move that is given is the last: where no request comes after a good round from the 1565th on, and after a later round the interlocking has
/// given the point a move since, none is out 52 rounds on or after any round from there: that move is answered then, and a second isn't given. The
/// premises are else those of `moves_are_answered`.
pub(crate) fn moves_that_are_given_are_the_last()
    ensures { (between : List Event) (later more still last : List (List Event)) (flowing : Flowing) (place : ℕ) → InGoodRounds between (((later ++ more) ++ still) ++ last) flowing
        → place < length flowing.state.sited.site.points
        → ready_rounds ≤ suc (length later) → length last ≡ move_rounds
        → StaysBelowLimit flowing.state.sited.site (point_link flowing.state.sited.site place) (((later ++ more) ++ still) ++ last) (all_tried between (round flowing))
        → Each (Each IsOccupancy) (more ++ (still ++ last))
        → HasGivenSince (point_link flowing.state.sited.site place) (good_rounds (between ∷ later) flowing).state.run (good_rounds (between ∷ (later ++ more)) flowing).state.run
        → AwaitsMove place (good_rounds (between ∷ (((later ++ more) ++ still) ++ last)) flowing).state.run → ⊥ }
{
    links_of_points_count_on();
    moves_that_are_out_are_new();
    points_are_moved_once();
}

/// A move that is out is the last: where no request comes after a good round from the 1565th on, and the point's move is out after the 52nd round
/// after or a later one, none is out 52 rounds on or after any round from there. For that move was given in the 52 rounds before, and a second isn't
/// given. So after the 52nd round and later ones a point's move is out within 52 rounds on end at most (520 ms), and then never again. The
/// premises are else those of `moves_are_answered`.
pub(crate) fn moves_that_are_out_are_the_last()
    ensures { (between : List Event) (later more still last : List (List Event)) (flowing : Flowing) (place : ℕ) → InGoodRounds between (((later ++ more) ++ still) ++ last) flowing
        → place < length flowing.state.sited.site.points
        → ready_rounds ≤ suc (length later) → length more ≡ move_rounds → length last ≡ move_rounds
        → StaysBelowLimit flowing.state.sited.site (point_link flowing.state.sited.site place) (((later ++ more) ++ still) ++ last) (all_tried between (round flowing))
        → Each (Each IsOccupancy) (more ++ (still ++ last)) → AwaitsMove place (good_rounds (between ∷ (later ++ more)) flowing).state.run
        → AwaitsMove place (good_rounds (between ∷ (((later ++ more) ++ still) ++ last)) flowing).state.run → ⊥ }
{
    moves_that_are_given_are_the_last();
    moves_that_are_out_are_new();
}

/// A point that rests goes on to: after a good round from the 1565th on, for 32 rounds and more no request comes and nothing is told of the point's own
/// section; where no move of the point is out then, none is out after any later round, as long as that goes on. For each route that waits for the
/// point finds it known at its side, or had it moved already in this connection, or finds its own section not clear; and so it stays. Other sections
/// may be occupied and left as they like. One round is enough in place of these 32, and it may be the 1565th, where after the round before it the
/// window of the own section's detector wasn't full (`IsTimeToReport`). The premises are else those of `links_are_ready`, of the links of the point
/// and of the detector of its own section.
pub(crate) fn points_at_rest_stay_at_rest()
    ensures { (between : List Event) (later more last : List (List Event)) (flowing : Flowing) (place section : ℕ) (reporter : ℕ × ℕ)
        → IsFlow flowing → Each IsWork between → Each (Each IsWork) later → Each (Each (IsOccupancyElsewhere section)) (more ++ last) → HasTime (suc (length ((later ++ more) ++ last))) flowing.state.run
        → place < length flowing.state.sited.site.points
        → slice_get flowing.state.sited.table.point_sections place ≡ Some section → slice_get flowing.state.sited.table.reporters section ≡ Some reporter
        → IsTimeToReport flowing.state.sited.table section between later more flowing
        → StaysBelowLimit flowing.state.sited.site (point_link flowing.state.sited.site place) ((later ++ more) ++ last) (all_tried between (round flowing))
        → StaysBelowLimit flowing.state.sited.site (detector_link flowing.state.sited.site reporter.0) ((later ++ more) ++ last) (all_tried between (round flowing))
        → (AwaitsMove place (good_rounds (between ∷ (later ++ more)) flowing).state.run → ⊥) → AwaitsMove place (good_rounds (between ∷ ((later ++ more) ++ last)) flowing).state.run → ⊥ }
{
    laws_below();
    links_are_ready();
    links_stay_up();
    points_held_with_authority_are_known();
}

/// No move is out where nothing comes: after a good round from the 1565th on, for 84 rounds, 840 ms, no request comes and nothing is told of the point's
/// own section. Then no move of the point is out, nor after any later round, as long as that goes on. For 32 rounds later its own section is known as
/// it is in the field, and so it stays. A move that is out then is answered within 52 rounds, by the report that the point lies at the side at which
/// set routes hold it, and with it no other is given; and none is given to a point that awaits no report (`points_at_rest_stay_at_rest`). And 52 rounds,
/// 520 ms, are enough, after the 1565th good round or a later one, where after the round before that the window of the own section's detector wasn't
/// full. The premises are else those of that law and of `moves_are_answered`.
pub fn no_move_is_out_where_nothing_comes()
    ensures { (between : List Event) (later more last : List (List Event)) (flowing : Flowing) (place section : ℕ) (reporter : ℕ × ℕ)
        → IsFlow flowing → Each IsWork between → Each (Each IsWork) later → Each (Each (IsOccupancyElsewhere section)) (more ++ last) → HasTime (suc (length ((later ++ more) ++ last))) flowing.state.run
        → place < length flowing.state.sited.site.points
        → slice_get flowing.state.sited.table.point_sections place ≡ Some section → slice_get flowing.state.sited.table.reporters section ≡ Some reporter
        → IsTimeToReport flowing.state.sited.table section between later more flowing → length last ≡ move_rounds
        → StaysBelowLimit flowing.state.sited.site (point_link flowing.state.sited.site place) ((later ++ more) ++ last) (all_tried between (round flowing))
        → StaysBelowLimit flowing.state.sited.site (detector_link flowing.state.sited.site reporter.0) ((later ++ more) ++ last) (all_tried between (round flowing))
        → AwaitsMove place (good_rounds (between ∷ ((later ++ more) ++ last)) flowing).state.run → ⊥ }
{
    laws_below();
    links_are_ready();
    links_stay_up();
    moves_that_are_out_are_reported();
    no_move_is_unanswered();
    points_at_rest_stay_at_rest();
}

/// And where nothing came since the good rounds began, no move is out 16,170 ms after their beginning, with no premise on a window: from the second
/// of them on requests come, and sections of other detectors than that of the point's own section are occupied and left; from the 1564th or a later one
/// on no request comes for 53 rounds, and nothing is told of the own section. Then no move of the point is out, nor after any later round, as long as
/// that goes on. So it is where neither a request nor an occupancy came since the good rounds began, after each from the 1617th on. For by then the
/// window of the own section's detector has room (`detectors_windows_have_room`). The premises are else those of `no_move_is_out_where_nothing_comes`.
pub fn no_move_is_out_where_nothing_came()
    ensures { (between : List Event) (later more last : List (List Event)) (flowing : Flowing) (place section : ℕ) (reporter : ℕ × ℕ)
        → IsFlow flowing → Each IsWork between → Each (Each (IsWorkElsewhere flowing.state.sited.table reporter.0)) later → Each (Each (IsOccupancyElsewhere section)) (more ++ last)
        → HasTime (suc (length ((later ++ more) ++ last))) flowing.state.run
        → place < length flowing.state.sited.site.points
        → slice_get flowing.state.sited.table.point_sections place ≡ Some section → slice_get flowing.state.sited.table.reporters section ≡ Some reporter
        → ready_rounds ≤ suc (suc (length later)) → 1 ≤ length more → length last ≡ move_rounds
        → StaysBelowLimit flowing.state.sited.site (point_link flowing.state.sited.site place) ((later ++ more) ++ last) (all_tried between (round flowing))
        → StaysBelowLimit flowing.state.sited.site (detector_link flowing.state.sited.site reporter.0) ((later ++ more) ++ last) (all_tried between (round flowing))
        → AwaitsMove place (good_rounds (between ∷ ((later ++ more) ++ last)) flowing).state.run → ⊥ }
{
    detectors_windows_have_room();
    no_move_is_out_where_nothing_comes();
}

/// A point that is known at a side lies there in the field, as long as its link is up by the interlocking's clock: after every list of events, on any
/// network. So where no move of it is out, and its link is ready, its report is none or its position.
pub fn known_points_lie_at_their_sides()
    ensures { (site : Site) (table : Table) (world : WorldState) (place : ℕ) (side : Side) → Once site → IsStation site → IsTableOf site table → IsReached site table world
        → IsUpAtClock world place → Known world.interlocking.ixl place side → At world.positions place (λ one. one ≡ position_of side) }
{
    laws_below();
}

/// After every list of events of a station, on any network, a point is known at the side that its last report tells: the last of those that the
/// interlocking's end has taken in the connection, while its link is up.
pub(crate) fn points_are_known_by_their_reports()
    ensures { (site : Site) (table : Table) (world : WorldState) → IsStation site → Once site → IsTableOf site table → IsReached site table world → HaveTold site world }
{
    laws_below();
}

/// A report that comes makes its point known: where the interlocking's end of a point's link takes, from one moment to a later one, all that the
/// controller had sent, the last of this was the report that the point lies at a side, and with it the controller had answered each move that
/// the interlocking has given in the connection, the point is known at that side, as long as its link is ready.
pub(crate) fn answers_make_points_known()
    ensures { (site : Site) (table : Table) (old new : WorldState) (place : ℕ) (side : Side) → Once site → IsStation site → IsTableOf site table → IsReached site table old → IsReached site table new → place < length site.points
        → AnswerComes site place side old new → Known new.interlocking.ixl place side }
{
    laws_below();
}

/// A point whose report came back is known: since a first moment its controller has reported, as its next item in the connection, that the
/// point lies at a side, and the interlocking's end has taken this. Then the point is known at that side, where its link was ready and is, and
/// the interlocking has given it nothing more since the first moment.
pub(crate) fn reported_points_are_known()
    ensures { (site : Site) (table : Table) (start old new : WorldState) (place : ℕ) (side : Side) → Once site → IsStation site → IsTableOf site table → IsReached site table start → IsReached site table old → IsReached site table new
        → place < length site.points → IsReportedBack site place side start old new → Known new.interlocking.ixl place side }
{
    laws_below();
}

/// Set routes hold their points: a route that waits, or has its aspect, holds each point that it requires at the side at which it
/// requires it. So what is said of a point that is held is so of each point of such a route.
pub(crate) fn set_routes_hold_their_points()
    ensures { (site : Site) (table : Table) (world : WorldState) (number : ℕ) (row : Row) (need : Need) → IsTableOf site table → slice_get table.rows number ≡ Some row → Contains row.needs need
        → At world.interlocking.ixl.routes number (λ one. Waits one ⊎ HasAspect one) → IsHeldAt table world.interlocking.ixl need.point need.side }
{}

/// A move that is out goes where set routes want it: after every list of events of a station, on any network. Where a point's client
/// awaits a report, and a set route holds the point at a side, the last item that the client has given in its connection is the move to
/// exactly this side. So no set route waits for a point that is on its way to the other side.
pub(crate) fn moves_that_are_out_go_where_routes_want()
    ensures { (site : Site) (table : Table) (world : WorldState) → IsStation site → Once site → IsTableOf site table → IsReached site table world → HaveMovesWhereHeld site table world }
{
    laws_below();
}

/// A point that is driven goes where routes want it: after every list of events of a station, on any network, where the link of the point
/// is ready at both ends. The interlocking awaits the report of the move that the point is driven for (*awaits*); and where a set route
/// holds the point at a side, it is driven to exactly this side (*side*). So its report, once the drive has ended there, tells this side.
pub(crate) fn driven_points_go_where_routes_want()
    ensures awaits { (site : Site) (table : Table) (world : WorldState) (place : ℕ) (to : Side) (since : ℕ) → Once site → IsStation site → IsTableOf site table → IsReached site table world → place < length site.points
        → IsReadyOn site (point_link site place) world → DrivesSince place to since world → AwaitsMove place world }
    ensures side { (site : Site) (table : Table) (world : WorldState) (place : ℕ) (side to : Side) (since : ℕ) → Once site → IsStation site → IsTableOf site table → IsReached site table world → place < length site.points
        → IsReadyOn site (point_link site place) world → IsHeldAt table world.interlocking.ixl place side → DrivesSince place to since world → to ≡ side }
{
    laws_below();
}

/// Drives are reported where routes want them: where a point's controller drives for a move after a good round from the 1565th on, and set
/// routes hold the point at a side then, it reports within the next 51 good rounds, 510 ms, as its next item in this connection, that
/// the point lies at this side, and the interlocking's end takes this report. The premises are else those of `reports_of_drives_come_back`.
pub(crate) fn drives_are_reported_where_routes_want()
    ensures { (between : List Event) (later more : List (List Event)) (flowing : Flowing) (place : ℕ) (side to : Side) (since : ℕ) → InGoodRounds between (later ++ more) flowing → place < length flowing.state.sited.site.points
        → ready_rounds ≤ suc (length later) → length more ≡ suc drive_rounds
        → StaysBelowLimit flowing.state.sited.site (point_link flowing.state.sited.site place) (later ++ more) (all_tried between (round flowing))
        → DrivesSince place to since (good_rounds (between ∷ later) flowing).state.run → IsHeldAt flowing.state.sited.table (good_rounds (between ∷ later) flowing).state.run.interlocking.ixl place side
        → ReportComesBehind flowing.state.sited.site place side more (good_rounds (between ∷ later) flowing) }
{
    driven_points_go_where_routes_want();
    good_rounds_are_events();
    links_are_ready();
    reports_of_drives_come_back();
}

/// A point that a route holds with authority is known at its side, whether the route proceeds, was withdrawn, or its authority has ended: after
/// every list of events, on any network, where the point's link is up at both ends and ready at the interlocking. So it is also where the link came
/// up anew under the route. For the point lies at its side, and isn't moved; and a controller that took no move in its connection has reported
/// where its point lies.
pub fn points_held_with_authority_are_known()
    ensures { (site : Site) (table : Table) (world : WorldState) (number : ℕ) (row : Row) (route : RouteState) (need : Need) → Once site → IsStation site → IsTableOf site table → IsReached site table world
        → IsRouteOf table world.interlocking.ixl number row route → HoldsWithAuthority need route → Contains row.needs need → IsUpOn (point_link site need.point) world
        → IsPointReady world.interlocking.ixl need.point
        → Known world.interlocking.ixl need.point need.side }
{
    laws_below();
}
