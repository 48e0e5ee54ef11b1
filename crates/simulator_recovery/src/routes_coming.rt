//! How a set route comes to its aspect.

ghost use Rattle.std.specs.List.{Contains};
ghost use Rattle.std.specs.Prelude.{◌≡◌, ◌⊎◌, ℕ, false, true, List, Some, slice_get, ◌≤◌, ◌<◌, suc, [], ◌∷◌, ◌++◌, length};
ghost use Rattle.ixl_table.specs.Table.{IsTableOf};
ghost use Rattle.simulator_spec.specs.Flow.{Flowing, round};
ghost use Rattle.simulator_spec.specs.Happens.{answered, happens, interlocking_stepped};
ghost use Rattle.simulator_spec.specs.Nodes.{links};
ghost use Rattle.simulator_spec.specs.State.{WorldState};
ghost use Rattle.simulator_spec.specs.ixl_client.Client.{is_available, is_outside};
ghost use Rattle.simulator_spec.specs.ixl_spec.Due.{Admissible, AllClear, AllKnown, At, FreeByCancel, IsAvailable, IsClear, IsHeldAt, IsHeldWithAuthority, IsReleaseOver, IsRouteOf, IsSignalReady, Known, KnownStop, LetsGo, MoveDue, ProceedDue, StopDue, HoldsPoint};
ghost use Rattle.simulator_spec.specs.ixl_spec.State.{KnownPointState, RouteState};
ghost use Rattle.simulator_spec.specs.ixl_spec.Step.{Input, all_clocked};
ghost use Rattle.simulator_spec.specs.ixl_spec.Table.{Need, Row, Table};
ghost use Rattle.simulator_spec.specs.ixl_spec.View.{is_set};
ghost use Rattle.simulator_spec.specs.ixl_spec.declared.command.Command.TheVariants as ixl_commands;
ghost use Rattle.simulator_spec.specs.ixl_spec.declared.phase.Phase.TheVariants.{Ended, Waiting};
ghost use Rattle.simulator_spec.specs.layout.Entries.{Site};
ghost use Rattle.simulator_spec.specs.layout.declared.ids.RouteId.{RouteId};
ghost use Rattle.simulator_spec.specs.rasta_core.Each.{Each};
ghost use Rattle.simulator_spec.specs.rasta_core.Ends.{reading_of};
ghost use Rattle.simulator_spec.specs.sci_telegram.declared.message.Side.{Side};
ghost use Rattle.simulator_spec.specs.simulator_event.declared.event.Event.{Event};
ghost use Rattle.simulator_spec.specs.simulator_event.declared.event.Event.TheVariants.{Request};
ghost use Rattle.simulator_spec.specs.simulator_event.declared.reply.Answer.TheVariants.{Accepted};
ghost use Rattle.simulator_safety.specs.Reached.{IsReached};
ghost use Rattle.simulator_recovery.specs.BeginsOfMoves.{TakesReportBehind};
ghost use Rattle.simulator_recovery.specs.Flows.{IsFlow};
ghost use Rattle.simulator_recovery.specs.HeldPoints.{ComesBy, MayHaveItsPoints, MayYetHaveItsPoints};
ghost use Rattle.simulator_recovery.specs.LinkRounds.{StaysBelowLimit};
ghost use Rattle.simulator_recovery.specs.Moves.{DrivesSince, move_rounds};
ghost use Rattle.simulator_recovery.specs.NothingDue.{FindsUpheld, GivesMoveTo, HasLinksReady, HasPointsUp, IsClearFor, IsInside, IsUpAtClock, IsUpheld, KeepsSetting, HasAspect, RoundsFind, UpholdsAspect, Waits, known_in_step, IsPointReady, Proceeds};
ghost use Rattle.simulator_recovery.specs.Ready.{ready_rounds};
ghost use Rattle.simulator_recovery.specs.Rounds.{HasTime, InGoodRounds, IsWork, all_tried, good_rounds};
ghost use Rattle.simulator_recovery.specs.RoutesCome.{AcceptsRequest, AreBelowLimit, AreKnownWithin, AreLinksUp, IsClientUp, IsOnCourse, StaysClear, StaysSet, Throughout, and_request, as_request_comes, IsKnownWithin};
ghost use Rattle.simulator_recovery.specs.Shows.{ShowsThrough};
ghost use Rattle.simulator_recovery.specs.SidesOfMoves.{AwaitsMove};
ghost use Rattle.simulator_recovery.specs.UnheldPoints.{HasClearPoints, HasClearPointsYet};

use crate::below::laws_below;
use crate::links::links_are_ready;
use crate::points::{
    driven_points_go_where_routes_want, moves_that_are_out_are_reported,
    points_held_with_authority_are_known, set_routes_hold_their_points,
};

/// No route waits that may proceed: after every list of events, on any network, and whatever the clock reads. So a route is given its
/// aspect in the very step in which all is known that the aspect wants.
pub fn no_route_waits_that_may_proceed()
    ensures { (site : Site) (table : Table) (world : WorldState) (reading number : ℕ) (row : Row) (route : RouteState) → IsReached site table world → IsRouteOf table world.interlocking.ixl number row route
        → ProceedDue reading table world.interlocking.ixl row route → ⊥ }
{
    laws_below();
}

/// A route that waits finds its signal at known stop, as long as the signal's link is ready: whatever the clock reads (*stop*). So it waits
/// for its points and its sections alone: none waits whose points are known, whose sections are clear, and whose signal's link is
/// ready (*known*).
pub(crate) fn waiting_routes_find_their_signals_at_stop()
    ensures stop { (site : Site) (table : Table) (world : WorldState) (reading number : ℕ) (row : Row) (route : RouteState) → IsReached site table world → IsRouteOf table world.interlocking.ixl number row route → route.phase ≡ Waiting
        → IsSignalReady world.interlocking.ixl row.entry → KnownStop reading world.interlocking.ixl row.entry }
    ensures known { (site : Site) (table : Table) (world : WorldState) (number : ℕ) (row : Row) (route : RouteState) → IsReached site table world → IsRouteOf table world.interlocking.ixl number row route → Waits route
        → AllKnown world.interlocking.ixl row.needs → AllClear table world.interlocking.ixl row.sections → IsSignalReady world.interlocking.ixl row.entry → ⊥ }
{
    laws_below();
}

/// No move waits that is due: after every list of events, on any network. So a point is given a move in the very step in which it may be
/// moved.
pub fn no_move_waits_that_is_due()
    ensures { (site : Site) (table : Table) (world : WorldState) (number : ℕ) (row : Row) (route : RouteState) (need : Need) → IsReached site table world → IsRouteOf table world.interlocking.ixl number row route → Contains row.needs need
        → MoveDue table world.interlocking.ixl number route need → ⊥ }
{
    laws_below();
}

/// No stop waits that is due: after every list of events, on any network, where the links that the route needs are ready. A link that
/// falls in a step, after the rules, is seen by the next one.
pub fn no_stop_waits_that_is_due()
    ensures { (site : Site) (table : Table) (world : WorldState) (number : ℕ) (row : Row) (route : RouteState) → IsTableOf site table → IsReached site table world → IsRouteOf table world.interlocking.ixl number row route
        → HasLinksReady table world.interlocking.ixl row → StopDue table world.interlocking.ixl row route → ⊥ }
{
    laws_below();
}

/// No cancelled route waits that may be freed: after every list of events, on any network, none that may be freed whatever the clock
/// reads (*always*). That is one without authority whose signal has taken stop, or one whose authority has ended, of which no section
/// was reported occupied and all are clear, and whose approach was clear. And after a step of the interlocking none is left whose
/// authority has ended and lets it go at the step's clock, as where the approach time is over (*step*); and no set route is left whose
/// release is over at that clock, whatever was reported of its sections (*release*).
pub fn no_cancelled_route_waits_that_may_be_freed()
    ensures always { (site : Site) (table : Table) (world : WorldState) (number : ℕ) (row : Row) (route : RouteState) → IsReached site table world → IsRouteOf table world.interlocking.ixl number row route
        → ((reading : ℕ) → FreeByCancel reading table world.interlocking.ixl row route) → ⊥ }
    ensures step { (site : Site) (table : Table) (input : Input) (world : WorldState) (number : ℕ) (row : Row) (route : RouteState) (clock done : ℕ) → IsReached site table world
        → IsRouteOf table (interlocking_stepped site table input world).interlocking.ixl number row route → route.cancelled ≡ true → route.phase ≡ Ended clock done
        → LetsGo (reading_of world.interlocking.clock) table (interlocking_stepped site table input world).interlocking.ixl row route clock → ⊥ }
    ensures release { (site : Site) (table : Table) (input : Input) (world : WorldState) (number : ℕ) (row : Row) (route : RouteState) → IsReached site table world
        → IsRouteOf table (interlocking_stepped site table input world).interlocking.ixl number row route → is_set route.phase ≡ true → IsReleaseOver (reading_of world.interlocking.clock) route → ⊥ }
{
    laws_below();
}

/// A route that waits goes on waiting over an event, or proceeds, unless the event cancels it or makes the interlocking anew. So it isn't
/// lost before it has its aspect.
pub(crate) fn waiting_routes_wait_or_proceed()
    ensures { (site : Site) (table : Table) (event : Event) (world : WorldState) (number : ℕ) → KeepsSetting site number event → At world.interlocking.ixl.routes number Waits
        → At (happens site table event world).interlocking.ixl.routes number (λ route. Waits route ⊎ HasAspect route) }
{}

/// A route that proceeds goes on proceeding over an event, where its aspect is upheld in the step that the event brings, unless the event
/// cancels it or makes the interlocking anew.
pub(crate) fn upheld_routes_go_on_proceeding()
    ensures { (site : Site) (table : Table) (event : Event) (world : WorldState) (number : ℕ) (row : Row) → IsReached site table world → slice_get table.rows number ≡ Some row → KeepsSetting site number event
        → UpholdsAspect site table row event world → At world.interlocking.ixl.routes number HasAspect → At (happens site table event world).interlocking.ixl.routes number HasAspect }
{
    laws_below();
}

/// A move that is given to a point goes to the side at which a set route holds it: where the point was available after the input of a step
/// of the interlocking, and isn't after the step, but is still in its connection, the step has given it a move to that side.
pub(crate) fn moves_go_to_the_side_that_is_held()
    ensures { (site : Site) (table : Table) (input : Input) (world : WorldState) (point : ℕ) (side : Side) (before after : KnownPointState) → IsTableOf site table → IsReached site table world
        → slice_get (known_in_step site table input world).known_points point ≡ Some before → is_available before.client.stage ≡ true → IsHeldAt table (interlocking_stepped site table input world).interlocking.ixl point side
        → slice_get (interlocking_stepped site table input world).interlocking.ixl.known_points point ≡ Some after → is_available after.client.stage ≡ false → is_outside after.client.stage ≡ false
        → GivesMoveTo site table input world point side before.client.peer }
{
    laws_below();
}

/// A point that is known at a side and that a set route holds there stays known there over every event, as long as its link lasts: the
/// link is up at the interlocking's clock before the event, and in a connection after it. So no set route's point is moved away, and
/// none tells another side by itself.
pub(crate) fn held_points_stay_known()
    ensures { (site : Site) (table : Table) (event : Event) (world : WorldState) (point : ℕ) (side : Side) → IsTableOf site table → IsReached site table world → Known world.interlocking.ixl point side → IsUpAtClock world point
        → IsHeldAt table (happens site table event world).interlocking.ixl point side → IsInside (happens site table event world).interlocking.ixl point → Known (happens site table event world).interlocking.ixl point side }
{
    laws_below();
}

/// A route that proceeds goes on proceeding over an event after which its sections are clear, its signal's link is ready, and the links of
/// its points, which were ready before it, are still in their connections. So an aspect stays until its route is cancelled, or a section
/// isn't clear, or a link falls; for the points of a route that proceeds don't move.
pub(crate) fn routes_proceed_while_their_sections_are_clear()
    ensures { (site : Site) (table : Table) (event : Event) (world : WorldState) (number : ℕ) (row : Row) → IsTableOf site table → IsReached site table world → slice_get table.rows number ≡ Some row → KeepsSetting site number event
        → HasPointsUp world row → IsClearFor table (happens site table event world).interlocking.ixl row → At world.interlocking.ixl.routes number HasAspect → At (happens site table event world).interlocking.ixl.routes number HasAspect }
{
    laws_below();
}

/// A route that waits, or proceeds, does so after good rounds and the events between them, where none of these cancels it, and none makes
/// the interlocking anew: provided that its sections are clear and its links last over each event while it proceeds (*stays*). And it proceeds
/// where after them its points are known, its sections are clear, and its signal's link is ready (*comes*).
pub(crate) fn set_routes_go_on_over_rounds()
    ensures stays { (rounds : List (List Event)) (flowing : Flowing) (number : ℕ) (row : Row) → IsFlow flowing → slice_get flowing.state.sited.table.rows number ≡ Some row → Each (Each (KeepsSetting flowing.state.sited.site number)) rounds
        → RoundsFind (FindsUpheld flowing.state.sited.site flowing.state.sited.table number row) rounds flowing → At flowing.state.run.interlocking.ixl.routes number (λ one. Waits one ⊎ HasAspect one)
        → At (good_rounds rounds flowing).state.run.interlocking.ixl.routes number (λ one. Waits one ⊎ HasAspect one) }
    ensures comes { (rounds : List (List Event)) (flowing : Flowing) (number : ℕ) (row : Row) → IsFlow flowing → slice_get flowing.state.sited.table.rows number ≡ Some row → Each (Each (KeepsSetting flowing.state.sited.site number)) rounds
        → RoundsFind (FindsUpheld flowing.state.sited.site flowing.state.sited.table number row) rounds flowing → At flowing.state.run.interlocking.ixl.routes number (λ one. Waits one ⊎ HasAspect one)
        → IsUpheld flowing.state.sited.table (good_rounds rounds flowing).state.run.interlocking.ixl row → At (good_rounds rounds flowing).state.run.interlocking.ixl.routes number HasAspect }
{
    laws_below();
}

/// A request of a route that is accepted was admissible at the interlocking's clock (*admissible*). After it the route waits, or proceeds,
/// and isn't cancelled (*set*); its sections are known to be clear (*clear*). A point that the route requires, whose link is ready and to
/// which no move is out, is known at its side, if its own section is clear and no route with authority holds it (*points*).
pub(crate) fn accepted_settings_move_their_points()
    ensures admissible { (site : Site) (table : Table) (world : WorldState) (route : RouteId) → answered site table (Request (ixl_commands.Request route)) world ≡ Accepted
        → Admissible (reading_of world.interlocking.clock) table (all_clocked (reading_of world.interlocking.clock) world.interlocking.ixl) route.0 }
    ensures set { (site : Site) (table : Table) (world : WorldState) (route : RouteId) → answered site table (Request (ixl_commands.Request route)) world ≡ Accepted
        → At (happens site table (Request (ixl_commands.Request route)) world).interlocking.ixl.routes route.0 (λ one. Waits one ⊎ HasAspect one) }
    ensures clear { (site : Site) (table : Table) (world : WorldState) (route : RouteId) (row : Row) → slice_get table.rows route.0 ≡ Some row → answered site table (Request (ixl_commands.Request route)) world ≡ Accepted
        → AllClear table (happens site table (Request (ixl_commands.Request route)) world).interlocking.ixl row.sections }
    ensures points { (site : Site) (table : Table) (world : WorldState) (route : RouteId) (row : Row) (need : Need) → slice_get table.rows route.0 ≡ Some row → Contains row.needs need → answered site table (Request (ixl_commands.Request route)) world ≡ Accepted
        → IsAvailable (happens site table (Request (ixl_commands.Request route)) world).interlocking.ixl need.point → At table.point_sections need.point (IsClear table (happens site table (Request (ixl_commands.Request route)) world).interlocking.ixl)
        → (IsHeldWithAuthority table (happens site table (Request (ixl_commands.Request route)) world).interlocking.ixl need.point → ⊥) → Known (happens site table (Request (ixl_commands.Request route)) world).interlocking.ixl need.point need.side }
{
    laws_below();
}

/// A set route keeps its course over an event that leaves it its setting, where the interlocking's links to its signal and to its points
/// are up before the event and after it, and its sections are known to be clear after it: it waits, or has its aspect while
/// each point that it requires is known at its side (*course*). And its signal's link stays ready (*ready*).
pub(crate) fn set_routes_keep_their_course()
    ensures course { (site : Site) (table : Table) (event : Event) (world : WorldState) (number : ℕ) (row : Row) → IsTableOf site table → IsReached site table world → slice_get table.rows number ≡ Some row
        → KeepsSetting site number event → AreLinksUp row world → AreLinksUp row (happens site table event world) → IsSignalReady world.interlocking.ixl row.entry
        → AllClear table (happens site table event world).interlocking.ixl row.sections → IsOnCourse world.interlocking.ixl number row → IsOnCourse (happens site table event world).interlocking.ixl number row }
    ensures ready { (site : Site) (table : Table) (event : Event) (world : WorldState) (number : ℕ) (row : Row) → IsTableOf site table → IsReached site table world → slice_get table.rows number ≡ Some row
        → KeepsSetting site number event → AreLinksUp row world → AreLinksUp row (happens site table event world) → IsSignalReady world.interlocking.ixl row.entry → IsSignalReady (happens site table event world).interlocking.ixl row.entry }
{
    laws_below();
}

/// Links stay up: from the good round on in which a link is ready, the interlocking's end of it is up after each event of the rounds that
/// follow, and of those between them. It is in one connection all the time. The premises are those of `links_are_ready`.
pub(crate) fn links_stay_up()
    ensures { (between : List Event) (later more : List (List Event)) (flowing : Flowing) (link : ℕ) → IsFlow flowing
        → Each IsWork between → Each (Each IsWork) later → Each (Each IsWork) more → HasTime (suc (length (later ++ more))) flowing.state.run → link < links flowing.state.sited.site → ready_rounds ≤ suc (length later)
        → StaysBelowLimit flowing.state.sited.site link (later ++ more) (all_tried between (round flowing)) → Throughout (λ world. IsClientUp link world.run) more (good_rounds (between ∷ later) flowing) }
{
    laws_below();
}

/// A route whose request is accepted is on its course after it: it waits, or has its aspect and its points are known (*course*). Where its
/// points are known at their sides after the request, and its signal's link is ready, it has its aspect: so it was given that in the
/// same step (*at_once*).
pub(crate) fn accepted_settings_are_on_course()
    ensures course { (site : Site) (table : Table) (world : WorldState) (route : RouteId) (row : Row) → IsTableOf site table → IsReached site table world → slice_get table.rows route.0 ≡ Some row
        → answered site table (Request (ixl_commands.Request route)) world ≡ Accepted → IsOnCourse (happens site table (Request (ixl_commands.Request route)) world).interlocking.ixl route.0 row }
    ensures at_once { (site : Site) (table : Table) (world : WorldState) (route : RouteId) (row : Row) → IsTableOf site table → IsReached site table world → slice_get table.rows route.0 ≡ Some row
        → answered site table (Request (ixl_commands.Request route)) world ≡ Accepted → AllKnown (happens site table (Request (ixl_commands.Request route)) world).interlocking.ixl row.needs
        → IsSignalReady (happens site table (Request (ixl_commands.Request route)) world).interlocking.ixl row.entry → At (happens site table (Request (ixl_commands.Request route)) world).interlocking.ixl.routes route.0 HasAspect }
{
    laws_below();
}

/// A set route comes. A route is on its course after a good round in which the links of a station are ready (`links_are_ready`), as it is
/// after an accepted request; its sections stay clear, it isn't cancelled, and within some more rounds each of its points is known at
/// its side at the end of one. Then it has its aspect after these rounds (*proceeds*): what is known of its points stays known. And its
/// lamp shows the aspect from the next round on, and goes on to while this lasts (*shows*). So where its points are known within 52
/// rounds, which a move takes at most (520 ms), its lamp shows its aspect after the 53rd. The premises are else those of
/// `links_are_ready`, of the links of its signal and its points.
pub fn routes_come()
    ensures proceeds { (between : List Event) (later more still : List (List Event)) (flowing : Flowing) (number : ℕ) (row : Row) → IsFlow flowing
        → Each IsWork between → Each (Each IsWork) later → Each (Each IsWork) more → Each (Each IsWork) still → HasTime (suc (length ((later ++ more) ++ still))) flowing.state.run → ready_rounds ≤ suc (length later)
        → slice_get flowing.state.sited.table.rows number ≡ Some row → AreBelowLimit flowing.state.sited.site row ((later ++ more) ++ still) (all_tried between (round flowing))
        → StaysSet number row (more ++ still) (good_rounds (between ∷ later) flowing) → AreKnownWithin row more (good_rounds (between ∷ later) flowing)
        → At (good_rounds (between ∷ (later ++ more)) flowing).state.run.interlocking.ixl.routes number HasAspect }
    ensures shows { (between : List Event) (later more still : List (List Event)) (flowing : Flowing) (number : ℕ) (row : Row) → IsFlow flowing
        → Each IsWork between → Each (Each IsWork) later → Each (Each IsWork) more → Each (Each IsWork) still → HasTime (suc (length ((later ++ more) ++ still))) flowing.state.run → ready_rounds ≤ suc (length later)
        → slice_get flowing.state.sited.table.rows number ≡ Some row → AreBelowLimit flowing.state.sited.site row ((later ++ more) ++ still) (all_tried between (round flowing))
        → StaysSet number row (more ++ still) (good_rounds (between ∷ later) flowing) → AreKnownWithin row more (good_rounds (between ∷ later) flowing)
        → ShowsThrough row.entry row.aspect still (good_rounds (between ∷ (later ++ more)) flowing) }
{
    laws_below();
}

/// An accepted route comes: where the request of a route is accepted after a good round in which the links of a station are ready, so it is
/// with that route as with each set one (`routes_come`): it has its aspect after the rounds within which its points come to be known at
/// their sides (*proceeds*), and its lamp shows the aspect from the next round on (*shows*).
pub(crate) fn accepted_routes_come()
    ensures proceeds { (between : List Event) (later : List (List Event)) (before : List Event) (more still : List (List Event)) (flowing : Flowing) (route : RouteId) (row : Row) → IsFlow flowing
        → Each IsWork between → Each (Each IsWork) later → Each IsWork before → Each (Each IsWork) more → Each (Each IsWork) still → HasTime (suc (length (((later ++ and_request route before ∷ []) ++ more) ++ still))) flowing.state.run
        → ready_rounds ≤ suc (suc (length later)) → slice_get flowing.state.sited.table.rows route.0 ≡ Some row
        → AreBelowLimit flowing.state.sited.site row (((later ++ and_request route before ∷ []) ++ more) ++ still) (all_tried between (round flowing))
        → AcceptsRequest route (as_request_comes (between ∷ later) before flowing).state → StaysClear route.0 row (more ++ still) (good_rounds (between ∷ (later ++ and_request route before ∷ [])) flowing)
        → AreKnownWithin row more (good_rounds (between ∷ (later ++ and_request route before ∷ [])) flowing)
        → At (good_rounds (between ∷ ((later ++ and_request route before ∷ []) ++ more)) flowing).state.run.interlocking.ixl.routes route.0 HasAspect }
    ensures shows { (between : List Event) (later : List (List Event)) (before : List Event) (more still : List (List Event)) (flowing : Flowing) (route : RouteId) (row : Row) → IsFlow flowing
        → Each IsWork between → Each (Each IsWork) later → Each IsWork before → Each (Each IsWork) more → Each (Each IsWork) still → HasTime (suc (length (((later ++ and_request route before ∷ []) ++ more) ++ still))) flowing.state.run
        → ready_rounds ≤ suc (suc (length later)) → slice_get flowing.state.sited.table.rows route.0 ≡ Some row
        → AreBelowLimit flowing.state.sited.site row (((later ++ and_request route before ∷ []) ++ more) ++ still) (all_tried between (round flowing))
        → AcceptsRequest route (as_request_comes (between ∷ later) before flowing).state → StaysClear route.0 row (more ++ still) (good_rounds (between ∷ (later ++ and_request route before ∷ [])) flowing)
        → AreKnownWithin row more (good_rounds (between ∷ (later ++ and_request route before ∷ [])) flowing)
        → ShowsThrough row.entry row.aspect still (good_rounds (between ∷ ((later ++ and_request route before ∷ []) ++ more)) flowing) }
{
    laws_below();
    accepted_settings_are_on_course();
    accepted_settings_move_their_points();
    routes_come();
}

/// Reports make the points of a set route known: where the interlocking awaits the report of a point's move after a good round from the 1565th on, and
/// after one of the next rounds it has taken, as the next item, that the point lies at the side at which a set route requires it, the point is
/// known at this side then, as long as the route stays set. The interlocking gives it no other move in between: none is due while the
/// report is out, and in the step that takes the report the point is known after what comes, before the rules.
pub(crate) fn reports_make_points_of_routes_known()
    ensures { (between : List Event) (later more : List (List Event)) (flowing : Flowing) (number : ℕ) (row : Row) (need : Need)
        → InGoodRounds between (later ++ more) flowing → ready_rounds ≤ suc (length later)
        → slice_get flowing.state.sited.table.rows number ≡ Some row → Contains row.needs need
        → AreBelowLimit flowing.state.sited.site row (later ++ more) (all_tried between (round flowing)) → StaysSet number row more (good_rounds (between ∷ later) flowing)
        → AwaitsMove need.point (good_rounds (between ∷ later) flowing).state.run → TakesReportBehind flowing.state.sited.site need.point need.side more (good_rounds (between ∷ later) flowing)
        → IsKnownWithin need more (good_rounds (between ∷ later) flowing) }
{
    laws_below();
}

/// Driven points of a route come to be known: where after a good round from the 1565th on a set route requires a point, and its controller drives it
/// for a move, then within the next 52 rounds, 520 ms, the point is known at the side at which the route requires it, as long as the route
/// stays set. The premises are else those of `moves_that_are_out_are_reported`, and of `links_are_ready`, of the route's links.
pub(crate) fn driven_points_of_a_route_are_known()
    ensures { (between : List Event) (later more : List (List Event)) (flowing : Flowing) (number : ℕ) (row : Row) (need : Need) (to : Side) (since : ℕ)
        → InGoodRounds between (later ++ more) flowing
        → ready_rounds ≤ suc (length later) → length more ≡ move_rounds
        → slice_get flowing.state.sited.table.rows number ≡ Some row → Contains row.needs need
        → AreBelowLimit flowing.state.sited.site row (later ++ more) (all_tried between (round flowing))
        → DrivesSince need.point to since (good_rounds (between ∷ later) flowing).state.run
        → StaysSet number row more (good_rounds (between ∷ later) flowing)
        → IsKnownWithin need more (good_rounds (between ∷ later) flowing) }
{
    laws_below();
    driven_points_go_where_routes_want();
    links_are_ready();
    moves_that_are_out_are_reported();
    reports_make_points_of_routes_known();
    set_routes_hold_their_points();
}

/// Set routes come in time: a route is set after a good round from the 1565th on (`StaysSet`), and each point that it requires is known at its side,
/// or its move is out, or it may come for the route (`IsFreeFor`): its own section is clear, no route holds it that is withdrawn or whose
/// authority has ended, its section isn't closed, and it got no move in this connection since the route was set. Then its points are known at
/// their sides within 52
/// rounds, 520 ms, and it has its aspect after these. So its lamp shows the aspect after the 53rd round, and goes on to. The premises are
/// else those of `routes_come` and `moves_that_are_out_are_reported`.
pub(crate) fn set_routes_come_in_time()
    ensures { (between : List Event) (later more still : List (List Event)) (flowing : Flowing) (number : ℕ) (row : Row)
        → IsFlow flowing → Each IsWork between → Each (Each IsWork) later → Each (Each IsWork) more → Each (Each IsWork) still
        → HasTime (suc (length ((later ++ more) ++ still))) flowing.state.run
        → ready_rounds ≤ suc (length later) → length more ≡ move_rounds → slice_get flowing.state.sited.table.rows number ≡ Some row
        → AreBelowLimit flowing.state.sited.site row ((later ++ more) ++ still) (all_tried between (round flowing))
        → StaysSet number row (more ++ still) (good_rounds (between ∷ later) flowing)
        → MayYetHaveItsPoints flowing.state.sited.table number row (good_rounds (between ∷ later) flowing).state.run
        → ComesBy number row more still (good_rounds (between ∷ later) flowing) }
{
    laws_below();
    links_are_ready();
    moves_that_are_out_are_reported();
    no_move_waits_that_is_due();
    points_of_proceeding_routes_are_known();
    reports_make_points_of_routes_known();
    routes_come();
    set_routes_hold_their_points();
}

/// Accepted routes come in time: where the request of a route is accepted after a good round from the 1565th on, and each point that it requires
/// is known at its side after the request, or its move is out, or may come (`MayCome`: its own section is clear, and no route holds it that is
/// withdrawn or whose authority has ended), its points are known at their sides within 52 rounds, 520 ms, and it has its aspect after
/// these. So its lamp shows the aspect after the 53rd round, 530 ms after the request, and goes on to. That is so while its sections stay
/// clear and it isn't cancelled. The premises are else those of `accepted_routes_come` and `moves_that_are_out_are_reported`.
pub(crate) fn accepted_routes_come_in_time()
    ensures { (between : List Event) (later : List (List Event)) (before : List Event) (more still : List (List Event)) (flowing : Flowing) (route : RouteId) (row : Row)
        → IsFlow flowing → Each IsWork between → Each (Each IsWork) later → Each IsWork before → Each (Each IsWork) more → Each (Each IsWork) still
        → HasTime (suc (length (((later ++ and_request route before ∷ []) ++ more) ++ still))) flowing.state.run
        → ready_rounds ≤ suc (suc (length later)) → length more ≡ move_rounds → slice_get flowing.state.sited.table.rows route.0 ≡ Some row
        → AreBelowLimit flowing.state.sited.site row (((later ++ and_request route before ∷ []) ++ more) ++ still) (all_tried between (round flowing))
        → AcceptsRequest route (as_request_comes (between ∷ later) before flowing).state
        → StaysClear route.0 row (more ++ still) (good_rounds (between ∷ (later ++ and_request route before ∷ [])) flowing)
        → MayHaveItsPoints flowing.state.sited.table row (good_rounds (between ∷ (later ++ and_request route before ∷ [])) flowing).state.run
        → ComesBy route.0 row more still (good_rounds (between ∷ (later ++ and_request route before ∷ [])) flowing) }
{
    laws_below();
    accepted_settings_are_on_course();
    accepted_settings_move_their_points();
    links_are_ready();
    points_of_proceeding_routes_are_known();
    set_routes_come_in_time();
    set_routes_hold_their_points();
}

/// A point that a route holds which proceeds is known at the side at which set routes hold it, as long as the point's link is ready: after every
/// list of events, on any network. For a route whose point isn't known is withdrawn in the same step, and set routes hold a point at one side.
pub(crate) fn points_of_proceeding_routes_are_known()
    ensures { (site : Site) (table : Table) (world : WorldState) (number : ℕ) (row : Row) (route : RouteState) (point : ℕ) (side another : Side) → IsTableOf site table → IsReached site table world
        → IsRouteOf table world.interlocking.ixl number row route → Proceeds route → HoldsPoint row route.phase point another
        → IsHeldAt table world.interlocking.ixl point side → IsPointReady world.interlocking.ixl point
        → Known world.interlocking.ixl point side }
{
    laws_below();
}

/// Accepted routes come over clear sections: where the request of a route is accepted after a good round from the 1565th on, and each point that
/// it requires is known at its side after the request, or its move is out, or its own section is clear, the route comes within 52 rounds, as in
/// `accepted_routes_come_in_time`, whichever other routes hold its points. For a point that one holds with authority is known at its side.
/// The premises are else those of `accepted_routes_come_in_time`.
pub fn accepted_routes_come_over_clear_sections()
    ensures { (between : List Event) (later : List (List Event)) (before : List Event) (more still : List (List Event)) (flowing : Flowing) (route : RouteId) (row : Row)
        → IsFlow flowing → Each IsWork between → Each (Each IsWork) later → Each IsWork before → Each (Each IsWork) more → Each (Each IsWork) still
        → HasTime (suc (length (((later ++ and_request route before ∷ []) ++ more) ++ still))) flowing.state.run
        → ready_rounds ≤ suc (suc (length later)) → length more ≡ move_rounds → slice_get flowing.state.sited.table.rows route.0 ≡ Some row
        → AreBelowLimit flowing.state.sited.site row (((later ++ and_request route before ∷ []) ++ more) ++ still) (all_tried between (round flowing))
        → AcceptsRequest route (as_request_comes (between ∷ later) before flowing).state
        → StaysClear route.0 row (more ++ still) (good_rounds (between ∷ (later ++ and_request route before ∷ [])) flowing)
        → HasClearPoints flowing.state.sited.table row (good_rounds (between ∷ (later ++ and_request route before ∷ [])) flowing).state.run
        → ComesBy route.0 row more still (good_rounds (between ∷ (later ++ and_request route before ∷ [])) flowing) }
{
    laws_below();
    accepted_routes_come_in_time();
    accepted_settings_are_on_course();
    links_are_ready();
    points_held_with_authority_are_known();
    set_routes_hold_their_points();
}

/// So it is of each set route: after a good round from the 1565th on it is set, and each point that it requires is known at its side, or its move is
/// out, or its own section is clear and isn't closed and it got no move in this connection since the route was set. The premises are else those of
/// `set_routes_come_in_time`.
pub fn set_routes_come_over_clear_sections()
    ensures { (between : List Event) (later more still : List (List Event)) (flowing : Flowing) (number : ℕ) (row : Row)
        → IsFlow flowing → Each IsWork between → Each (Each IsWork) later → Each (Each IsWork) more → Each (Each IsWork) still
        → HasTime (suc (length ((later ++ more) ++ still))) flowing.state.run
        → ready_rounds ≤ suc (length later) → length more ≡ move_rounds → slice_get flowing.state.sited.table.rows number ≡ Some row
        → AreBelowLimit flowing.state.sited.site row ((later ++ more) ++ still) (all_tried between (round flowing))
        → StaysSet number row (more ++ still) (good_rounds (between ∷ later) flowing)
        → HasClearPointsYet flowing.state.sited.table number row (good_rounds (between ∷ later) flowing).state.run
        → ComesBy number row more still (good_rounds (between ∷ later) flowing) }
{
    laws_below();
    links_are_ready();
    points_held_with_authority_are_known();
    set_routes_come_in_time();
    set_routes_hold_their_points();
}
