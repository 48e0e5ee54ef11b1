//! How a route comes to be free: after a cancel, a withdrawal or its train.

ghost use Rattle.std.specs.FinSet.{contains};
ghost use Rattle.std.specs.List.{Contains};
ghost use Rattle.std.specs.Prelude.{◌≡◌, ◌≤◌, ◌<◌, ℕ, suc, List, [], ◌∷◌, ◌++◌, length, false, true, Some, slice_get, IsTrue, ◌⊎◌};
ghost use Rattle.ixl_table.specs.Table.{IsTableOf};
ghost use Rattle.simulator_spec.specs.Flow.{Flowing, round};
ghost use Rattle.simulator_spec.specs.Happens.{answered, happens};
ghost use Rattle.simulator_spec.specs.State.{WorldState};
ghost use Rattle.simulator_spec.specs.ixl_spec.Due.{AllClear, At, IsRouteOf, LetsGo, Freeable, IsClear, IsOccupied};
ghost use Rattle.simulator_spec.specs.ixl_spec.State.{RouteState};
ghost use Rattle.simulator_spec.specs.ixl_spec.Table.{Row, Table};
ghost use Rattle.simulator_spec.specs.ixl_spec.View.{is_set, was_authorised};
ghost use Rattle.simulator_spec.specs.ixl_spec.declared.command.Command.TheVariants.{Cancel};
ghost use Rattle.simulator_spec.specs.ixl_spec.declared.phase.Phase.TheVariants.{Ended, Waiting, Withdrawn};
ghost use Rattle.simulator_spec.specs.layout.Entries.{Site};
ghost use Rattle.simulator_spec.specs.layout.Station.{IsStation};
ghost use Rattle.simulator_spec.specs.layout.declared.ids.RouteId.{RouteId};
ghost use Rattle.simulator_spec.specs.rasta_core.Each.{Each};
ghost use Rattle.simulator_spec.specs.rasta_core.Ends.{reading_of};
ghost use Rattle.simulator_spec.specs.simulator_event.declared.event.Event.{Event};
ghost use Rattle.simulator_spec.specs.simulator_event.declared.event.Event.TheVariants.{Request};
ghost use Rattle.simulator_spec.specs.simulator_event.declared.reply.Answer.TheVariants.{Accepted};
ghost use Rattle.simulator_safety.specs.Reached.{IsReached};
ghost use Rattle.simulator_recovery.specs.Authority.{HasGivenMore, IsUnseen, authority_rounds};
ghost use Rattle.simulator_recovery.specs.Flows.{IsFlow};
ghost use Rattle.simulator_recovery.specs.Lamps.{AcceptsCancel, IsWithdrawnFrom, NoneProceeds, and_cancel, as_cancel_comes};
ghost use Rattle.simulator_recovery.specs.LinkRounds.{StaysBelowLimit, link_rounds};
ghost use Rattle.simulator_recovery.specs.NothingDue.{Proceeds};
ghost use Rattle.simulator_recovery.specs.Passage.{AreUntold, IsLeft, IsPassed, IsSeen};
ghost use Rattle.simulator_recovery.specs.Ready.{ready_rounds};
ghost use Rattle.simulator_recovery.specs.Rounds.{HasTime, InGoodRounds, IsWork, all_tried, good_rounds};
ghost use Rattle.simulator_recovery.specs.RoutesCome.{IsSignalUp};
ghost use Rattle.simulator_recovery.specs.SectionsReported.{section_rounds};
ghost use Rattle.simulator_recovery.specs.Withdrawn.{AcceptsRelease, IsNotSetAnew, approach_rounds, approach_time_rounds, behind_release, told_rounds};

use crate::below::laws_below;
use crate::rounds::good_rounds_are_events;
use crate::sections::sections_are_reported;
use control_table::a_route_leads_over_sections_that_are_there;
use simulator_spec::ixl_spec::passage_frees_all_that_it_may;

/// Authority ends where stop is given: where the interlocking gives something to a signal after a good round from the 1565th on, and no
/// route proceeds from the signal after that, or waits to but a cancelled one, none is withdrawn from it after the second round after,
/// or a later one: the signal has taken stop and reported in the first, and the interlocking has read the report in the second. Whatever
/// requests and occupancies come between the rounds, before and after, as long as that route isn't set anew (`IsNotSetAnew`). The
/// premises are those of `links_come_up`, of the signal's link.
pub(crate) fn authority_ends_where_stop_is_given()
    ensures { (between : List Event) (later : List (List Event)) (last : List Event) (more : List (List Event)) (flowing : Flowing) (signal : ℕ) → InGoodRounds between (later ++ last ∷ more) flowing → signal < length flowing.state.sited.site.signals
        → ready_rounds ≤ suc (suc (length later)) → authority_rounds ≤ length more
        → StaysBelowLimit flowing.state.sited.site signal (later ++ last ∷ more) (all_tried between (round flowing))
        → HasGivenMore signal (round (good_rounds (between ∷ later) flowing)).state.run.interlocking.ixl (good_rounds (between ∷ (later ++ last ∷ [])) flowing).state.run.interlocking.ixl
        → NoneProceeds flowing.state.sited.table (good_rounds (between ∷ (later ++ last ∷ [])) flowing).state.run.interlocking.ixl signal
        → (still : IsWithdrawnFrom flowing.state.sited.table (good_rounds (between ∷ (later ++ last ∷ more)) flowing).state.run.interlocking.ixl signal) → IsNotSetAnew still.number more (good_rounds (between ∷ (later ++ last ∷ [])) flowing) → ⊥ }
{
    laws_below();
}

/// Authority ends after a cancel: where a cancel of a route that proceeds is accepted after a good round from the 1565th on, no route is
/// withdrawn from its signal after the second round after, or a later one, whatever requests and occupancies come before and after, as
/// long as that route isn't set anew (`IsNotSetAnew`): 20 ms after the cancel at most its authority has ended.
pub fn authority_ends_behind_a_cancel()
    ensures { (between : List Event) (later : List (List Event)) (before : List Event) (more : List (List Event)) (flowing : Flowing) (route : RouteId) (row : Row) → IsFlow flowing
        → Each IsWork between → Each (Each IsWork) later → Each IsWork before → Each (Each IsWork) more → HasTime (suc (length (later ++ and_cancel route before ∷ more))) flowing.state.run
        → slice_get flowing.state.sited.table.rows route.0 ≡ Some row → ready_rounds ≤ suc (suc (length later)) → authority_rounds ≤ length more
        → StaysBelowLimit flowing.state.sited.site row.entry (later ++ and_cancel route before ∷ more) (all_tried between (round flowing))
        → At (as_cancel_comes (between ∷ later) before flowing).state.run.interlocking.ixl.routes route.0 Proceeds → AcceptsCancel route (as_cancel_comes (between ∷ later) before flowing).state
        → (still : IsWithdrawnFrom flowing.state.sited.table (good_rounds (between ∷ (later ++ and_cancel route before ∷ more)) flowing).state.run.interlocking.ixl row.entry) → IsNotSetAnew still.number more (good_rounds (between ∷ (later ++ and_cancel route before ∷ [])) flowing) → ⊥ }
{
    laws_below();
}

/// Good rounds free what may be freed: after each of them no cancelled route whose authority has ended waits that lets itself be freed at
/// this reading of the interlocking's clock, whatever requests and occupancies come after the round. So one whose approach counted is
/// free 120 s after its authority ended, if no section of it was reported occupied since this was given and all are clear then.
pub(crate) fn rounds_leave_no_cancelled_route()
    ensures { (between : List Event) (flowing : Flowing) (number : ℕ) (row : Row) (route : RouteState) (clock freed : ℕ) → IsReached flowing.state.sited.site flowing.state.sited.table flowing.state.run → Each IsWork between
        → IsRouteOf flowing.state.sited.table (all_tried between (round flowing)).state.run.interlocking.ixl number row route → route.cancelled ≡ true → route.phase ≡ Ended clock freed
        → LetsGo (reading_of (all_tried between (round flowing)).state.run.interlocking.clock) flowing.state.sited.table (all_tried between (round flowing)).state.run.interlocking.ixl row route clock → ⊥ }
{
    laws_below();
}

/// A route is free after its cancel: where a cancel of a route that proceeds is accepted after a good round from the 1565th on, the route
/// is free after the second round after, or a later one, if no section of it was reported occupied since its authority was given, all are
/// clear then, and its approach didn't count. So it is 20 ms after the cancel, whatever requests and occupancies come before and after,
/// as long as the route isn't set anew (`IsNotSetAnew`).
pub fn routes_are_free_behind_a_cancel()
    ensures { (between : List Event) (later : List (List Event)) (before : List Event) (more : List (List Event)) (flowing : Flowing) (route : RouteId) (row : Row) → IsFlow flowing
        → Each IsWork between → Each (Each IsWork) later → Each IsWork before → Each (Each IsWork) more → IsNotSetAnew route.0 more (good_rounds (between ∷ (later ++ and_cancel route before ∷ [])) flowing) → HasTime (suc (length (later ++ and_cancel route before ∷ more))) flowing.state.run
        → slice_get flowing.state.sited.table.rows route.0 ≡ Some row → ready_rounds ≤ suc (suc (length later)) → authority_rounds ≤ length more
        → StaysBelowLimit flowing.state.sited.site row.entry (later ++ and_cancel route before ∷ more) (all_tried between (round flowing))
        → At (as_cancel_comes (between ∷ later) before flowing).state.run.interlocking.ixl.routes route.0 Proceeds → AcceptsCancel route (as_cancel_comes (between ∷ later) before flowing).state
        → (state : RouteState) → slice_get (good_rounds (between ∷ (later ++ and_cancel route before ∷ more)) flowing).state.run.interlocking.ixl.routes route.0 ≡ Some state
        → IsUnseen row state → AllClear flowing.state.sited.table (good_rounds (between ∷ (later ++ and_cancel route before ∷ more)) flowing).state.run.interlocking.ixl row.sections
        → state.approached ≡ false → is_set state.phase ≡ false }
{
    laws_below();
}

/// A route that waits is free at once: a cancel that is accepted of a route without authority in its present setting frees it in that step,
/// where the interlocking's link to the route's signal is up after the step. So it is after every list of events, on any network. For
/// then the signal is at known stop, as it was when the route was set.
pub(crate) fn waiting_routes_are_free_at_once()
    ensures { (site : Site) (table : Table) (world : WorldState) (route : RouteId) (row : Row) (state : RouteState) → IsReached site table world → slice_get table.rows route.0 ≡ Some row
        → At world.interlocking.ixl.routes route.0 (λ one. one.phase ≡ Waiting) → answered site table (Request (Cancel route)) world ≡ Accepted
        → IsSignalUp row.entry (happens site table (Request (Cancel route)) world)
        → slice_get (happens site table (Request (Cancel route)) world).interlocking.ixl.routes route.0 ≡ Some state → is_set state.phase ≡ false }
{
    laws_below();
}

/// A route that waits is free after its cancel: where this is accepted after a good round from the 1562nd on, the route is free in that
/// step, whatever requests and occupancies come before. The premises are those of `links_come_up`, of the signal's link.
pub fn waiting_routes_are_free_behind_a_cancel()
    ensures { (between : List Event) (later : List (List Event)) (before : List Event) (flowing : Flowing) (route : RouteId) (row : Row) → IsFlow flowing
        → Each IsWork between → Each (Each IsWork) later → Each IsWork before → HasTime (suc (suc (length later))) flowing.state.run
        → slice_get flowing.state.sited.table.rows route.0 ≡ Some row → link_rounds ≤ suc (suc (length later))
        → StaysBelowLimit flowing.state.sited.site row.entry (later ++ and_cancel route before ∷ []) (all_tried between (round flowing))
        → At (as_cancel_comes (between ∷ later) before flowing).state.run.interlocking.ixl.routes route.0 (λ one. one.phase ≡ Waiting) → AcceptsCancel route (as_cancel_comes (between ∷ later) before flowing).state
        → (state : RouteState) → slice_get (good_rounds (between ∷ (later ++ and_cancel route before ∷ [])) flowing).state.run.interlocking.ixl.routes route.0 ≡ Some state → is_set state.phase ≡ false }
{
    laws_below();
}

/// A route whose authority has ended is free at once: a cancel that is accepted of it frees it in that step, where it lets itself go after
/// the step by the interlocking's clock (`LetsGo` of `ixl_spec`): no section of it was reported occupied since its authority was given,
/// all are clear, and its approach didn't count, or its approach time is over. So it is after every list of events, on any network.
pub(crate) fn ended_routes_are_free_at_once()
    ensures { (site : Site) (table : Table) (world : WorldState) (route : RouteId) (row : Row) (state : RouteState) (clock freed : ℕ) → IsReached site table world → slice_get table.rows route.0 ≡ Some row
        → At world.interlocking.ixl.routes route.0 (λ one. one.phase ≡ Ended clock freed) → answered site table (Request (Cancel route)) world ≡ Accepted
        → slice_get (happens site table (Request (Cancel route)) world).interlocking.ixl.routes route.0 ≡ Some state
        → LetsGo (reading_of (happens site table (Request (Cancel route)) world).interlocking.clock) table (happens site table (Request (Cancel route)) world).interlocking.ixl row state clock → is_set state.phase ≡ false }
{
    laws_below();
}

/// Authority ends where stop is given within a round: where the interlocking gives something to a signal in a good round after the 1565th, or
/// after that round, and no route proceeds from the signal then, or waits to but a cancelled one, none is withdrawn from it after the
/// second round after, or a later one, whatever requests and occupancies come, as long as that route isn't set anew (`IsNotSetAnew`). So
/// it is where a route is withdrawn within a round, as by a section that is reported occupied in it. The premises are those of
/// `links_come_up`, of the signal's link.
pub(crate) fn authority_ends_where_stop_is_given_within_a_round()
    ensures { (between : List Event) (later : List (List Event)) (last : List Event) (more : List (List Event)) (flowing : Flowing) (signal : ℕ) → InGoodRounds between (later ++ last ∷ more) flowing → signal < length flowing.state.sited.site.signals
        → ready_rounds ≤ suc (length later) → authority_rounds ≤ length more
        → StaysBelowLimit flowing.state.sited.site signal (later ++ last ∷ more) (all_tried between (round flowing))
        → HasGivenMore signal (good_rounds (between ∷ later) flowing).state.run.interlocking.ixl (good_rounds (between ∷ (later ++ last ∷ [])) flowing).state.run.interlocking.ixl
        → NoneProceeds flowing.state.sited.table (good_rounds (between ∷ (later ++ last ∷ [])) flowing).state.run.interlocking.ixl signal
        → (still : IsWithdrawnFrom flowing.state.sited.table (good_rounds (between ∷ (later ++ last ∷ more)) flowing).state.run.interlocking.ixl signal) → IsNotSetAnew still.number more (good_rounds (between ∷ (later ++ last ∷ [])) flowing) → ⊥ }
{
    laws_below();
}

/// Authority ends after a withdrawal: where a route isn't withdrawn after a good round from the 1565th on, and is after the next, it isn't
/// after the second round after that, or a later one: at the latest 20 ms after the round in which it was withdrawn its authority has
/// ended. So it is where a section of the route is reported occupied, or a point loses its position, whatever requests and occupancies
/// come, as long as the route isn't set anew after its withdrawal (`IsNotSetAnew`). Nor is any other route withdrawn from its signal
/// then that wasn't set since. The premises are those of `links_come_up`, of the signal's link.
pub fn authority_ends_behind_a_withdrawal()
    ensures { (between : List Event) (later : List (List Event)) (last : List Event) (more : List (List Event)) (flowing : Flowing) (signal : ℕ) → InGoodRounds between (later ++ last ∷ more) flowing → signal < length flowing.state.sited.site.signals
        → ready_rounds ≤ suc (length later) → authority_rounds ≤ length more
        → StaysBelowLimit flowing.state.sited.site signal (later ++ last ∷ more) (all_tried between (round flowing))
        → (withdrawn : IsWithdrawnFrom flowing.state.sited.table (good_rounds (between ∷ (later ++ last ∷ [])) flowing).state.run.interlocking.ixl signal)
        → ((route : RouteState) → slice_get (good_rounds (between ∷ later) flowing).state.run.interlocking.ixl.routes withdrawn.number ≡ Some route → route.phase ≡ Withdrawn → ⊥)
        → (still : IsWithdrawnFrom flowing.state.sited.table (good_rounds (between ∷ (later ++ last ∷ more)) flowing).state.run.interlocking.ixl signal) → IsNotSetAnew still.number more (good_rounds (between ∷ (later ++ last ∷ [])) flowing) → ⊥ }
{
    laws_below();
}

/// No authority outlives its withdrawal for long: where a route is withdrawn from a signal after a good round from the 1562nd on, however
/// long ago and whatever came before, none is withdrawn from it 32 good rounds later, 320 ms, or more, whatever requests and occupancies
/// come in these, but where it was set anew in them (`IsNotSetAnew`). The premises are those of `links_come_up`, of the signal's link.
pub fn authority_ends_within_a_heartbeat()
    ensures { (between : List Event) (later more : List (List Event)) (flowing : Flowing) (signal : ℕ) → InGoodRounds between (later ++ more) flowing → signal < length flowing.state.sited.site.signals
        → link_rounds ≤ suc (length later) → told_rounds ≤ length more
        → StaysBelowLimit flowing.state.sited.site signal (later ++ more) (all_tried between (round flowing))
        → IsWithdrawnFrom flowing.state.sited.table (good_rounds (between ∷ later) flowing).state.run.interlocking.ixl signal
        → (still : IsWithdrawnFrom flowing.state.sited.table (good_rounds (between ∷ (later ++ more)) flowing).state.run.interlocking.ixl signal) → IsNotSetAnew still.number more (good_rounds (between ∷ later) flowing) → ⊥ }
{
    laws_below();
}

/// A route whose authority has ended is free after its approach: a cancelled one is free 12000 good rounds later, 120,000 ms, or more, if
/// no section of it was reported occupied since its authority was given and all are clear then. So it is whether or not its approach
/// counted, whatever has happened to the station before, whatever becomes of its links, and whatever requests and occupancies come,
/// as long as the route isn't set anew (`IsNotSetAnew`).
pub fn ended_routes_are_free_behind_their_approach()
    ensures { (more : List (List Event)) (flowing : Flowing) (number : ℕ) (row : Row) (route : RouteState) (clock freed : ℕ) → IsFlow flowing → Each (Each IsWork) more → IsNotSetAnew number more flowing → HasTime (length more) flowing.state.run → approach_time_rounds ≤ length more
        → IsRouteOf flowing.state.sited.table flowing.state.run.interlocking.ixl number row route → route.cancelled ≡ true → route.phase ≡ Ended clock freed
        → (state : RouteState) → slice_get (good_rounds more flowing).state.run.interlocking.ixl.routes number ≡ Some state
        → IsUnseen row state → AllClear flowing.state.sited.table (good_rounds more flowing).state.run.interlocking.ixl row.sections → is_set state.phase ≡ false }
{
    laws_below();
}

/// A cancelled route is free after its approach: where a cancel of a route that proceeds is accepted after a good round from the 1565th on,
/// the route is free 12002 good rounds after, 120,020 ms, or more, if no section of it was reported occupied since its authority was given
/// and all are clear then. So it is whether or not its approach counted, and whatever requests and occupancies come, as long as the
/// route isn't set anew after its cancel (`IsNotSetAnew`). The premises are those of `links_come_up`, of the signal's link, till 20 ms
/// after it.
pub fn cancelled_routes_are_free_behind_their_approach()
    ensures { (between : List Event) (later : List (List Event)) (before : List Event) (some more : List (List Event)) (flowing : Flowing) (route : RouteId) (row : Row) → IsFlow flowing
        → Each IsWork between → Each (Each IsWork) later → Each IsWork before → Each (Each IsWork) (some ++ more) → IsNotSetAnew route.0 (some ++ more) (good_rounds (between ∷ (later ++ and_cancel route before ∷ [])) flowing) → HasTime (suc (length (later ++ and_cancel route before ∷ (some ++ more)))) flowing.state.run
        → slice_get flowing.state.sited.table.rows route.0 ≡ Some row → ready_rounds ≤ suc (suc (length later)) → length some ≡ authority_rounds → approach_rounds ≤ length (some ++ more)
        → StaysBelowLimit flowing.state.sited.site row.entry (later ++ and_cancel route before ∷ some) (all_tried between (round flowing))
        → At (as_cancel_comes (between ∷ later) before flowing).state.run.interlocking.ixl.routes route.0 Proceeds → AcceptsCancel route (as_cancel_comes (between ∷ later) before flowing).state
        → (state : RouteState) → slice_get (good_rounds (between ∷ (later ++ and_cancel route before ∷ (some ++ more))) flowing).state.run.interlocking.ixl.routes route.0 ≡ Some state
        → IsUnseen row state → AllClear flowing.state.sited.table (good_rounds (between ∷ (later ++ and_cancel route before ∷ (some ++ more))) flowing).state.run.interlocking.ixl row.sections
        → is_set state.phase ≡ false }
{
    laws_below();
}

/// A released route is free behind its release: one that is released is free 12000 good rounds later, 120,000 ms, or more, whatever was
/// reported of its sections, whatever has happened to the station before, whatever becomes of its links, and whatever requests and
/// occupancies come, as long as the route isn't set anew (`IsNotSetAnew`). A train or its cancel may free it before.
pub fn released_routes_are_free_behind_their_release()
    ensures { (more : List (List Event)) (flowing : Flowing) (number : ℕ) (row : Row) (route : RouteState) (clock : ℕ) → IsFlow flowing → Each (Each IsWork) more → IsNotSetAnew number more flowing → HasTime (length more) flowing.state.run → approach_time_rounds ≤ length more
        → IsRouteOf flowing.state.sited.table flowing.state.run.interlocking.ixl number row route → route.released ≡ Some clock
        → (state : RouteState) → slice_get (good_rounds more flowing).state.run.interlocking.ixl.routes number ≡ Some state → is_set state.phase ≡ false }
{
    laws_below();
}

/// A route is free after its release: where a release of a route is accepted, the route is free 12000 good rounds after, 120,000 ms, or
/// more, whatever was reported of its sections. So it is whatever has happened to the station before, whatever becomes of its links, and
/// whatever requests and occupancies come, as long as the route isn't set anew (`IsNotSetAnew`). A release is accepted as soon as the
/// route is cancelled and its authority has ended, which is 20 ms after the cancel at most where this comes as in
/// `authority_ends_behind_a_cancel`: so within 120,020 ms of its cancel a route can be free, whether a train came or not.
pub fn routes_are_free_behind_a_release()
    ensures { (more : List (List Event)) (flowing : Flowing) (route : RouteId) (row : Row) → IsFlow flowing → Each (Each IsWork) more → IsNotSetAnew route.0 more (behind_release route flowing) → HasTime (length more) flowing.state.run → approach_time_rounds ≤ length more
        → slice_get flowing.state.sited.table.rows route.0 ≡ Some row → AcceptsRelease route flowing.state
        → (state : RouteState) → slice_get (good_rounds more (behind_release route flowing)).state.run.interlocking.ixl.routes route.0 ≡ Some state → is_set state.phase ≡ false }
{
    laws_below();
}

/// No section waits that its passage lets go: after every list of events, on any network. So a section is freed in the very step in which
/// the interlocking knows that a train has gone over it and on: that the section was reported occupied since the route was given
/// authority, that it is clear, and that the next one was reported occupied, too, where there is one. With the last section the route is
/// free.
pub fn no_section_waits_that_its_passage_lets_go()
    ensures { (site : Site) (table : Table) (world : WorldState) (number place : ℕ) (row : Row) (route : RouteState) → IsReached site table world → IsRouteOf table world.interlocking.ixl number row route
        → Freeable table world.interlocking.ixl row route place → ⊥ }
{
    passage_frees_all_that_it_may();
}

/// What a route saw of its sections agrees with what is known of them: after every list of events, on any network, each route that was given
/// authority last saw clear what is clear of its sections (*clear*), and saw occupied what is occupied (*occupied*). So none that is clear
/// waits for its passage to see it, and no train is missed that is known of.
pub(crate) fn routes_saw_what_is_known_of_their_sections()
    ensures clear { (site : Site) (table : Table) (world : WorldState) (number place section : ℕ) (row : Row) (route : RouteState) → IsStation site → IsTableOf site table → IsReached site table world
        → IsRouteOf table world.interlocking.ixl number row route → was_authorised route.phase ≡ true → slice_get row.sections place ≡ Some section → IsClear table world.interlocking.ixl section
        → contains route.passage.occupied place ≡ false }
    ensures occupied { (site : Site) (table : Table) (world : WorldState) (number place section : ℕ) (row : Row) (route : RouteState) → IsStation site → IsTableOf site table → IsReached site table world
        → IsRouteOf table world.interlocking.ixl number row route → was_authorised route.phase ≡ true → slice_get row.sections place ≡ Some section → IsOccupied table world.interlocking.ixl section
        → IsTrue (contains route.passage.seen place) }
{}

/// What a route has seen it goes on to have seen: over every event, as long as it stays set. So each section of it that was known to be
/// occupied since it was given authority counts as seen from then on.
pub(crate) fn seen_sections_stay_seen()
    ensures { (site : Site) (table : Table) (event : Event) (world : WorldState) (number place : ℕ) (route later : RouteState) → slice_get world.interlocking.ixl.routes number ≡ Some route → was_authorised route.phase ≡ true
        → IsTrue (contains route.passage.seen place) → slice_get (happens site table event world).interlocking.ixl.routes number ≡ Some later → was_authorised later.phase ≡ true
        → IsTrue (contains later.passage.seen place) }
{}

/// A train frees its route: after every list of events, on any network, no route is set any more over which a train has gone, once its
/// authority has ended. That is one of which each section was reported occupied since the route was given authority, and all are clear.
pub(crate) fn trains_free_their_routes()
    ensures { (site : Site) (table : Table) (world : WorldState) (number clock freed : ℕ) (row : Row) (route : RouteState) → IsStation site → IsTableOf site table → IsReached site table world
        → IsRouteOf table world.interlocking.ixl number row route → IsPassed table world.interlocking.ixl row route → route.phase ≡ Ended clock freed → ⊥ }
{
    a_route_leads_over_sections_that_are_there();
    passage_frees_all_that_it_may();
}

/// A route is free behind its train: no route is set any more whose authority has ended, and of which each section was reported occupied since
/// it was given authority, and lies clear in the field, after 32 good rounds, 320 ms, in which nothing is told of these sections, from the
/// 1565th round on (`AreUntold`, `IsLeft`). All else may change as it likes: requests come, and other sections of their detectors are told of
/// as often as you like. The premises are those of `links_are_ready`, of the links of these detectors.
pub fn routes_are_free_behind_their_trains()
    ensures { (between : List Event) (later more : List (List Event)) (flowing : Flowing) (number clock freed : ℕ) (row : Row) (route : RouteState)
        → InGoodRounds between (later ++ more) flowing → ready_rounds ≤ suc (length later) → section_rounds ≤ length more
        → AreUntold row more flowing → ((section : ℕ) → Contains row.sections section → IsLeft section between (later ++ more) flowing)
        → IsRouteOf flowing.state.sited.table (good_rounds (between ∷ (later ++ more)) flowing).state.run.interlocking.ixl number row route → IsSeen row route → route.phase ≡ Ended clock freed → ⊥ }
{
    good_rounds_are_events();
    sections_are_reported();
    trains_free_their_routes();
}

/// A withdrawn route is free behind its train: a route that is withdrawn after a good round from the 1565th on, for whatever reason, is free 32
/// rounds later, 320 ms, or more, in which nothing is told of its sections (`AreUntold`), where each of these lies clear in the field
/// then, and was reported occupied since the route was given authority, before these rounds or within them. For its authority has ended
/// then, and all its sections are known to be clear. All else may come in these rounds, as long as the route isn't set anew
/// (`IsNotSetAnew`): requests, its cancel, and other sections of their detectors. The premises are those of `links_come_up`, of the
/// signal's link, and those of `links_are_ready`, of the links of the detectors of its sections (`IsLeft`).
pub fn withdrawn_routes_are_free_behind_their_trains()
    ensures { (between : List Event) (later more : List (List Event)) (flowing : Flowing) (number : ℕ) (row : Row) (route state : RouteState)
        → InGoodRounds between (later ++ more) flowing → ready_rounds ≤ suc (length later) → told_rounds ≤ length more
        → IsNotSetAnew number more (good_rounds (between ∷ later) flowing) → AreUntold row more flowing
        → StaysBelowLimit flowing.state.sited.site row.entry (later ++ more) (all_tried between (round flowing))
        → ((section : ℕ) → Contains row.sections section → IsLeft section between (later ++ more) flowing)
        → IsRouteOf flowing.state.sited.table (good_rounds (between ∷ later) flowing).state.run.interlocking.ixl number row route → route.phase ≡ Withdrawn
        → slice_get (good_rounds (between ∷ (later ++ more)) flowing).state.run.interlocking.ixl.routes number ≡ Some state → IsSeen row route ⊎ IsSeen row state
        → is_set state.phase ≡ false }
{
    laws_below();
    authority_ends_within_a_heartbeat();
    routes_are_free_behind_their_trains();
}
