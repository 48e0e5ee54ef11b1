//! What lamps come to show in good rounds.

ghost use Rattle.std.specs.Prelude.{◌≡◌, ◌≤◌, ◌<◌, ◌+◌, ℕ, suc, List, [], ◌∷◌, ◌++◌, length, replicate, Some, slice_get, false};
ghost use Rattle.ixl_table.specs.Table.{IsTableOf};
ghost use Rattle.simulator_spec.specs.Flow.{Flowing, round};
ghost use Rattle.simulator_spec.specs.Happens.{answered, happens};
ghost use Rattle.simulator_spec.specs.Nodes.{links};
ghost use Rattle.simulator_spec.specs.State.{WorldState};
ghost use Rattle.simulator_spec.specs.ixl_client.Client.{is_outside};
ghost use Rattle.simulator_spec.specs.ixl_spec.State.{KnownSignalState};
ghost use Rattle.simulator_spec.specs.ixl_spec.Table.{Row, Table};
ghost use Rattle.simulator_spec.specs.ixl_spec.declared.command.Command.TheVariants.{Cancel};
ghost use Rattle.simulator_spec.specs.layout.Entries.{Site};
ghost use Rattle.simulator_spec.specs.layout.Once.{Once};
ghost use Rattle.simulator_spec.specs.layout.Station.{IsStation};
ghost use Rattle.simulator_spec.specs.layout.declared.ids.RouteId.{RouteId};
ghost use Rattle.simulator_spec.specs.rasta_core.Each.{Each};
ghost use Rattle.simulator_spec.specs.sci_telegram.declared.message.Aspect.{Aspect};
ghost use Rattle.simulator_spec.specs.simulator_event.declared.event.Event.{Event};
ghost use Rattle.simulator_spec.specs.simulator_event.declared.event.Event.TheVariants.{Request};
ghost use Rattle.simulator_spec.specs.simulator_event.declared.reply.Answer.TheVariants.{Accepted};
ghost use Rattle.simulator_safety.specs.Reached.{IsReached};
ghost use Rattle.simulator_recovery.specs.Flows.{IsFlow};
ghost use Rattle.simulator_recovery.specs.HandedOver.{HasConfirmed, HasHandedOver};
ghost use Rattle.simulator_recovery.specs.Lamps.{AcceptsCancel, GivesNoMore, HasStopLast, IsAtStop, IsStopTaken, IsWithdrawnFrom, NoneProceeds, and_cancel, as_cancel_comes, stop_rounds};
ghost use Rattle.simulator_recovery.specs.LinkRounds.{StaysBelowLimit, link_rounds};
ghost use Rattle.simulator_recovery.specs.Rounds.{HasTime, InGoodRounds, IsWork, all_tried, good_rounds};
ghost use Rattle.simulator_recovery.specs.Shows.{RouteProceeds, ProceedsThrough, Shows, ShowsThrough, StaysGiven, aspect_rounds};

use crate::below::laws_below;

/// What is given on a link of a station by one good round has come over after the next one: from the 1562nd round on each end has
/// taken as many items as the other had given by the round before. The premises are those of `links_come_up`.
pub(crate) fn links_hand_over()
    ensures { (between : List Event) (later : List (List Event)) (last : List Event) (flowing : Flowing) (link : ℕ) → InGoodRounds between (later ++ last ∷ []) flowing → link < links flowing.state.sited.site → link_rounds ≤ suc (length later)
        → StaysBelowLimit flowing.state.sited.site link (later ++ last ∷ []) (all_tried between (round flowing))
        → HasHandedOver link (good_rounds (between ∷ later) flowing).state.run (good_rounds (between ∷ (later ++ last ∷ [])) flowing).state.run }
{
    laws_below();
}

/// A lamp falls where stop has come over: where the link of a signal has handed over from one moment to a later one, stop was the last
/// aspect given to the signal by the first, or none was given, and it was given no aspect since, its lamp is at stop.
pub(crate) fn lamps_follow_what_was_given()
    ensures { (site : Site) (table : Table) (old new : WorldState) (signal : ℕ) → Once site → IsStation site → IsTableOf site table → IsReached site table old → IsReached site table new → signal < length site.signals
        → HasHandedOver signal old new → HasStopLast signal old.interlocking.ixl → GivesNoMore signal old.interlocking.ixl new.interlocking.ixl → IsAtStop signal new }
{
    laws_below();
}

/// In a good round no aspect is given to a signal from which no route proceeds, and none waits to but one that is cancelled (*given*); and
/// so it stays in the round (*stays*).
pub(crate) fn rounds_give_no_aspect()
    ensures given { (flowing : Flowing) (signal : ℕ) → NoneProceeds flowing.state.sited.table flowing.state.run.interlocking.ixl signal
        → GivesNoMore signal flowing.state.run.interlocking.ixl (round flowing).state.run.interlocking.ixl }
    ensures stays { (flowing : Flowing) (signal : ℕ) → NoneProceeds flowing.state.sited.table flowing.state.run.interlocking.ixl signal
        → NoneProceeds flowing.state.sited.table (round flowing).state.run.interlocking.ixl signal }
{}

/// A signal from which no route proceeds was given stop last in the present connection, or no aspect there: after every list of events,
/// on any network.
pub(crate) fn stop_is_given_last()
    ensures { (site : Site) (table : Table) (world : WorldState) (signal : ℕ) → IsReached site table world → NoneProceeds table world.interlocking.ixl signal → HasStopLast signal world.interlocking.ixl }
{}

/// From the signal of a route that is withdrawn, for whatever reason, no route proceeds, or waits to: two set routes don't begin at one
/// signal.
pub(crate) fn withdrawn_routes_stand_alone()
    ensures { (site : Site) (table : Table) (world : WorldState) (signal : ℕ) → IsReached site table world → IsWithdrawnFrom table world.interlocking.ixl signal → NoneProceeds table world.interlocking.ixl signal }
{}

/// Authority ends in the step in which stop is confirmed: after every list of events, on any network, no route is withdrawn whose signal is
/// known to have taken stop, where its link is up.
pub(crate) fn authority_ends_with_the_confirmation()
    ensures { (site : Site) (table : Table) (world : WorldState) (signal : ℕ) (known : KnownSignalState) → IsReached site table world → IsWithdrawnFrom table world.interlocking.ixl signal
        → slice_get world.interlocking.ixl.known_signals signal ≡ Some known → IsStopTaken known → ⊥ }
{}

/// Where the interlocking's link to a signal holds for confirmed at a later moment what was given at an earlier one, as no route proceeded from
/// the signal, and the signal was given no aspect since, no route is withdrawn from it any more: authority has ended.
pub(crate) fn authority_ends_where_stop_is_confirmed()
    ensures { (site : Site) (table : Table) (old new : WorldState) (signal : ℕ) → Once site → IsStation site → IsTableOf site table → IsReached site table old → IsReached site table new → signal < length site.signals
        → HasConfirmed signal old new → NoneProceeds table old.interlocking.ixl signal → GivesNoMore signal old.interlocking.ixl new.interlocking.ixl → IsWithdrawnFrom table new.interlocking.ixl signal → ⊥ }
{
    laws_below();
}

/// A cancel that is accepted leaves no aspect: in the same step the route is withdrawn, or it has no authority, and after the step no
/// route proceeds from its signal, or waits to but itself.
pub(crate) fn cancels_leave_no_aspect()
    ensures { (site : Site) (table : Table) (world : WorldState) (route : RouteId) (row : Row) → IsReached site table world → slice_get table.rows route.0 ≡ Some row
        → answered site table (Request (Cancel route)) world ≡ Accepted → NoneProceeds table (happens site table (Request (Cancel route)) world).interlocking.ixl row.entry }
{}

/// Stop comes: after each good round from the 1562nd on, a signal from which no route proceeds then, or waits to but a cancelled one, is
/// at stop after the next round. So it is after a cancel that is accepted, and where a route is withdrawn for another reason;
/// whatever requests and occupancies come between the rounds before. The premises are those of `links_come_up`, of the
/// signal's link.
pub fn stop_comes()
    ensures { (between : List Event) (later : List (List Event)) (flowing : Flowing) (signal : ℕ) → IsFlow flowing
        → Each IsWork between → Each (Each IsWork) later → HasTime (suc (stop_rounds + length later)) flowing.state.run → signal < length flowing.state.sited.site.signals → link_rounds ≤ suc (length later)
        → StaysBelowLimit flowing.state.sited.site signal (later ++ replicate stop_rounds []) (all_tried between (round flowing))
        → NoneProceeds flowing.state.sited.table (good_rounds (between ∷ later) flowing).state.run.interlocking.ixl signal
        → IsAtStop signal (good_rounds (between ∷ (later ++ replicate stop_rounds [])) flowing).state.run }
{
    laws_below();
}

/// The lamp falls after a cancel: where a cancel of a route is accepted after a good round from the 1562nd on, the lamp of the route's
/// signal is at stop after the next round, whatever requests and occupancies come before.
pub fn lamps_fall_behind_a_cancel()
    ensures { (between : List Event) (later : List (List Event)) (before : List Event) (flowing : Flowing) (route : RouteId) (row : Row) → IsFlow flowing
        → Each IsWork between → Each (Each IsWork) later → Each IsWork before → HasTime (suc (stop_rounds + suc (length later))) flowing.state.run
        → slice_get flowing.state.sited.table.rows route.0 ≡ Some row → link_rounds ≤ suc (suc (length later))
        → StaysBelowLimit flowing.state.sited.site row.entry (later ++ and_cancel route before ∷ replicate stop_rounds []) (all_tried between (round flowing))
        → AcceptsCancel route (as_cancel_comes (between ∷ later) before flowing).state
        → IsAtStop row.entry (good_rounds (between ∷ (later ++ and_cancel route before ∷ replicate stop_rounds [])) flowing).state.run }
{
    laws_below();
}

/// A lamp shows what its signal was given: where the link of a signal has handed over from one moment to a later one, and an aspect was the
/// last one given to the signal at both moments, in the same item, the lamp shows this aspect at the later one.
pub(crate) fn lamps_show_what_was_given()
    ensures { (site : Site) (table : Table) (old new : WorldState) (signal : ℕ) (aspect : Aspect) → Once site → IsStation site → IsTableOf site table → IsReached site table old → IsReached site table new
        → signal < length site.signals → HasHandedOver signal old new → StaysGiven signal aspect old.interlocking.ixl new.interlocking.ixl → Shows signal aspect new }
{
    laws_below();
}

/// A route that proceeds has given its aspect: after every list of events, on any network, this is the last aspect that was given to the
/// route's signal in the present connection, where the signal's client isn't outside.
pub(crate) fn proceeding_routes_gave_their_aspect()
    ensures { (site : Site) (table : Table) (world : WorldState) (number : ℕ) (row : Row) (known : KnownSignalState) → Once site → IsStation site → IsTableOf site table → IsReached site table world
        → RouteProceeds table world.interlocking.ixl number row → slice_get world.interlocking.ixl.known_signals row.entry ≡ Some known → is_outside known.client.stage ≡ false → known.aspect ≡ Some row.aspect }
{
    laws_below();
}

/// In a good round before and after which a route proceeds its signal is given nothing.
pub(crate) fn rounds_give_proceeding_routes_nothing()
    ensures { (flowing : Flowing) (number : ℕ) (row : Row) → IsReached flowing.state.sited.site flowing.state.sited.table flowing.state.run
        → RouteProceeds flowing.state.sited.table flowing.state.run.interlocking.ixl number row → RouteProceeds flowing.state.sited.table (round flowing).state.run.interlocking.ixl number row
        → GivesNoMore row.entry flowing.state.run.interlocking.ixl (round flowing).state.run.interlocking.ixl }
{}

/// A route shows its aspect: where it proceeds after a good round from the 1562nd on, its signal's lamp shows the route's aspect after the
/// next round, if the route proceeds still. The premises are those of `links_come_up`, of the signal's link.
pub fn routes_show_their_aspect()
    ensures { (between : List Event) (later : List (List Event)) (flowing : Flowing) (number : ℕ) (row : Row) → IsFlow flowing
        → Each IsWork between → Each (Each IsWork) later → HasTime (suc (aspect_rounds + length later)) flowing.state.run → link_rounds ≤ suc (length later)
        → StaysBelowLimit flowing.state.sited.site row.entry (later ++ replicate aspect_rounds []) (all_tried between (round flowing))
        → RouteProceeds flowing.state.sited.table (good_rounds (between ∷ later) flowing).state.run.interlocking.ixl number row
        → RouteProceeds flowing.state.sited.table (good_rounds (between ∷ (later ++ replicate aspect_rounds [])) flowing).state.run.interlocking.ixl number row
        → Shows row.entry row.aspect (good_rounds (between ∷ (later ++ replicate aspect_rounds [])) flowing).state.run }
{
    laws_below();
}

/// An aspect stays: in each good round from the 1563rd on before and after which a route proceeds, its signal's lamp comes to show the route's
/// aspect, or goes on to, and shows it also after the requests and occupancies that come next. So it shows until the route is cancelled, or
/// withdrawn. The premises are those of `links_come_up`, of the signal's link.
pub fn aspects_stay()
    ensures { (between : List Event) (later more : List (List Event)) (flowing : Flowing) (number : ℕ) (row : Row) → IsFlow flowing
        → Each IsWork between → Each (Each IsWork) later → Each (Each IsWork) more → HasTime (suc (length (later ++ more))) flowing.state.run → link_rounds ≤ suc (length later)
        → StaysBelowLimit flowing.state.sited.site row.entry (later ++ more) (all_tried between (round flowing))
        → ProceedsThrough number row more (good_rounds (between ∷ later) flowing) → ShowsThrough row.entry row.aspect more (good_rounds (between ∷ later) flowing) }
{
    laws_below();
}
