//! What a link of a station comes to in good rounds.

ghost use Rattle.std.specs.Prelude.{◌≡◌, ◌≤◌, ◌<◌, ℕ, suc, List, ◌∷◌, length, ◌⊎◌, [], true, ◌++◌, is_ok};
ghost use Rattle.simulator_spec.specs.Flow.{Flowing, round};
ghost use Rattle.simulator_spec.specs.Links.{AreLinksOf, names_at};
ghost use Rattle.simulator_spec.specs.Nodes.{links};
ghost use Rattle.simulator_spec.specs.State.{WorldState};
ghost use Rattle.simulator_spec.specs.ixl_spec.Table.{Table};
ghost use Rattle.simulator_spec.specs.layout.Entries.{Site};
ghost use Rattle.simulator_spec.specs.object_host.Host.{HostState};
ghost use Rattle.simulator_spec.specs.object_host.Step.{host_step};
ghost use Rattle.simulator_spec.specs.object_host.declared.input.Input.{Input};
ghost use Rattle.simulator_spec.specs.rasta_core.Calls.{receiving, answer_to_send};
ghost use Rattle.simulator_spec.specs.rasta_core.Each.{Each};
ghost use Rattle.simulator_spec.specs.rasta_core.EachLink.{AreTimely};
ghost use Rattle.simulator_spec.specs.rasta_core.Ends.{reading_of, Receives};
ghost use Rattle.simulator_spec.specs.rasta_core.Events.{Calls, May};
ghost use Rattle.simulator_spec.specs.rasta_core.Invariant.{Timely};
ghost use Rattle.simulator_spec.specs.rasta_core.Links.{Links};
ghost use Rattle.simulator_spec.specs.rasta_core.Names.{AreNames, Names};
ghost use Rattle.simulator_spec.specs.rasta_core.Ordered.{Ordered};
ghost use Rattle.simulator_spec.specs.rasta_core.Run.{Ends, end_of};
ghost use Rattle.simulator_spec.specs.rasta_core.State.{is_open};
ghost use Rattle.simulator_spec.specs.rasta_core.identity.Role.{Role};
ghost use Rattle.simulator_spec.specs.signal_ctl.Signal.{SignalState, signal_behaviour};
ghost use Rattle.simulator_spec.specs.simulator_event.declared.event.Event.{Event};
ghost use Rattle.simulator_safety.specs.Reached.{IsReached};
ghost use Rattle.simulator_recovery.specs.FirstRound.{NoneIsSaidAgain, first_link_rounds, first_ready_rounds};
ghost use Rattle.simulator_recovery.specs.Flows.{IsFlow};
ghost use Rattle.simulator_recovery.specs.HandedOver.{HasConfirmed};
ghost use Rattle.simulator_recovery.specs.LinkRounds.{AreInOne, IsAtWorkOn, IsUpOn, StaysBelowLimit, link_rounds};
ghost use Rattle.simulator_recovery.specs.Matched.{AreMatchedAll};
ghost use Rattle.simulator_recovery.specs.NextItems.{GoOn};
ghost use Rattle.simulator_recovery.specs.Ready.{IsReadyOn, ready_rounds};
ghost use Rattle.simulator_recovery.specs.Replies.{GoOnWith, behind_what_comes, indication};
ghost use Rattle.simulator_recovery.specs.RepliesOn.{RepliesBehind};
ghost use Rattle.simulator_recovery.specs.Rounds.{HasTime, InGoodRounds, IsWork, LeavesFresh, all_tried, good_rounds};

use crate::below::laws_below;
use rasta_pdu::read_was_written;

/// A good round is a round at work on each link of a station: 10 ms pass at both its ends. Then all that was sent on it since the
/// round before began comes to the end that it is for, in the order of sending, each end ticks, and the client opens. In
/// between an end may be given items, and be closed. No datagram is lost, and no end is made anew.
pub fn good_rounds_are_at_work_on_links()
    ensures { (old new : Flowing) (leaves : LeavesFresh old new) (between : List Event) (before : Links) (link : ℕ) → IsFlow new → Each IsWork between → HasTime 1 new.state.run
        → AreTimely (links new.state.sited.site) (names_at new.state.sited.site) before → AreLinksOf new.state.sited.site new.state.run before → link < links new.state.sited.site
        → IsAtWorkOn new.state.sited.site link between old new before }
{
    laws_below();
}

/// The links of a station come up: after any list of events, and after each good round from the 1562nd on, the link between the
/// interlocking and each controller is up at both ends, whatever requests and occupancies come between the rounds. So it is
/// where neither of its ends comes to the limit of PDUs in a connection.
pub fn links_come_up()
    ensures { (between : List Event) (later : List (List Event)) (flowing : Flowing) (link : ℕ) → InGoodRounds between later flowing → link < links flowing.state.sited.site → link_rounds ≤ suc (length later)
        → StaysBelowLimit flowing.state.sited.site link later (all_tried between (round flowing))
        → IsUpOn link (good_rounds (between ∷ later) flowing).state.run }
{
    laws_below();
}

/// The links of a station are ready: after any list of events, and after each good round from the 1565th on, the link between the
/// interlocking and each controller is ready at both ends, whatever requests and occupancies come between the rounds: both
/// ends are up, and the initialisation of their connection is completed at both. So it is where neither of its ends comes to the
/// limit of PDUs in a connection.
pub fn links_are_ready()
    ensures { (between : List Event) (later : List (List Event)) (flowing : Flowing) (link : ℕ) → InGoodRounds between later flowing → link < links flowing.state.sited.site → ready_rounds ≤ suc (length later)
        → StaysBelowLimit flowing.state.sited.site link later (all_tried between (round flowing))
        → IsReadyOn flowing.state.sited.site link (good_rounds (between ∷ later) flowing).state.run }
{
    laws_below();
}

/// The two ends of a link that is up at both ends are in one connection. So what each took in it is a beginning of what the other
/// gave (`each_link_of_a_station_is_safe`).
pub fn links_that_are_up_are_in_one_connection()
    ensures { (site : Site) (link : ℕ) (world : WorldState) (these : Links) → link < links site → AreTimely (links site) (names_at site) these → AreLinksOf site world these
        → IsUpOn link world → AreInOne link these }
{
    laws_below();
}

/// A link of a station comes up a round earlier where nothing that is said on it in the first good round comes in it: after each good
/// round from the 1561st on, so 15.61 s after they began, the link between the interlocking and a controller is up at both ends,
/// whatever requests and occupancies come between the rounds, and whatever comes on the others. Copies of what was sent before may come
/// in that round, in any order and again and again. What a node says as something comes to it comes in the same round only in the place
/// of a datagram of the same bytes that is too old itself, and of which no copy can come as the round begins; what nodes say as they tick
/// comes in the next. And so it is where neither end comes to the limit of PDUs in a connection.
pub fn links_come_up_from_the_first_round()
    ensures { (between : List Event) (later : List (List Event)) (flowing : Flowing) (link : ℕ) → InGoodRounds between later flowing → link < links flowing.state.sited.site → first_link_rounds ≤ suc (length later)
        → NoneIsSaidAgain link flowing → StaysBelowLimit flowing.state.sited.site link (between ∷ later) flowing
        → IsUpOn link (good_rounds (between ∷ later) flowing).state.run }
{
    laws_below();
    read_was_written();
}

/// And so it is ready a round earlier: after each good round from the 1564th on, so 15.64 s after they began, the link between the
/// interlocking and a controller is ready at both ends: both are up, and the initialisation of their connection is completed at
/// both. The premises are those of `links_come_up_from_the_first_round`.
pub fn links_are_ready_from_the_first_round()
    ensures { (between : List Event) (later : List (List Event)) (flowing : Flowing) (link : ℕ) → InGoodRounds between later flowing → link < links flowing.state.sited.site → first_ready_rounds ≤ suc (length later)
        → NoneIsSaidAgain link flowing → StaysBelowLimit flowing.state.sited.site link (between ∷ later) flowing
        → IsReadyOn flowing.state.sited.site link (good_rounds (between ∷ later) flowing).state.run }
{
    laws_below();
    read_was_written();
}

/// What an end that is inside a connection takes of a datagram that may come to it goes on where it stands: these are the items that its
/// partner has given in the same connection after all that the end has taken. A server that is inside is in the client's last
/// connection; so none is of an earlier one, whatever the network keeps back.
pub(crate) fn items_go_on()
    ensures { (names : Names) (ends : Ends) (who : Role) (bytes : List ℕ) (connection : ℕ) → AreNames names → Timely names ends → Ordered names ends
        → May names (Calls who (Receives bytes connection)) ends → is_open (end_of who ends).link.phase ≡ true
        → ((receiving (reading_of (end_of who ends).clock) bytes (end_of who ends).link).items ≡ []) ⊎ GoOn who ends (receiving (reading_of (end_of who ends).clock) bytes (end_of who ends).link).items }
{
    laws_below();
}

/// After every list of events the client of each controller speaks with it, and each controller with the interlocking, under the
/// names of the layout and in the version of the station. A signal indicates an aspect that this version has, and a detector has
/// the sections of the layout, in their order.
pub(crate) fn stations_are_matched()
    ensures { (site : Site) (table : Table) (world : WorldState) → IsReached site table world → AreMatchedAll site world }
{}

/// A signal reports at once: in a step in which its host acts on an aspect, and its link is open after what comes and accepts an item,
/// it sends first of all after that the aspect that it indicates then.
pub(crate) fn signals_report_at_once()
    ensures { (now : ℕ) (input : Input) (host : HostState SignalState) → ((behind_what_comes now input host).told ≡ [] → ⊥) → is_open (behind_what_comes now input host).host.link.phase ≡ true
        → is_ok (answer_to_send now (behind_what_comes now input host).host.link) ≡ true
        → GoOnWith (indication (behind_what_comes now input host).host) (behind_what_comes now input host).calls (host_step signal_behaviour now input host).calls }
{}

/// What is given on a link by one good round is confirmed two rounds later, where the controller says something: from the 1562nd round on,
/// where in the next round the controller accepts an item, after calls by which it has taken all that the interlocking had given before,
/// the interlocking's link holds that for confirmed after the round after it. The premises are else those of `links_hand_over`.
pub(crate) fn links_confirm()
    ensures { (between : List Event) (later : List (List Event)) (replied last : List Event) (flowing : Flowing) (link : ℕ) → InGoodRounds between ((later ++ replied ∷ []) ++ last ∷ []) flowing
        → link < links flowing.state.sited.site → link_rounds ≤ suc (length later)
        → StaysBelowLimit flowing.state.sited.site link ((later ++ replied ∷ []) ++ last ∷ []) (all_tried between (round flowing))
        → RepliesBehind flowing.state.sited.site link later replied (all_tried between (round flowing))
        → HasConfirmed link (good_rounds (between ∷ later) flowing).state.run (good_rounds (between ∷ ((later ++ replied ∷ []) ++ last ∷ [])) flowing).state.run }
{
    laws_below();
}
