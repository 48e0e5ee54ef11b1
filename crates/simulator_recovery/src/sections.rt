//! How sections come to be known as they are in the field.

ghost use Rattle.std.specs.Prelude.{◌≡◌, ◌≤◌, ◌<◌, ℕ, suc, true, List, [], ◌∷◌, ◌++◌, length, Some, slice_get};
ghost use Rattle.ixl_table.specs.Table.{IsTableOf};
ghost use Rattle.rasta_core_recovery.specs.Replies.{speaking_rounds};
ghost use Rattle.simulator_spec.specs.Flow.{Flowing, round};
ghost use Rattle.simulator_spec.specs.Nodes.{detector_link, links};
ghost use Rattle.simulator_spec.specs.Run.{CanHappen, after_all};
ghost use Rattle.simulator_spec.specs.State.{ClockedControllerState, WorldState};
ghost use Rattle.simulator_spec.specs.ixl_spec.Table.{Table};
ghost use Rattle.simulator_spec.specs.layout.Entries.{Site};
ghost use Rattle.simulator_spec.specs.layout.Once.{Once};
ghost use Rattle.simulator_spec.specs.layout.Station.{IsStation};
ghost use Rattle.simulator_spec.specs.object_host.Host.{is_completed};
ghost use Rattle.simulator_spec.specs.rasta_core.Each.{Each};
ghost use Rattle.simulator_spec.specs.rasta_core.Parameters.{window_size};
ghost use Rattle.simulator_spec.specs.rasta_core.State.{is_up};
ghost use Rattle.simulator_spec.specs.simulator_event.declared.event.Event.{Event};
ghost use Rattle.simulator_spec.specs.tds_ctl.declared.section.Section.{Section};
ghost use Rattle.simulator_safety.specs.Reached.{IsReached};
ghost use Rattle.simulator_recovery.specs.Flows.{IsFlow};
ghost use Rattle.simulator_recovery.specs.HandedOver.{ConfirmsAtOnce, HasHandedOver, HasSpoken, HasSpokenAlone};
ghost use Rattle.simulator_recovery.specs.LinkRounds.{IsUpOn, StaysBelowLimit, link_rounds};
ghost use Rattle.simulator_recovery.specs.Quiet.{IsWorkElsewhere};
ghost use Rattle.simulator_recovery.specs.Ready.{IsReadyOn, ready_rounds};
ghost use Rattle.simulator_recovery.specs.Rounds.{HasTime, InGoodRounds, IsWork, all_tried, good_rounds};
ghost use Rattle.simulator_recovery.specs.SectionsReported.{HasRoomToReport, HaveReported, IsKnownAsInTheField, IsKnownAsItIs, LeavesSection, OwesNone, SensesAsTheyAre, SpeaksAloneIn, section_rounds};

use crate::below::laws_below;
use crate::talk::stations_stand_by_their_counts;

/// After every list of events of a station, on any network, the interlocking holds those sections of a detector for occupied that the last
/// report tells so of those that the client has taken in the connection, while its link is up; and once it is ready each section was told
/// there. And once the initialisation of its connection is completed, what a detector has told last of a section is the section as it is,
/// unless it still owes its report.
pub(crate) fn detectors_tell_what_they_saw()
    ensures { (site : Site) (table : Table) (world : WorldState) → IsStation site → Once site → IsTableOf site table → IsReached site table world → HaveReported site world }
{
    laws_below();
}

/// What a detector has told of a section comes over: where its link has handed over from one moment to a later one, at which it is ready, the
/// detector owed no report of the section at the first, and no event since told of its occupancy, or made the detector anew, the
/// interlocking knows the section at the later one as it is.
pub(crate) fn told_sections_come_over()
    ensures { (site : Site) (table : Table) (old : WorldState) (events : List Event) (section : ℕ) → IsStation site → Once site → IsTableOf site table → IsReached site table old → CanHappen site table events old
        → Each (LeavesSection site table section) events → OwesNone table old section → (reporter : ℕ × ℕ) → slice_get table.reporters section ≡ Some reporter
        → HasHandedOver (detector_link site reporter.0) old (after_all site table events old) → IsReadyOn site (detector_link site reporter.0) (after_all site table events old)
        → IsKnownAsItIs table (after_all site table events old) section }
{
    laws_below();
}

/// A detector that owes no report of a section, and whose link is up, owes none after events none of which tells of the section's occupancy,
/// or makes the detector anew.
pub(crate) fn told_sections_stay_told()
    ensures { (site : Site) (table : Table) (old : WorldState) (events : List Event) (section : ℕ) → IsStation site → Once site → IsTableOf site table → IsReached site table old → CanHappen site table events old
        → Each (LeavesSection site table section) events → (reporter : ℕ × ℕ) → slice_get table.reporters section ≡ Some reporter → IsUpOn (detector_link site reporter.0) old
        → OwesNone table old section → OwesNone table (after_all site table events old) section }
{
    laws_below();
}

/// After every list of events of a station, on any network, at most 20 items wait in the window of a detector whose link is up.
pub(crate) fn detectors_windows_hold_no_more()
    ensures { (site : Site) (table : Table) (world : WorldState) → IsStation site → Once site → IsTableOf site table → IsReached site table world → (place : ℕ) → place < length site.detectors
        → (up : IsUpOn (detector_link site place) world) → length up.server.link.waiting ≤ window_size }
{
    laws_below();
}

/// A section is known two rounds after what its contact told, where its report was sent at once: after each good round from the 1565th on
/// the interlocking knows a section as it is of which no report was owed after the round before, and of whose occupancy nothing was told
/// since, whatever else comes. The premises are those of `links_are_ready`, of the link of the section's detector.
pub(crate) fn told_sections_are_known()
    ensures { (between : List Event) (later : List (List Event)) (last : List Event) (flowing : Flowing) (section : ℕ) (reporter : ℕ × ℕ) → InGoodRounds between (later ++ last ∷ []) flowing
        → slice_get flowing.state.sited.table.reporters section ≡ Some reporter → ready_rounds ≤ suc (suc (length later))
        → StaysBelowLimit flowing.state.sited.site (detector_link flowing.state.sited.site reporter.0) (later ++ last ∷ []) (all_tried between (round flowing))
        → OwesNone flowing.state.sited.table (good_rounds (between ∷ later) flowing).state.run section
        → Each (LeavesSection flowing.state.sited.site flowing.state.sited.table section) last
        → IsKnownAsItIs flowing.state.sited.table (good_rounds (between ∷ (later ++ last ∷ [])) flowing).state.run section }
{
    laws_below();
}

/// A detector sends each report at once, as long as the window of its link has room: after every list of events of a station, on any
/// network, one that is up and has completed its initialisation owes a report of a section only with a full window.
pub(crate) fn owed_reports_wait_for_the_window()
    ensures { (site : Site) (table : Table) (world : WorldState) → IsStation site → Once site → IsReached site table world → (place : ℕ) (controller : ClockedControllerState (List Section)) → slice_get world.detectors place ≡ Some controller
        → is_up controller.host.link.phase ≡ true → is_completed controller.host.stage ≡ true
        → (at : ℕ) (section : Section) → slice_get controller.host.object at ≡ Some section → section.owes ≡ true → window_size ≤ length controller.host.link.waiting }
{
    laws_below();
}

/// After every list of events of a station, on any network, the interlocking has given a detector whose link is ready two items in its
/// connection, and no more: the check of the version, and the request for the initialisation.
pub(crate) fn ready_detectors_were_given_two_items()
    ensures { (site : Site) (table : Table) (world : WorldState) → IsStation site → Once site → IsReached site table world → (place : ℕ) → place < length site.detectors
        → (ready : IsReadyOn site (detector_link site place) world) → ready.up.client.given ≡ 2 }
{
    laws_below();
    stations_stand_by_their_counts();
}

/// On each link of a station the interlocking says something in 30 good rounds, so in 300 ms, from the 1562nd on. The premises are those of
/// `links_hand_over`.
pub(crate) fn interlockings_speak_on_links()
    ensures { (between : List Event) (later more : List (List Event)) (flowing : Flowing) (link : ℕ) → InGoodRounds between (later ++ more) flowing → link < links flowing.state.sited.site → link_rounds ≤ suc (length later)
        → speaking_rounds ≤ length more → StaysBelowLimit flowing.state.sited.site link (later ++ more) (all_tried between (round flowing))
        → HasSpoken link (good_rounds (between ∷ later) flowing).state.run (good_rounds (between ∷ (later ++ more)) flowing).state.run }
{
    laws_below();
}

/// So on the link of each detector, from the round on from which links are ready, a heartbeat goes alone in 31 good rounds: in two of them, one
/// after the other, the interlocking gives nothing, and says something in the second. After the next round that confirms all
/// (`quiet_links_confirm_at_once`). The premises are those of `links_are_ready`, of this link.
pub(crate) fn interlockings_speak_alone_to_detectors()
    ensures { (between : List Event) (later : List (List Event)) (one : List Event) (more : List (List Event)) (flowing : Flowing) (place : ℕ) → InGoodRounds between ((later ++ one ∷ []) ++ more) flowing → place < length flowing.state.sited.site.detectors
        → ready_rounds ≤ suc (length later) → speaking_rounds ≤ length more
        → StaysBelowLimit flowing.state.sited.site (detector_link flowing.state.sited.site place) ((later ++ one ∷ []) ++ more) (all_tried between (round flowing))
        → SpeaksAloneIn (detector_link flowing.state.sited.site place) between (length later) ((later ++ one ∷ []) ++ more) flowing }
{
    laws_below();
}

/// On a link on which the interlocking is given nothing it says heartbeats alone, and one confirms all at once: from the 1562nd good round on,
/// where the interlocking says something in the second of three rounds, and is given nothing in the first two, its controller's end holds no
/// more for confirmed after that round than before it; and after the third it holds for confirmed all that it had given by the first. The
/// premises are those of `links_hand_over`.
pub(crate) fn quiet_links_confirm_at_once()
    ensures { (between : List Event) (later : List (List Event)) (one two three : List Event) (flowing : Flowing) (link : ℕ) → InGoodRounds between (((later ++ one ∷ []) ++ two ∷ []) ++ three ∷ []) flowing
        → link < links flowing.state.sited.site → link_rounds ≤ suc (length later)
        → StaysBelowLimit flowing.state.sited.site link (((later ++ one ∷ []) ++ two ∷ []) ++ three ∷ []) (all_tried between (round flowing))
        → HasSpokenAlone link (good_rounds (between ∷ later) flowing).state.run (good_rounds (between ∷ (later ++ one ∷ [])) flowing).state.run (good_rounds (between ∷ ((later ++ one ∷ []) ++ two ∷ [])) flowing).state.run
        → ConfirmsAtOnce link (good_rounds (between ∷ (later ++ one ∷ [])) flowing).state.run (good_rounds (between ∷ ((later ++ one ∷ []) ++ two ∷ [])) flowing).state.run
        (good_rounds (between ∷ (((later ++ one ∷ []) ++ two ∷ []) ++ three ∷ [])) flowing).state.run }
{
    laws_below();
}

/// So a section is known two rounds after what its contact told as long as its detector's window has room: after each good round from the
/// 1565th on the interlocking knows a section as it is of whose occupancy nothing was told since the round before, and after that round
/// the window of the detector's link wasn't full, whatever else comes. The premises are those of `links_are_ready`, of this link.
pub fn sections_are_reported_with_room()
    ensures { (between : List Event) (later : List (List Event)) (last : List Event) (flowing : Flowing) (section : ℕ) (reporter : ℕ × ℕ) → InGoodRounds between (later ++ last ∷ []) flowing
        → slice_get flowing.state.sited.table.reporters section ≡ Some reporter → ready_rounds ≤ suc (suc (length later))
        → StaysBelowLimit flowing.state.sited.site (detector_link flowing.state.sited.site reporter.0) (later ++ last ∷ []) (all_tried between (round flowing))
        → HasRoomToReport flowing.state.sited.table (good_rounds (between ∷ later) flowing).state.run section
        → Each (LeavesSection flowing.state.sited.site flowing.state.sited.table section) last
        → IsKnownAsItIs flowing.state.sited.table (good_rounds (between ∷ (later ++ last ∷ [])) flowing).state.run section }
{
    laws_below();
}

/// Whatever is lost or delayed, and however clocks run, each detector has its sections as they are in the field: each change of one is
/// sensed by the one detector that reports it, and a detector that is made anew senses how they are.
pub(crate) fn detectors_sense_their_sections()
    ensures { (site : Site) (table : Table) (world : WorldState) → IsStation site → IsTableOf site table → IsReached site table world → SensesAsTheyAre table world }
{
    laws_below();
}

/// So a section that the interlocking knows as its detector has it is known as it is in the field.
pub fn known_sections_are_as_in_the_field()
    ensures { (site : Site) (table : Table) (world : WorldState) (section : ℕ) → IsStation site → IsTableOf site table → IsReached site table world → IsKnownAsItIs table world section → IsKnownAsInTheField table world section }
{
    laws_below();
}

/// Sections are reported as they are: from the 1565th good round on, the interlocking knows a section as it is in the field after 32 rounds,
/// 320 ms, in which nothing is told of its occupancy, and so it stays as long as nothing is told of it. All else may change as it likes:
/// requests come, and other sections of the detector are told of as often as you like. The premises are those of `links_are_ready`, of the
/// link of the section's detector.
pub fn sections_are_reported()
    ensures { (between : List Event) (later more : List (List Event)) (flowing : Flowing) (section : ℕ) (reporter : ℕ × ℕ) → InGoodRounds between (later ++ more) flowing
        → slice_get flowing.state.sited.table.reporters section ≡ Some reporter → ready_rounds ≤ suc (length later) → section_rounds ≤ length more
        → StaysBelowLimit flowing.state.sited.site (detector_link flowing.state.sited.site reporter.0) (later ++ more) (all_tried between (round flowing))
        → Each (Each (LeavesSection flowing.state.sited.site flowing.state.sited.table section)) more
        → IsKnownAsInTheField flowing.state.sited.table (good_rounds (between ∷ (later ++ more)) flowing).state.run section }
{
    laws_below();
}

/// The window of a detector has room where nothing was told of its sections since the good rounds began: after each of these from the 1562nd on it isn't
/// full. A detector that has entered its connection since has given 19 items at most there, its initialisation; so has one that was in it before, and
/// completed its initialisation since. One that had completed it has given one report of each section since at most, and all that it had given before
/// is confirmed (`what_was_given_before_is_confirmed`). Requests may come as they like, and sections of other detectors may be occupied and left. What
/// comes between the first round and the second may tell of any section. The premises are else those of `links_come_up`, of the detector's link.
pub(crate) fn detectors_windows_have_room()
    ensures { (between : List Event) (later : List (List Event)) (flowing : Flowing) (section : ℕ) (reporter : ℕ × ℕ) → IsFlow flowing
        → Each IsWork between → Each (Each (IsWorkElsewhere flowing.state.sited.table reporter.0)) later → HasTime (suc (length later)) flowing.state.run
        → slice_get flowing.state.sited.table.reporters section ≡ Some reporter → link_rounds ≤ suc (length later)
        → StaysBelowLimit flowing.state.sited.site (detector_link flowing.state.sited.site reporter.0) later (all_tried between (round flowing))
        → HasRoomToReport flowing.state.sited.table (good_rounds (between ∷ later) flowing).state.run section }
{
    laws_below();
}

/// So where nothing was told of a detector's sections since the good rounds began, the interlocking knows each as it is in the field after the 1565th
/// of them, 15,650 ms, and after each later one, as long as that goes on. Requests may come as they like, and sections of other detectors may be
/// occupied and left. The premises are else those of `links_are_ready`, of the link of the detector.
pub fn sections_are_reported_where_nothing_came()
    ensures { (between : List Event) (later : List (List Event)) (last : List Event) (flowing : Flowing) (section : ℕ) (reporter : ℕ × ℕ)
        → IsFlow flowing → Each IsWork between → Each (Each (IsWorkElsewhere flowing.state.sited.table reporter.0)) (later ++ last ∷ []) → HasTime (suc (length (later ++ last ∷ []))) flowing.state.run
        → slice_get flowing.state.sited.table.reporters section ≡ Some reporter → ready_rounds ≤ suc (suc (length later))
        → StaysBelowLimit flowing.state.sited.site (detector_link flowing.state.sited.site reporter.0) (later ++ last ∷ []) (all_tried between (round flowing))
        → IsKnownAsInTheField flowing.state.sited.table (good_rounds (between ∷ (later ++ last ∷ [])) flowing).state.run section }
{
    laws_below();
    detectors_windows_have_room();
    known_sections_are_as_in_the_field();
    sections_are_reported_with_room();
}
