//! How few items wait at an end, and that no event closes a link.

ghost use Rattle.std.specs.Prelude.{◌≡◌, ◌≤◌, ◌<◌, ℕ, true, length, None, Some, slice_get};
ghost use Rattle.ixl_table.specs.Table.{IsTableOf};
ghost use Rattle.simulator_spec.specs.Nodes.{detector_link, point_link, links};
ghost use Rattle.simulator_spec.specs.Refusals.{refusal};
ghost use Rattle.simulator_spec.specs.State.{WorldState, ClockedControllerState};
ghost use Rattle.simulator_spec.specs.ixl_spec.State.{KnownDetectorState, KnownSignalState};
ghost use Rattle.simulator_spec.specs.ixl_spec.Table.{Table};
ghost use Rattle.simulator_spec.specs.layout.Entries.{Site};
ghost use Rattle.simulator_spec.specs.layout.Once.{Once};
ghost use Rattle.simulator_spec.specs.layout.Station.{IsStation};
ghost use Rattle.simulator_spec.specs.point_ctl.Drive.{PointState};
ghost use Rattle.simulator_spec.specs.rasta_core.Each.{Each};
ghost use Rattle.simulator_spec.specs.rasta_core.State.{is_open};
ghost use Rattle.simulator_spec.specs.simulator_event.declared.event.Event.{Event};
ghost use Rattle.simulator_link_laws.specs.Events.{events_of};
ghost use Rattle.simulator_safety.specs.Reached.{IsReached};
ghost use Rattle.simulator_recovery.specs.Closes.{FillsNoWindowOn, LeavesClientOpen, LeavesOpenOn, LeavesServerOpen};

use crate::below::laws_below;

/// After every list of events of a station, on any network, at most two items of a detector's client wait in its window of 20: the check
/// of the version, and the request for the initialisation (*few*). So no event closes such a client's link for a full window (*leaves*).
pub(crate) fn detectors_never_fill_their_windows()
    ensures few { (site : Site) (table : Table) (world : WorldState) → IsReached site table world → (place : ℕ) (known : KnownDetectorState) → slice_get world.interlocking.ixl.detectors place ≡ Some known
        → is_open known.client.link.phase ≡ true → length known.client.link.waiting ≤ 2 }
    ensures leaves { (site : Site) (table : Table) (world : WorldState) → IsStation site → Once site → IsReached site table world → (place : ℕ) → place < length site.detectors
        → (event : Event) → refusal site event world ≡ None → Each (FillsNoWindowOn (detector_link site place)) (events_of site table event world) }
{
    laws_below();
}

/// A point answers each move once (`points_answer_each_move_once`), and what its client takes of that confirms what the controller had
/// taken (`what_is_taken_confirms`). So after every list of events of a station, on any network, no event closes the link of a point's
/// client for a full window: when a move is given, all others are answered, and few items wait.
pub(crate) fn points_never_fill_their_windows()
    ensures { (site : Site) (table : Table) (world : WorldState) → IsStation site → Once site → IsTableOf site table → IsReached site table world → (place : ℕ) → place < length site.points
        → (event : Event) → refusal site event world ≡ None → Each (FillsNoWindowOn (point_link site place)) (events_of site table event world) }
{
    laws_below();
}

/// After every list of events of a station, on any network, at most eight items of a point's controller wait in its window of 20. A move
/// is given where the controller has answered all others, and what the controller takes of it confirms their reports
/// (`what_a_server_takes_confirms`). So a report waits for its move alone, and never for the window.
pub(crate) fn points_controllers_never_fill_their_windows()
    ensures { (site : Site) (table : Table) (world : WorldState) → IsStation site → Once site → IsTableOf site table → IsReached site table world
        → (place : ℕ) (controller : ClockedControllerState PointState) → slice_get world.points place ≡ Some controller → length controller.host.link.waiting ≤ 8 }
{
    laws_below();
}

/// After every list of events of a station, on any network, at most four items of a signal's client wait in its window of 20: the check
/// of the version, the request for the initialisation, an aspect, and stop (*few*). A route's aspect is given at known stop alone, where
/// all that was given is confirmed or no aspect was given in the connection, and stop is given where a route has its aspect, which at
/// most one has at a signal. So no event closes such a client's link for a full window (*leaves*).
pub(crate) fn signals_never_fill_their_windows()
    ensures few { (site : Site) (table : Table) (world : WorldState) → IsReached site table world → (place : ℕ) (known : KnownSignalState) → slice_get world.interlocking.ixl.known_signals place ≡ Some known
        → is_open known.client.link.phase ≡ true → length known.client.link.waiting ≤ 4 }
    ensures leaves { (site : Site) (table : Table) (world : WorldState) → IsStation site → Once site → IsReached site table world → (place : ℕ) → place < length site.signals
        → (event : Event) → refusal site event world ≡ None → Each (FillsNoWindowOn place) (events_of site table event world) }
{
    laws_below();
}

/// After every list of events of a station, on any network, no event that can happen is one in which a controller closes its link: what
/// comes to it is always what it expects, however many items a datagram has. So the link of a controller closes by its own clock alone, or
/// by what its partner says.
pub(crate) fn controllers_close_no_link()
    ensures { (site : Site) (table : Table) (world : WorldState) (happening : Event) → IsStation site → Once site → IsTableOf site table → IsReached site table world
        → refusal site happening world ≡ None → Each LeavesServerOpen (events_of site table happening world) }
{
    laws_below();
}

/// Nor is there one in which a client closes its link but for its own full window: what comes to it is always what it expects, each item
/// of a datagram in its turn. A point's client that awaits no report is told nothing.
pub(crate) fn clients_close_by_their_window_alone()
    ensures { (site : Site) (table : Table) (world : WorldState) (happening : Event) → IsStation site → Once site → IsTableOf site table → IsReached site table world
        → refusal site happening world ≡ None → Each LeavesClientOpen (events_of site table happening world) }
{
    laws_below();
}

/// So no event closes a link, after every list of events of a station, on any network: no telegram does, and no client's window is full.
/// A link closes by its own clock alone, by the limit of PDUs in a connection, or by what the other end of it says.
pub fn events_close_no_link()
    ensures { (site : Site) (table : Table) (world : WorldState) (happening : Event) (link : ℕ) → IsStation site → Once site → IsTableOf site table → IsReached site table world
        → refusal site happening world ≡ None → link < links site → Each (LeavesOpenOn link) (events_of site table happening world) }
{
    laws_below();
}
