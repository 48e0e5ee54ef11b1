//! The nodes of a station at the ends of its links.

ghost use Rattle.std.specs.Prelude.{◌≡◌, ℕ, ◌<◌, List, None, Some, slice_get};
ghost use Rattle.simulator_spec.specs.layout.Entries.{Site};
ghost use Rattle.simulator_spec.specs.layout.declared.entries.Point.{Point};
ghost use Rattle.simulator_spec.specs.layout.declared.entries.Signal.{Signal};
ghost use Rattle.simulator_spec.specs.object_host.Made.{AreItems};
ghost use Rattle.simulator_spec.specs.object_host.declared.input.Input.{Input as HostInput};
ghost use Rattle.simulator_spec.specs.point_ctl.Controlled.{point_behaviour};
ghost use Rattle.simulator_spec.specs.point_ctl.Drive.{PointState};
ghost use Rattle.simulator_spec.specs.signal_ctl.Signal.{SignalState, signal_behaviour};
ghost use Rattle.simulator_spec.specs.rasta_core.EachLink.{AreTimely};
ghost use Rattle.simulator_spec.specs.rasta_core.Ends.{Receives};
ghost use Rattle.simulator_spec.specs.rasta_core.Events.{MayCall};
ghost use Rattle.simulator_spec.specs.rasta_core.Links.{AreLinks, Links, MayCallOn, seen};
ghost use Rattle.simulator_spec.specs.rasta_core.identity.Role.{Role};
ghost use Rattle.simulator_spec.specs.ixl_spec.State.{KnownSignalState, KnownPointState};
ghost use Rattle.simulator_spec.specs.ixl_spec.Step.{Input};
ghost use Rattle.simulator_spec.specs.ixl_spec.Table.{Table};
ghost use Rattle.simulator_spec.specs.simulator_event.declared.event.Event.TheVariants.{Deliver};
ghost use Rattle.simulator_spec.specs.simulator_event.layout.declared.ids.NodeId.{NodeId};
ghost use Rattle.simulator_spec.specs.Links.{AreLinksOf, names_at};
ghost use Rattle.simulator_spec.specs.Network.{connection_of, copy_of};
ghost use Rattle.simulator_spec.specs.Nodes.{links, names_of, point_link};
ghost use Rattle.simulator_spec.specs.Refusals.{refusal};
ghost use Rattle.simulator_spec.specs.Controllers.{step_of};
ghost use Rattle.simulator_spec.specs.State.{ClockedControllerState, WorldState};
ghost use Rattle.simulator_spec.specs.Interlocking.{interlocking_step};
ghost use Rattle.simulator_link_laws.specs.Calls.{AreOfNodes};
ghost use Rattle.simulator_link_laws.specs.Nodes.{IsEndOfClient, IsEndOfServer, MayComeWith};
ghost use Rattle.simulator_link_laws.specs.Whole.{IsWhole};

use rasta_core::{
    a_node_makes_a_step, copies_are_delivered, each_link_sees_its_events, links_are_settled,
    links_keep_time, opening_is_new, what_is_taken,
};
use rasta_pdu::intact_is_tested;
use sci_telegram::written_is_read;
use simulator_move_laws::clients_ask_where_they_begin;

/// The ends of the link of a signal and of a point are those that its controller and the interlocking keep. The client's last
/// connection on each link is the one that the interlocking began there last (*begun*).
pub fn ends_are_those_of_the_nodes()
    ensures signal { (site : Site) (world : WorldState) (network : Links) → IsWhole site world → AreLinksOf site world network → (place : ℕ) (server : ClockedControllerState SignalState)
        → slice_get world.signals place ≡ Some server → (place < links site) × IsEndOfServer server (network.ends place).server }
    ensures point { (site : Site) (world : WorldState) (network : Links) → IsWhole site world → AreLinksOf site world network → (place : ℕ) (server : ClockedControllerState PointState)
        → slice_get world.points place ≡ Some server → (point_link site place < links site) × IsEndOfServer server (network.ends (point_link site place)).server }
    ensures known_signal { (site : Site) (world : WorldState) (network : Links) → IsWhole site world → AreLinksOf site world network → (place : ℕ) (known_signal : KnownSignalState)
        → slice_get world.interlocking.ixl.known_signals place ≡ Some known_signal → (place < links site) × IsEndOfClient world.interlocking known_signal.client (network.ends place).client }
    ensures known_point { (site : Site) (world : WorldState) (network : Links) → IsWhole site world → AreLinksOf site world network → (place : ℕ) (known_point : KnownPointState)
        → slice_get world.interlocking.ixl.known_points place ≡ Some known_point
        → (point_link site place < links site) × IsEndOfClient world.interlocking known_point.client (network.ends (point_link site place)).client }
    ensures begun { (site : Site) (world : WorldState) (network : Links) → IsWhole site world → AreLinksOf site world network → (link : ℕ) → link < links site
        → slice_get world.interlocking.connections link ≡ Some (network.ends link).client.connection }
{}

/// The link of a signal and of a point has the names of the interlocking and of its controller.
pub fn links_are_named_by_their_controllers()
    ensures signal { (site : Site) (place : ℕ) (entry : Signal) → slice_get site.signals place ≡ Some entry → (place < links site) × (names_at site place ≡ names_of site entry.id) }
    ensures point { (site : Site) (place : ℕ) (entry : Point) → slice_get site.points place ≡ Some entry
        → (point_link site place < links site) × (names_at site (point_link site place) ≡ names_of site entry.id) }
{}

/// Bytes that can be delivered may come at every end of every link.
pub fn deliveries_may_come()
    ensures links { (site : Site) (node : NodeId) (bytes : List ℕ) (world : WorldState) (before : Links) → AreLinksOf site world before
        → refusal site (Deliver node bytes) world ≡ None → (link : ℕ) → MayCallOn (names_at site link) (Receives bytes (connection_of (copy_of bytes world))) before }
    ensures ends { (site : Site) (who : Role) (bytes : List ℕ) (connection : ℕ) (before : Links) → AreLinks (links site) (names_at site)
        → AreTimely (links site) (names_at site) before → (link : ℕ) → link < links site → MayCallOn (names_at site link) (Receives bytes connection) before
        → MayCall (names_at site link) who (Receives bytes connection) (seen link before) }
{
    copies_are_delivered();
    each_link_sees_its_events();
    intact_is_tested();
    links_are_settled();
    links_keep_time();
}

/// What the controllers of signals and points say in a step are items.
pub fn hosts_say_items()
    ensures signal { (site : Site) (world : WorldState) → IsWhole site world → (place : ℕ) (server : ClockedControllerState SignalState) → slice_get world.signals place ≡ Some server
        → (input : HostInput) → AreItems (step_of signal_behaviour input server).calls }
    ensures point { (site : Site) (world : WorldState) → IsWhole site world → (place : ℕ) (server : ClockedControllerState PointState) → slice_get world.points place ≡ Some server
        → (input : HostInput) → AreItems (step_of point_behaviour input server).calls }
{
    written_is_read();
}

/// The interlocking makes calls in a step at its clients of controllers of the layout alone.
pub fn interlockings_call_their_nodes()
    ensures { (site : Site) (table : Table) (input : Input) (connection : ℕ) (world : WorldState) (before : Links) → AreLinks (links site) (names_at site) → IsWhole site world
        → AreTimely (links site) (names_at site) before → AreLinksOf site world before → MayComeWith site input connection before
        → AreOfNodes site (interlocking_step site table input world.interlocking).calls }
{
    a_node_makes_a_step();
    clients_ask_where_they_begin();
    each_link_sees_its_events();
    simulator_spec::ixl_spec::ixl_client::step_is_calls();
    links_are_settled();
    links_keep_time();
    opening_is_new();
    what_is_taken();
    written_is_read();
}
