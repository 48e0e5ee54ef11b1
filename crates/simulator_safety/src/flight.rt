//! What is in flight in a world that the machine sees, and what its datagrams tell.

ghost use Rattle.std.specs.Prelude.{◌≡◌, ◌≢◌, ◌<◌, ℕ, List, None, Some};
ghost use Rattle.std.specs.List.{Contains};
ghost use Rattle.simulator_link_laws.specs.sci_telegram.declared.message.Aspect.{Aspect};
ghost use Rattle.simulator_link_laws.specs.sci_telegram.declared.message.Aspect.TheVariants.{Stop};
ghost use Rattle.simulator_link_laws.specs.sci_telegram.declared.message.Side.{Side};
ghost use Rattle.simulator_link_laws.specs.layout.declared.ids.PointId.{PointId};
ghost use Rattle.simulator_link_laws.specs.layout.declared.ids.SignalId.{SignalId};
ghost use Rattle.simulator_link_laws.specs.layout.Entries.{Site};
ghost use Rattle.simulator_link_laws.specs.layout.Once.{Once};
ghost use Rattle.simulator_link_laws.specs.layout.Station.{IsStation};
ghost use Rattle.simulator_link_laws.specs.control_table.Table.{RouteRequires};
ghost use Rattle.simulator_link_laws.specs.rasta_core.Names.{partner_of};
ghost use Rattle.simulator_link_laws.specs.rasta_core.identity.Role.{Role};
ghost use Rattle.simulator_link_laws.specs.ixl_spec.Table.{Table};
ghost use Rattle.ixl_table.specs.Table.{IsTableOf};
ghost use Rattle.simulator_link_laws.specs.simulator_event.declared.event.Event.TheVariants.{Deliver};
ghost use Rattle.simulator_link_laws.specs.simulator_event.layout.declared.ids.NodeId.{NodeId};
ghost use Rattle.simulator_machine.specs.Machine.{Machine};
ghost use Rattle.simulator_link_laws.specs.HasLinks.{HasLinks};
ghost use Rattle.simulator_link_laws.specs.simulator_spec.Nodes.{links};
ghost use Rattle.simulator_link_laws.specs.simulator_spec.Refusals.{refusal};
ghost use Rattle.simulator_link_laws.specs.simulator_spec.State.{WorldState};
ghost use Rattle.simulator_link_laws.specs.simulator_spec.Interlocking.{held_of};
ghost use Rattle.simulator_link_laws.specs.simulator_event.declared.snapshot.Held.{Held};
ghost use Rattle.simulator_safety.specs.InFlight.{ShowsOrMayShow, TakesFromFlight, given_on};
ghost use Rattle.simulator_safety.specs.Reached.{IsAtRest, IsOfHeldRoute, IsReadOff, end_at};
ghost use Rattle.simulator_safety.specs.Represents.{Represents};

use crate::represented_worlds_are_seen;
use control_table::required_points_are_there;
use rasta_core::{items_are_counted, outside_until_it_enters};
use simulator_link_laws::simulator_move_laws::{
    flows_are_in_order, items_join, lawful_links_stay_lawful, lawful_worlds_stay_lawful,
    representations_tell_the_connection, servers_enter_once,
};
use simulator_link_laws::{
    deliveries_may_come, ends_are_those_of_the_nodes, layouts_name_their_links,
};

/// An aspect other than stop that a signal shows, or that is in flight to it and could still be taken, is that of a route
/// held for the signal.
pub fn aspects_in_flight_are_of_held_routes()
    ensures { (site : Site) (table : Table) (world : WorldState) (machine : Machine) → IsStation site → IsTableOf site table → Represents site table world machine
        → (signal : SignalId) (aspect : Aspect) → aspect ≢ Stop → ShowsOrMayShow site world signal aspect → IsOfHeldRoute site table world signal aspect }
{
    ends_are_those_of_the_nodes();
    flows_are_in_order();
    items_join();
    lawful_worlds_stay_lawful();
    represented_worlds_are_seen();
    representations_tell_the_connection();
}

/// Each point that a held route requires stands at the required side, and no move of it is in progress, or in flight and
/// could still be taken.
pub fn points_of_held_routes_are_at_rest()
    ensures { (site : Site) (table : Table) (world : WorldState) (machine : Machine) → IsStation site → IsTableOf site table → Represents site table world machine
        → (pair : Held) → Contains (held_of table world.interlocking world.frozen) pair → (point : PointId) (side : Side) → RouteRequires site pair.route point side
        → IsAtRest site world point side }
{
    ends_are_those_of_the_nodes();
    flows_are_in_order();
    items_join();
    lawful_worlds_stay_lawful();
    represented_worlds_are_seen();
    representations_tell_the_connection();
    required_points_are_there();
}

/// What a signal or a point takes of bytes that can be delivered was in flight to it, and could still be taken.
pub fn what_is_taken_was_in_flight()
    ensures { (site : Site) (table : Table) (node : NodeId) (bytes : List ℕ) (world : WorldState) (machine : Machine) → IsStation site → Once site
        → Represents site table world machine → refusal site (Deliver node bytes) world ≡ None → TakesFromFlight site world bytes }
{
    deliveries_may_come();
    ends_are_those_of_the_nodes();
    flows_are_in_order();
    lawful_links_stay_lawful();
    lawful_worlds_stay_lawful();
    layouts_name_their_links();
    outside_until_it_enters();
    representations_tell_the_connection();
    servers_enter_once();
}

/// What an end of a link gave in its last connection are the items of the data PDUs that it sent there, as the datagrams of
/// the world tell them. What its partner took in this connection, where it is the partner's last too, is a beginning of them.
pub fn items_are_read_off_the_datagrams()
    ensures { (site : Site) (world : WorldState) → Once site → IsStation site → (has : HasLinks site world) → (link : ℕ) → link < links site → (who : Role) (connection : ℕ)
        → (end_at who link has).connection ≡ Some connection
        → IsReadOff (given_on site world link who connection) connection (end_at who link has) (end_at (partner_of who) link has) }
{
    flows_are_in_order();
    items_are_counted();
    lawful_worlds_stay_lawful();
    layouts_name_their_links();
}
