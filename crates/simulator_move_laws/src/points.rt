//! A point in its host, as the machine sees it.

ghost use Rattle.std.specs.Prelude.{◌≡◌, ◌<◌, ℕ, true, false, List, Some, length};
ghost use Rattle.sci_telegram.specs.Names.{IsName};
ghost use Rattle.sci_telegram.specs.declared.message.Side.{Side};
ghost use Rattle.rasta_core.specs.Ends.{reading_of};
ghost use Rattle.rasta_core.specs.Events.{Start, started};
ghost use Rattle.rasta_core.specs.Names.{Names, identity_of};
ghost use Rattle.rasta_core.specs.Run.{Ends, later, restarted};
ghost use Rattle.rasta_core.specs.State.{is_open};
ghost use Rattle.rasta_core.specs.identity.Role.TheVariants.{Server};
ghost use Rattle.object_host.specs.Host.{HostState};
ghost use Rattle.object_host.specs.Hosted.{new_host};
ghost use Rattle.object_host.specs.Step.{host_step};
ghost use Rattle.object_host.specs.declared.input.Input.{Input};
ghost use Rattle.object_host_laws.specs.World.{called_all};
ghost use Rattle.point_ctl.specs.Controlled.{point_behaviour};
ghost use Rattle.point_ctl.specs.Drive.{PointState, drives};
ghost use Rattle.simulator_machine.specs.Invariant.{IsPointSound};
ghost use Rattle.simulator_machine.specs.Link.{LinkMove};
ghost use Rattle.simulator_machine.specs.Point.{Point as MachinePoint, Position, moves_given, reports_made};
ghost use Rattle.simulator_machine.specs.Run.{first};
ghost use Rattle.simulator_move_laws.specs.Items.{moves_in, position_seen, reports_in};
ghost use Rattle.simulator_move_laws.specs.Flows.{reports_given};
ghost use Rattle.simulator_move_laws.specs.LinkMoves.{LinkGoes, moves_by};
ghost use Rattle.simulator_move_laws.specs.EndsSeen.{represented};
ghost use Rattle.simulator_move_laws.specs.Ends.{AreFit, OpensNone, Steps, server_later};
ghost use Rattle.simulator_move_laws.specs.Point.{IsMovedDriven, IsPointSeen, PointGoes};

use crate::{items_join, links_are_represented, written_items_are_read};
use object_host::{
    step_is_calls, step_settles_first, step_tells_what_was_taken, steps_keep_a_host,
};
use object_host_laws::{
    point_makes_a_step, point_reports_its_moves, step_takes_and_gives,
    steps_find_what_was_reported, what_is_taken_is_acted_on,
};
use point_ctl::Point;
use simulator_machine::moves_of_links_are_moves;

/// At the beginning a point in its host is the machine's, where that stands as the point is sensed.
pub fn points_begin_seen()
    ensures { (names : Names) (start : Start) (own_name peer_name : List ℕ) (object : PointState) (version place : ℕ) (positions : ℕ → Position) → AreFit (started names start)
        → IsName own_name → IsName peer_name → version < 256 → positions place ≡ position_seen object.sensed
        → IsPointSeen (started names start) (new_host point_behaviour (identity_of Server names) own_name peer_name start.server_first start.server_clock object version)
        ((first positions).points place) }
{
    links_are_represented();
    point_reports_its_moves();
}

/// A step of a point's host, whatever comes in it, is a list of moves of the machine's point, where contacts tell of another
/// position only while the point is driven.
pub fn steps_of_points_are_moves()
    ensures { (input : Input) (connection : ℕ) (ends : Ends) (host : HostState PointState) (point : MachinePoint) → IsPointSound point → IsPointSeen ends host point → IsMovedDriven ends input host
        → Steps input connection ends (called_all connection (host_step point_behaviour (reading_of ends.server.clock) input host).calls ends)
        → PointGoes point (IsPointSeen (called_all connection (host_step point_behaviour (reading_of ends.server.clock) input host).calls ends)
        (host_step point_behaviour (reading_of ends.server.clock) input host).host) }
{
    items_join();
    moves_of_links_are_moves();
    point_makes_a_step();
    point_reports_its_moves();
    step_is_calls::<Point>();
    step_settles_first::<Point>();
    step_takes_and_gives::<Point>();
    step_tells_what_was_taken::<Point>();
    steps_find_what_was_reported();
    steps_keep_a_host::<Point>();
    what_is_taken_is_acted_on::<Point>();
    written_items_are_read();
}

/// Time that passes, at both ends or at the controller's alone, and a restart of the controller with the position in which
/// the point stands are moves of the point's link, whatever the host does later.
pub fn points_pass_time_and_restart()
    ensures passes { (elapsed of_client of_server : ℕ) (moves : List LinkMove) (ends : Ends) (host : HostState PointState) (point : MachinePoint) → AreFit ends
        → AreFit (later elapsed of_client of_server ends) → IsPointSeen ends host point → OpensNone moves → LinkGoes moves (represented ends) (represented (later elapsed of_client of_server ends))
        → PointGoes point (IsPointSeen (later elapsed of_client of_server ends) host) }
    ensures alone { (elapsed of_client of_server : ℕ) (ends : Ends) (host : HostState PointState) (point : MachinePoint) → AreFit ends → AreFit (later elapsed of_client of_server ends)
        → IsPointSeen ends host point → PointGoes point (IsPointSeen (server_later elapsed of_client of_server ends) host) }
    ensures restarts { (clock first : ℕ) (object : PointState) (ends : Ends) (host : HostState PointState) (point : MachinePoint) → AreFit ends → AreFit (restarted Server clock first ends)
        → IsPointSeen ends host point → object.sensed ≡ host.object.sensed
        → LinkGoes (moves_by false (is_open ends.server.link.phase) false) (represented ends) (represented (restarted Server clock first ends))
        → PointGoes point (IsPointSeen (restarted Server clock first ends)
        (new_host point_behaviour ends.server.link.identity host.own_name host.peer_name first clock object host.version)) }
{
    moves_of_links_are_moves();
    point_reports_its_moves();
}

/// What leaves the server's end as it is leaves what is seen, where the link, the moves given and the reports made are seen
/// still.
pub fn points_stay_elsewhere()
    ensures { (ends new : Ends) (host : HostState PointState) (point other : MachinePoint) → new.server ≡ ends.server → IsPointSeen ends host point → other.link ≡ represented new
        → moves_given other ≡ length (moves_in new.client.given) → (is_open new.server.link.phase ≡ true → other.taken ≡ point.taken) → reports_made other ≡ reports_in (reports_given new)
        → other.position ≡ point.position → other.driven ≡ point.driven → IsPointSeen new host other }
{}

/// Where a point is driven at its controller's clock, so is the machine's.
pub fn driven_points_are_seen_driven()
    ensures { (ends : Ends) (host : HostState PointState) (point : MachinePoint) → IsPointSeen ends host point → (side : Side)
        → drives (reading_of ends.server.clock) host.object ≡ Some side → point.driven ≡ true }
{
    point_reports_its_moves();
}
