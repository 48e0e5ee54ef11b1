//! The far ends of a station in a step of its interlocking.

ghost use Rattle.std.specs.Prelude.{◌≡◌, ◌≢◌, ℕ, [], ◌∷◌};
ghost use Rattle.simulator_link_laws.specs.rasta_core.Clock.{settled};
ghost use Rattle.simulator_link_laws.specs.rasta_core.Ends.{reading_of};
ghost use Rattle.simulator_link_laws.specs.rasta_core.Names.{Names};
ghost use Rattle.simulator_link_laws.specs.rasta_core.Run.{Ends};
ghost use Rattle.simulator_link_laws.specs.rasta_core.State.{LinkState};
ghost use Rattle.simulator_link_laws.specs.object_host.Host.{HostState};
ghost use Rattle.simulator_link_laws.specs.point_ctl.Drive.{PointState};
ghost use Rattle.simulator_link_laws.specs.ixl_client.Client.{PeerState};
ghost use Rattle.simulator_link_laws.specs.ixl_spec.State.{IxlState};
ghost use Rattle.simulator_link_laws.specs.ixl_spec.Step.{Input};
ghost use Rattle.simulator_machine.specs.Link.{Down, In};
ghost use Rattle.simulator_machine.specs.Machine.{Machine};
ghost use Rattle.simulator_machine.specs.Point.{Point, reports_made};
ghost use Rattle.simulator_link_laws.specs.simulator_move_laws.Flows.{reports_given};
ghost use Rattle.simulator_link_laws.specs.simulator_move_laws.Lawful.{IsLawful};
ghost use Rattle.simulator_link_laws.specs.simulator_move_laws.EndsSeen.{server_of};
ghost use Rattle.simulator_link_laws.specs.simulator_move_laws.Link.{client_at};
ghost use Rattle.simulator_link_laws.specs.simulator_move_laws.Point.{IsPointSeen};
ghost use Rattle.simulator_link_laws.specs.simulator_move_laws.Facts.{FarEnds};
ghost use Rattle.simulator_link_laws.specs.simulator_move_laws.Sees.{Given, Sees};
ghost use Rattle.simulator_link_laws.specs.simulator_move_laws.Telegrams.{positions_told};
ghost use Rattle.simulator_safety.specs.At.{AreFarEnds};

use sci_telegram::written_is_read;
use simulator_link_laws::simulator_move_laws::{
    clients_know_throughout, flows_are_in_order, items_join, representations_tell_the_connection,
};

/// Where the links are lawful, and the machine sees the interlocking and each controller, all that a step of the interlocking
/// takes of the far ends is so.
pub fn far_ends_are_known()
    ensures { (now : ℕ) (input : Input) (ixl : IxlState) (given : Given) (machine : Machine) → Sees now ixl given machine → AreFarEnds now input ixl given machine
        → FarEnds now input ixl given machine }
{
    clients_know_throughout();
    flows_are_in_order();
    items_join();
    representations_tell_the_connection();
    written_is_read();
}

/// Where a controller tells of one point alone, under its own name, the reports made are those that a client hears in what
/// the server gave.
pub fn reports_made_are_heard()
    ensures { (peer : PeerState) (ends : Ends) (host : HostState PointState) (point : Point) → IsPointSeen ends host point → peer.objects ≡ host.own_name ∷ []
        → reports_made point ≡ positions_told peer (reports_given ends) }
{
    written_is_read();
}

/// When a client's quiet time is over by the clock, no server is in its connection.
pub fn clients_are_alone_after_quiet()
    ensures { (now : ℕ) (names : Names) (link : LinkState) (ends : Ends) → IsLawful names ends → reading_of ends.client.clock ≡ now → ends.client.link ≡ settled now link
        → client_at now link ≡ Down → server_of ends ≢ In }
{
    representations_tell_the_connection();
}
