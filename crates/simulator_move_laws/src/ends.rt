//! What the link's theorem gives of a host's step.

ghost use Rattle.std.specs.Prelude.{ℕ, List};
ghost use Rattle.rasta_core.specs.Names.{AreNames, Names};
ghost use Rattle.rasta_core.specs.Run.{Ends};
ghost use Rattle.object_host.specs.Host.{LinkCall};
ghost use Rattle.object_host.specs.Made.{AreCallsFor, AreItems};
ghost use Rattle.object_host.specs.declared.input.Input.{Input};
ghost use Rattle.object_host_laws.specs.World.{MayHear, called_all};
ghost use Rattle.simulator_move_laws.specs.Lawful.{IsLawful};
ghost use Rattle.simulator_move_laws.specs.Ends.{AreFit, Steps};

use crate::{
    calls_may_follow_calls, calls_of_a_server_are_moves, flows_are_in_order,
    lawful_links_stay_lawful, representations_tell_the_connection, servers_enter_once,
};
use rasta_core::links_are_settled;

/// Two ends of a lawful link are fit for a host's steps, and so is every step that may be made.
pub fn lawful_ends_are_fit()
    ensures fit { (names : Names) (ends : Ends) → IsLawful names ends → AreFit ends }
    ensures steps { (names : Names) (input : Input) (connection : ℕ) (calls : List LinkCall) (ends : Ends) → AreNames names → IsLawful names ends
        → MayHear names input connection ends → AreCallsFor input calls → AreItems calls → Steps input connection ends (called_all connection calls ends) }
{
    calls_may_follow_calls();
    calls_of_a_server_are_moves();
    flows_are_in_order();
    lawful_links_stay_lawful();
    links_are_settled();
    representations_tell_the_connection();
    servers_enter_once();
}
