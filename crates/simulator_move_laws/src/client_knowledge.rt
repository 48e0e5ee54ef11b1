//! What a client knows of its server throughout a step.

ghost use Rattle.std.specs.Prelude.{◌≡◌, false, List};
ghost use Rattle.rasta_core.specs.Each.{Each};
ghost use Rattle.rasta_core.specs.Ends.{Call, reading_of};
ghost use Rattle.rasta_core.specs.Events.{MayCall};
ghost use Rattle.rasta_core.specs.Names.{AreNames, Names};
ghost use Rattle.rasta_core.specs.Run.{Ends};
ghost use Rattle.rasta_core.specs.Steps.{all_made};
ghost use Rattle.rasta_core.specs.identity.Role.TheVariants as role;
ghost use Rattle.simulator_move_laws.specs.Flows.{ClientKnows, given_after, has_begun, taken_after};
ghost use Rattle.simulator_move_laws.specs.Lawful.{IsLawful};

use crate::lawful::lawful_links_stay_lawful;
use crate::lists_of_calls::{calls_may_follow_calls, calls_of_a_client_are_told};
use crate::places::{flows_are_in_order, representations_tell_the_connection};
use rasta_core::calls_at_one_clock;

/// In every state of a client's link that calls at one clock lead to, of which each may be made and none begins a
/// connection, the client knows this of its server.
pub fn clients_know_throughout()
    ensures { (names : Names) (calls : List Call) (ends : Ends) → AreNames names → IsLawful names ends → Each (λ call. MayCall names role.Client call ends) calls
        → has_begun (reading_of ends.client.clock) calls ends.client.link ≡ false
        → ClientKnows ends (all_made (reading_of ends.client.clock) calls ends.client.link).link
        (given_after (reading_of ends.client.clock) calls ends.client.link ends.client.given)
        (taken_after (reading_of ends.client.clock) calls ends.client.link ends.client.taken) }
{
    calls_at_one_clock();
    calls_may_follow_calls();
    calls_of_a_client_are_told();
    flows_are_in_order();
    lawful_links_stay_lawful();
    representations_tell_the_connection();
}
