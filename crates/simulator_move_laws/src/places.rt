//! What the machine sees of the ends of a link, and of what they gave and took.

ghost use Rattle.std.specs.Prelude.{◌≡◌, ◌≢◌, true, false, nat_lt, []};
ghost use Rattle.rasta_core.specs.Clock.{deadline};
ghost use Rattle.rasta_core.specs.Ends.{reading_of};
ghost use Rattle.rasta_core.specs.Invariant.{Timely};
ghost use Rattle.rasta_core.specs.Names.{Names};
ghost use Rattle.rasta_core.specs.Run.{Ends, end_of};
ghost use Rattle.rasta_core.specs.Safe.{AreSafe};
ghost use Rattle.rasta_core.specs.State.{is_open, is_up};
ghost use Rattle.rasta_core.specs.identity.Role.{Role};
ghost use Rattle.simulator_machine.specs.Link.{Before, Down, In, Up};
ghost use Rattle.simulator_move_laws.specs.Flows.{AreInOne, Counts, FlowsInOrder};
ghost use Rattle.simulator_move_laws.specs.Lawful.{IsLawful};
ghost use Rattle.simulator_move_laws.specs.EndsSeen.{client_of, server_of};

use rasta_core::{
    alone_after_quiet, items_are_counted, links_are_settled, nothing_before_a_connection,
    one_connection, order_is_safe,
};

/// A client is seen up exactly where it is, and then the server has entered its connection. Where the client is down no
/// server is in it. A server is seen in the connection exactly where it is in one, and that is the client's last. An end
/// inside is before its deadline.
pub fn representations_tell_the_connection()
    ensures up { (names : Names) (ends : Ends) → Timely names ends → is_up ends.client.link.phase ≡ true → client_of ends.client ≡ Up }
    ensures is_up { (names : Names) (ends : Ends) → Timely names ends → client_of ends.client ≡ Up → is_up ends.client.link.phase ≡ true }
    ensures entered { (names : Names) (ends : Ends) → Timely names ends → client_of ends.client ≡ Up → server_of ends ≢ Before }
    ensures alone { (names : Names) (ends : Ends) → Timely names ends → client_of ends.client ≡ Down → server_of ends ≢ In }
    ensures inside { (names : Names) (ends : Ends) → Timely names ends → is_open ends.server.link.phase ≡ true → server_of ends ≡ In }
    ensures outside { (names : Names) (ends : Ends) → Timely names ends → is_open ends.server.link.phase ≡ false → server_of ends ≢ In }
    ensures one { (names : Names) (ends : Ends) → Timely names ends → is_open ends.server.link.phase ≡ true → AreInOne ends }
    ensures alive { (names : Names) (ends : Ends) (who : Role) → Timely names ends → is_open (end_of who ends).link.phase ≡ true
        → nat_lt (reading_of (end_of who ends).clock) (deadline (end_of who ends).link) ≡ true }
{
    alone_after_quiet();
    links_are_settled();
    one_connection();
}

/// What was taken in the client's last connection is a beginning of what was given, in both directions; what the client
/// holds for confirmed was taken; the links of ends inside count what they gave and took; and before the server has entered
/// nothing is given or taken.
pub fn flows_are_in_order()
    ensures flows { (names : Names) (ends : Ends) → IsLawful names ends → FlowsInOrder ends }
    ensures client { (names : Names) (ends : Ends) → IsLawful names ends → Counts ends.client }
    ensures server { (names : Names) (ends : Ends) → IsLawful names ends → Counts ends.server }
    ensures before { (names : Names) (ends : Ends) → IsLawful names ends → server_of ends ≡ Before → (ends.client.given ≡ []) × (ends.client.taken ≡ []) }
    ensures safe { (names : Names) (ends : Ends) → IsLawful names ends → AreSafe ends }
{
    alone_after_quiet();
    items_are_counted();
    links_are_settled();
    nothing_before_a_connection();
    one_connection();
    order_is_safe();
}
