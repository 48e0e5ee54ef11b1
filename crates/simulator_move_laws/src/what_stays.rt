//! What stays as it was at a link.

ghost use Rattle.std.specs.Prelude.{◌≡◌, ℕ, false};
ghost use Rattle.rasta_core.specs.Events.{Event, May, Passes, Restarts, happened};
ghost use Rattle.rasta_core.specs.Invariant.{Timely};
ghost use Rattle.rasta_core.specs.Names.{AreNames, Names};
ghost use Rattle.rasta_core.specs.Run.{Ends, end_of};
ghost use Rattle.rasta_core.specs.State.{is_open};
ghost use Rattle.rasta_core.specs.identity.Role.{Role};
ghost use Rattle.rasta_core.specs.identity.Role.TheVariants as role;
ghost use Rattle.simulator_machine.specs.Link.{Closes, Down, Start, link_after};
ghost use Rattle.simulator_move_laws.specs.Flows.{KeepsLists, LeavesUncalled};
ghost use Rattle.simulator_move_laws.specs.LinkMoves.{LinkGoes, moves_by};
ghost use Rattle.simulator_move_laws.specs.EndsSeen.{client_of, represented};

use crate::moves::events_are_moves;
use rasta_core::{every_event_keeps_time, links_are_settled};

/// An end enters a connection, and gives and takes items, in its own calls only: not as time goes on, nor as an end is made
/// anew.
pub fn only_calls_give_and_take()
    ensures { (event : Event) (ends : Ends) (who : Role) → LeavesUncalled who event → KeepsLists (end_of who ends) (end_of who (happened event ends)) }
{}

/// A client begins a connection in its own calls only, and stays down as time goes on.
pub fn only_calls_begin_connections()
    ensures begins { (names : Names) (event : Event) (ends : Ends) → AreNames names → Timely names ends → May names event ends → LeavesUncalled role.Client event
        → client_of (happened event ends).client ≡ Start → client_of ends.client ≡ Start }
    ensures down { (names : Names) (elapsed of_client of_server : ℕ) (ends : Ends) → Timely names ends → client_of ends.client ≡ Down
        → client_of (happened (Passes elapsed of_client of_server) ends).client ≡ Down }
{
    every_event_keeps_time();
    links_are_settled();
}

/// A client that is made anew has left its connection, and leaves its server where it is. A server that is made anew leaves
/// the connection where it was in one, and its client stays where it is.
pub fn restarts_of_links_are_moves()
    ensures client { (clock first : ℕ) (ends : Ends) → represented (happened (Restarts role.Client clock first) ends) ≡ link_after Closes (represented ends) }
    ensures server { (names : Names) (clock first : ℕ) (ends : Ends) → AreNames names → Timely names ends
        → LinkGoes (moves_by false (is_open ends.server.link.phase) false) (represented ends) (represented (happened (Restarts role.Server clock first) ends)) }
{
    events_are_moves();
}
