//! The interlocking's clients at the ends of their links.

ghost use Rattle.std.specs.Prelude.{◌≡◌, ◌<◌, ℕ, List};
ghost use Rattle.simulator_link_laws.specs.rasta_core.Clock.{settled};
ghost use Rattle.simulator_link_laws.specs.rasta_core.Ends.{EndState, reading_of};
ghost use Rattle.simulator_link_laws.specs.rasta_core.State.{LinkState};
ghost use Rattle.simulator_link_laws.specs.ixl_client.Client.{PeerState};
ghost use Rattle.simulator_link_laws.specs.ixl_client.ClientSoFar.{LinkCall};
ghost use Rattle.simulator_link_laws.specs.simulator_move_laws.Flows.{given_after, has_begun, taken_after};
ghost use Rattle.simulator_link_laws.specs.simulator_move_laws.EndsSeen.{client_of};
ghost use Rattle.simulator_link_laws.specs.simulator_move_laws.Calls.{Items, has_begun as has_begun_in, items_after};
ghost use Rattle.simulator_link_laws.specs.simulator_move_laws.Link.{client_at};
ghost use Rattle.simulator_link_laws.specs.simulator_move_laws.Totals.{IsReadable};
ghost use Rattle.simulator_safety.specs.At.{HasNames};
ghost use Rattle.simulator_safety.specs.Calls.{as_calls};

use sci_telegram::written_is_read;

/// The machine sees a client at its end of the link where the interlocking has it.
pub fn clients_are_seen_at_their_ends()
    ensures { (now : ℕ) (link : LinkState) (end : EndState) → reading_of end.clock ≡ now → end.link ≡ settled now link → client_of end ≡ client_at now link }
{}

/// What the calls of a client give and take, and whether they begin a connection, is what these calls do at its end.
pub fn calls_give_and_take_at_the_ends()
    ensures given { (now connection : ℕ) (calls : List LinkCall) (link : LinkState) (items : Items)
        → given_after now (as_calls connection calls) link items.given ≡ (items_after now calls link items).given }
    ensures taken { (now connection : ℕ) (calls : List LinkCall) (link : LinkState) (items : Items)
        → taken_after now (as_calls connection calls) link items.taken ≡ (items_after now calls link items).taken }
    ensures begun { (now connection : ℕ) (calls : List LinkCall) (link : LinkState) → has_begun now (as_calls connection calls) link ≡ has_begun_in now calls link }
{}

/// What is written to a peer with names is read as it was meant.
pub fn peers_with_names_are_read()
    ensures { (peer : PeerState) → HasNames peer → peer.version < 256 → IsReadable peer }
{
    written_is_read();
}
