//! What the machine sees of a link, event by event.

ghost use Rattle.std.specs.Prelude.{◌≡◌, ℕ, ◌<◌, List};
ghost use Rattle.simulator_machine.specs.Run.{unlinked};
ghost use Rattle.rasta_core.specs.EachLink.{AreTimely};
ghost use Rattle.rasta_core.specs.Events.{Event, May, MayRun, Start, happened, run, started};
ghost use Rattle.rasta_core.specs.Invariant.{Timely};
ghost use Rattle.rasta_core.specs.Links.{AreLinks, Links, LinksEvent, MayHappenTo, MayRunLinks, happened_to, run_links, run_on, seen};
ghost use Rattle.rasta_core.specs.Names.{AreNames, Names};
ghost use Rattle.rasta_core.specs.Run.{Ends};
ghost use Rattle.rasta_core.specs.State.{is_open};
ghost use Rattle.simulator_move_laws.specs.LinkMoves.{LinkGoes, moves_between, moves_by, moves_of, server_enters, server_moves};
ghost use Rattle.simulator_move_laws.specs.EndsSeen.{represented, server_of};

use rasta_core::{
    alone_after_quiet, each_link_sees_its_events, every_event_keeps_time, links_are_settled,
    one_connection, opening_is_new, outside_until_it_enters, what_is_taken,
};

/// Two ends that were just created are a link that has had no connection yet.
pub fn links_are_represented()
    ensures first { (names : Names) (start : Start) → represented (started names start) ≡ unlinked }
{}

/// What happens to a link is a list of moves of the machine: each event that may happen, each list of events, and what
/// happens in a world to each of its links.
pub fn events_are_moves()
    ensures event { (names : Names) (event : Event) (ends : Ends) → AreNames names → Timely names ends → May names event ends
        → LinkGoes (moves_between (represented ends) (represented (happened event ends))) (represented ends) (represented (happened event ends)) }
    ensures run { (names : Names) (events : List Event) (ends : Ends) → AreNames names → Timely names ends → MayRun names events ends
        → LinkGoes (moves_of events ends) (represented ends) (represented (run events ends)) }
    ensures server { (names : Names) (event : Event) (ends : Ends) → AreNames names → Timely names ends → May names event ends
        → server_moves (server_of ends) (server_of (happened event ends))
        ≡ moves_by (server_enters event ends) (is_open ends.server.link.phase) (is_open (happened event ends).server.link.phase) }
    ensures world { (count : ℕ) (names : ℕ → Names) (event : LinksEvent) (links : Links) → AreLinks count names → AreTimely count names links
        → MayHappenTo count names event links → (link : ℕ) → link < count
        → LinkGoes (moves_between (represented (seen link links)) (represented (seen link (happened_to event links)))) (represented (seen link links))
        (represented (seen link (happened_to event links))) }
    ensures worlds { (count : ℕ) (names : ℕ → Names) (events : List LinksEvent) (links : Links) → AreLinks count names → AreTimely count names links
        → MayRunLinks count names events links → (link : ℕ) → link < count
        → LinkGoes (moves_of (run_on link events links) (seen link links)) (represented (seen link links)) (represented (seen link (run_links events links))) }
{
    alone_after_quiet();
    each_link_sees_its_events();
    every_event_keeps_time();
    links_are_settled();
    one_connection();
    opening_is_new();
    outside_until_it_enters();
    what_is_taken();
}
