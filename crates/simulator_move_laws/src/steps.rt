//! The steps of nodes in a world of many links.

ghost use Rattle.std.specs.Prelude.{◌≡◌, ◌≢◌, ℕ, ◌<◌, List, map};
ghost use Rattle.rasta_core.specs.EachLink.{AreTimely};
ghost use Rattle.rasta_core.specs.Ends.{Call};
ghost use Rattle.rasta_core.specs.Events.{run};
ghost use Rattle.rasta_core.specs.Links.{AreLinks, CallsOn, Links, MayRunLinks, run_links, seen};
ghost use Rattle.rasta_core.specs.Names.{Names};
ghost use Rattle.rasta_core.specs.Nodes.{NodeCall, at_link, calls_of};
ghost use Rattle.rasta_core.specs.Run.{end_of};
ghost use Rattle.rasta_core.specs.Steps.{calls_at};
ghost use Rattle.rasta_core.specs.identity.Role.{Role};
ghost use Rattle.rasta_core.specs.identity.Role.TheVariants as role;
ghost use Rattle.simulator_move_laws.specs.Flows.{ClientIsAfter};
ghost use Rattle.simulator_move_laws.specs.EndsSeen.{represented};

use rasta_core::{
    alone_after_quiet, each_link_sees_its_events, every_event_keeps_time, links_are_settled,
    links_keep_time, one_connection, opening_is_new, outside_until_it_enters, what_is_taken,
};

/// A step of a node that is the client of many links is, at each of them, the calls that it makes there.
pub fn a_client_of_many_makes_a_step()
    ensures { (count : ℕ) (names : ℕ → Names) (calls : List NodeCall) (links : Links) → AreLinks count names → AreTimely count names links
        → MayRunLinks count names (calls_of role.Client calls) links → (link : ℕ) → link < count
        → ClientIsAfter (at_link link calls) (seen link links) (seen link (run_links (calls_of role.Client calls) links)) }
{
    alone_after_quiet();
    each_link_sees_its_events();
    every_event_keeps_time();
    links_are_settled();
    links_keep_time();
    one_connection();
    opening_is_new();
    outside_until_it_enters();
    what_is_taken();
}

/// A step of a node that has one link is a list of calls there; every other link has the ends that it had, and the machine
/// sees nothing of it there.
pub fn a_node_of_one_link_makes_a_step()
    ensures own { (who : Role) (link : ℕ) (calls : List Call) (links : Links)
        → seen link (run_links (map (λ call. CallsOn link who call) calls) links) ≡ run (calls_at who calls) (seen link links) }
    ensures ends { (who : Role) (link other : ℕ) (calls : List Call) (links : Links) → other ≢ link
        → (whose : Role) → end_of whose (seen other (run_links (map (λ call. CallsOn link who call) calls) links)) ≡ end_of whose (seen other links) }
    ensures others { (who : Role) (link other : ℕ) (calls : List Call) (links : Links) → other ≢ link
        → represented (seen other (run_links (map (λ call. CallsOn link who call) calls) links)) ≡ represented (seen other links) }
{
    each_link_sees_its_events();
}
