//! What everything that can happen to a link keeps.

ghost use Rattle.std.specs.Prelude.{ℕ, ◌<◌, List};
ghost use Rattle.rasta_core.specs.EachLink.{AreTimely};
ghost use Rattle.rasta_core.specs.Events.{Event, May, MayRun, Start, happened, run, started};
ghost use Rattle.rasta_core.specs.Links.{AreLinks, Links, LinksEvent, LinksStart, MayHappenTo, MayRunLinks, PassesFor, begun, happened_to, run_links, seen};
ghost use Rattle.rasta_core.specs.Names.{AreNames, Names};
ghost use Rattle.rasta_core.specs.Run.{Ends};
ghost use Rattle.simulator_move_laws.specs.Lawful.{AreLawful, IsLawful};

use rasta_core::{
    each_link_sees_its_events, every_event_keeps_order, every_event_keeps_time, given_was_sent,
    links_can_be_read_off, links_keep_order, links_keep_time, newest_tells_the_connection,
    nothing_before_a_connection, starts_in_time, time_changes_no_connection, time_keeps_order,
};

/// Two ends that were just created are a lawful link, and every event that may happen, and every list of them, keeps it.
pub fn lawful_links_stay_lawful()
    ensures starts { (names : Names) (start : Start) → AreNames names → IsLawful names (started names start) }
    ensures kept { (names : Names) (event : Event) (ends : Ends) → AreNames names → IsLawful names ends → May names event ends
        → IsLawful names (happened event ends) }
    ensures run { (names : Names) (events : List Event) (ends : Ends) → AreNames names → IsLawful names ends → MayRun names events ends
        → IsLawful names (run events ends) }
{
    starts_in_time();
    every_event_keeps_time();
    every_event_keeps_order();
    newest_tells_the_connection();
    given_was_sent();
    nothing_before_a_connection();
}

/// So is each link of a world: at its beginning, and over every event and every list of events of the world.
pub fn lawful_worlds_stay_lawful()
    ensures starts { (count : ℕ) (names : ℕ → Names) (start : LinksStart) → AreLinks count names → AreLawful count names (begun names start) }
    ensures kept { (count : ℕ) (names : ℕ → Names) (event : LinksEvent) (links : Links) → AreLinks count names → AreLawful count names links
        → MayHappenTo count names event links → AreLawful count names (happened_to event links) }
    ensures run { (count : ℕ) (names : ℕ → Names) (events : List LinksEvent) (links : Links) → AreLinks count names → AreLawful count names links
        → MayRunLinks count names events links → AreLawful count names (run_links events links) }
    ensures each { (count : ℕ) (names : ℕ → Names) (links : Links) → AreLawful count names links → (link : ℕ) → link < count
        → IsLawful (names link) (seen link links) }
{
    links_keep_time();
    links_keep_order();
    links_can_be_read_off();
}

/// They stay lawful while time passes, whatever their clocks do in it, as long as they keep time then.
pub fn lawful_worlds_pass_time()
    ensures { (count : ℕ) (names : ℕ → Names) (elapsed : ℕ) (of_clients of_servers : ℕ → ℕ) (links : Links) → AreLawful count names links
        → AreTimely count names (happened_to (PassesFor elapsed of_clients of_servers) links)
        → AreLawful count names (happened_to (PassesFor elapsed of_clients of_servers) links) }
{
    each_link_sees_its_events();
    time_changes_no_connection();
    time_keeps_order();
}
