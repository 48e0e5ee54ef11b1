//! Each link of a world, seen by itself: event by event, and after every list of events.

ghost use Rattle.std.specs.Prelude.{◌≡◌, ◌≢◌, ℕ, ◌-◌, ◌^◌, ◌<◌, List, if◌then◌else◌};
ghost use Rattle.rasta_core_spec.specs.identity.Role.{Role};
ghost use Rattle.rasta_core_spec.specs.identity.Role.TheVariants as role;
ghost use Rattle.rasta_core.specs.EachLink.{AreOrdered, AreTimely};
ghost use Rattle.rasta_core.specs.Links.{AreLinks, LeavesClientOf, Links, LinksEvent, LinksStart, MayHappenTo, MayRunLinks, OnLink, RestartsOn, WasSent, begun, events_on, happened_to, run_links, run_on, seen, star, start_of};
ghost use Rattle.rasta_core.specs.Nodes.{NodeCall, at_link, calls_of, is_among, restarts_of};
ghost use Rattle.rasta_core_spec.specs.Ends.{reading_of};
ghost use Rattle.rasta_core_spec.specs.Events.{AreForeign, IsDelivered, IsRun, MayRun, run};
ghost use Rattle.rasta_core_spec.specs.Given.{IsGiven};
ghost use Rattle.rasta_core_spec.specs.Names.{Names, partner_of};
ghost use Rattle.rasta_core_spec.specs.Newest.{IsNewest, IsUnused};
ghost use Rattle.rasta_core_spec.specs.Run.{end_of, restarted};
ghost use Rattle.rasta_core_spec.specs.Safe.{AreSafe};
ghost use Rattle.rasta_core_spec.specs.Sentences.{IsIn, IsOut};
ghost use Rattle.rasta_core_spec.specs.Steps.{EnterNone, IsAfter, StaysIn};
ghost use Rattle.rasta_core.specs.Invariant.{HasBeenOut};
ghost use Rattle.rasta_core_spec.specs.key.Key.{Key};

use crate::{
    calls_at_one_clock, calls_follow_calls, every_event_keeps_order, every_event_keeps_time,
    every_run_keeps_order, every_run_keeps_time, given_was_sent, link_is_safe,
    newest_tells_the_connection, nothing_before_a_connection, quiet_is_counted, starts_in_time,
};

/// What a link sees after an event of a world is what the events that this is to the link make of what it saw before,
/// and each of these may happen to it; and so it is for every list of events.
pub fn each_link_sees_its_events()
    ensures event { (link : ℕ) (event : LinksEvent) (links : Links)
        → seen link (happened_to event links) ≡ run (events_on link event links) (seen link links) }
    ensures run { (link : ℕ) (events : List LinksEvent) (links : Links)
        → seen link (run_links events links) ≡ run (run_on link events links) (seen link links) }
    ensures may_happen { (count : ℕ) (names : ℕ → Names) (event : LinksEvent) (links : Links) → AreLinks count names → AreTimely count names links
        → MayHappenTo count names event links → (link : ℕ) → link < count → MayRun (names link) (events_on link event links) (seen link links) }
    ensures may_run { (count : ℕ) (names : ℕ → Names) (events : List LinksEvent) (links : Links) → AreLinks count names → AreTimely count names links
        → MayRunLinks count names events links → (link : ℕ) → link < count → MayRun (names link) (run_on link events links) (seen link links) }
{
    every_run_keeps_time();
}

/// What comes to an end was delivered there, if it was sent on the end's own link, and is of another link otherwise. So
/// the laws of what an end takes hold of it.
pub fn each_delivery_is_seen()
    ensures own { (links : Links) (bytes : List ℕ) (connection : ℕ) (one : OnLink) → WasSent links bytes connection one
        → IsDelivered (seen one.link links) bytes connection one.datagram }
    ensures others { (count : ℕ) (names : ℕ → Names) (links : Links) → AreLinks count names → AreTimely count names links → (link : ℕ) → link < count
        → (who : Role) (bytes : List ℕ) (connection : ℕ) (one : OnLink) → WasSent links bytes connection one → link ≢ one.link
        → AreForeign (names link) who bytes }
{}

/// Each link of a world keeps time: at the beginning, and over every event and every list of events that may happen.
pub fn links_keep_time()
    ensures starts { (count : ℕ) (names : ℕ → Names) (start : LinksStart) → AreLinks count names → AreTimely count names (begun names start) }
    ensures kept { (count : ℕ) (names : ℕ → Names) (event : LinksEvent) (links : Links) → AreLinks count names → AreTimely count names links
        → MayHappenTo count names event links → AreTimely count names (happened_to event links) }
    ensures run { (count : ℕ) (names : ℕ → Names) (events : List LinksEvent) (links : Links) → AreLinks count names → AreTimely count names links
        → MayRunLinks count names events links → AreTimely count names (run_links events links) }
{
    starts_in_time();
    every_run_keeps_time();
}

/// Each link of a world is in order: at the beginning, and over every event and every list of events that may happen.
pub fn links_keep_order()
    ensures starts { (count : ℕ) (names : ℕ → Names) (start : LinksStart) → AreOrdered count names (begun names start) }
    ensures kept { (count : ℕ) (names : ℕ → Names) (event : LinksEvent) (links : Links) → AreLinks count names → AreTimely count names links
        → AreOrdered count names links → MayHappenTo count names event links → AreOrdered count names (happened_to event links) }
    ensures run { (count : ℕ) (names : ℕ → Names) (events : List LinksEvent) (links : Links) → AreLinks count names → AreTimely count names links
        → AreOrdered count names links → MayRunLinks count names events links → AreOrdered count names (run_links events links) }
{
    every_event_keeps_order();
    every_run_keeps_order();
    every_run_keeps_time();
}

/// What was sent on a link tells the last connection of each of its ends, and what it gave there: at the beginning, over
/// every event of the world, and over every list of events. An end without a connection has given and taken nothing.
pub fn links_can_be_read_off()
    ensures connection_starts { (names : ℕ → Names) (start : LinksStart) (link : ℕ) (who : Role) → IsNewest who (seen link (begun names start)) }
    ensures connection_kept { (count : ℕ) (names : ℕ → Names) (event : LinksEvent) (links : Links) → AreLinks count names → AreTimely count names links
        → MayHappenTo count names event links → (link : ℕ) → link < count → (who : Role) → IsNewest who (seen link links)
        → IsNewest who (seen link (happened_to event links)) }
    ensures connection_run { (count : ℕ) (names : ℕ → Names) (events : List LinksEvent) (links : Links) → AreLinks count names → AreTimely count names links
        → MayRunLinks count names events links → (link : ℕ) → link < count → (who : Role) → IsNewest who (seen link links)
        → IsNewest who (seen link (run_links events links)) }
    ensures given_starts { (names : ℕ → Names) (start : LinksStart) (link : ℕ) (who : Role) → IsGiven (names link) who (seen link (begun names start)) }
    ensures given_kept { (count : ℕ) (names : ℕ → Names) (event : LinksEvent) (links : Links) → AreLinks count names → AreTimely count names links
        → MayHappenTo count names event links → (link : ℕ) → link < count → ((who : Role) → IsGiven (names link) who (seen link links))
        → (who : Role) → IsGiven (names link) who (seen link (happened_to event links)) }
    ensures given_run { (count : ℕ) (names : ℕ → Names) (events : List LinksEvent) (links : Links) → AreLinks count names → AreTimely count names links
        → MayRunLinks count names events links → (link : ℕ) → link < count → ((who : Role) → IsGiven (names link) who (seen link links))
        → (who : Role) → IsGiven (names link) who (seen link (run_links events links)) }
    ensures unused_starts { (names : ℕ → Names) (start : LinksStart) (link : ℕ) (who : Role) → IsUnused who (seen link (begun names start)) }
    ensures unused_kept { (count : ℕ) (names : ℕ → Names) (event : LinksEvent) (links : Links) → AreLinks count names → AreTimely count names links
        → MayHappenTo count names event links → (link : ℕ) → link < count → (who : Role) → IsUnused who (seen link links)
        → IsUnused who (seen link (happened_to event links)) }
{
    each_link_sees_its_events();
    newest_tells_the_connection();
    given_was_sent();
    nothing_before_a_connection();
}

/// How long the client of a link has been outside: since its creation or since it closed, on its own clock, over every
/// event of the world, at this link or at another.
pub fn links_count_their_quiet()
    ensures made { (count : ℕ) (names : ℕ → Names) (start : LinksStart) → AreLinks count names → (link : ℕ) → link < count
        → HasBeenOut (names link) (start.client_clock link) (seen link (begun names start)) }
    ensures made_anew { (count : ℕ) (names : ℕ → Names) (link clock first : ℕ) (links : Links) → AreTimely count names links → link < count
        → HasBeenOut (names link) clock (seen link (happened_to (RestartsOn link role.Client clock first) links)) }
    ensures left { (count : ℕ) (names : ℕ → Names) (event : LinksEvent) (links : Links) → AreLinks count names → AreTimely count names links
        → MayHappenTo count names event links → (link : ℕ) → link < count → LeavesClientOf link event
        → IsIn role.Client (seen link links) → IsOut role.Client (seen link (happened_to event links))
        → HasBeenOut (names link) (seen link (happened_to event links)).client.link.closed_at (seen link (happened_to event links)) }
    ensures kept { (count : ℕ) (names : ℕ → Names) (since : ℕ) (event : LinksEvent) (links : Links) → AreLinks count names → AreTimely count names links
        → MayHappenTo count names event links → (link : ℕ) → link < count → LeavesClientOf link event
        → HasBeenOut (names link) since (seen link links) → IsOut role.Client (seen link (happened_to event links))
        → HasBeenOut (names link) since (seen link (happened_to event links)) }
{
    quiet_is_counted();
    every_run_keeps_time();
}

/// After every list of events of a world, each of its links has had a run of its own, of events that may happen to two
/// ends: so it is safe.
pub fn each_link_is_a_run()
    ensures runs { (count : ℕ) (names : ℕ → Names) (start : LinksStart) (events : List LinksEvent) → AreLinks count names
        → MayRunLinks count names events (begun names start) → (link : ℕ) → link < count
        → IsRun (names link) (start_of link start) (seen link (run_links events (begun names start))) }
    ensures safe { (count : ℕ) (names : ℕ → Names) (start : LinksStart) (events : List LinksEvent) → AreLinks count names
        → MayRunLinks count names events (begun names start) → (link : ℕ) → link < count
        → AreSafe (seen link (run_links events (begun names start))) }
{
    each_link_sees_its_events();
    links_keep_time();
    link_is_safe();
}

/// A step of a node is calls at its ends of its links, at one clock: each of these ends is what the calls at it make of it,
/// whatever the node does at other links in between; the other ends and true time are as they were.
pub fn a_node_makes_a_step()
    ensures end { (who : Role) (calls : List NodeCall) (links : Links) (link : ℕ)
        → IsAfter (at_link link calls) (end_of who (seen link links)) (end_of who (seen link (run_links (calls_of who calls) links))) }
    ensures items { (who : Role) (calls : List NodeCall) (links : Links) (link : ℕ)
        → EnterNone (reading_of (end_of who (seen link links)).clock) (at_link link calls) (end_of who (seen link links)).link
        → StaysIn (at_link link calls) (end_of who (seen link links)) (end_of who (seen link (run_links (calls_of who calls) links))) }
    ensures partner { (who : Role) (calls : List NodeCall) (links : Links) (link : ℕ)
        → end_of (partner_of who) (seen link (run_links (calls_of who calls) links)) ≡ end_of (partner_of who) (seen link links) }
    ensures time { (who : Role) (calls : List NodeCall) (links : Links) → (run_links (calls_of who calls) links).time ≡ links.time }
{
    calls_at_one_clock();
    calls_follow_calls();
}

/// A node is made anew with its ends of all its links: each of them sees one restart, and every other link sees nothing.
pub fn a_node_restarts()
    ensures { (who : Role) (clock : ℕ) (firsts : ℕ → ℕ) (numbers : List ℕ) (links : Links) (link : ℕ)
        → seen link (run_links (restarts_of who clock firsts numbers) links)
        ≡ (if is_among link numbers then restarted who clock (firsts link) (seen link links) else seen link links) }
{}

/// Links between one client and many servers are such links.
pub fn links_of_one_client()
    ensures { (key : Key) (count : ℕ) → count < 2 ^ 32 - 2 → AreLinks count (star key) }
{}
