//! What the two ends of a link say and expect.

ghost use Rattle.std.specs.Prelude.{◌≡◌, ◌+◌, ◌-◌, ◌≤◌, ℕ, suc, true, IsTrue, List, length, map, ◌++◌};
ghost use Rattle.object_host_laws.specs.World.{Event as WorldEvent, MayRun, World, begun, happened, run};
ghost use Rattle.ixl_table.specs.Table.{IsTableOf};
ghost use Rattle.simulator_spec.specs.First.{Outset, world_at};
ghost use Rattle.simulator_spec.specs.Happens.{happens};
ghost use Rattle.simulator_spec.specs.Links.{AreLinksOf};
ghost use Rattle.simulator_spec.specs.State.{WorldState};
ghost use Rattle.simulator_spec.specs.ixl_client.Client.{PeerState};
ghost use Rattle.simulator_spec.specs.ixl_client.ClientSoFar.{ClientSoFar};
ghost use Rattle.simulator_spec.specs.ixl_client.ExpectedTelegrams.{IsExpected};
ghost use Rattle.simulator_spec.specs.ixl_client.ItemsSaid.{item_of as item_said};
ghost use Rattle.simulator_spec.specs.ixl_client.Meaning.{is_status, reports_changes};
ghost use Rattle.simulator_spec.specs.ixl_client.Step.{acting as acting_client, commanding, hearing, message_of, telegram_to, ticking};
ghost use Rattle.simulator_spec.specs.ixl_client.declared.command.Command.{Command};
ghost use Rattle.simulator_spec.specs.ixl_client.declared.command.Command.TheVariants as commands;
ghost use Rattle.simulator_spec.specs.ixl_client.declared.stage.Stage.TheVariants as client_stage;
ghost use Rattle.simulator_spec.specs.ixl_spec.Table.{Table};
ghost use Rattle.simulator_spec.specs.layout.Entries.{Site};
ghost use Rattle.simulator_spec.specs.layout.Once.{Once};
ghost use Rattle.simulator_spec.specs.layout.Station.{IsStation};
ghost use Rattle.simulator_spec.specs.object_host.Host.{HostState, said};
ghost use Rattle.simulator_spec.specs.object_host.Hosted.{new_host};
ghost use Rattle.simulator_spec.specs.object_host.Made.{items_given};
ghost use Rattle.simulator_spec.specs.object_host.Step.{acting as acting_host, beginning, host_step, initialising, is_in_version};
ghost use Rattle.simulator_spec.specs.object_host.Told.{initialisation, item_of as item_reported, item_of};
ghost use Rattle.simulator_spec.specs.object_host.declared.input.Input.{Input};
ghost use Rattle.simulator_spec.specs.object_host.declared.report.Report.{Report};
ghost use Rattle.simulator_spec.specs.object_host.declared.stage.Stage.TheVariants as host_stage;
ghost use Rattle.simulator_spec.specs.point_ctl.Controlled.{point_behaviour};
ghost use Rattle.simulator_spec.specs.point_ctl.Drive.{PointState, is_answered};
ghost use Rattle.simulator_spec.specs.rasta_core.Clock.{settled};
ghost use Rattle.simulator_spec.specs.rasta_core.Each.{Each};
ghost use Rattle.simulator_spec.specs.rasta_core.Events.{Start};
ghost use Rattle.simulator_spec.specs.rasta_core.Links.{Links, run_links};
ghost use Rattle.simulator_spec.specs.rasta_core.Names.{AreNames, Names};
ghost use Rattle.simulator_spec.specs.rasta_core.State.{LinkState, is_open};
ghost use Rattle.simulator_spec.specs.rasta_core.identity.Identity.{Identity};
ghost use Rattle.simulator_spec.specs.sci_telegram.TelegramRead.{reading};
ghost use Rattle.simulator_spec.specs.sci_telegram.Telegrams.{writing};
ghost use Rattle.simulator_spec.specs.sci_telegram.declared.message.Agreement.TheVariants.{Match};
ghost use Rattle.simulator_spec.specs.sci_telegram.declared.message.Aspect.{Aspect};
ghost use Rattle.simulator_spec.specs.sci_telegram.declared.message.Initialisation.TheVariants.{InitialisationCompleted, InitialisationRequest, StartInitialisation, VersionAnswer, VersionCheck};
ghost use Rattle.simulator_spec.specs.sci_telegram.declared.message.Side.{Side};
ghost use Rattle.simulator_spec.specs.signal_ctl.Signal.{SignalState, signal_behaviour};
ghost use Rattle.simulator_spec.specs.simulator_event.declared.event.Event.{Event};
ghost use Rattle.simulator_spec.specs.tds_ctl.Controlled.{detection_behaviour};
ghost use Rattle.simulator_link_laws.specs.Events.{events_of};
ghost use Rattle.simulator_link_laws.specs.Whole.{IsPeer, IsWhole};
ghost use Rattle.simulator_safety.specs.Reached.{IsReached};
ghost use Rattle.simulator_recovery.specs.ClientSaid.{HaveTalked};
ghost use Rattle.simulator_recovery.specs.Conversation.{Accepts, AreMatched, ClientActs, HasRoomFor, HostActs, HostExpectsItem, HostHasActedOn, IsSettled, KeepsCount, ReportsState, StandsAtItsStage, most_said};
ghost use Rattle.simulator_recovery.specs.Counts.{AllHaveSaid, AllStandByCounts, HaveSaid, HostHasSaid, HostStandsByCounts, MakesAsMany, StandsByWhatItSaid, TellsAsMany, given_before, objects_told};
ghost use Rattle.simulator_recovery.specs.Expected.{HaveAnswered, HaveFitting, HaveNext};
ghost use Rattle.simulator_recovery.specs.Told.{HaveTold};

use crate::below::{laws_below, laws_of_host};
use simulator_spec::object_host::Controller;

/// A host acts on each item that it expects: the check of its version, the request for the initialisation, and then each command
/// that fits its object. None of them closes its link.
pub(crate) fn hosts_act_on_what_they_expect<C: Controller>()
    ensures { (now : ℕ) (item : List ℕ) (host : HostState C) → HostExpectsItem C.behaviour now host (reading item) → HostActs item (acting_host C.behaviour now item (reading item) host) }
{}

/// A client acts on each item that it expects by the stage of its connection. None of them closes its link, but where the window
/// refuses the request for the initialisation.
pub(crate) fn clients_act_on_what_they_expect()
    ensures { (now : ℕ) (item : List ℕ) (part : ClientSoFar) → IsExpected part.client.peer part.client.stage (reading item) → ClientActs now item part (acting_client now item part) }
{}

/// What a client says in the initialisation is what the host of its controller expects then: the check of its version, and the
/// request for the initialisation.
pub(crate) fn hosts_expect_what_clients_say<C: Controller>()
    ensures check { (now : ℕ) (peer : PeerState) (host : HostState C) → IsPeer peer → AreMatched C.behaviour peer host → host.stage ≡ host_stage.AwaitsCheck
        → HostExpectsItem C.behaviour now host (reading (item_said peer (VersionCheck peer.version))) }
    ensures request { (now : ℕ) (peer : PeerState) (host : HostState C) → IsPeer peer → AreMatched C.behaviour peer host → host.stage ≡ host_stage.AwaitsRequest
        → HostExpectsItem C.behaviour now host (reading (item_said peer InitialisationRequest)) }
{
    laws_below();
}

/// Once the initialisation is completed a signal expects each aspect that its version has, and a point each move where it has
/// answered the last one.
pub(crate) fn commands_are_expected()
    ensures aspects { (now : ℕ) (aspect : Aspect) (peer : PeerState) (host : HostState SignalState) → IsPeer peer → AreMatched signal_behaviour peer host → host.stage ≡ host_stage.Completed
        → IsTrue (is_in_version host.version (message_of (commands.Indicate aspect)))
        → HostExpectsItem signal_behaviour now host (reading (writing (telegram_to peer (message_of (commands.Indicate aspect))))) }
    ensures moves { (now : ℕ) (side : Side) (peer : PeerState) (host : HostState PointState) → IsPeer peer → AreMatched point_behaviour peer host → host.stage ≡ host_stage.Completed
        → is_answered host.object.progress ≡ true → HostExpectsItem point_behaviour now host (reading (writing (telegram_to peer (message_of (commands.Move side))))) }
{
    laws_below();
}

/// What a controller says is what its client expects then: the answer of the version, *start*, the state of each object in its
/// turn, *completed* once all were told, and then changes of a signal or a section, and of a point the answer to a move.
pub(crate) fn clients_expect_what_hosts_say<C: Controller>()
    ensures answer { (peer : PeerState) (host : HostState C) → IsPeer peer → AreMatched C.behaviour peer host
        → IsExpected peer client_stage.AwaitsAnswer (reading (item_reported host (said C.behaviour (VersionAnswer Match host.version)))) }
    ensures start { (peer : PeerState) (host : HostState C) → IsPeer peer → AreMatched C.behaviour peer host
        → IsExpected peer client_stage.AwaitsStart (reading (item_reported host (said C.behaviour StartInitialisation))) }
    ensures status { (peer : PeerState) (host : HostState C) (report : Report) (left : ℕ) → IsPeer peer → AreMatched C.behaviour peer host
        → (is : ReportsState peer host report (length peer.objects - left)) → IsTrue (is_status is.state)
        → IsExpected peer (client_stage.AwaitsStatus left) (reading (item_reported host report)) }
    ensures completed { (peer : PeerState) (host : HostState C) → IsPeer peer → AreMatched C.behaviour peer host
        → IsExpected peer (client_stage.AwaitsStatus 0) (reading (item_reported host (said C.behaviour InitialisationCompleted))) }
    ensures change { (peer : PeerState) (host : HostState C) (report : Report) (place : ℕ) → IsPeer peer → AreMatched C.behaviour peer host → ReportsState peer host report place
        → IsTrue (reports_changes peer.protocol) → IsExpected peer client_stage.Completed (reading (item_reported host report)) }
    ensures answers_moves { (peer : PeerState) (host : HostState C) (report : Report) (place : ℕ) → IsPeer peer → AreMatched C.behaviour peer host → ReportsState peer host report place
        → IsExpected peer client_stage.AwaitsReport (reading (item_reported host report)) }
{
    laws_below();
}

/// The stage of a host tells how many items it has acted on in its connection: none before the check of the version, one after it,
/// and at least two once the initialisation is completed. Each step in which its link stays open keeps that.
pub(crate) fn hosts_count_what_they_act_on<C: Controller>()
    ensures { (now : ℕ) (input : Input) (host : HostState C) (count : ℕ) → HostHasActedOn (beginning C.behaviour now host).stage count
        → is_open (host_step C.behaviour now input host).host.link.phase ≡ true
        → HostHasActedOn (host_step C.behaviour now input host).host.stage (count + length (host_step C.behaviour now input host).acted) }
{}

/// The stage of a client tells how many items it has acted on in its connection: none before the answer of the version, one after
/// it, then *start* and the state of one object after the other, and all of them once the initialisation is completed. A
/// datagram, a command and a tick keep that, where the client is inside after it.
pub(crate) fn clients_count_what_they_act_on()
    ensures receipt { (now : ℕ) (bytes : List ℕ) (part : ClientSoFar) → KeepsCount part (hearing now bytes part) }
    ensures command { (now : ℕ) (command : Command) (part : ClientSoFar) → KeepsCount part (commanding now command part) }
    ensures tick { (now : ℕ) (part : ClientSoFar) → KeepsCount part (ticking now part) }
{}

/// So it is in a world of a commanding client and a host, from its beginning on: while the host's link is open, its stage tells how many
/// items it has acted on in its connection. Every event keeps that, where the clock rules of the host's end are applied (*kept*); and so it is after every list of events (*always*).
pub(crate) fn hosts_stand_at_their_stage<C: Controller>()
    ensures starts { (names : Names) (start : Start) (own_name peer_name : List ℕ) (object : C) (version : ℕ) → StandsAtItsStage (begun C.behaviour names start own_name peer_name object version) }
    ensures kept { (event : WorldEvent C) (world : World C) → IsSettled world → StandsAtItsStage world → StandsAtItsStage (happened C.behaviour event world) }
    ensures always { (names : Names) (start : Start) (own_name peer_name : List ℕ) (object : C) (version : ℕ) (events : List (WorldEvent C)) → AreNames names
        → MayRun C.behaviour names events (begun C.behaviour names start own_name peer_name object version)
        → StandsAtItsStage (run C.behaviour events (begun C.behaviour names start own_name peer_name object version)) }
{
    laws_below();
    laws_of_host::<C>();
}

/// A link that is up accepts an item as long as there is room for it (*accepts*). An initialisation is 18 items at most, and a window
/// has room for 20 (*few*). So a host says all of it where its link has room for so many (*whole*).
pub(crate) fn hosts_say_their_whole_initialisation<C: Controller>()
    ensures accepts { (now count : ℕ) (item : List ℕ) (link : LinkState) → HasRoomFor now (suc count) link → Accepts now count item link }
    ensures few { (object : C) → length (initialisation C.behaviour object) ≤ most_said }
    ensures whole { (now : ℕ) (host : HostState C) → HasRoomFor now most_said host.link
        → items_given now (initialising C.behaviour now host).calls host.link ≡ map (item_reported host) (initialisation C.behaviour host.object) }
{}

/// After every list of events of a station, on any network, what the client of each controller has given on its link in its connection is
/// what its stage tells: the check of the version, the request for the initialisation, and then commands, in this order. A signal is
/// given aspects that the version of the station has, a point moves, a detector nothing. A point was given at most one move more than
/// it has answered, and one that awaits a report exactly one.
pub(crate) fn clients_have_said_what_their_stages_tell()
    ensures { (site : Site) (table : Table) (world : WorldState) → IsStation site → Once site → IsTableOf site table → IsReached site table world → HaveTalked site world }
{
    laws_below();
}

/// After every list of events of a station, on any network, what each controller has given on its link in its last connection, whether
/// it is still in it or not, is a beginning of a conversation: the answer that its version is right, the whole initialisation of one
/// object, and reports that such objects owe, in this order. A signal's object indicates an aspect that the version of the station has,
/// a detector's has the sections of the layout in their order. It answers that its version is another only where it has taken a check
/// of another one.
pub(crate) fn controllers_keep_to_their_conversations()
    ensures { (site : Site) (table : Table) (world : WorldState) → IsStation site → Once site → IsReached site table world → HaveTold site world }
{
    laws_below();
}

/// Nothing that a signal, a point or a detector is told changes of how many objects its initialisation tells.
pub(crate) fn controllers_tell_as_many()
    ensures signal { TellsAsMany signal_behaviour }
    ensures point { TellsAsMany point_behaviour }
    ensures detector { TellsAsMany detection_behaviour }
{}

/// While the link of a host is open it counts as many items taken and given in its connection as the stage of the host tells: none,
/// one, or at least so many. So a host has acted on each item that its link took, and has said all that belongs to its stage. A host
/// that was just made stands by its counts (*made*), and each step keeps that (*kept*), whatever comes.
pub(crate) fn hosts_stand_by_their_counts<C: Controller>()
    ensures made { (identity : Identity) (own_name peer_name : List ℕ) (first now : ℕ) (object : C) (version objects : ℕ) → TellsAsMany C.behaviour → objects_told C.behaviour object ≡ objects
        → HostStandsByCounts C.behaviour objects (new_host C.behaviour identity own_name peer_name first now object version) }
    ensures kept { (now : ℕ) (input : Input) (host : HostState C) (objects : ℕ) → TellsAsMany C.behaviour → HostStandsByCounts C.behaviour objects host
        → HostStandsByCounts C.behaviour objects (host_step C.behaviour now input host).host }
{}

/// What a host has given in its connection are, in this order and by its stage: the answer of the version, the whole initialisation, and
/// reports. The initialisation tells of an object of its kind, and each report is one that such an object owes; which object that is, is
/// left open. Each step keeps that while the link is open, whatever comes, of a host that stands by its counts: after the items of
/// before stand those that the step gives. In a connection that opens in the step none were given before.
pub(crate) fn hosts_say_in_their_order<C: Controller>()
    ensures { (now : ℕ) (input : Input) (host : HostState C) (items : List (List ℕ)) (objects : ℕ) → TellsAsMany C.behaviour → HostStandsByCounts C.behaviour objects host
        → (is_open (settled now host.link).phase ≡ true → HostHasSaid C.behaviour (item_of host) host.version host.stage items)
        → is_open (host_step C.behaviour now input host).host.link.phase ≡ true
        → HostHasSaid C.behaviour (item_of host) host.version (host_step C.behaviour now input host).host.stage
        (given_before (is_open (settled now host.link).phase) items ++ items_given now (host_step C.behaviour now input host).calls (settled now host.link)) }
{}

/// So it is in a world of a commanding client and a host, from its beginning on: while the host's link is open, what its end has given in
/// the connection is what its stage tells, in order. Every event keeps that, where the clock rules of the host's end are applied (*kept*);
/// and so it is after every list of events (*always*). Where the host is made anew, its new object tells of as many as the old one.
pub(crate) fn hosts_have_said_what_their_stage_tells<C: Controller>()
    ensures starts { (names : Names) (start : Start) (own_name peer_name : List ℕ) (object : C) (version objects : ℕ) → TellsAsMany C.behaviour → objects_told C.behaviour object ≡ objects
        → StandsByWhatItSaid C.behaviour objects (begun C.behaviour names start own_name peer_name object version) }
    ensures kept { (event : WorldEvent C) (world : World C) (objects : ℕ) → TellsAsMany C.behaviour → IsSettled world → MakesAsMany C.behaviour objects event → StandsByWhatItSaid C.behaviour objects world
        → StandsByWhatItSaid C.behaviour objects (happened C.behaviour event world) }
    ensures always { (names : Names) (start : Start) (own_name peer_name : List ℕ) (object : C) (version objects : ℕ) (events : List (WorldEvent C)) → TellsAsMany C.behaviour → AreNames names
        → objects_told C.behaviour object ≡ objects → Each (MakesAsMany C.behaviour objects) events → MayRun C.behaviour names events (begun C.behaviour names start own_name peer_name object version)
        → StandsByWhatItSaid C.behaviour objects (run C.behaviour events (begun C.behaviour names start own_name peer_name object version)) }
{
    laws_below();
    laws_of_host::<C>();
}

/// All ends of the links of a station stand by their counts, after every list of events, on any network: while a controller's link
/// is open, and while the interlocking's link to it is, the link counts as many items taken and given in its connection as
/// the stage tells. And the interlocking awaits the states of as many objects as the controller tells of.
pub(crate) fn stations_stand_by_their_counts()
    ensures { (site : Site) (table : Table) (world : WorldState) → IsStation site → IsReached site table world → AllStandByCounts site world }
{}

/// After every list of events of a station, on any network, what each controller has given on its link in its connection is what its stage
/// tells, in order, while the link is open (*always*). At the beginning no link is open (*first*), and each event that can happen
/// keeps it, from any links that are those of the world (*kept*).
pub(crate) fn controllers_have_said_what_their_stages_tell()
    ensures first { (site : Site) (table : Table) (outset : Outset) (network : Links) → AllHaveSaid site (world_at site table outset) network }
    ensures kept { (site : Site) (table : Table) (event : Event) (world : WorldState) (network : Links) → IsWhole site world → AreLinksOf site world network
        → AllStandByCounts site world → AllHaveSaid site world network → AllHaveSaid site (happens site table event world) (run_links (events_of site table event world) network) }
    ensures always { (site : Site) (table : Table) (world : WorldState) → IsStation site → Once site → IsReached site table world → HaveSaid site world }
{
    laws_below();
}

/// After every list of events of a station, on any network, a point's controller has given in its last connection at most two items more
/// than it has taken there: the whole initialisation, for which there are two, and one report for each move, where one that waits for
/// its report counts as well. So it has given at most two more than its client.
pub(crate) fn points_answer_each_move_once()
    ensures { (site : Site) (table : Table) (world : WorldState) → IsStation site → Once site → IsTableOf site table → IsReached site table world → HaveAnswered site world }
{
    laws_below();
}

/// After every list of events of a station, on any network, the item that a controller has given in the connection after all that its
/// client has taken, if there is one, is what the client expects by its stage: the answer of the version, *start*, the state of each
/// object in its turn, *completed*, and then a change of the signal or of a section, or the point's answer to a move. Where the client of
/// a point awaits no report there is no such item.
pub fn clients_expect_what_comes_next()
    ensures { (site : Site) (table : Table) (world : WorldState) → IsStation site → Once site → IsTableOf site table → IsReached site table world → HaveNext site world }
{
    laws_below();
}

/// And the item that the client of a controller has given after all that the controller has taken, if there is one, is what its host
/// expects by its stage, where the host is inside: the check of its version, the request for the initialisation, and then an aspect that
/// a signal has in its version, and a move, which finds the point with all others answered. A detector is given no command.
pub fn hosts_expect_what_comes_next()
    ensures { (site : Site) (table : Table) (world : WorldState) → IsStation site → Once site → IsTableOf site table → IsReached site table world → HaveFitting site world }
{
    laws_below();
}
