//! Laws over every step of an interlocking.

ghost use Rattle.std.specs.Prelude.{◌≡◌, ◌+◌, ◌<◌, ◌↔◌, ℕ, [], false, true, length, List, None, Err, Some, slice_get};
ghost use Rattle.std.specs.FinSet.{contains};
ghost use Rattle.std.specs.List.{Contains};
ghost use Rattle.ixl_state.specs.rasta_pdu.PduRead.{reading};
ghost use Rattle.ixl_state.specs.rasta_pdu.declared.key.Key.{Key};
ghost use Rattle.ixl_state.specs.layout.Entries.{Site};
ghost use Rattle.ixl_state.specs.layout.declared.ids.RouteId.{RouteId};
ghost use Rattle.ixl_state.specs.ixl_client.declared.indication.Indication.{Indication};
ghost use Rattle.ixl_state.specs.ixl_client.declared.indication.ObjectState.{ObjectState};
ghost use Rattle.ixl_state.specs.sci_telegram.declared.message.Side.{Side};
ghost use Rattle.ixl_state.specs.ixl_table.Table.{IsTableOf};
ghost use Rattle.ixl_state.specs.ixl_spec.Due.{HoldsPoint, HoldsSection, Known, MoveDue};
ghost use Rattle.ixl_state.specs.ixl_spec.StepSoFar.{Node, StepSoFar, giving_move};
ghost use Rattle.ixl_state.specs.ixl_spec.State.{IxlState, KnownDetectorState, RouteState, KnownPointState};
ghost use Rattle.ixl_state.specs.ixl_spec.Step.{Accepted, Commands, Datagram, Input, Received, Refused, Reply, Tick, all_clocked, addressed, client_at, client_of};
ghost use Rattle.ixl_state.specs.ixl_spec.Table.{Need, Row, Table};
ghost use Rattle.ixl_state.specs.ixl_spec.View.{freed_sections, has_authority, is_holding, is_set, was_authorised};
ghost use Rattle.ixl_state.specs.ixl_spec.declared.command.Command.TheVariants as commands;
ghost use Rattle.ixl_state.specs.ixl_spec.declared.command.Command.{Command};
ghost use Rattle.ixl_state.specs.ixl_spec.declared.command.Refusal.{Refusal};
ghost use Rattle.ixl_state.specs.ixl_spec.declared.phase.Phase.{Phase};
ghost use Rattle.ixl_state.specs.First.{Beginning, key_of, new_ixl};
ghost use Rattle.ixl.specs.Interlocking.{HasStepped, InterlockingState, step_of};
ghost use Rattle.ixl_laws.specs.Answered.{GoesOnAnswered, IsAnswered, last_told};
ghost use Rattle.ixl_laws.specs.Apart.{AllApart, DoNotConflict, IsWhole, StandApart};
ghost use Rattle.ixl_laws.specs.Called.{ActsOnTaken, HandsOut, IsNobody, ReceivesFirst, Stays, acted_at, calls_at, items_taken, receipt_at};
ghost use Rattle.ixl_laws.specs.Cancels.{IsCancelRefused, IsResumeRefused, MayCancel};
ghost use Rattle.ixl_laws.specs.History.{BeginsTold, ComesAt, GoesOnTold, History, TellsOf};
ghost use Rattle.ixl_laws.specs.Links.{NoneDown};
ghost use Rattle.ixl_laws.specs.Onward.{GoesOn};
ghost use Rattle.ixl_laws.specs.Order.{CallsInOrder, handed_out, links_at};
ghost use Rattle.ixl_laws.specs.Refused.{IsInNoConnection, IsWithoutInput, MayHear};
ghost use Rattle.ixl_laws.specs.Reported.{GoesOnReported, IsReported};
ghost use Rattle.ixl_state.specs.ixl_client.Client.{ClientState, is_outside};
ghost use Rattle.ixl_state.specs.ixl_client.Made.{link_after};
ghost use Rattle.ixl_state.specs.rasta_core.Clock.{settled};
ghost use Rattle.ixl_state.specs.rasta_core.Verdicts.{is_refusal};
ghost use Rattle.ixl_state.specs.rasta_core.verdict.Verdict.TheVariants as verdicts;
ghost use Rattle.ixl_state.specs.rasta_core.verdict.Verdict.{Verdict};

use ixl::requests_are_accepted_where_admissible;
use ixl_client::{
    initialisations_go_out_in_order, step_hears_what_was_taken, step_is_calls, step_keeps_the_peer,
    ticks_open_links_that_are_down,
};

/// In a step each route goes on in its order, or is freed, and never back: it waits, its aspect was given, it was
/// withdrawn, its authority ended, and its sections are freed one after another. It is set only by a request that is
/// accepted, where it wasn't set. So its aspect is given once in a setting, since it is given only where the route waits.
#[tactic(auto, using(crate::proofs::RoutesGoOn::steps_go_on))]
pub fn routes_go_on_in_their_order()
    ensures { (now : ℕ) (input : Input) (old new : InterlockingState) (answer : Reply) (number : ℕ) (before after : RouteState) → HasStepped now input old new answer
        → slice_get old.state.ixl.routes number ≡ Some before → slice_get new.state.ixl.routes number ≡ Some after → GoesOn input answer number before.phase after.phase }
{}

/// No two set routes stand against each other, at first and after every step: they begin at different signals, neither
/// lists the other, they hold no section in common, and each point that both hold at one side. So two set routes of which
/// nothing is freed don't conflict.
#[tactic(auto, using(crate::proofs::Whole::whole_routes_apart))]
pub fn set_routes_stand_apart()
    ensures first { (site : Site) (table : Table) (begins : Beginning) → AllApart table (new_ixl site table begins) }
    ensures kept { (now : ℕ) (input : Input) (old new : InterlockingState) (answer : Reply) → HasStepped now input old new answer
        → AllApart old.state.sited.table old.state.ixl → AllApart new.state.sited.table new.state.ixl }
    ensures whole { (number other : ℕ) (row other_row : Row) (phase other_phase : Phase) → StandApart number other row other_row phase other_phase
        → IsWhole row phase → IsWhole other_row other_phase → DoNotConflict number other row other_row }
{
    requests_are_accepted_where_admissible();
}

/// In the hold no route is set that wasn't.
pub fn nothing_is_set_in_the_hold()
    ensures { (now : ℕ) (input : Input) (old new : InterlockingState) (answer : Reply) (number : ℕ) (before after : RouteState) → HasStepped now input old new answer
        → slice_get old.state.ixl.routes number ≡ Some before → slice_get new.state.ixl.routes number ≡ Some after
        → is_holding now old.state.ixl ≡ true → is_set before.phase ≡ false → is_set after.phase ≡ false }
{
    requests_are_accepted_where_admissible();
}

/// A move that is given to a point for a route counts for that route while the connection lasts. So it is due no more, and is
/// given once.
#[tactic(auto, using(crate::proofs::Once::moves_count, crate::proofs::Once::moves_once))]
pub fn moves_are_given_once()
    ensures counts { (now point : ℕ) (side : Side) (part : StepSoFar) (number : ℕ) (route : RouteState) (after : KnownPointState) → slice_get part.ixl.routes number ≡ Some route
        → slice_get (giving_move now point side part).ixl.known_points point ≡ Some after → is_outside after.client.stage ≡ false → contains after.moved number ≡ true }
    ensures once { (now : ℕ) (table : Table) (need : Need) (part : StepSoFar) (number : ℕ) (route later : RouteState) → slice_get part.ixl.routes number ≡ Some route
        → MoveDue table (giving_move now need.point need.side part).ixl number later need → ⊥ }
{}

/// What is refused leaves what a step without it leaves, and hands out what it hands out: a command; a datagram that can't be
/// read or comes from no controller; and a datagram that the link of its sender refuses. One that doesn't belong into the
/// connection of this link closes it: of that the law speaks only where the link is in no connection.
pub fn refused_inputs_change_nothing()
    ensures command { (now : ℕ) (command : Command) (old new : InterlockingState) (cause : Refusal) → HasStepped now (Commands command) old new (Refused cause) → IsWithoutInput now old new }
    ensures datagram { (now : ℕ) (bytes : List ℕ) (old new : InterlockingState) (answer : Reply) → HasStepped now (Datagram bytes) old new answer
        → addressed (reading (key_of old.state.sited.site) bytes) (all_clocked now old.state.ixl) ≡ None → IsWithoutInput now old new }
    ensures link { (now : ℕ) (bytes : List ℕ) (old new : InterlockingState) (why : Verdict) (client : ClientState) → HasStepped now (Datagram bytes) old new (Received why)
        → client_of (addressed (reading (key_of old.state.sited.site) bytes) (all_clocked now old.state.ixl)) (all_clocked now old.state.ixl) ≡ Some client → MayHear client
        → is_refusal why ≡ true → (why ≡ verdicts.WrongState → IsInNoConnection client) → IsWithoutInput now old new }
{}

/// A cancel is accepted exactly where the hold is over, the interlocking was told to resume, and the route is set; and it is
/// refused for the first cause that is given.
pub fn cancels_are_accepted_where_a_route_is_set()
    ensures accepted { (now : ℕ) (route : RouteId) (old new : InterlockingState) (answer : Reply) → HasStepped now (Commands (commands.Cancel route)) old new answer
        → answer ≡ Accepted ↔ MayCancel now old.state.ixl route.0 }
    ensures refused { (now : ℕ) (route : RouteId) (old new : InterlockingState) (answer : Reply) (cause : Refusal) → HasStepped now (Commands (commands.Cancel route)) old new answer
        → answer ≡ Refused cause → IsCancelRefused now old.state.ixl route.0 cause }
{}

/// The interlocking is told to resume exactly where the hold is over; there is no other cause against it.
pub fn resumes_are_accepted_behind_the_hold()
    ensures accepted { (now : ℕ) (old new : InterlockingState) (answer : Reply) → HasStepped now (Commands commands.Resume) old new answer
        → answer ≡ Accepted ↔ is_holding now old.state.ixl ≡ false }
    ensures refused { (now : ℕ) (old new : InterlockingState) (answer : Reply) (cause : Refusal) → HasStepped now (Commands commands.Resume) old new answer
        → answer ≡ Refused cause → IsResumeRefused now old.state.ixl cause }
{}

/// After a tick the link of no controller is down: each is in a connection, or in its quiet time.
pub fn ticks_leave_no_link_down()
    ensures { (now : ℕ) (old new : InterlockingState) (answer : Reply) → HasStepped now Tick old new answer → NoneDown now new.state.ixl }
{
    ticks_open_links_that_are_down();
}

/// Of a route with authority nothing is freed: it holds all its sections, and each point that it requires.
#[tactic(auto, using(crate::proofs::AuthorityHolds::nothing_freed, crate::proofs::AuthorityHolds::all_sections, crate::proofs::AuthorityHolds::all_points))]
pub fn routes_with_authority_hold_all()
    ensures nothing { (phase : Phase) → has_authority phase ≡ true → freed_sections phase ≡ 0 }
    ensures sections { (row : Row) (phase : Phase) (section : ℕ) → has_authority phase ≡ true → Contains row.sections section → HoldsSection row phase section }
    ensures points { (row : Row) (phase : Phase) (need : Need) → has_authority phase ≡ true → Contains row.needs need → 0 < need.until → HoldsPoint row phase need.point need.side }
{}

/// A step calls its links in one order: the input's calls, then stops, moves, and the aspects of routes. On a tick follow the
/// heartbeat and the opening of each link, before those of the next. Stops, moves and aspects stand in table order, and the
/// moves of one route in layout order. Its datagrams stand in the order of the calls that hand them out.
pub fn datagrams_stand_in_their_order()
    ensures calls { (now : ℕ) (input : Input) (old new : InterlockingState) (answer : Reply) → HasStepped now input old new answer → CallsInOrder now input old }
    ensures datagrams { (now : ℕ) (input : Input) (old new : InterlockingState) (answer : Reply) → HasStepped now input old new answer
        → new.outbox.datagrams ≡ handed_out now (step_of now input old.state).calls (links_at now old.state.ixl) }
{
    step_hears_what_was_taken();
    step_is_calls();
    step_keeps_the_peer();
}

/// What is kept of a route's sections and of its approach is what was told since the route was given authority. A section is
/// seen where it was told as occupied since, and is occupied where it was told so last. The approach counts where in some step
/// with authority it wasn't clear. So it begins with the step that gives authority, and goes on through every step of the
/// setting. A section is told of by the place at which it comes on the path; by the table of a station that is the place at
/// which it stands (*alone*).
pub fn routes_keep_what_was_told_since_authority()
    ensures first { (now : ℕ) (input : Input) (old new : InterlockingState) (answer : Reply) (number : ℕ) (row : Row) (before after : RouteState) → HasStepped now input old new answer
        → slice_get old.state.sited.table.rows number ≡ Some row → slice_get old.state.ixl.routes number ≡ Some before → slice_get new.state.ixl.routes number ≡ Some after
        → was_authorised before.phase ≡ false → was_authorised after.phase ≡ true → BeginsTold now input old row after }
    ensures kept { (now : ℕ) (input : Input) (old new : InterlockingState) (answer : Reply) (number : ℕ) (row : Row) (before after : RouteState) (history : History) → HasStepped now input old new answer
        → slice_get old.state.sited.table.rows number ≡ Some row → slice_get old.state.ixl.routes number ≡ Some before → slice_get new.state.ixl.routes number ≡ Some after
        → was_authorised before.phase ≡ true → was_authorised after.phase ≡ true → TellsOf history row before → GoesOnTold now input old new row before after history }
    ensures alone { (site : Site) (table : Table) (number : ℕ) (row : Row) (section place : ℕ) → IsTableOf site table → slice_get table.rows number ≡ Some row
        → slice_get row.sections place ≡ Some section → ComesAt row.sections section place }
{
    step_hears_what_was_taken();
}

/// Of each section a detector's last report in its present connection stands, and where it made none yet the section is kept as
/// clear. So it is at first, and through every step.
pub fn sections_are_kept_as_they_were_told_last()
    ensures first { (site : Site) (table : Table) (begins : Beginning) (place : ℕ) (detector : KnownDetectorState) → slice_get (new_ixl site table begins).detectors place ≡ Some detector → IsReported [] detector }
    ensures kept { (now : ℕ) (input : Input) (old new : InterlockingState) (answer : Reply) (place : ℕ) (before after : KnownDetectorState) (told : List Indication) → HasStepped now input old new answer
        → slice_get old.state.ixl.detectors place ≡ Some before → slice_get new.state.ixl.detectors place ≡ Some after
        → IsReported told before → GoesOnReported now input old place before after told }
{
    step_hears_what_was_taken();
    step_keeps_the_peer();
}

/// In its present connection each move that a point is given is answered by one report. After the initial status so many
/// reports were heard as moves were given, or one fewer while the last move is unanswered; and the side that is kept of the
/// point is what the last report told. So it is at first, and through every step. Where a point is known at a side, the last
/// report answers the last move and tells this side.
pub fn the_last_report_answers_the_last_move()
    ensures first { (site : Site) (table : Table) (begins : Beginning) (place : ℕ) (known_point : KnownPointState) → slice_get (new_ixl site table begins).known_points place ≡ Some known_point → IsAnswered [] [] known_point }
    ensures kept { (now : ℕ) (input : Input) (old new : InterlockingState) (answer : Reply) (place : ℕ) (before after : KnownPointState) (moves : List Side) (told : List ObjectState) → HasStepped now input old new answer
        → slice_get old.state.ixl.known_points place ≡ Some before → slice_get new.state.ixl.known_points place ≡ Some after
        → IsAnswered moves told before → GoesOnAnswered now input old place before after moves told }
    ensures known { (ixl : IxlState) (place : ℕ) (side : Side) (known_point : KnownPointState) (moves : List Side) (told : List ObjectState) → slice_get ixl.known_points place ≡ Some known_point → Known ixl place side
        → IsAnswered moves told known_point → (length told ≡ length moves + 1) × (last_told None told ≡ Some side) }
{
    initialisations_go_out_in_order();
    step_hears_what_was_taken();
}

/// To the link of each controller a step is a list of calls at its clock: the link after it is what these calls, one after
/// another, make of the link that the clock left. So a link of which no call is made is only settled. A datagram is received
/// first, by the controller that it names as its sender, and no other call takes anything. The items acted on are a beginning
/// of those that the calls take, and all of them where the link stays open. What the step hands out are the datagrams of these
/// calls, for each link in their order. Controllers neither come nor go.
pub fn steps_are_calls()
    ensures link { (now : ℕ) (input : Input) (old new : InterlockingState) (answer : Reply) (node : Node) (before after : ClientState) → HasStepped now input old new answer
        → client_at node old.state.ixl ≡ Some before → client_at node new.state.ixl ≡ Some after → after.link ≡ link_after now (calls_at now input old node) (settled now before.link) }
    ensures receipt { (now : ℕ) (input : Input) (old new : InterlockingState) (answer : Reply) (node : Node) (before : ClientState) → HasStepped now input old new answer
        → client_at node old.state.ixl ≡ Some before → ReceivesFirst (receipt_at now input old node) (calls_at now input old node) }
    ensures items { (now : ℕ) (input : Input) (old new : InterlockingState) (answer : Reply) (node : Node) (before after : ClientState) → HasStepped now input old new answer
        → client_at node old.state.ixl ≡ Some before → client_at node new.state.ixl ≡ Some after
        → ActsOnTaken (items_taken now (calls_at now input old node) (settled now before.link)) (acted_at now input old node) after.link }
    ensures datagrams { (now : ℕ) (input : Input) (old new : InterlockingState) (answer : Reply) → HasStepped now input old new answer → HandsOut now input old new }
    ensures stays { (now : ℕ) (input : Input) (old new : InterlockingState) (answer : Reply) (node : Node) (before : ClientState) → HasStepped now input old new answer
        → client_at node old.state.ixl ≡ Some before → Stays node before new }
    ensures nobody { (now : ℕ) (input : Input) (old new : InterlockingState) (answer : Reply) (node : Node) → HasStepped now input old new answer
        → client_at node old.state.ixl ≡ None → IsNobody now input old new node }
{
    step_hears_what_was_taken();
    step_is_calls();
    step_keeps_the_peer();
}
