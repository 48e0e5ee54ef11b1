//! What an object is told, for every lawful object.

ghost use Rattle.std.specs.Prelude.{◌≡◌, ℕ, false, ◌++◌, List, [], None};
ghost use Rattle.sci_telegram.specs.declared.telegram.Telegram.{Telegram};
ghost use Rattle.rasta_core.specs.Ends.{kept, reading_of};
ghost use Rattle.rasta_core.specs.Clock.{settled};
ghost use Rattle.rasta_core.specs.Events.{Event as LinkEvent, Start, happened, started};
ghost use Rattle.rasta_core.specs.Run.{Ends};
ghost use Rattle.rasta_core.specs.State.{is_open};
ghost use Rattle.rasta_core.specs.Names.{AreNames, Names};
ghost use Rattle.object_host.specs.Host.{HostState};
ghost use Rattle.object_host.specs.Made.{items_given, items_taken};
ghost use Rattle.object_host.specs.Step.{host_step};
ghost use Rattle.object_host.specs.declared.input.Input.{Input};
ghost use Rattle.object_host_laws.specs.Acted.{IsActedOn, IsNoHostCall};
ghost use Rattle.object_host_laws.specs.World.{Event, IsToldInConnection, MayRun, World, begun, called_all, entering, run, step_of, stepped, told_since};

use object_host::{Controller, own_calls_open_nothing, step_is_calls, step_tells_what_was_taken};
use rasta_core::{
    every_event_keeps_order, every_event_keeps_time, links_are_settled, order_is_safe,
    starts_in_time,
};

/// After every list of events, in a connection that is the last of both ends, the object was told what a beginning of
/// the items commands that the client's `send` accepted there, in order and each once.
pub fn told_is_given<C: Controller>()
    ensures { (names : Names) (start : Start) (own_name peer_name : List ℕ) (object : C) (version : ℕ) (events : List (Event C)) → AreNames names
        → MayRun C.behaviour names events (begun C.behaviour names start own_name peer_name object version)
        → IsToldInConnection (run C.behaviour events (begun C.behaviour names start own_name peer_name object version)) }
{
    starts_in_time();
    links_are_settled();
    every_event_keeps_time();
    every_event_keeps_order();
    order_is_safe();
    own_calls_open_nothing();
    step_is_calls::<C>();
    step_tells_what_was_taken::<C>();
}

/// What a host acted on and what its end of the link took, event by event. At the beginning nothing was. Whatever the two
/// ends are, of which the host's is settled at its clock, a step keeps it (*steps*), and so does all else that can happen
/// to two ends (*others*).
pub fn what_is_taken_is_acted_on<C: Controller>()
    ensures starts { (names : Names) (start : Start) → IsActedOn (started names start).server [] [] }
    ensures steps { (input : Input) (connection : ℕ) (ends : Ends) (host : HostState C) (acted : List (List ℕ)) (told : List Telegram) → host.link ≡ ends.server.link
        → settled (reading_of ends.server.clock) ends.server.link ≡ ends.server.link → IsActedOn ends.server acted told
        → IsActedOn (called_all connection (host_step C.behaviour (reading_of ends.server.clock) input host).calls ends).server
        (kept (entering input connection ends) acted ++ (host_step C.behaviour (reading_of ends.server.clock) input host).acted)
        (told_since (entering input connection ends) told ++ (host_step C.behaviour (reading_of ends.server.clock) input host).told) }
    ensures others { (event : LinkEvent) (ends : Ends) (acted : List (List ℕ)) (told : List Telegram) → IsNoHostCall event → IsActedOn ends.server acted told
        → IsActedOn (happened event ends).server acted told }
{
    own_calls_open_nothing();
    step_is_calls::<C>();
    step_tells_what_was_taken::<C>();
}

/// What a step takes and gives is what the host's end of the link has taken and given by it, in the connection that it is
/// in or that the step enters. The step's link is the end's, which enters nothing but by what it takes, and its clock stays.
/// In no connection, and where it enters none, it takes and gives nothing.
pub fn step_takes_and_gives<C: Controller>()
    ensures taken { (input : Input) (connection : ℕ) (world : World C) → (stepped C.behaviour input connection world).ends.server.taken
        ≡ kept (entering input connection world.ends) world.ends.server.taken ++ items_taken (reading_of world.ends.server.clock) (step_of C.behaviour input world).calls world.ends.server.link }
    ensures given { (input : Input) (connection : ℕ) (world : World C) → (stepped C.behaviour input connection world).ends.server.given
        ≡ kept (entering input connection world.ends) world.ends.server.given ++ items_given (reading_of world.ends.server.clock) (step_of C.behaviour input world).calls world.ends.server.link }
    ensures link { (input : Input) (connection : ℕ) (world : World C) → settled (reading_of world.ends.server.clock) world.ends.server.link ≡ world.ends.server.link
        → (stepped C.behaviour input connection world).ends.server.link ≡ (step_of C.behaviour input world).host.link }
    ensures clock { (input : Input) (connection : ℕ) (world : World C) → (stepped C.behaviour input connection world).ends.server.clock ≡ world.ends.server.clock }
    ensures outside { (input : Input) (connection : ℕ) (world : World C) → entering input connection world.ends ≡ None → is_open world.ends.server.link.phase ≡ false
        → is_open (stepped C.behaviour input connection world).ends.server.link.phase ≡ false }
    ensures takes_none { (input : Input) (connection : ℕ) (world : World C) → entering input connection world.ends ≡ None → is_open world.ends.server.link.phase ≡ false
        → (stepped C.behaviour input connection world).ends.server.taken ≡ world.ends.server.taken }
    ensures gives_none { (input : Input) (connection : ℕ) (world : World C) → entering input connection world.ends ≡ None → is_open world.ends.server.link.phase ≡ false
        → (stepped C.behaviour input connection world).ends.server.given ≡ world.ends.server.given }
{
    own_calls_open_nothing();
    step_is_calls::<C>();
}
