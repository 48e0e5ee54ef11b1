//! Lists of calls at one end of a link, at its clock.

ghost use Rattle.std.specs.Prelude.{◌≡◌, ℕ, true, false, is_some, List, ◌∷◌, Some, None};
ghost use Rattle.rasta_core.specs.Each.{Each};
ghost use Rattle.rasta_core.specs.Ends.{Call, outcome, reading_of};
ghost use Rattle.rasta_core.specs.Events.{MayCall, MayRun, run};
ghost use Rattle.rasta_core.specs.Invariant.{Timely};
ghost use Rattle.rasta_core.specs.Names.{AreNames, Names};
ghost use Rattle.rasta_core.specs.Run.{Ends, called};
ghost use Rattle.rasta_core.specs.State.{LinkState, is_open};
ghost use Rattle.rasta_core.specs.Steps.{EnterNone, calls_at, made_by};
ghost use Rattle.rasta_core.specs.identity.Role.{Role};
ghost use Rattle.rasta_core.specs.identity.Role.TheVariants as role;
ghost use Rattle.simulator_move_laws.specs.Flows.{AsksNone, AsksOnce, ClientIsAfter, EntersRightly, ServerIsAfter, begins};
ghost use Rattle.simulator_move_laws.specs.LinkMoves.{LinkGoes, moves_by, server_moves};
ghost use Rattle.simulator_move_laws.specs.EndsSeen.{client_of, represented, server_of};

use crate::moves::events_are_moves;
use rasta_core::{
    alone_after_quiet, calls_at_one_clock, every_event_keeps_time, every_run_keeps_time,
    links_are_settled, one_connection, opening_is_new, outside_until_it_enters, what_is_taken,
};

/// Calls of which each may be made may be made one after another: what can be delivered can be delivered after a call too.
pub fn calls_may_follow_calls()
    ensures one { (names : Names) (whose : Role) (other : Call) (who : Role) (call : Call) (ends : Ends) → MayCall names who call ends
        → MayCall names who call (called whose other ends) }
    ensures all { (names : Names) (who : Role) (calls : List Call) (ends : Ends) → Each (λ call. MayCall names who call ends) calls
        → MayRun names (calls_at who calls) ends }
{}

/// A list of calls of a server moves the server alone. Where none of them enters a connection, or the first of them at
/// most, its moves are told by whether the server was in a connection, and whether it is.
pub fn calls_of_a_server_are_moves()
    ensures goes { (names : Names) (calls : List Call) (ends : Ends) → AreNames names → Timely names ends → MayRun names (calls_at role.Server calls) ends
        → LinkGoes (server_moves (server_of ends) (server_of (run (calls_at role.Server calls) ends))) (represented ends)
        (represented (run (calls_at role.Server calls) ends)) }
    ensures client { (calls : List Call) (ends : Ends) → client_of (run (calls_at role.Server calls) ends).client ≡ client_of ends.client }
    ensures none { (names : Names) (calls : List Call) (ends : Ends) → AreNames names → Timely names ends → MayRun names (calls_at role.Server calls) ends
        → EnterNone (reading_of ends.server.clock) calls ends.server.link
        → server_moves (server_of ends) (server_of (run (calls_at role.Server calls) ends))
        ≡ moves_by false (is_open ends.server.link.phase) (is_open (run (calls_at role.Server calls) ends).server.link.phase) }
    ensures first { (names : Names) (call : Call) (calls : List Call) (ends : Ends) → AreNames names → Timely names ends
        → MayRun names (calls_at role.Server (call ∷ calls)) ends → EnterNone (reading_of ends.server.clock) calls (called role.Server call ends).server.link
        → server_moves (server_of ends) (server_of (run (calls_at role.Server (call ∷ calls)) ends))
        ≡ moves_by (is_some (outcome call ends.moment ends.server).enters) (is_open ends.server.link.phase)
        (is_open (run (calls_at role.Server (call ∷ calls)) ends).server.link.phase) }
{
    calls_at_one_clock();
    every_event_keeps_time();
    every_run_keeps_time();
    events_are_moves();
    links_are_settled();
    alone_after_quiet();
    one_connection();
    outside_until_it_enters();
}

/// A server enters only the client's last connection, and once; and the client isn't down then.
pub fn servers_enter_once()
    ensures { (names : Names) (call : Call) (entered : ℕ) (ends : Ends) → AreNames names → Timely names ends → MayCall names role.Server call ends
        → (outcome call ends.moment ends.server).enters ≡ Some entered → EntersRightly entered ends }
{
    alone_after_quiet();
    every_event_keeps_time();
    links_are_settled();
    one_connection();
    opening_is_new();
    outside_until_it_enters();
    what_is_taken();
}

/// What a server sends, gives and takes in a list of its calls, of which the first at most enters a connection, and when it
/// leaves.
pub fn calls_of_a_server_are_sent()
    ensures none { (names : Names) (calls : List Call) (ends : Ends) → AreNames names → Timely names ends → MayRun names (calls_at role.Server calls) ends
        → EnterNone (reading_of ends.server.clock) calls ends.server.link → ServerIsAfter calls None ends (run (calls_at role.Server calls) ends) }
    ensures first { (names : Names) (call : Call) (calls : List Call) (ends : Ends) → AreNames names → Timely names ends
        → MayRun names (calls_at role.Server (call ∷ calls)) ends → EnterNone (reading_of ends.server.clock) calls (called role.Server call ends).server.link
        → ServerIsAfter (call ∷ calls) (outcome call ends.moment ends.server).enters ends (run (calls_at role.Server (call ∷ calls)) ends) }
{
    calls_at_one_clock();
    every_event_keeps_time();
    outside_until_it_enters();
}

/// A list of calls of a client leaves the server's end as it was. The server is before the connection then where one of
/// them began one, and where it was otherwise; and what the client gave and took there is told call by call.
pub fn calls_of_a_client_are_told()
    ensures after { (names : Names) (calls : List Call) (ends : Ends) → AreNames names → Timely names ends → MayRun names (calls_at role.Client calls) ends
        → ClientIsAfter calls ends (run (calls_at role.Client calls) ends) }
    ensures server { (calls : List Call) (ends : Ends) → (run (calls_at role.Client calls) ends).server ≡ ends.server }
{
    calls_at_one_clock();
    every_event_keeps_time();
    links_are_settled();
    alone_after_quiet();
    one_connection();
    opening_is_new();
    outside_until_it_enters();
    what_is_taken();
}

/// A client hands out a connection request where it begins a connection, and nothing else then; no other call hands out
/// one.
pub fn clients_ask_where_they_begin()
    ensures once { (names : Names) (call : Call) (ends : Ends) → Timely names ends → begins (reading_of ends.client.clock) call ends.client.link ≡ true
        → AsksOnce (made_by (reading_of ends.client.clock) call ends.client.link).pdus }
    ensures none { (now : ℕ) (call : Call) (link : LinkState) → begins now call link ≡ false → AsksNone (made_by now call link).pdus }
{
    links_are_settled();
}
