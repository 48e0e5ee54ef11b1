//! The laws of time for two ends of a link: for every list of calls, clock steps within the drift, deliveries
//! of what was sent at most 2000 ms before or isn't intact, losses and restarts.

ghost use Rattle.std.specs.Prelude.{◌≡◌, ◌≢◌, ℕ, ◌+◌, ◌<◌, ◌≤◌, true, List, [], ◌∷◌, Option, Some, Ok};
ghost use Rattle.rasta_core_spec.specs.Clock.{settled};
ghost use Rattle.rasta_core_spec.specs.Parameters.{quiet_time};
ghost use Rattle.rasta_core_spec.specs.State.{is_up};
ghost use Rattle.rasta_core_spec.specs.identity.Role.{Role};
ghost use Rattle.rasta_core_spec.specs.identity.Role.TheVariants as role;
ghost use Rattle.rasta_core_spec.specs.Bag.{lifetime, newest_copy};
ghost use Rattle.rasta_core_spec.specs.Ends.{Call, Sent, Receives, is_taken, outcome, reading_of};
ghost use Rattle.rasta_core_spec.specs.Run.{Ends, end_of, called};
ghost use Rattle.rasta_core_spec.specs.Each.{Each};
ghost use Rattle.rasta_core_spec.specs.Events.{Event, IsDelivered, Restarts, May, MayCall, MayRun, Start, happened, run, started};
ghost use Rattle.rasta_core_spec.specs.Names.{AreNames, Names};
ghost use Rattle.rasta_core_spec.specs.Values.{IsPdu};
ghost use Rattle.rasta_core.specs.Invariant.{Timely, HasBeenOut};
ghost use Rattle.rasta_core_spec.specs.Sentences.{IsDownNow, LeavesClient, IsIn, IsOpening, IsOut, freshness, receipt_at};

use rasta_core_spec::{read_was_written, written_is_read};

/// Two ends that were just created keep time, whatever their clocks and first sequence numbers.
pub fn starts_in_time()
    ensures { (names : Names) (start : Start) → AreNames names → Timely names (started names start) }
{}

/// Every event that may happen keeps it.
pub fn every_event_keeps_time()
    ensures { (names : Names) (event : Event) (ends : Ends) → AreNames names → Timely names ends → May names event ends
        → Timely names (happened event ends) }
{
    written_is_read();
    read_was_written();
}

/// Every list of events keeps it.
pub fn every_run_keeps_time()
    ensures { (names : Names) (events : List Event) (ends : Ends) → AreNames names → Timely names ends → MayRun names events ends
        → Timely names (run events ends) }
{
    every_event_keeps_time();
}

/// What an end hands out in a call that may be made are PDUs.
pub fn calls_hand_out_pdus()
    ensures { (names : Names) (ends : Ends) (who : Role) (call : Call) → Timely names ends → MayCall names who call ends
        → Each IsPdu (outcome call ends.moment (end_of who ends)).pdus }
{
    read_was_written();
}

/// Each link is settled at its end's clock: what the clock rules do is done.
pub fn links_are_settled()
    ensures { (names : Names) (ends : Ends) (who : Role) → Timely names ends
        → settled (reading_of (end_of who ends).clock) (end_of who ends).link ≡ (end_of who ends).link }
{}

/// The newest copy of some bytes that isn't lost and can be delivered is a delivery of them.
pub fn copies_are_delivered()
    ensures { (ends : Ends) (bytes : List ℕ) (datagram : Sent) → newest_copy ends.time bytes ends.sent ≡ Some datagram
        → IsDelivered ends bytes datagram.connection datagram }
{}

/// What an end takes is of the connection that it is in after it; whatever can be delivered to an end inside a
/// connection was sent in that connection.
pub fn own_connection()
    ensures inside { (names : Names) (ends : Ends) (who : Role) (bytes : List ℕ) (connection : ℕ) (datagram : Sent) → Timely names ends
        → IsDelivered ends bytes connection datagram → IsIn who ends → (end_of who ends).connection ≡ Some datagram.connection }
    ensures taken { (names : Names) (ends : Ends) (who : Role) (bytes : List ℕ) (connection : ℕ) (datagram : Sent) → Timely names ends
        → IsDelivered ends bytes connection datagram → is_taken (receipt_at who bytes ends).verdict ≡ true
        → (end_of who (called who (Receives bytes connection) ends)).connection ≡ Some datagram.connection }
{}

/// An end outside takes nothing but a request, at a server, that was sent after the server's last close or restart
/// and began a later connection than any that the server was in.
pub fn opening_is_new()
    ensures { (names : Names) (ends : Ends) (who : Role) (bytes : List ℕ) (connection : ℕ) (datagram : Sent) → AreNames names → Timely names ends
        → IsDelivered ends bytes connection datagram → IsOut who ends → is_taken (receipt_at who bytes ends).verdict ≡ true
        → IsOpening names who ends datagram }
{}

/// Items are taken only from a datagram that was sent less than 1802 ms of true time before.
pub fn items_are_fresh()
    ensures { (names : Names) (ends : Ends) (who : Role) (bytes : List ℕ) (connection : ℕ) (datagram : Sent) → AreNames names → Timely names ends
        → IsDelivered ends bytes connection datagram → (receipt_at who bytes ends).items ≢ [] → ends.time < datagram.at + freshness }
{}

/// Two ends that are inside a connection are in the same one: a server inside is in the client's last one, and where the
/// client is up the server is in its connection, or was. Every connection has the number of a datagram that was sent.
pub fn one_connection()
    ensures inside { (names : Names) (ends : Ends) → Timely names ends → IsIn role.Client ends → IsIn role.Server ends
        → ends.server.connection ≡ ends.client.connection }
    ensures server { (names : Names) (ends : Ends) → Timely names ends → IsIn role.Server ends → ends.server.connection ≡ ends.client.connection }
    ensures some { (names : Names) (ends : Ends) (who : Role) → Timely names ends → IsIn who ends
        → (connection : ℕ) × ((end_of who ends).connection ≡ Some connection) }
    ensures counted { (names : Names) (ends : Ends) (who : Role) (connection : ℕ) → Timely names ends
        → (end_of who ends).connection ≡ Some connection → connection < ends.moment }
    ensures up { (names : Names) (ends : Ends) → Timely names ends → is_up ends.client.link.phase ≡ true
        → ends.server.connection ≡ ends.client.connection }
{}

/// How long the client has been outside: since its creation or since it closed, on its own clock. What it knows of
/// that moment is right.
pub fn quiet_is_counted()
    ensures made { (names : Names) (start : Start) → AreNames names → HasBeenOut names start.client_clock (started names start) }
    ensures made_anew { (names : Names) (clock first : ℕ) (ends : Ends) → Timely names ends
        → HasBeenOut names clock (happened (Restarts role.Client clock first) ends) }
    ensures left { (names : Names) (event : Event) (ends : Ends) → AreNames names → Timely names ends → May names event ends
        → LeavesClient event → IsIn role.Client ends → IsOut role.Client (happened event ends)
        → HasBeenOut names (happened event ends).client.link.closed_at (happened event ends) }
    ensures kept { (names : Names) (since : ℕ) (event : Event) (ends : Ends) → AreNames names → HasBeenOut names since ends
        → May names event ends → LeavesClient event → IsOut role.Client (happened event ends)
        → HasBeenOut names since (happened event ends) }
    ensures known { (names : Names) (ends : Ends) → Timely names ends → IsOut role.Client ends
        → HasBeenOut names ends.client.link.closed_at ends }
{
    written_is_read();
    read_was_written();
}

/// Where a client has been outside for 6000 ms of its clock, its server is outside, and nothing that was sent can be
/// delivered any more.
pub fn alone_after_waiting()
    ensures server { (names : Names) (since : ℕ) (ends : Ends) → HasBeenOut names since ends
        → since + quiet_time ≤ reading_of ends.client.clock → IsOut role.Server ends }
    ensures dead { (names : Names) (since : ℕ) (ends : Ends) → HasBeenOut names since ends
        → since + quiet_time ≤ reading_of ends.client.clock → Each (λ sent. sent.at + lifetime < ends.time) ends.sent }
{}

/// Where a client is down, its server is outside, and nothing that was sent can be delivered any more. Where a server
/// is down, the client isn't in a connection that the server was in.
pub fn alone_after_quiet()
    ensures server { (names : Names) (ends : Ends) → Timely names ends → IsDownNow role.Client ends → IsOut role.Server ends }
    ensures dead { (names : Names) (ends : Ends) → Timely names ends → IsDownNow role.Client ends
        → Each (λ sent. sent.at + lifetime < ends.time) ends.sent }
    ensures client { (names : Names) (ends : Ends) → Timely names ends → IsDownNow role.Server ends → IsIn role.Client ends
        → ends.server.connection ≢ ends.client.connection }
{}

/// The laws don't speak of nothing: in some run a server takes an item.
pub fn some_run_takes_an_item()
    ensures { (names : Names) × (start : Start) × (events : List Event) × AreNames names × MayRun names events (started names start)
        × ((run events (started names start)).server.taken ≡ (1 ∷ 2 ∷ 3 ∷ []) ∷ []) }
{}
