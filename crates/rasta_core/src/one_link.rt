//! The theorem of the link, for two ends that were just created and every list of events that may happen to them.

ghost use Rattle.std.specs.Prelude.{◌≡◌, ◌≢◌, ◌⊎◌, ℕ, ◌+◌, ◌<◌, true, false, List, [], ◌∷◌, Some, None};
ghost use Rattle.rasta_core_spec.specs.identity.Role.{Role};
ghost use Rattle.rasta_core_spec.specs.identity.Role.TheVariants as role;
ghost use Rattle.rasta_core_spec.specs.State.{is_open};
ghost use Rattle.rasta_core_spec.specs.Ends.{Sent, Call, EndState, Receives, is_taken, outcome, reading_of};
ghost use Rattle.rasta_core_spec.specs.Steps.{EnterNone, IsAfter, StaysIn, calls_at};
ghost use Rattle.rasta_core_spec.specs.Run.{Ends, end_of, called, later};
ghost use Rattle.rasta_core_spec.specs.Events.{AreForeign, Event, IsDelivered, May, MayRun, Start, happened, run, started};
ghost use Rattle.rasta_core_spec.specs.Names.{AreNames, Names, partner_of};
ghost use Rattle.rasta_core.specs.Invariant.{Timely};
ghost use Rattle.rasta_core_spec.specs.Sentences.{IsOpening, IsOut, freshness, receipt_at};
ghost use Rattle.rasta_core_spec.specs.Given.{IsGiven};
ghost use Rattle.rasta_core.specs.Ordered.{Ordered};
ghost use Rattle.rasta_core_spec.specs.SafetyCode.{IsIntact};
ghost use Rattle.rasta_core_spec.specs.Newest.{IsNewest, IsUnused};
ghost use Rattle.rasta_core_spec.specs.Safe.{AreCounted, AreFew, AreSafe, DoesNothing, IsCountedAlone, IsIdle};

use crate::{
    calls_carry_what_they_accept, calls_keep_order, client_alone, connection_begins,
    every_event_keeps_time, every_run_keeps_time, hearing_keeps_order, items_are_fresh,
    one_connection, opening_is_new, own_connection, partner_stays, parts_are_safe, starts_in_time,
};
use rasta_core_spec::{read_was_written, written_is_read};

/// Two ends that were just created are in order, and every event that may happen keeps the order.
pub fn every_event_keeps_order()
    ensures starts { (names : Names) (start : Start) → Ordered names (started names start) }
    ensures kept { (names : Names) (event : Event) (ends : Ends) → AreNames names → Timely names ends → Ordered names ends
        → May names event ends → Ordered names (happened event ends) }
{
    written_is_read();
    read_was_written();
    opening_is_new();
    calls_keep_order();
    hearing_keeps_order();
    partner_stays();
    client_alone();
    connection_begins();
    calls_carry_what_they_accept();
}

/// Time keeps it, whatever the clocks do.
pub fn time_keeps_order()
    ensures { (names : Names) (elapsed of_client of_server : ℕ) (ends : Ends) → Ordered names ends → Ordered names (later elapsed of_client of_server ends) }
{
    calls_keep_order();
    partner_stays();
    client_alone();
}

/// Every list of events keeps it.
pub fn every_run_keeps_order()
    ensures { (names : Names) (events : List Event) (ends : Ends) → AreNames names → Timely names ends → Ordered names ends
        → MayRun names events ends → Ordered names (run events ends) }
{
    every_event_keeps_time();
    every_event_keeps_order();
}

/// In a connection that is the last of both ends, what was taken is a beginning of what the partner gave, and what is
/// held for confirmed was taken.
pub fn order_is_safe()
    ensures { (names : Names) (ends : Ends) → Ordered names ends → AreSafe ends }
{
    parts_are_safe();
    partner_stays();
}

/// In a connection that is the last of both ends, `Link::given` and `Link::taken` are how many items the end gave and
/// took there, until it is made anew; and these are fewer than 2^31. A client whose server hasn't entered its last
/// connection counts none, as it has given and taken none there (`nothing_before_a_connection`), and holds none for
/// confirmed.
pub fn items_are_counted()
    ensures counted { (names : Names) (ends : Ends) → Ordered names ends → AreCounted ends }
    ensures few { (names : Names) (ends : Ends) → Ordered names ends → AreFew ends }
    ensures alone { (names : Names) (ends : Ends) → Ordered names ends → IsCountedAlone ends }
{
    parts_are_safe();
    partner_stays();
}

/// The link is safe after every list of events.
pub fn link_is_safe()
    ensures { (names : Names) (start : Start) (events : List Event) → AreNames names → MayRun names events (started names start)
        → AreSafe (run events (started names start)) }
{
    starts_in_time();
    every_event_keeps_time();
    every_event_keeps_order();
    order_is_safe();
}

/// After every list of events, an end takes items only from a datagram that was sent less than 1802 ms of true time
/// before, and any PDU only from a datagram of the connection that it is in then; and what a server outside takes is a
/// request that was sent after the server's last close or restart. Nothing is taken of bytes that are no PDU, or that
/// are of another link.
pub fn what_is_taken()
    ensures fresh { (names : Names) (start : Start) (events : List Event) → AreNames names → MayRun names events (started names start)
        → (who : Role) (bytes : List ℕ) (connection : ℕ) (datagram : Sent) → IsDelivered (run events (started names start)) bytes connection datagram
        → (receipt_at who bytes (run events (started names start))).items ≢ []
        → (run events (started names start)).time < datagram.at + freshness }
    ensures own { (names : Names) (start : Start) (events : List Event) → AreNames names → MayRun names events (started names start)
        → (who : Role) (bytes : List ℕ) (connection : ℕ) (datagram : Sent) → IsDelivered (run events (started names start)) bytes connection datagram
        → is_taken (receipt_at who bytes (run events (started names start))).verdict ≡ true
        → (end_of who (called who (Receives bytes connection) (run events (started names start)))).connection ≡ Some datagram.connection }
    ensures opening { (names : Names) (start : Start) (events : List Event) → AreNames names → MayRun names events (started names start)
        → (who : Role) (bytes : List ℕ) (connection : ℕ) (datagram : Sent) → IsDelivered (run events (started names start)) bytes connection datagram
        → IsOut who (run events (started names start)) → is_taken (receipt_at who bytes (run events (started names start))).verdict ≡ true
        → IsOpening names who (run events (started names start)) datagram }
    ensures others { (names : Names) (start : Start) (events : List Event) → AreNames names → MayRun names events (started names start)
        → (who : Role) (bytes : List ℕ) → (IsIntact names.key bytes → ⊥) ⊎ AreForeign names who bytes
        → IsIdle (receipt_at who bytes (run events (started names start))) }
    ensures nothing { (names : Names) (ends : Ends) (who : Role) (bytes : List ℕ) → Timely names ends
        → (IsIntact names.key bytes → ⊥) ⊎ AreForeign names who bytes → IsIdle (receipt_at who bytes ends) }
{
    read_was_written();
    starts_in_time();
    every_run_keeps_time();
    items_are_fresh();
    own_connection();
    opening_is_new();
}

/// What an end gave in its last connection are the items of the data PDUs that it sent there, in order; repetitions
/// aren't counted again. It is so at the beginning, every list of events keeps it, and so it is after every run.
pub fn given_was_sent()
    ensures starts { (names : Names) (start : Start) (who : Role) → IsGiven names who (started names start) }
    ensures kept { (names : Names) (events : List Event) (ends : Ends) → AreNames names → Timely names ends → ((who : Role) → IsGiven names who ends)
        → MayRun names events ends → (who : Role) → IsGiven names who (run events ends) }
    ensures run { (names : Names) (start : Start) (events : List Event) → AreNames names → MayRun names events (started names start)
        → (who : Role) → IsGiven names who (run events (started names start)) }
{
    written_is_read();
    read_was_written();
    opening_is_new();
    calls_keep_order();
    hearing_keeps_order();
    partner_stays();
    client_alone();
    connection_begins();
    calls_carry_what_they_accept();
    starts_in_time();
    every_event_keeps_time();
}

/// An end that is outside, and enters no connection in a call, is outside after it, and has sent nothing and given and
/// taken no item in it; and a server enters one only from outside.
pub fn outside_until_it_enters()
    ensures stays { (call : Call) (moment : ℕ) (end : EndState) → is_open end.link.phase ≡ false → (outcome call moment end).enters ≡ None
        → is_open (outcome call moment end).link.phase ≡ false }
    ensures nothing { (call : Call) (moment : ℕ) (end : EndState) → is_open end.link.phase ≡ false → (outcome call moment end).enters ≡ None
        → DoesNothing (outcome call moment end) }
    ensures server { (call : Call) (moment connection : ℕ) (end : EndState) → end.link.identity.role ≡ role.Server
        → (outcome call moment end).enters ≡ Some connection → is_open end.link.phase ≡ false }
{
    connection_begins();
}

/// An end's last connection is that of the newest datagram that it sent: at the beginning, after every event, and after
/// every list of events. So it can be read off what was sent, also where the end was made anew since.
pub fn newest_tells_the_connection()
    ensures starts { (names : Names) (start : Start) (who : Role) → IsNewest who (started names start) }
    ensures kept { (names : Names) (event : Event) (ends : Ends) (who : Role) → Timely names ends → IsNewest who ends → IsNewest who (happened event ends) }
    ensures run { (names : Names) (events : List Event) (ends : Ends) (who : Role) → AreNames names → Timely names ends → IsNewest who ends
        → MayRun names events ends → IsNewest who (run events ends) }
{
    connection_begins();
    one_connection();
    every_event_keeps_time();
}

/// An end that has had no connection has given and taken nothing; and neither has a client whose server hasn't entered
/// its last connection.
pub fn nothing_before_a_connection()
    ensures starts { (names : Names) (start : Start) (who : Role) → IsUnused who (started names start) }
    ensures kept { (names : Names) (event : Event) (ends : Ends) (who : Role) → Timely names ends → IsUnused who ends → IsUnused who (happened event ends) }
    ensures run { (names : Names) (events : List Event) (ends : Ends) (who : Role) → AreNames names → Timely names ends → IsUnused who ends
        → MayRun names events ends → IsUnused who (run events ends) }
    ensures client { (names : Names) (ends : Ends) (connection : ℕ) → Ordered names ends → ends.client.connection ≡ Some connection
        → (ends.server.connection ≡ Some connection → ⊥) → (ends.client.given ≡ []) × (ends.client.taken ≡ []) }
{
    connection_begins();
    one_connection();
    every_event_keeps_time();
}

/// A step of a node at one end is a list of calls at its clock: the end's link is what these calls make of it, its
/// partner and true time are as they were, and where none of them enters a connection the end has given and taken what
/// they give and take.
pub fn calls_at_one_clock()
    ensures end { (who : Role) (calls : List Call) (ends : Ends) → IsAfter calls (end_of who ends) (end_of who (run (calls_at who calls) ends)) }
    ensures items { (who : Role) (calls : List Call) (ends : Ends) → EnterNone (reading_of (end_of who ends).clock) calls (end_of who ends).link
        → StaysIn calls (end_of who ends) (end_of who (run (calls_at who calls) ends)) }
    ensures partner { (who : Role) (calls : List Call) (ends : Ends) → end_of (partner_of who) (run (calls_at who calls) ends) ≡ end_of (partner_of who) ends }
    ensures time { (who : Role) (calls : List Call) (ends : Ends) → (run (calls_at who calls) ends).time ≡ ends.time }
{}

/// Calls at one clock, one after another: what the first does and what the others do is what all of them do.
pub fn calls_follow_calls()
    ensures nothing { (end : EndState) → IsAfter [] end end × StaysIn [] end end }
    ensures after { (call : Call) (others : List Call) (old mid new : EndState) → IsAfter (call ∷ []) old mid → IsAfter others mid new
        → IsAfter (call ∷ others) old new }
    ensures entering { (call : Call) (others : List Call) (old mid : EndState) → IsAfter (call ∷ []) old mid
        → EnterNone (reading_of old.clock) (call ∷ others) old.link
        → EnterNone (reading_of old.clock) (call ∷ []) old.link × EnterNone (reading_of mid.clock) others mid.link }
    ensures stays { (call : Call) (others : List Call) (old mid new : EndState) → IsAfter (call ∷ []) old mid → StaysIn (call ∷ []) old mid
        → StaysIn others mid new → StaysIn (call ∷ others) old new }
{}
