//! What holds of a connection in order, for the other laws.

ghost use Rattle.std.specs.Prelude.{◌≡◌, ◌≤◌, ◌<◌, ◌^◌, ◌&&◌, ◌==◌, true, false, ℕ, List, [], ◌++◌, length, Ok, Err};
ghost use Rattle.rasta_core_spec.specs.Calls.{answer_to_send, closing_by, created, opening, opens, receiving, sending_item, ticking};
ghost use Rattle.rasta_core_spec.specs.Clock.{settled};
ghost use Rattle.rasta_core_spec.specs.Establishment.{granting, own_opening};
ghost use Rattle.rasta_core_spec.specs.Receipt.{hearing, refusing};
ghost use Rattle.rasta_core_spec.specs.PdusHandedOut.{entered, silent};
ghost use Rattle.rasta_core_spec.specs.State.{LinkState, confirmed_items, is_client, is_open};
ghost use Rattle.rasta_core_spec.specs.identity.Identity.{Identity};
ghost use Rattle.rasta_core_spec.specs.reason.Reason.{Reason};
ghost use Rattle.rasta_core_spec.specs.verdict.Verdict.{Verdict};
ghost use Rattle.rasta_core.specs.FirstPdus.{Asks, EarlyGoesOn, Grants, HearsOutside, IsEarly, PlaysEarly};
ghost use Rattle.rasta_core.specs.Carried.{carried};
ghost use Rattle.rasta_core.specs.Order.{InOrder, Way};
ghost use Rattle.rasta_core.specs.EndFlow.{IsAt, IsOf, EndFlow};
ghost use Rattle.rasta_core.specs.LinkAndFlow.{accepted, Plays, ReceiptGoesOn, StepGoesOn};
ghost use Rattle.rasta_core_spec.specs.PduRead.{reading};
ghost use Rattle.rasta_core_spec.specs.pdu_fault.PduFault.{PduFault};
ghost use Rattle.rasta_core_spec.specs.pdu.Pdu.{Pdu};

/// In each direction, what was taken is a beginning of what was given, and what an end holds to be confirmed is
/// at most what its partner took.
pub fn parts_are_safe()
    ensures beginning { (giver taker : EndFlow) → Way giver taker
        → (others : List (List ℕ)) × (giver.given ≡ taker.taken ++ others) }
    ensures confirmed { (link : LinkState) (own other : EndFlow) → InOrder own other → Plays link own other
        → confirmed_items link ≤ length other.taken }
{}

/// Each call of an end that is in the connection, or was, keeps the order; and so does its clock.
pub fn calls_keep_order()
    ensures settling { (now : ℕ) (link : LinkState) (own other : EndFlow) → InOrder own other → Plays link own other
        → Plays (settled now link) own other }
    ensures entering { (now : ℕ) (link : LinkState) (own other : EndFlow) → InOrder own other → Plays link own other
        → StepGoesOn own other (entered now link) [] }
    ensures ticking { (now : ℕ) (link : LinkState) (own other : EndFlow) → InOrder own other → Plays link own other
        → StepGoesOn own other (ticking now link) [] }
    ensures closing { (now : ℕ) (link : LinkState) (own other : EndFlow) → InOrder own other → Plays link own other
        → (why : Reason) → StepGoesOn own other (closing_by now why link) [] }
    ensures sending { (now : ℕ) (link : LinkState) (own other : EndFlow) → InOrder own other → Plays link own other
        → (item : List ℕ) → StepGoesOn own other (sending_item now item link) (accepted (answer_to_send now link) item) }
    ensures opening { (now : ℕ) (link : LinkState) (own other : EndFlow) → InOrder own other → Plays link own other
        → opens now link ≡ false → StepGoesOn own other (opening now link) [] }
{}

/// Whatever comes to an end inside keeps the order: each PDU that its partner sent in the connection, again and
/// in any order, and bytes that are no PDU, or one of other ends.
pub fn hearing_keeps_order()
    ensures partners { (now : ℕ) (link : LinkState) (own other : EndFlow) → InOrder own other → Plays link own other
        → (bytes : List ℕ) (pdu : Pdu) → reading link.identity.key bytes ≡ Ok pdu → IsOf pdu other.flow
        → is_open (entered now link).link.phase ≡ true → ReceiptGoesOn own other (receiving now bytes link) }
    ensures unreadable { (now : ℕ) (link : LinkState) (own other : EndFlow) → InOrder own other → Plays link own other
        → (bytes : List ℕ) (fault : PduFault) → reading link.identity.key bytes ≡ Err fault
        → ReceiptGoesOn own other (receiving now bytes link) }
    ensures strangers { (now : ℕ) (link : LinkState) (own other : EndFlow) → InOrder own other → Plays link own other
        → (bytes : List ℕ) (pdu : Pdu) → reading link.identity.key bytes ≡ Ok pdu
        → ((pdu.receiver == link.identity.own) && (pdu.sender == link.identity.partner)) ≡ false
        → ReceiptGoesOn own other (receiving now bytes link) }
    ensures refused { (now : ℕ) (link : LinkState) (own other : EndFlow) → InOrder own other → Plays link own other
        → (bytes : List ℕ) (pdu : Pdu) (why : Verdict) → reading link.identity.key bytes ≡ Ok pdu
        → hearing pdu (entered now link).link ≡ refusing why (entered now link).link → ReceiptGoesOn own other (receiving now bytes link) }
{}

/// What one end does leaves the link of the other in its part, and a link made anew is outside.
pub fn partner_stays()
    ensures order { (own other : EndFlow) → InOrder own other → InOrder other own }
    ensures plays { (link : LinkState) (own other later : EndFlow) (more : List Pdu) → Plays link own other → later.first ≡ other.first
        → later.flow ≡ other.flow ++ more → Plays link own later }
    ensures anew { (identity : Identity) (first_sequence_number now : ℕ) (own other : EndFlow)
        → Plays (created identity first_sequence_number now) own other }
{}

/// A client alone in its connection, before the server enters, stays so whatever it is called to do and whatever
/// comes that isn't its partner's; it accepts no item; and it is in order with whatever server enters.
pub fn client_alone()
    ensures plays { (link : LinkState) (client server : EndFlow) → IsEarly client → PlaysEarly link client → server.first < 2 ^ 32
        → Plays link client server }
    ensures settling { (now : ℕ) (link : LinkState) (client : EndFlow) → IsEarly client → PlaysEarly link client
        → PlaysEarly (settled now link) client }
    ensures entering { (now : ℕ) (link : LinkState) (client : EndFlow) → IsEarly client → PlaysEarly link client
        → EarlyGoesOn client (entered now link).link (entered now link).pdus }
    ensures ticking { (now : ℕ) (link : LinkState) (client : EndFlow) → IsEarly client → PlaysEarly link client
        → EarlyGoesOn client (ticking now link).link (ticking now link).pdus }
    ensures closing { (now : ℕ) (link : LinkState) (client : EndFlow) → IsEarly client → PlaysEarly link client
        → (why : Reason) → EarlyGoesOn client (closing_by now why link).link (closing_by now why link).pdus }
    ensures sending { (now : ℕ) (link : LinkState) (client : EndFlow) → IsEarly client → PlaysEarly link client
        → (item : List ℕ) → EarlyGoesOn client (sending_item now item link).link (sending_item now item link).pdus }
    ensures accepting { (now : ℕ) (link : LinkState) (client : EndFlow) → IsEarly client → PlaysEarly link client
        → (item : List ℕ) → accepted (answer_to_send now link) item ≡ [] }
    ensures opening { (now : ℕ) (link : LinkState) (client : EndFlow) → IsEarly client → PlaysEarly link client
        → opens now link ≡ false → EarlyGoesOn client (opening now link).link (opening now link).pdus }
    ensures unreadable { (now : ℕ) (link : LinkState) (client : EndFlow) → IsEarly client → PlaysEarly link client
        → (bytes : List ℕ) (fault : PduFault) → reading link.identity.key bytes ≡ Err fault
        → EarlyGoesOn client (receiving now bytes link).link (receiving now bytes link).pdus }
    ensures strangers { (now : ℕ) (link : LinkState) (client : EndFlow) → IsEarly client → PlaysEarly link client
        → (bytes : List ℕ) (pdu : Pdu) → reading link.identity.key bytes ≡ Ok pdu
        → ((pdu.receiver == link.identity.own) && (pdu.sender == link.identity.partner)) ≡ false
        → EarlyGoesOn client (receiving now bytes link).link (receiving now bytes link).pdus }
{}

/// A connection begins in order: as a client opens, and as a server takes its request. An end outside does nothing
/// else with what comes.
pub fn connection_begins()
    ensures asking { (now : ℕ) (link : LinkState) → opens now link ≡ true → Asks (opening now link).link (opening now link).pdus }
    ensures entering { (now : ℕ) (link : LinkState) → is_open link.phase ≡ false
        → entered now link ≡ silent (record link { clock = now }) }
    ensures hearing { (pdu : Pdu) (link : LinkState) → is_open link.phase ≡ false → HearsOutside pdu link (hearing pdu link) }
    ensures granting { (client : EndFlow) → IsEarly client → (link : LinkState) (pdu : Pdu)
        → is_client link.identity.role ≡ false → 1 ≤ link.clock → IsAt 0 pdu client.flow
        → Grants client (granting pdu own_opening link).link (granting pdu own_opening link).pdus }
{}

/// What a call hands out carries exactly the items that it accepts, but for repetitions.
pub fn calls_carry_what_they_accept()
    ensures ticking { (now : ℕ) (link : LinkState) → carried (ticking now link).pdus ≡ [] }
    ensures closing { (now : ℕ) (why : Reason) (link : LinkState) → carried (closing_by now why link).pdus ≡ [] }
    ensures opening { (now : ℕ) (link : LinkState) → carried (opening now link).pdus ≡ [] }
    ensures sending { (now : ℕ) (item : List ℕ) (link : LinkState)
        → carried (sending_item now item link).pdus ≡ accepted (answer_to_send now link) item }
    ensures receiving { (now : ℕ) (bytes : List ℕ) (link : LinkState) → carried (receiving now bytes link).pdus ≡ [] }
{}
