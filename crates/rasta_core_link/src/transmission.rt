//! What an end hands out: its PDUs, with their numbers and stamps.

ghost use Rattle.std.specs.Prelude.{◌≡◌, ◌+◌, ◌^◌, ◌%◌, ◌<◌, ◌≤◌, ◌&&◌, nat_le, length, IsTrue};
ghost use Rattle.rasta_core_link.specs.Outbox.{HasRoomFor, posted};
ghost use Rattle.rasta_core_link.specs.Parameters.{connection_limit, window_size};

use crate::header::Header;
use crate::identity::Role;
use crate::link::{Link, Millis};
use crate::outbox::Outbox;
use crate::parameters::{CONNECTION_LIMIT, HEARTBEAT_INTERVAL};
use crate::phase::Phase;
use crate::reason::Reason;
use crate::window::{self, Unconfirmed};
use rasta_pdu::{Body, Item, Items};

/// One more than the greatest time stamp.
const STAMP_RANGE: u64 = 1 << 32;

/// A clock reading as a time stamp.
pub(crate) fn stamp(clock: Millis) -> u32
    ensures { result ≡ clock % 2 ^ 32 }
{
    (clock % STAMP_RANGE) as u32
}

impl Link {
    ghost use Rattle.rasta_core_link.specs.State.{is_asking, is_open};
    ghost use Rattle.rasta_core_link.specs.PdusHandedOut.{header_of, sending, closed, telling, closing, limited, entered, beating, giving};
    ghost use Rattle.rasta_core_link.specs.Receipt.{repeating};

    /// Whether it has asked for a connection and taken nothing in it yet.
    fn is_asking(&self) -> bool
        ensures { result ≡ is_asking self.now }
    {
        match (self.phase, self.identity.role) {
            (Phase::Start, Role::Client) => true,
            _ => false,
        }
    }

    /// What all PDUs of this step have in common.
    #[tactic(auto, unfolding(crate::specs::PdusHandedOut::header_of))]
    pub(crate) fn header(&self) -> Header
        ensures { result ≡ header_of self.now }
    {
        let asking = self.is_asking();
        let last_taken = self
            .partner_first
            .wrapping_add(self.expected.wrapping_sub(1));
        Header {
            receiver: self.identity.partner,
            sender: self.identity.own,
            first_sequence_number: self.own_first,
            confirmed_sequence_number: if asking { 0 } else { last_taken },
            time_stamp: stamp(self.clock),
            confirmed_time_stamp: if asking { 0 } else { self.partner_stamp },
        }
    }

    /// The next PDU goes out.
    #[tactic(auto, unfolding(crate::specs::PdusHandedOut::sending))]
    pub(crate) fn dispatch(&mut self, body: Body, outbox: &mut Outbox)
        requires below { self.old.sent < connection_limit + 22 }
        requires room { HasRoomFor 1 outbox.old }
        ensures link { self.new ≡ (sending body self.old).link }
        ensures posted { outbox.new ≡ posted self.old.identity.key (sending body self.old).pdus outbox.old }
    {
        outbox.post(&self.identity.key, self.header().pdu(self.sent, body));
        self.sent += 1;
        self.sent_at = self.clock;
    }

    /// Closes without a word to the partner.
    pub(crate) fn close_silently(&mut self)
        ensures { self.new ≡ closed self.old }
    {
        self.phase = Phase::Closed;
        self.closed_at = self.clock;
    }

    /// Closes, and tells the partner why.
    #[tactic(auto, unfolding(crate::specs::PdusHandedOut::telling, crate::specs::PdusHandedOut::sending))]
    pub(crate) fn tell(&mut self, why: Reason, outbox: &mut Outbox)
        requires open { IsTrue (is_open self.old.phase) }
        requires room { HasRoomFor 1 outbox.old }
        ensures link { self.new ≡ (telling why self.old).link }
        ensures posted { outbox.new ≡ posted self.old.identity.key (telling why self.old).pdus outbox.old }
    {
        let body = Body::DisconnectionRequest {
            detail: 0,
            reason: why.number(),
        };
        outbox.post(&self.identity.key, self.header().pdu(self.sent, body));
        self.sent += 1;
        self.sent_at = self.clock;
        self.phase = Phase::Closed;
        self.closed_at = self.clock;
    }

    /// Closes, and tells the partner where the reason is one that is told.
    #[tactic(auto, using(crate::proofs::OutboxPosts::posting), unfolding(crate::specs::PdusHandedOut::closing))]
    pub(crate) fn shut(&mut self, why: Reason, outbox: &mut Outbox)
        requires open { IsTrue (is_open self.old.phase) }
        requires room { HasRoomFor 1 outbox.old }
        ensures link { self.new ≡ (closing why self.old).link }
        ensures posted { outbox.new ≡ posted self.old.identity.key (closing why self.old).pdus outbox.old }
    {
        if why.is_told() {
            self.tell(why, outbox);
        } else {
            self.close_silently();
        }
    }

    /// Whether the next call closes it, whatever it is for: it has sent as many PDUs in its connection as an end may.
    pub fn is_at_limit(&self) -> bool
        ensures { result ≡ (is_open self.now.phase && nat_le connection_limit self.now.sent) }
    {
        self.phase.is_open() && self.sent >= CONNECTION_LIMIT
    }

    /// An end that has sent so many PDUs in its connection closes it.
    #[tactic(auto, using(crate::proofs::OutboxPosts::posting), unfolding(crate::specs::PdusHandedOut::limited))]
    fn limit(&mut self, outbox: &mut Outbox)
        requires room { HasRoomFor 1 outbox.old }
        ensures link { self.new ≡ (limited self.old).link }
        ensures posted { outbox.new ≡ posted self.old.identity.key (limited self.old).pdus outbox.old }
    {
        if self.is_at_limit() {
            self.tell(Reason::Sequence, outbox);
        }
    }

    /// How each call begins: the clock rules, and then the limit of PDUs in a connection.
    #[tactic(auto, using(crate::proofs::Steps::entering), unfolding(crate::specs::PdusHandedOut::entered))]
    pub(crate) fn enter(&mut self, now: Millis, outbox: &mut Outbox)
        requires room { HasRoomFor 24 outbox.old }
        ensures link { self.new ≡ (entered now self.old).link }
        ensures posted { outbox.new ≡ posted self.old.identity.key (entered now self.old).pdus outbox.old }
        ensures identity { self.new.identity ≡ self.old.identity }
        ensures below { IsTrue (is_open self.new.phase) → self.new.sent < connection_limit }
        ensures room { HasRoomFor 23 outbox.new }
    {
        self.apply_clock(now);
        self.limit(outbox);
    }

    /// A heartbeat, where it is up and was silent for 300 ms.
    #[tactic(auto, using(crate::proofs::OutboxPosts::posting), unfolding(crate::specs::PdusHandedOut::beating))]
    pub(crate) fn beat(&mut self, outbox: &mut Outbox)
        requires below { IsTrue (is_open self.old.phase) → self.old.sent < connection_limit }
        requires room { HasRoomFor 1 outbox.old }
        ensures link { self.new ≡ (beating self.old).link }
        ensures posted { outbox.new ≡ posted self.old.identity.key (beating self.old).pdus outbox.old }
    {
        if self.phase.is_up() && self.clock.saturating_sub(self.sent_at) >= HEARTBEAT_INTERVAL {
            self.dispatch(Body::Heartbeat, outbox);
        }
    }

    /// A new item goes out, and waits under the count of its PDU.
    #[tactic(auto, using(crate::proofs::OutboxPosts::posting), unfolding(crate::specs::PdusHandedOut::sending, crate::specs::PdusHandedOut::giving))]
    pub(crate) fn give(&mut self, item: &Item, outbox: &mut Outbox)
        requires below { self.old.sent < connection_limit }
        requires window { length self.old.waiting < window_size }
        requires room { HasRoomFor 1 outbox.old }
        ensures link { self.new ≡ (giving item.now self.old).link }
        ensures posted { outbox.new ≡ posted self.old.identity.key (giving item.now self.old).pdus outbox.old }
    {
        let tag = self.sent;
        self.dispatch(Body::Data(Items::one(item.copy())), outbox);
        let _ = self.waiting.try_push_back(Unconfirmed {
            tag,
            item: item.copy(),
        });
        self.given = self.given.saturating_add(1);
    }

    /// The unconfirmed items go out again.
    #[tactic(auto, using(crate::proofs::UnconfirmedItems::repeating), unfolding(crate::specs::Receipt::repeating))]
    pub(crate) fn repeat(&mut self, outbox: &mut Outbox)
        requires below { self.old.sent ≤ connection_limit }
        requires room { HasRoomFor 20 outbox.old }
        ensures link { self.new ≡ (repeating self.old).link }
        ensures posted { outbox.new ≡ posted self.old.identity.key (repeating self.old).pdus outbox.old }
        ensures few { length self.old.waiting ≤ 20 }
    {
        let header = self.header();
        let count = self.sent;
        self.sent += self.waiting.len() as u32;
        window::repeat(&mut self.waiting, header, &self.identity.key, count, outbox);
    }
}
