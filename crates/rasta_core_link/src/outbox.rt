//! The datagrams that steps hand out.

ghost use Rattle.std.specs.Prelude.{◌≡◌, ◌+◌, ◌*◌, ◌^◌, ◌<◌, ◌≤◌, ◌↔◌, [], ◌∷◌, length, drop, IsTrue, IfOk, slice_get};
ghost use Rattle.std.specs.Option.{option_map};

use circular_buffer::HeapCircularBuffer;
use rasta_pdu::{Datagram, Key, Pdu};
use std::alloc::{AllocError, Global};
use std::marker::Model;

/// How many datagrams an outbox holds for each link.
const FOR_EACH_LINK: usize = 64;

/// The most datagrams that one call of a link hands out, with some to spare.
const FOR_EACH_CALL: usize = 24;

/// The datagrams that steps hand out, in their order. Its memory is there from the start.
#[derive(Debug, Drop)]
pub struct Outbox {
    datagrams: HeapCircularBuffer<Datagram>,
}

impl Model for Outbox {
    ghost use Rattle.std.specs.Prelude.{map};
    ghost use Rattle.rasta_core_link.specs.Outbox.{OutboxState};

    ghost Value = { OutboxState };

    ghost view = { λ o. record { datagrams = map (λ d. d.items) o.datagrams.items; capacity = o.datagrams.capacity } };
}

impl Outbox {
    ghost use Rattle.rasta_core_link.specs.Outbox.{HasRoomFor, posted};

    /// An empty outbox for the steps of so many links, at most 80: 64 datagrams a link.
    pub fn for_links(alloc: Global, links: usize) -> Result<Outbox, AllocError>
        requires { links ≤ 80 }
        ensures { IfOk result (λ box. box ≡ record { datagrams = []; capacity = 64 * links }) }
    {
        Outbox::for_datagrams(alloc, FOR_EACH_LINK * links)
    }

    /// An empty outbox for so many datagrams, at most 5120.
    pub fn for_datagrams(alloc: Global, datagrams: usize) -> Result<Outbox, AllocError>
        requires { datagrams ≤ 5120 }
        ensures { IfOk result (λ box. box ≡ record { datagrams = []; capacity = datagrams }) }
    {
        let datagrams = HeapCircularBuffer::with_capacity(alloc, datagrams)?;
        Ok(Outbox { datagrams })
    }

    /// Whether 24 more datagrams fit: any call of a link may be made.
    pub fn has_room(&self) -> bool
        ensures { IsTrue result ↔ HasRoomFor 24 self.now }
    {
        self.datagrams.capacity() - self.datagrams.len() >= FOR_EACH_CALL
    }

    /// How many datagrams are in it.
    pub fn len(&self) -> usize
        ensures count { result ≡ length self.now.datagrams }
        ensures within { (result ≤ self.now.capacity) × (self.now.capacity < 2 ^ 63) }
    {
        self.datagrams.len()
    }

    /// Whether it is empty.
    pub fn is_empty(&self) -> bool
        ensures { IsTrue result ↔ (self.now.datagrams ≡ []) }
    {
        self.datagrams.is_empty()
    }

    /// Takes the oldest datagram out.
    pub fn take_first(&mut self) -> Option<Datagram>
        ensures value { option_map (λ d. d.items) result ≡ slice_get self.old.datagrams 0 }
        ensures rest { self.new ≡ record self.old { datagrams = drop 1 self.old.datagrams } }
    {
        self.datagrams.pop_front()
    }

    /// Puts the bytes of a PDU at the end.
    #[tactic(auto, unfolding(crate::specs::Outbox::posted))]
    pub(crate) fn post(&mut self, key: &Key, pdu: Pdu)
        requires { HasRoomFor 1 self.old }
        ensures { self.new ≡ posted key.now (pdu ∷ []) self.old }
    {
        let _ = self.datagrams.try_push_back(rasta_pdu::write(key, &pdu));
    }
}
