//! True time, and every datagram that was sent.

ghost use Rattle.std.specs.Prelude.{◌≡◌, ◌+◌, ◌-◌, ◌*◌, ◌^◌, ◌<◌, ◌≤◌, ◌++◌, ◌&&◌, ℕ, [], ◌∷◌, true, false, length, is_none, slice_get, slice_index_or, slice_set, IfSome, IfNone, IsOk, OnOk, Some};
ghost use Rattle.std.specs.Option.{option_map};
ghost use Rattle.simulator_spec.specs.rasta_core.Bag as bag;
ghost use Rattle.simulator_spec.specs.rasta_core.Ends.{handed_out};
ghost use Rattle.simulator_spec.specs.rasta_core.Links.{OnLink, sent_on};
ghost use Rattle.simulator_spec.specs.rasta_pdu.SafetyCode.{intact};
ghost use Rattle.simulator_field.specs.Network.{IsOldestCopy, connection_of, datagrams, lent, lost};

use crate::bag::Bag;
use crate::copies_found;
use crate::entry::Entry;
use crate::sent_on::SentOn;
use place_index::{PlaceIndex, key_of};
use simulator_spec::{Datagram, Key, Role, is_intact};
use std::alloc::{AllocError, Global};
use std::marker::Model;

/// How many bytes a datagram has at most.
const MOST_BYTES: usize = 256;

/// True time, and every datagram that was sent, oldest first. Contracts see it as a `NetworkState`.
///
/// The bytes of all datagrams stand in one row, so each takes no more memory than it needs.
#[derive(Debug, Drop)]
pub struct Network {
    /// In microseconds.
    time: u64,
    entries: Vec<Entry>,
    row: Vec<u8>,
    /// By which the datagrams that aren't lost are found.
    index: PlaceIndex,
    /// How many datagrams have their memory already, however long they are.
    room: usize,
}

impl Model for Network {
    ghost use Rattle.std.specs.Prelude.{◌+◌, ◌*◌, ◌≤◌};
    ghost use Rattle.std.specs.Vec.{vec_len, vec_capacity};
    ghost use Rattle.simulator_field.specs.Network.{NetworkState};

    ghost Value = { NetworkState };

    ghost use Rattle.std.specs.Prelude.{◌≡◌};
    ghost use Rattle.simulator_field.specs.inside.Entries.{AreKept, on_links};
    ghost use Rattle.simulator_field.specs.inside.Indexed.{keys_of};

    ghost view = { λ n. record { time = n.time; sent = on_links n.row.items n.entries.items; room = n.room } };

    ghost invariant = { λ n. AreKept n.time n.row.items n.entries.items × (vec_len n.entries + n.room ≤ vec_capacity n.entries) × (vec_len n.row + 256 * n.room ≤ vec_capacity n.row) × (n.index.keys ≡ keys_of n.row.items n.entries.items) × (n.room ≤ n.index.room) };
}

impl Network {
    /// A network at the true time 0, on which nothing was sent.
    pub fn new(alloc: Global) -> Network
        ensures { result ≡ record { time = 0; sent = []; room = 0 } }
    {
        Network {
            time: 0,
            entries: Vec::new(alloc),
            row: Vec::new(alloc),
            index: PlaceIndex::new(alloc),
            room: 0,
        }
    }

    /// True time, in microseconds.
    pub fn time(&self) -> u64
        ensures { result ≡ self.now.time }
    {
        self.time
    }

    /// How many datagrams were sent.
    pub fn len(&self) -> usize
        ensures count { result ≡ length self.now.sent }
        ensures fits { length self.now.sent + self.now.room < 2 ^ 64 }
    {
        self.entries.len()
    }

    /// How many datagrams have their memory already.
    pub fn room(&self) -> usize
        ensures { result ≡ self.now.room }
    {
        self.room
    }

    /// Makes memory for at least so many datagrams; nothing else changes. It fails only where a growth was refused.
    pub fn reserve(&mut self, datagrams: usize) -> Result<(), AllocError>
        ensures room { OnOk result (datagrams ≤ self.new.room) }
        ensures more { self.old.room ≤ self.new.room }
        ensures same { self.new ≡ record self.old { room = self.new.room } }
        ensures enough { datagrams ≤ self.old.room → IsOk result }
    {
        if datagrams <= self.room {
            return Ok(());
        }
        self.row.reserve(datagrams.saturating_mul(MOST_BYTES))?;
        self.entries.reserve(datagrams)?;
        self.index.reserve(datagrams)?;
        self.room = datagrams;
        Ok(())
    }

    /// True time goes on, in microseconds.
    pub fn pass(&mut self, elapsed: u64)
        requires { self.old.time + elapsed < 2 ^ 64 }
        ensures { self.new ≡ record self.old { time = self.old.time + elapsed } }
    {
        self.time += elapsed;
    }

    /// An end of a link sends a datagram in its connection. An end in none has the number 0.
    pub fn send(
        &mut self,
        link: usize,
        datagram: &Datagram,
        sender: Role,
        connection: Option<usize>,
    )
        requires { 0 < self.old.room }
        ensures { self.new ≡ record self.old { sent = self.old.sent ++ sent_on link (handed_out self.old.time sender connection (datagram.now.items ∷ [])); room = self.old.room - 1 } }
    {
        let bytes = datagram.as_slice();
        let entry = Entry {
            start: self.row.len(),
            length: bytes.len() as u16,
            at: self.time,
            connection: connection.unwrap_or(0),
            link,
            sender,
            is_lost: false,
        };
        let _ = self.row.extend_from_slice(bytes);
        self.entries.push_reserved(entry);
        self.index.push(key_of(bytes));
        self.room -= 1;
    }

    /// The connection in which bytes were sent that can be delivered: they have a copy that isn't lost and is at most
    /// 2000 ms old, of which the newest counts. Damaged bytes can be delivered at any time, and of them it is 0.
    pub fn delivered(&self, key: &Key, bytes: &[u8]) -> Option<usize>
        ensures found { IfSome result (λ connection. connection ≡ connection_of (bag.newest_copy self.now.time bytes.now (datagrams self.now.sent))) }
        ensures allowed { IfSome result (λ connection. (is_none (bag.newest_copy self.now.time bytes.now (datagrams self.now.sent)) && intact key.now bytes.now) ≡ false) }
        ensures none { IfNone result ((is_none (bag.newest_copy self.now.time bytes.now (datagrams self.now.sent)) && intact key.now bytes.now) ≡ true) }
    {
        let copy = copies_found::newest_copy(
            &self.entries,
            &self.row,
            &self.index,
            self.time,
            bytes,
        );
        match copy {
            Some(connection) => Some(connection),
            None if is_intact(key, bytes) => None,
            None => Some(0),
        }
    }

    /// The place of the oldest copy of these bytes that isn't lost: how many were sent before it.
    pub fn oldest_copy(&self, bytes: &[u8]) -> Option<usize>
        ensures found { IfSome result (λ place. IsOldestCopy place bytes.now self.now.sent) }
        ensures none { IfNone result (bag.has_copy bytes.now (datagrams self.now.sent) ≡ false) }
    {
        copies_found::oldest_copy(&self.entries, &self.row, &self.index, bytes)
    }

    /// The network loses the datagram at this place.
    pub fn lose(&mut self, place: usize)
        requires { place < length self.old.sent }
        ensures { (one : OnLink) → one ≡ slice_index_or self.old.sent place one → self.new ≡ record self.old { sent = slice_set self.old.sent place (lost one) } }
    {
        self.entries[place].is_lost = true;
        self.index.remove(place);
    }

    /// The datagram at this place, lost or not.
    pub fn get(&self, place: usize) -> Option<SentOn<'_>>
        ensures one { option_map lent result ≡ slice_get self.now.sent place }
        ensures fits { length self.now.sent + self.now.room < 2 ^ 64 }
    {
        let entry = self.entries.as_slice().get(place)?;
        Some(entry.lend(&self.row))
    }

    ghost use Rattle.simulator_field.specs.Bag.{in_bag, not_lost};

    /// The datagrams that aren't lost, oldest first.
    pub fn bag(&self) -> Bag<'_>
        ensures { in_bag result ≡ not_lost self.now.sent }
    {
        Bag {
            network: self,
            place: 0,
        }
    }
}
