//! How far a process has come with its lines and datagrams.

ghost use Rattle.std.specs.Prelude.{◌≡◌, [], ◌∷◌, suc, IfSome, Some};
ghost use Rattle.node_drive.specs.Beginning.{first_course};
ghost use Rattle.node_drive.specs.Drives.{is_settled};
ghost use Rattle.node_drive.specs.Calls.{AsksDatagram, Empty, Reads, ThrowsAway};
ghost use Rattle.node_drive.specs.Rounds.{later, many_more, new_order, one_more, with_calls};
ghost use Rattle.node_drive.specs.Seen.{is_heard};
ghost use Rattle.node_drive.specs.Waiting.{none_waits};

use crate::order_changes::new_order;
use crate::outside::ThrownAway;
use crate::socket_seen::SocketSeen;
use node_lines::{Datagram, NodeId, Order};
use std::alloc::Global;
use std::collections::VecDeque;
use std::marker::Model;

/// A datagram that waits until the line of its step is in force.
#[derive(Drop)]
pub(crate) struct Delayed {
    /// The number of that line; with 0 it waits for none.
    pub(crate) behind: u64,
    /// The reading of its step.
    pub(crate) since: u64,
    pub(crate) to: NodeId,
    pub(crate) datagram: Datagram,
}

/// How far a process has come with its lines and datagrams. Contracts see it as a `CourseState`.
pub struct Course {
    /// How many lines came.
    pub(crate) heard: u64,
    /// How many orders were written.
    pub(crate) written: u64,
    /// The last of them.
    pub(crate) order: Option<Order>,
    /// The number of the last that is in force.
    pub(crate) in_force: u64,
    pub(crate) waiting: VecDeque<Delayed>,
    /// How many datagrams came from elsewhere than from a partner.
    pub(crate) strangers: u64,
    /// How many datagrams weren't heard, since they may have been too old.
    pub(crate) too_old: u64,
    /// What was seen of the clock and the socket.
    pub(crate) seen: SocketSeen,
}

// Written by hand, so that it is proved and compiled here alone.
impl Drop for Course {
    fn drop(self) {
        let Self {
            heard: _,
            written: _,
            order: _,
            in_force: _,
            waiting: _,
            strangers: _,
            too_old: _,
            seen: _,
        } = self;
    }
}

impl Model for Course {
    ghost use Rattle.std.specs.Prelude.{map};
    ghost use Rattle.node_drive.specs.Inside.{waiting_of_code};
    ghost use Rattle.node_drive.specs.Rounds.{CourseState};

    ghost Value = { CourseState };

    ghost view = { λ c. record { heard = c.heard; written = c.written; order = c.order; in_force = c.in_force; waiting = map waiting_of_code c.waiting.items; strangers = c.strangers; too_old = c.too_old; seen = c.seen } };
}

impl Course {
    /// A process that begins: it wrote no order yet.
    pub fn new(alloc: Global) -> Course
        ensures { result ≡ first_course }
    {
        Course {
            heard: 0,
            written: 0,
            order: None,
            in_force: 0,
            waiting: VecDeque::new(alloc),
            strangers: 0,
            too_old: 0,
            seen: SocketSeen::nothing(),
        }
    }

    /// How many datagrams came from elsewhere than from a partner.
    pub fn strangers(&self) -> u64
        ensures { result ≡ self.now.strangers }
    {
        self.strangers
    }

    /// How many datagrams weren't heard, since they may have been too old.
    pub fn too_old(&self) -> u64
        ensures { result ≡ self.now.too_old }
    {
        self.too_old
    }

    /// How many lines came.
    pub(crate) fn heard(&self) -> u64
        ensures { result ≡ self.now.heard }
    {
        self.heard
    }

    /// One more line comes. It answers the number of it, if one is left.
    pub(crate) fn hear_line(&mut self) -> Option<u64>
        ensures { IfSome result (λ heard. (heard ≡ suc self.old.heard) × (self.new ≡ record self.old { heard = suc self.old.heard })) }
    {
        if self.heard == u64::MAX {
            return None;
        }
        self.heard += 1;
        Some(self.heard)
    }

    /// How many orders were written.
    pub(crate) fn written(&self) -> u64
        ensures { result ≡ self.now.written }
    {
        self.written
    }

    /// What is to be written of an order: nothing where it is that of the last line.
    pub(crate) fn order_to_write(&self, order: Option<Order>) -> Option<Order>
        ensures { result ≡ new_order self.now.order order }
    {
        new_order(self.order, order)
    }

    /// An order was written, with this number.
    pub(crate) fn note_order(&mut self, number: u64, order: Order)
        ensures { self.new ≡ record self.old { written = number; order = Some order } }
    {
        self.written = number;
        self.order = Some(order);
    }

    /// The order of this number is in force, and so is each before it.
    pub(crate) fn note_in_force(&mut self, number: u64)
        ensures { self.new ≡ record self.old { in_force = later self.old.in_force number } }
    {
        self.in_force = later(self.in_force, number);
    }

    /// Whether the last order is in force.
    pub(crate) fn is_settled(&self) -> bool
        ensures { result ≡ is_settled self.now }
    {
        self.in_force >= self.written
    }

    /// A datagram came from elsewhere than from a partner.
    pub(crate) fn note_stranger(&mut self)
        ensures { self.new ≡ record self.old { strangers = one_more self.old.strangers } }
    {
        self.strangers = one_more(self.strangers);
    }

    /// Whether no datagram waits.
    pub(crate) fn has_none_waiting(&self) -> bool
        ensures { result ≡ none_waits self.now.waiting }
    {
        self.waiting.is_empty()
    }

    /// The clock was read.
    pub(crate) fn note_reading(&mut self, reading: u64)
        ensures { self.new ≡ with_calls (Reads reading ∷ []) self.old }
    {
        self.seen.note_reading(reading);
    }

    /// The socket was found empty.
    pub(crate) fn note_empty(&mut self)
        ensures { self.new ≡ with_calls (AsksDatagram Empty ∷ []) self.old }
    {
        self.seen.note_empty();
    }

    /// Whether a datagram is heard, where the clock was read once it had come.
    pub(crate) fn is_heard(&self, reading: u64) -> bool
        ensures { result ≡ is_heard reading self.now.seen }
    {
        self.seen.is_heard(reading)
    }

    /// A datagram wasn't heard, and these were thrown away after it.
    pub(crate) fn note_thrown_away(&mut self, thrown: ThrownAway)
        ensures { self.new ≡ record (with_calls (ThrowsAway thrown.count thrown.found_empty ∷ []) self.old) { too_old = many_more thrown.count (one_more self.old.too_old) } }
    {
        self.too_old = one_more(self.too_old).saturating_add(thrown.count);
        if thrown.found_empty {
            self.seen.note_empty();
        }
    }
}

fn later(one: u64, other: u64) -> u64
    ensures { result ≡ later one other }
{
    if one < other { other } else { one }
}

fn one_more(number: u64) -> u64
    ensures { result ≡ one_more number }
{
    if number < u64::MAX {
        number + 1
    } else {
        number
    }
}
