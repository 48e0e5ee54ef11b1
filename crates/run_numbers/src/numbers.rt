//! Numbers that are counted.

ghost use Rattle.std.specs.Prelude.{◌≡◌, IfOk, slice_index};
ghost use Rattle.run_numbers.specs.Numbers.{begun_at, counted, is_late, no_numbers, one_more, put, u16_of, value_at, with_sent, with_taken};

use crate::labels::Reason;
use crate::row::Row;
use crate::rows::ROWS;
use std::alloc::{AllocError, Global};
use std::marker::Model;

/// The type numbers of a retransmission request and of a disconnection request.
const RETRANSMISSION_REQUEST: u16 = 6212;

const DISCONNECTION_REQUEST: u16 = 6216;

/// How many milliseconds after the one before a round is late.
const LATE: u64 = 20;

/// Numbers that are counted, each at the place of its row. Contracts see them as a `NumbersState`.
#[derive(Debug)]
pub struct Numbers {
    values: Vec<u64>,
    /// When the last round began, by the clock.
    began: Option<u64>,
}

// Written by hand, so that it is proved and compiled here alone.
impl Drop for Numbers {
    fn drop(self) {
        let Self {
            values: _,
            began: _,
        } = self;
    }
}

impl Model for Numbers {
    ghost use Rattle.run_numbers.specs.Numbers.{NumbersState};

    ghost Value = { NumbersState };

    ghost view = { λ n. record { values = n.values.items; began = n.began } };
}

impl Numbers {
    /// Nothing was counted.
    pub fn none(alloc: Global) -> Result<Numbers, AllocError>
        ensures { IfOk result (λ numbers. numbers ≡ no_numbers) }
    {
        Ok(Numbers {
            values: vec![in alloc; 0; ROWS.len()]?,
            began: None,
        })
    }

    /// The number of a row.
    pub fn value(&self, row: Row) -> u64
        ensures { result ≡ value_at row self.now }
    {
        match self.values.as_slice().get(row.place()) {
            Some(value) => *value,
            None => 0,
        }
    }

    /// The number of a row is this.
    pub fn put(&mut self, row: Row, value: u64)
        ensures { self.new ≡ put row value self.old }
    {
        let place = row.place();
        if place < self.values.len() {
            self.values[place] = value;
        }
    }

    /// One more is counted.
    pub fn count(&mut self, row: Row)
        ensures { self.new ≡ counted row self.old }
    {
        let value = one_more(self.value(row));
        self.put(row, value);
    }

    /// A round begins at a reading of the clock, in milliseconds.
    pub fn begin(&mut self, reading: u64)
        ensures { self.new ≡ begun_at reading self.old }
    {
        self.count(Row::Rounds);
        if is_late(self.began, reading) {
            self.count(Row::RoundsLate);
        }
        self.began = Some(reading);
    }

    /// A datagram is sent.
    pub fn note_sent(&mut self, bytes: &[u8])
        ensures { self.new ≡ with_sent bytes.now self.old }
    {
        let kind = kind_of(bytes);
        if kind == RETRANSMISSION_REQUEST {
            self.count(Row::AsksSent);
        } else if kind == DISCONNECTION_REQUEST {
            self.count(Row::ClosingsSent(Reason::of(reason_of(bytes))));
        }
    }

    /// A datagram was taken from a partner.
    pub fn note_taken(&mut self, bytes: &[u8])
        ensures { self.new ≡ with_taken bytes.now self.old }
    {
        let kind = kind_of(bytes);
        if kind == RETRANSMISSION_REQUEST {
            self.count(Row::AsksTaken);
        } else if kind == DISCONNECTION_REQUEST {
            self.count(Row::ClosingsTaken(Reason::of(reason_of(bytes))));
        }
    }
}

/// One more, up to the largest number.
fn one_more(number: u64) -> u64
    ensures { result ≡ one_more number }
{
    if number < u64::MAX {
        number + 1
    } else {
        number
    }
}

/// Whether a round is late that begins at a reading.
fn is_late(began: Option<u64>, reading: u64) -> bool
    ensures { result ≡ is_late began reading }
{
    match began {
        Some(began) => reading.saturating_sub(began) >= LATE,
        None => false,
    }
}

/// The byte at a place, and 0 where there is none.
fn byte_at(bytes: &[u8], place: usize) -> u8
    ensures { result ≡ slice_index bytes.now place }
{
    match bytes.get(place) {
        Some(byte) => *byte,
        None => 0,
    }
}

/// The type number that a datagram tells.
fn kind_of(bytes: &[u8]) -> u16
    ensures { result ≡ u16_of 2 bytes.now }
{
    u16::from_le_bytes([byte_at(bytes, 2), byte_at(bytes, 3)])
}

/// The reason that it tells where it is a disconnection request.
fn reason_of(bytes: &[u8]) -> u16
    ensures { result ≡ u16_of 30 bytes.now }
{
    u16::from_le_bytes([byte_at(bytes, 30), byte_at(bytes, 31)])
}
