//! How much memory the datagrams take that were sent.

use panel_desk::run_numbers::Numbers;
use station_drive::Station;

/// What is kept of a datagram beside its bytes, in the network and in the index of its copies.
const BESIDE: u64 = 72;

/// Rows that grow take up to twice what they hold.
const GROWTH: u64 = 2;

/// How much memory the datagrams take that were sent so far, at most.
#[derive(Clone, Copy)]
pub(crate) struct Memory {
    /// How many of them were counted.
    counted: usize,
    pub(crate) bytes: u64,
}

impl Memory {
    /// None was counted.
    pub(crate) fn new() -> Memory {
        Memory {
            counted: 0,
            bytes: 0,
        }
    }

    /// Counts those that were sent since, and in the numbers what they say.
    pub(crate) fn count<S: Station>(&mut self, station: &S, numbers: &mut Numbers) {
        for place in self.counted..station.sent_count() {
            if let Some(one) = station.sent_at(place) {
                self.add(one.bytes.len());
                numbers.note_sent(one.bytes);
            }
        }
        self.counted = station.sent_count();
    }

    /// Counts a datagram of so many bytes.
    fn add(&mut self, bytes: usize) {
        let taken = (bytes as u64).saturating_add(BESIDE).saturating_mul(GROWTH);
        self.bytes = self.bytes.saturating_add(taken);
    }
}
