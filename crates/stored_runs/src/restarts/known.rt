//! What events say of a node.

use station_record::{Event, MICROS, NodeId};

/// With which clock and which number a node is made anew.
#[derive(Clone, Copy)]
pub(crate) enum Way {
    /// 0 and 0.
    Zero,
    /// Its clock, and the number that it began with.
    Clock,
}

/// A node as events leave it.
#[derive(Clone, Copy)]
pub(crate) struct Known {
    node: NodeId,
    /// For how long it has stood since it was made, in microseconds of true time.
    pub(crate) age: u64,
    /// Its clock, in microseconds.
    clock: u64,
    /// The number that it was made with.
    first: u32,
}

impl Known {
    /// A node as a station begins.
    pub(crate) fn new(node: NodeId) -> Known {
        Known {
            node,
            age: 0,
            clock: 0,
            first: 0,
        }
    }

    /// An event happened.
    pub(crate) fn pass(&mut self, event: &Event) {
        match event {
            Event::Time { elapsed, clocks } => {
                let step = clocks.as_slice().get(self.node.0).copied().unwrap_or(0);
                self.age = self.age.saturating_add(*elapsed);
                self.clock = self.clock.saturating_add(step);
            }
            Event::Restart {
                node,
                clock,
                first_sequence_number,
            } if node.0 == self.node.0 => {
                self.age = 0;
                self.clock = clock.saturating_mul(MICROS);
                self.first = *first_sequence_number;
            }
            _ => {}
        }
    }

    /// That the node is made anew.
    pub(crate) fn restart(&self, way: Way) -> Event {
        let (clock, first_sequence_number) = match way {
            Way::Zero => (0, 0),
            Way::Clock => (self.clock / MICROS, self.first),
        };
        Event::Restart {
            node: self.node,
            clock,
            first_sequence_number,
        }
    }
}
