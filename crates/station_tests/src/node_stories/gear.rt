//! The field equipment of a node: a lamp, or a motor with the contacts of its point.

use control_table::{Position, Side};
use node_kinds::Order;

/// For how many rounds a point moves.
const ROUNDS: u32 = 12;

/// The field equipment of a node: a lamp, or a motor with the contacts of its point. From a moment on the lamp shows stop by itself, and
/// the motor doesn't drive.
#[derive(Clone, Copy)]
pub(crate) struct Gear {
    until: u64,
    /// To which side the motor drives, if it does.
    to: Option<Side>,
    /// How many rounds are left until the point is there.
    left: u32,
    /// How the point lies.
    pub(crate) lies: Position,
    /// Whether the lamp showed proceed when it was looked at last.
    was_lit: bool,
    /// Whether it says when an order is in force.
    pub(crate) answers: bool,
}

/// A lamp that shows stop, and a point that lies left and isn't driven.
pub(crate) const RESTING: Gear = Gear {
    until: 0,
    to: None,
    left: 0,
    lies: Position::Left,
    was_lit: false,
    answers: true,
};

/// Whether the lamps of S1, S3 and S4 show what the point allows: one over either leg from the tip, the other one from its left leg.
pub(crate) fn is_safe(now: u64, [s1, s3, s4]: [Gear; 3], point: Gear) -> bool {
    let is_still = !point.is_on(now);
    let fits = match (s1.is_on(now), s3.is_on(now)) {
        (false, false) => true,
        (true, false) => is_still && point.lies != Position::NoEndPosition,
        (false, true) => is_still && point.lies == Position::Left,
        (true, true) => false,
    };
    fits && !s4.is_on(now)
}

impl Gear {
    /// An order comes. One that renews the last lets the motor go on.
    pub(crate) fn take(&mut self, order: Order) {
        let (until, to) = match order {
            Order::ShowProceed { until } | Order::ShowSlow { until } => (until, None),
            Order::Drive { side, until } => (until, Some(side)),
            Order::ShowStop | Order::DriveNone => (0, None),
        };
        if to != self.to {
            self.left = ROUNDS;
        }
        self.to = to;
        self.until = until;
    }

    /// As it stands once the process that it serves has ended, and with it all that stood by its lines.
    pub(crate) fn ended(self) -> Gear {
        Gear {
            until: 0,
            to: None,
            ..self
        }
    }

    /// Whether the lamp shows proceed, or the motor drives.
    pub(crate) fn is_on(&self, now: u64) -> bool {
        now < self.until
    }

    /// A round passes. It answers what changed, if anything did.
    pub(crate) fn go_on(&mut self, now: u64) -> Option<&'static str> {
        let is_on = self.is_on(now);
        match self.to {
            Some(side) if is_on => self.go_to(side),
            Some(_) => None,
            None if is_on == self.was_lit => None,
            None => {
                self.was_lit = is_on;
                Some(if is_on { "proceed" } else { "stop" })
            }
        }
    }

    /// The motor drives for a round.
    fn go_to(&mut self, side: Side) -> Option<&'static str> {
        self.left = self.left.saturating_sub(1);
        let (lies, word) = match (self.left, side) {
            (0, Side::Left) => (Position::Left, "left"),
            (0, Side::Right) => (Position::Right, "right"),
            _ => (Position::NoEndPosition, "none"),
        };
        if lies == self.lies {
            return None;
        }
        self.lies = lies;
        Some(word)
    }
}
