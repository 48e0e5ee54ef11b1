//! What a controller tells its field equipment to do.

use replay_lines::ixl_spec::Side;
use std::fmt;

/// What field equipment is told to do. All moments are readings of the node's clock, in milliseconds. From the moment after
/// *until* on the equipment shows stop, or doesn't drive, by itself.
#[derive(Clone, Copy)]
pub enum Order {
    /// The signal shows stop.
    ShowStop,
    /// The signal shows proceed.
    ShowProceed { until: u64 },
    /// The signal shows proceed at low speed.
    ShowSlow { until: u64 },
    /// The point isn't driven.
    DriveNone,
    /// The point is driven to a side.
    Drive { side: Side, until: u64 },
}

impl fmt::Display for Order {
    ghost use Rattle.std.specs.Prelude.{Some};
    ghost use Rattle.std.specs.List.{join_with_byte};
    ghost use Rattle.node_lines.specs.Orders.{order_words};

    ghost output = { λ order. Some (join_with_byte 32 (order_words order)) };

    fn fmt<W: fmt::Write>(&self, f: &mut fmt::Formatter<W>) -> fmt::Result {
        match *self {
            Order::ShowStop => write!(f, "show stop"),
            Order::ShowProceed { until } => write!(f, "show proceed until {until}"),
            Order::ShowSlow { until } => write!(f, "show slow until {until}"),
            Order::DriveNone => write!(f, "drive none"),
            Order::Drive { side, until } => {
                let side = side.word();
                write!(f, "drive {side} until {until}")
            }
        }
    }
}

/// An order as its line tells it.
#[derive(Clone, Copy)]
pub struct OrderLine {
    /// The number of the line, by which the equipment answers.
    pub number: u64,
    /// The reading of the node's clock at the step that gives the order, in milliseconds.
    pub reading: u64,
    pub order: Order,
}

impl fmt::Display for OrderLine {
    ghost use Rattle.std.specs.Prelude.{Some};
    ghost use Rattle.node_lines.specs.Orders.{order_text};

    ghost output = { λ line. Some (order_text line) };

    #[tactic(auto, using(crate::proofs::OrderWords::order_behind))]
    fn fmt<W: fmt::Write>(&self, f: &mut fmt::Formatter<W>) -> fmt::Result {
        let OrderLine {
            number,
            reading,
            order,
        } = *self;
        write!(f, "{number} at {reading} {order}")
    }
}
