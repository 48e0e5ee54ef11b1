//! What the orders of a controller tell of its lamp or of its motor.

ghost use Rattle.std.specs.Prelude.{◌≡◌};
ghost use Rattle.node_record.specs.OrdersTold.{order_number, told_by_order};
ghost use Rattle.control_table.specs.layout.Nodes.{meant_node};

use crate::told::Told;
use control_table::{Aspect, Node, Side};
use lane_chart::{Kind, Lane, Seen};
use node_lines::Order;

/// What the order of a controller tells of its lane: what its lamp shows, or to which side its motor drives.
pub(crate) fn told_by_order(whose: Node, order: Order) -> Option<Told>
    ensures { result ≡ told_by_order (meant_node whose) order }
{
    match whose {
        Node::Signal(signal) => {
            let aspect = match order {
                Order::ShowProceed { .. } => Aspect::Proceed,
                Order::ShowSlow { .. } => Aspect::Slow,
                _ => Aspect::Stop,
            };
            Some(Told {
                lane: Lane {
                    kind: Kind::Aspect,
                    place: signal.0,
                },
                seen: Seen::Aspect(Some(aspect)),
            })
        }
        Node::Point(point) => {
            let side = match order {
                Order::Drive { side, .. } => Some(side),
                _ => None,
            };
            Some(Told {
                lane: Lane {
                    kind: Kind::Drive,
                    place: point.0,
                },
                seen: Seen::Drive(side),
            })
        }
        _ => None,
    }
}

/// By which orders are told apart that aren't the same but for their end.
pub(crate) fn order_number(order: Order) -> u8
    ensures { result ≡ order_number order }
{
    match order {
        Order::ShowStop => 0,
        Order::ShowProceed { .. } => 1,
        Order::ShowSlow { .. } => 2,
        Order::DriveNone => 3,
        Order::Drive {
            side: Side::Left,
            ..
        } => 4,
        Order::Drive {
            side: Side::Right,
            ..
        } => 5,
    }
}
