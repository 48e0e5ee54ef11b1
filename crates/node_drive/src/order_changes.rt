//! Whether an order has to be written.

ghost use Rattle.std.specs.Prelude.{◌≡◌};
ghost use Rattle.node_drive.specs.Rounds.{new_order};
ghost use Rattle.node_drive.specs.Same.{is_same_order};

use node_lines::Order;

/// The order that is to be written: none where it is that of the last line.
pub(crate) fn new_order(last: Option<Order>, order: Option<Order>) -> Option<Order>
    ensures { result ≡ new_order last order }
{
    match (last, order) {
        (Some(last), Some(order)) if is_same_order(last, order) => None,
        (_, order) => order,
    }
}

fn is_same_order(one: Order, other: Order) -> bool
    ensures { result ≡ is_same_order one other }
{
    match (one, other) {
        (Order::ShowStop, Order::ShowStop) => true,
        (Order::ShowProceed { until: one }, Order::ShowProceed { until: other }) => one == other,
        (Order::ShowSlow { until: one }, Order::ShowSlow { until: other }) => one == other,
        (Order::DriveNone, Order::DriveNone) => true,
        (
            Order::Drive {
                side: to,
                until: one,
            },
            Order::Drive { side, until: other },
        ) => to == side && one == other,
        _ => false,
    }
}
