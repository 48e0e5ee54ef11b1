//! What an operator asks a panel to do by itself from now on.

use node_lines::replay_lines::route_word;
use node_lines::{Layout, RouteId};
use std::fmt;

/// What an operator asks a panel to do by itself from now on.
#[derive(Clone, Copy, PartialEq, Eq)]
pub enum StandingOrder {
    /// A route is set again and again: it waits whenever it is free.
    Automatic(RouteId),
    /// A route waits until it is set.
    Queue(RouteId),
    /// A route is neither automatic nor waits any more.
    Manual(RouteId),
}

/// The line that asks for a standing order of a station with this layout.
#[derive(Clone, Copy)]
pub struct StandingOrderText<'a> {
    pub layout: &'a Layout,
    pub order: StandingOrder,
}

impl<'a> fmt::Display for StandingOrderText<'a> {
    ghost use Rattle.std.specs.Prelude.{Some};
    ghost use Rattle.panel_desk.specs.ShownLines.{order_text};

    ghost output = { λ text. Some (order_text text.layout.now text.order) };

    fn fmt<W: fmt::Write>(&self, f: &mut fmt::Formatter<W>) -> fmt::Result {
        let layout = self.layout;
        match self.order {
            StandingOrder::Automatic(route) => {
                let route = route_word(layout, route);
                write!(f, "automatic {route}")
            }
            StandingOrder::Queue(route) => {
                let route = route_word(layout, route);
                write!(f, "queue {route}")
            }
            StandingOrder::Manual(route) => {
                let route = route_word(layout, route);
                write!(f, "manual {route}")
            }
        }
    }
}
