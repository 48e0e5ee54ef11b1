//! What is given to a controller.

ghost use Rattle.std.specs.Prelude.{◌≡◌, ◌<◌, ◌≤◌, length, map};
ghost use Rattle.ixl_spec.specs.rasta_core.Outbox.{HasRoomFor};
ghost use Rattle.ixl_spec.specs.StepSoFar.{giving_aspect, giving_move};
ghost use Rattle.ixl_spec.specs.Commands.{unmoved_for};
ghost use Rattle.ixl_known.specs.Field.{AllAt, FieldGoes, Rest};

use crate::KnownPoint;
use crate::field::Field;
use crate::rows::PointRows;
use ixl_spec::{Aspect, Millis, Outbox, Side};

/// From here on all points count as unmoved for a route.
fn unmove_all(known_points: &mut [KnownPoint], route: usize)
    requires { route < 64 }
    ensures { known_points.new ≡ map (unmoved_for route) known_points.old }
{
    for known_point in known_points.iter_mut() {
        known_point.unmove(route);
    }
}

impl Field {
    /// A signal is given an aspect.
    pub fn give_aspect(&mut self, now: Millis, signal: usize, aspect: Aspect, outbox: &mut Outbox)
        requires clock { AllAt now self.old }
        requires room { HasRoomFor 26 outbox.old }
        ensures { (rest : Rest) → FieldGoes now 2 (giving_aspect now signal aspect) rest self.old outbox.old self.new outbox.new }
    {
        if signal < self.known_signals.len() {
            self.known_signals[signal].give(now, aspect, outbox);
        }
    }

    /// A point is given a move, which counts for each of so many routes.
    pub fn give_move(
        &mut self,
        now: Millis,
        point: usize,
        side: Side,
        routes: usize,
        outbox: &mut Outbox,
    )
        requires clock { AllAt now self.old }
        requires routes { routes ≤ 64 }
        requires room { HasRoomFor 26 outbox.old }
        ensures { (rest : Rest) → length rest.routes ≡ routes → FieldGoes now 2 (giving_move now point side) rest self.old outbox.old self.new outbox.new }
    {
        if point < self.known_points.len() {
            self.known_points[point].give(now, side, routes, outbox);
            self.points = PointRows::of(&self.known_points);
        }
    }

    /// From here on each point counts as unmoved for a route.
    pub fn unmove(&mut self, route: usize)
        requires { route < 64 }
        ensures { self.new ≡ record self.old { known_points = map (unmoved_for route) self.old.known_points } }
    {
        unmove_all(&mut self.known_points, route);
        self.points = PointRows::of(&self.known_points);
    }
}
