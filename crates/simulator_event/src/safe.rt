//! Whether a snapshot is safe.

ghost use Rattle.std.specs.Prelude.{◌≡◌, ◌≢◌, ◌↔◌, ◌<◌, ℕ, length, IsTrue, IfSome, IfNone, Some, None};
ghost use Rattle.std.specs.List.{All, Contains};
ghost use Rattle.ixl_spec.specs.layout.declared.ids.RouteId.{RouteId};
ghost use Rattle.ixl_spec.specs.layout.declared.ids.SignalId.{SignalId};
ghost use Rattle.ixl_spec.specs.sci_telegram.declared.message.Aspect.{Aspect};
ghost use Rattle.ixl_spec.specs.sci_telegram.declared.message.Aspect.TheVariants.{Stop};
ghost use Rattle.simulator_event.specs.Safe.{IsOf, IsProtected, IsThere, Safe, Shows, position_at};
ghost use Rattle.simulator_event.specs.inside.Tests.{AllStand, AreApart, AreShownRightly, IsAllowed, IsApart, IsOnly, IsShownRightly, Lies, MayHold, Rests};
ghost use Rattle.simulator_event.specs.Safe.{IsHeldFor, ShowsOther, StandsUndriven};
ghost use Rattle.simulator_event.specs.declared.snapshot.Held.{Held};

use crate::snapshot::{Held, Shown, Snapshot};
use ixl_spec::{Aspect, Checked, PointId, Position, RouteId, Side, SignalId};

/// Whether a position is the end position at a side.
fn is_at(position: Position, side: Side) -> bool
    ensures { IsTrue result ↔ (position ≡ position_at side) }
{
    match side {
        Side::Right => position == Position::Right,
        Side::Left => position == Position::Left,
    }
}

/// Whether a pair is of another signal than this, or of this route.
fn is_allowed(held: &Held, signal: SignalId, route: RouteId) -> bool
    ensures { IsTrue result ↔ IsAllowed signal route held.now }
{
    held.signal != signal || held.route == route
}

/// Whether a pair names what is there.
fn is_there(table: &Checked, held: &Held) -> bool
    ensures { IsTrue result ↔ IsThere table.now held.now }
{
    let layout = table.layout();
    held.signal.0 < layout.signals().len() && held.route.0 < layout.routes().len()
}

impl Snapshot {
    /// Whether a point stands in the end position at a side.
    fn lies(&self, point: PointId, side: Side) -> bool
        ensures { IsTrue result ↔ Lies self.now point side }
    {
        match self.position.as_slice().get(point.0) {
            Some(stands) => is_at(stands.0, side),
            None => false,
        }
    }

    /// Whether a point isn't driven.
    fn rests(&self, point: PointId) -> bool
        ensures { IsTrue result ↔ Rests self.now point }
    {
        matches!(self.driven.as_slice().get(point.0), Some(None))
    }

    /// Whether a point stands undriven in the end position at a side.
    fn stands(&self, point: PointId, side: Side) -> bool
        ensures { IsTrue result ↔ StandsUndriven self.now point side }
    {
        self.lies(point, side) && self.rests(point)
    }

    /// Whether each of these points stands undriven at its side.
    fn all_stand(&self, required: &[(PointId, Side)]) -> bool
        ensures { IsTrue result ↔ AllStand self.now required.now }
    {
        for need in required {
            if !self.stands(need.0, need.1) {
                return false;
            }
        }
        true
    }

    /// The first route that is held for a signal.
    fn route_for(&self, signal: SignalId) -> Option<RouteId>
        ensures found { IfSome result (λ route. IsHeldFor self.now signal route) }
        ensures none { IfNone result ((route : RouteId) → IsHeldFor self.now signal route → ⊥) }
    {
        for held in self.held.as_slice() {
            if held.signal == signal {
                return Some(held.route);
            }
        }
        None
    }

    /// Whether no other route than this is held for a signal.
    fn is_only(&self, signal: SignalId, route: RouteId) -> bool
        ensures { IsTrue result ↔ IsOnly self.now signal route }
    {
        for held in self.held.as_slice() {
            if !is_allowed(held, signal, route) {
                return false;
            }
        }
        true
    }

    /// Whether a signal that shows this aspect is protected, where this route is the first that is held for it.
    fn is_protected_by(
        &self,
        table: &Checked,
        signal: SignalId,
        aspect: Aspect,
        route: RouteId,
    ) -> bool
        requires there { route.0 < length table.now.routes }
        requires held { IsHeldFor self.now signal route }
        ensures { IsTrue result ↔ IsProtected table.now self.now signal aspect }
    {
        if !self.is_only(signal, route) {
            return false;
        }
        if table.aspect(route) != aspect {
            return false;
        }
        self.all_stand(table.required(route))
    }

    /// Whether a signal that shows this aspect is protected.
    fn is_protected(&self, table: &Checked, signal: SignalId, aspect: Aspect) -> bool
        requires { IsOf table.now self.now }
        ensures { IsTrue result ↔ IsProtected table.now self.now signal aspect }
    {
        match self.route_for(signal) {
            Some(route) => self.is_protected_by(table, signal, aspect, route),
            None => false,
        }
    }

    /// Whether a signal that shows this aspect is protected, unless it is stop.
    fn is_shown_rightly(&self, table: &Checked, signal: SignalId, aspect: Aspect) -> bool
        requires { IsOf table.now self.now }
        ensures { IsTrue result ↔ IsShownRightly table.now self.now signal aspect }
    {
        aspect == Aspect::Stop || self.is_protected(table, signal, aspect)
    }

    /// Whether each signal that shows an aspect other than stop is protected.
    #[tactic(auto, using(crate::proofs::Safety::more_shown, crate::proofs::Safety::shown_at))]
    fn are_protected(&self, table: &Checked) -> bool
        requires { IsOf table.now self.now }
        ensures { IsTrue result ↔ AreShownRightly table.now self.now (length self.now.shows.items) }
    {
        for (place, shown) in self.shows.as_slice().iter().enumerate() {
            if !self.is_shown_rightly(table, SignalId(place), shown.0) {
                return false;
            }
        }
        true
    }

    /// Whether a signal shows an aspect other than stop.
    fn shows_other(&self, signal: SignalId) -> bool
        ensures { IsTrue result ↔ ShowsOther self.now signal }
    {
        match self.shows.as_slice().get(signal.0) {
            Some(shown) => shown.0 != Aspect::Stop,
            None => false,
        }
    }

    /// Whether two pairs may be held together: they are of one signal, one of their signals shows stop, or their routes
    /// don't conflict.
    fn may_hold(&self, table: &Checked, held: &Held, other: &Held) -> bool
        requires one { IsThere table.now held.now }
        requires two { IsThere table.now other.now }
        ensures { IsTrue result ↔ MayHold table.now self.now held.now other.now }
    {
        other.signal == held.signal
            || !self.shows_other(held.signal)
            || !self.shows_other(other.signal)
            || !table.conflict(held.route, other.route)
    }

    /// Whether a pair may be held together with each other one.
    #[tactic(auto, using(crate::proofs::Loops::member, crate::proofs::Loops::below_more, crate::proofs::Safety::there_at))]
    fn is_apart(&self, table: &Checked, held: &Held) -> bool
        requires of { IsOf table.now self.now }
        requires there { IsThere table.now held.now }
        ensures { IsTrue result ↔ IsApart table.now self.now held.now }
    {
        for other in self.held.as_slice() {
            if !self.may_hold(table, held, other) {
                return false;
            }
        }
        true
    }

    /// Whether the routes of two signals that show other than stop never conflict.
    #[tactic(auto, using(crate::proofs::Loops::member, crate::proofs::Loops::below_more, crate::proofs::Safety::there_at))]
    fn are_apart(&self, table: &Checked) -> bool
        requires { IsOf table.now self.now }
        ensures { IsTrue result ↔ AreApart table.now self.now }
    {
        for held in self.held.as_slice() {
            if !self.is_apart(table, held) {
                return false;
            }
        }
        true
    }

    /// Whether each pair names what is there.
    fn are_there(&self, table: &Checked) -> bool
        ensures { IsTrue result ↔ ((held : Held) → Contains self.now.held.items held → IsThere table.now held) }
    {
        for held in self.held.as_slice() {
            if !is_there(table, held) {
                return false;
            }
        }
        true
    }

    /// Whether the lists have the lengths of the layout, and the pairs name what is there.
    fn is_of(&self, table: &Checked) -> bool
        ensures { IsTrue result ↔ IsOf table.now self.now }
    {
        let layout = table.layout();
        if self.shows.as_slice().len() != layout.signals().len() {
            return false;
        }
        if self.position.as_slice().len() != layout.points().len() {
            return false;
        }
        if self.driven.as_slice().len() != layout.points().len() {
            return false;
        }
        self.are_there(table)
    }

    /// Whether the snapshot is safe for a station with this table: true exactly where it is, also of one that no run
    /// reaches.
    pub fn safe(&self, table: &Checked) -> bool
        ensures { IsTrue result ↔ Safe table.now self.now }
    {
        if !self.is_of(table) {
            return false;
        }
        if !self.are_protected(table) {
            return false;
        }
        self.are_apart(table)
    }
}
