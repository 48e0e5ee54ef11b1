//! How far a route comes.

ghost use Rattle.std.specs.Prelude.{◌≡◌, ℕ, ◌+◌, ◌<◌, ◌||◌, not, true, false, [], None, length};
ghost use Rattle.release.specs.Passage.{passage_after};
ghost use Rattle.ixl_spec.specs.Commands.{released_at, route_set};
ghost use Rattle.ixl_spec.specs.Rules.{come_to, freed, one_freed};
ghost use Rattle.ixl_spec.specs.State.{RouteState};
ghost use Rattle.ixl_spec.specs.Step.{route_looks};
ghost use Rattle.ixl_spec.specs.View.{first_blocking, is_set, place_in};
ghost use Rattle.ixl_spec.specs.declared.phase.Phase.TheVariants as phase;
ghost use Rattle.ixl_state.specs.State.{AtRoute, route_changed};
ghost use Rattle.ixl_state.specs.inside.Kept.{HoldsAlike, IsPassageOf};

use crate::route::Route;
use crate::state::State;
use ixl_spec::control_table::a_route_leads_over_its_sections_alone;
use ixl_spec::{Millis, Phase, RouteId};
use ixl_table::{Row, set_routes_lock_sections, the_first_blocking_route_is_told_by_phase};
use route_lock::Locks;

/// The place of a section in the path of a route.
fn place_in(section: usize, sections: &[usize]) -> Option<usize>
    ensures { result ≡ place_in section sections.now }
{
    sections.iter().position(|other| *other == section)
}

/// The place of a section in the path of the route of a row. Most paths don't have it, as their rows of bits tell at once.
fn place_on(row: &Row, section: usize) -> Option<usize>
    ensures { result ≡ place_in section row.now.sections }
{
    if row.section_row().contains(section) {
        place_in(section, row.sections())
    } else {
        None
    }
}

/// Locks are kept for each route.
fn keeps_each_route(locks: &Locks)
    ensures { length locks.now.locked ≡ length locks.now.table.routes }
{
    locks.table();
}

impl State {
    /// A route has changed. It holds what it held.
    fn keep(&mut self, number: usize, route: Route)
        requires there { number < length self.old.sited.table.rows }
        requires alike { AtRoute self.old number (λ row old. HoldsAlike old.phase route.phase) }
        requires passage { AtRoute self.old number (λ row old. IsPassageOf row old.passage → IsPassageOf row route.passage) }
        ensures { (change : RouteState → RouteState) → AtRoute self.old number (λ row old. route ≡ change old) → self.new ≡ route_changed change number self.old }
    {
        self.routes[number] = route;
    }

    /// Its aspect was given, and what it rests on holds no longer.
    pub fn withdraw(&mut self, number: usize)
        requires there { number < length self.old.sited.table.rows }
        requires proceeding { AtRoute self.old number (λ row route. route.phase ≡ phase.Proceeding) }
        ensures { self.new ≡ route_changed (come_to phase.Withdrawn) number self.old }
    {
        let route = self.route(number).come_to(Phase::Withdrawn);
        self.keep(number, route);
    }

    /// Its authority ends at this clock.
    pub fn end_authority(&mut self, number: usize, now: Millis)
        requires there { number < length self.old.sited.table.rows }
        requires withdrawn { AtRoute self.old number (λ row route. route.phase ≡ phase.Withdrawn) }
        ensures { self.new ≡ route_changed (come_to (phase.Ended now 0)) number self.old }
    {
        let ended = Phase::Ended {
            clock: now,
            freed: 0,
        };
        let route = self.route(number).come_to(ended);
        self.keep(number, route);
    }

    /// The next of its sections is freed; with the last one it is free.
    pub fn free_next(&mut self, number: usize)
        requires there { number < length self.old.sited.table.rows }
        requires ended { AtRoute self.old number (λ row route. (clock : ℕ) × (done : ℕ) × (route.phase ≡ phase.Ended clock done)) }
        ensures { AtRoute self.old number (λ row route. self.new ≡ route_changed (one_freed row route.phase) number self.old) }
    {
        let Phase::Ended { clock, freed } = self.route(number).phase() else {
            return;
        };
        let table = self.table();
        table.names_what_is_there();
        let sections = table.rows()[number].sections().len();
        if freed + 1 == sections {
            self.free(number);
        } else {
            self.free_section(number, clock, freed);
        }
    }

    /// One more of its sections is freed, which isn't the last.
    fn free_section(&mut self, number: usize, clock: Millis, done: usize)
        requires there { number < length self.old.sited.table.rows }
        requires ended { AtRoute self.old number (λ row route. route.phase ≡ phase.Ended clock done) }
        requires more { AtRoute self.old number (λ row route. done + 1 < length row.sections) }
        ensures { self.new ≡ route_changed (come_to (phase.Ended clock (done + 1))) number self.old }
    {
        self.table.is_of_its_site();
        self.table.names_what_is_there();
        keeps_each_route(&self.locks);
        self.locks.free_section(RouteId(number), done);
        let ended = Phase::Ended {
            clock,
            freed: done + 1,
        };
        self.routes[number] = self.routes[number].come_to(ended);
    }

    /// It is no longer set.
    pub fn free(&mut self, number: usize)
        requires there { number < length self.old.sited.table.rows }
        ensures { self.new ≡ route_changed freed number self.old }
    {
        self.table.is_of_its_site();
        keeps_each_route(&self.locks);
        self.locks.free(RouteId(number));
        self.routes[number] = self.routes[number].freed();
    }

    /// It is given authority: from here on its passage is watched, and its approach, which is clear now or isn't.
    pub fn authorise(&mut self, number: usize, is_approach_clear: bool)
        requires there { number < length self.old.sited.table.rows }
        requires waiting { AtRoute self.old number (λ row route. route.phase ≡ phase.Waiting) }
        ensures { AtRoute self.old number (λ row route. self.new ≡ route_changed (λ old. record old { phase = phase.Proceeding; passage = passage_after (length row.sections) []; approached = not is_approach_clear }) number self.old) }
    {
        self.keeps_route(number);
        let route = self.route(number).authorised(is_approach_clear);
        self.keep(number, route);
    }

    /// It looks at a section.
    pub fn look(&mut self, number: usize, section: usize, occupied: bool)
        requires there { number < length self.old.sited.table.rows }
        ensures { AtRoute self.old number (λ row route. self.new ≡ route_changed (route_looks section occupied row) number self.old) }
    {
        let place = place_on(&self.table().rows()[number], section);
        let route = self.route(number).looks(place, occupied);
        self.keep(number, route);
    }

    /// It watches its approach.
    pub fn watch(&mut self, number: usize, is_approach_clear: bool)
        requires there { number < length self.old.sited.table.rows }
        ensures { self.new ≡ route_changed (λ old. record old { approached = old.approached || not is_approach_clear }) number self.old }
    {
        let route = self.route(number).watches(is_approach_clear);
        self.keep(number, route);
    }

    /// It is set: nothing blocks it. From here on each point counts as unmoved for it.
    pub fn set(&mut self, number: usize)
        requires there { number < length self.old.sited.table.rows }
        requires free { AtRoute self.old number (λ row route. is_set route.phase ≡ false) }
        requires unblocked { AtRoute self.old number (λ row route. first_blocking number row 0 self.old.sited.table.rows self.old.ixl.routes ≡ None) }
        ensures { self.new ≡ record self.old { ixl = route_set number self.old.ixl } }
    {
        a_route_leads_over_its_sections_alone();
        set_routes_lock_sections();
        the_first_blocking_route_is_told_by_phase();
        self.table.is_of_its_site();
        self.table.names_what_is_there();
        keeps_each_route(&self.locks);
        let _reserved = self.locks.reserve(RouteId(number));
        self.field.unmove(number);
        self.routes[number] = self.routes[number].set_anew();
    }

    /// It is cancelled.
    pub fn cancel(&mut self, number: usize)
        requires there { number < length self.old.sited.table.rows }
        ensures { self.new ≡ route_changed (λ old. record old { cancelled = true }) number self.old }
    {
        let route = self.route(number).cancelled();
        self.keep(number, route);
    }

    /// It is released at this clock.
    pub fn release(&mut self, number: usize, now: Millis)
        requires there { number < length self.old.sited.table.rows }
        ensures { self.new ≡ route_changed (released_at now) number self.old }
    {
        let route = self.route(number).released_at(now);
        self.keep(number, route);
    }

    /// Commands for routes and points are taken from now on.
    pub fn resume(&mut self)
        ensures { self.new ≡ record self.old { ixl = record self.old.ixl { resumed = true } } }
    {
        self.resumed = true;
    }
}
