//! All that an interlocking keeps.

ghost use Rattle.std.specs.Prelude.{◌≡◌, ℕ, ◌<◌, ◌≤◌, length, IsTrue};
ghost use Rattle.ixl_spec.specs.bit_row.Places.{Has};
ghost use Rattle.ixl_spec.specs.First.{key_of};
ghost use Rattle.ixl_spec.specs.View.{freed_sections, is_set};
ghost use Rattle.ixl_known.specs.Field.{AllUnder};
ghost use Rattle.ixl_state.specs.State.{AtRoute, HasRoute, field_of};

use crate::route::Route;
use ixl_known::Field;
use ixl_spec::{Closings, Millis};
use ixl_table::Table;
use route_lock::Locks;
use std::marker::Model;

/// An interlocking's table, its controllers, what the set routes lock, how far each route is, the clock reading of its
/// creation, whether it was told to resume, and what is closed.
#[derive(Debug)]
pub struct State {
    pub(crate) table: Table,
    pub(crate) field: Field,
    pub(crate) locks: Locks,
    pub(crate) routes: Vec<Route>,
    pub(crate) created: Millis,
    pub(crate) resumed: bool,
    pub(crate) closed: Closings,
}

// Written by hand, so that it is proved and compiled here alone.
impl Drop for State {
    fn drop(self) {
        let Self {
            table: _,
            field: _,
            locks: _,
            routes: _,
            created: _,
            resumed: _,
            closed: _,
        } = self;
    }
}

impl Model for State {
    ghost use Rattle.std.specs.Coded.{codes};
    ghost use Rattle.ixl_spec.specs.bit_row.Places.{places_code};
    ghost use Rattle.ixl_known.specs.Field.{kept};
    ghost use Rattle.ixl_state.specs.State.{StateView};
    ghost use Rattle.ixl_state.specs.inside.Kept.{IsState};

    ghost Value = { StateView };

    ghost coded = { Prim.hlevel (codes, places_code) };

    ghost view = { λ s. record { sited = s.table; ixl = kept s.field (record { routes = s.routes.items; created = s.created; resumed = s.resumed; closed = s.closed }) } };

    ghost invariant = { λ s. IsState s.table s.field s.routes.items s.locks };
}

impl State {
    /// The table. Beside it stands what holds of every state.
    pub fn table(&self) -> &Table
        ensures sited { result.now ≡ self.now.sited }
        ensures each { length self.now.ixl.routes ≡ length self.now.sited.table.rows }
        ensures few { length self.now.sited.table.rows ≤ 64 }
        ensures there { (number : ℕ) → number < length self.now.sited.table.rows → HasRoute self.now number }
        ensures detectors { length self.now.ixl.detectors ≡ length self.now.sited.table.detectors }
        ensures known_signals { length self.now.ixl.known_signals ≡ length self.now.sited.site.signals }
        ensures lengths { (length self.now.ixl.known_signals ≤ 32) × (length self.now.ixl.known_points ≤ 32) × (length self.now.ixl.detectors ≤ 16) }
        ensures within { (number : ℕ) → AtRoute self.now number (λ row route. (route.passage.sections ≡ length row.sections) × ((place : ℕ) → Has route.passage.seen place → place < length row.sections) × (IsTrue (is_set route.phase) → freed_sections route.phase < length row.sections)) }
    {
        self.table.is_of_its_site();
        self.table.names_what_is_there();
        &self.table
    }

    /// A route is kept for each row of the table.
    pub fn keeps_each_route(&self)
        ensures { length self.now.ixl.routes ≡ length self.now.sited.table.rows }
    {
        self.table();
    }

    /// A detector is kept for each of the table.
    pub fn keeps_each_detector(&self)
        ensures { length self.now.ixl.detectors ≡ length self.now.sited.table.detectors }
    {
        self.table();
    }

    /// Every link is under the key of the station's network.
    pub fn keeps_its_key(&self)
        ensures { AllUnder (key_of self.now.sited.site) (field_of self.now) }
    {
        let _ = &self.field;
    }

    /// A route of the table is kept, with a passage over its own sections. Where it is set not all of them are freed.
    pub fn keeps_route(&self, number: usize)
        requires { number < length self.now.sited.table.rows }
        ensures kept { HasRoute self.now number }
        ensures sections { AtRoute self.now number (λ row route. route.passage.sections ≡ length row.sections) }
        ensures seen { AtRoute self.now number (λ row route. (place : ℕ) → Has route.passage.seen place → place < length row.sections) }
        ensures left { AtRoute self.now number (λ row route. IsTrue (is_set route.phase) → freed_sections route.phase < length row.sections) }
    {
        self.table();
    }

    /// The controllers.
    pub fn field(&self) -> &Field
        ensures { result.now ≡ field_of self.now }
    {
        &self.field
    }

    /// A route.
    pub fn route(&self, number: usize) -> Route
        requires { number < length self.now.sited.table.rows }
        ensures { AtRoute self.now number (λ row route. result ≡ route) }
    {
        self.routes[number]
    }

    /// The clock reading of its creation.
    pub fn created(&self) -> Millis
        ensures { result ≡ self.now.ixl.created }
    {
        self.created
    }

    /// Whether it was told to resume.
    pub fn is_resumed(&self) -> bool
        ensures { result ≡ self.now.ixl.resumed }
    {
        self.resumed
    }

    /// What is closed.
    pub fn closed(&self) -> Closings
        ensures { result ≡ self.now.ixl.closed }
    {
        self.closed
    }
}
