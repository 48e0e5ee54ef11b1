//! The locks of a station.

ghost use Rattle.std.specs.Prelude.{◌≡◌, ◌≢◌, ◌↔◌, ◌<◌, ℕ, List, length, IsTrue, IfOk, IfErr, IfSome, IfNone, OnOk, OnErr, replicate};
ghost use Rattle.std.specs.FinSet.{empty, remove};
ghost use Rattle.control_table.specs.sci_telegram.declared.message.Side.{Side as AtSide};
ghost use Rattle.control_table.specs.layout.declared.ids.SectionId.{SectionId as Section};
ghost use Rattle.control_table.specs.layout.declared.ids.RouteId.{RouteId as Route};
ghost use Rattle.control_table.specs.bit_row.Places.{Has, Places};
ghost use Rattle.control_table.specs.Masks.{AreMasks};
ghost use Rattle.control_table.specs.Table.{AreSections, LeadsOver};
ghost use Rattle.route_lock.specs.Locks.{AllApart, AreAllSections, Blocks, Holds, IsFault, IsSection, IsSet, LocksAt, locked_by, locking};
ghost use Rattle.route_lock.specs.Rows.{IsFirstRowsFault, IsRowsFault, NoneBlocks, RowsBlock};

use crate::rows::{Locked, all_of, facts_of, rows_of};
use control_table::{
    BitRow, Checked, PointId, RouteId, RouteMasks, Side, a_route_leads_over_sections_that_are_there,
};
use std::alloc::{AllocError, Global};
use std::marker::Model;
use thiserror::Error;

/// Why a route can't be reserved.
#[derive(Clone, Copy, Debug, PartialEq, Eq, Error)]
pub enum LockFault {
    /// This set route blocks it.
    #[error("a set route blocks it")]
    Conflict(RouteId),
    /// This set route blocks it by its points alone, of which this is the first.
    #[error("a set route holds a point at the other side")]
    PointHeld(RouteId, PointId),
}

/// Which routes of a table are set, and what each of them locks.
#[derive(Debug)]
pub struct Locks {
    table: Checked,
    locks: Vec<Locked>,
    all: Locked,
}

// Written by hand, so that it is proved and compiled here alone.
impl Drop for Locks {
    fn drop(self) {
        let Self {
            table: _,
            locks: _,
            all: _,
        } = self;
    }
}

impl Model for Locks {
    ghost use Rattle.std.specs.Coded.{codes};
    ghost use Rattle.control_table.specs.bit_row.Places.{places_code};
    ghost use Rattle.control_table.specs.contracts.checked.Checked as checked;
    ghost use Rattle.route_lock.specs.Locks.{LockState};

    ghost Value = { LockState };

    ghost coded = { Prim.hlevel (codes, places_code, checked.the_row.coded) };

    ghost use Rattle.route_lock.specs.Rows.{AreKept, state_of};

    ghost view = { λ k. state_of k.table k.locks.items };

    ghost invariant = { λ k. AreKept k.table k.locks.items k.all };
}

/// Why a route that locks this blocks another that needs this, if it does.
fn fault_of(route: RouteId, rows: &Locked, need: &RouteMasks) -> Option<LockFault>
    ensures some { IfSome result (IsRowsFault route rows.now need.now) }
    ensures none { IfNone result (RowsBlock rows.now need.now → ⊥) }
{
    if rows.clashes(need) {
        return Some(LockFault::Conflict(route));
    }
    let right = rows.right.intersection(need.left);
    let left = rows.left.intersection(need.right);
    match right.union(left).first() {
        Some(point) => Some(LockFault::PointHeld(route, PointId(point))),
        None => None,
    }
}

/// Why the first route that blocks another which needs this does so, if one does.
fn first_fault(locks: &[Locked], need: &RouteMasks) -> Option<LockFault>
    ensures some { IfSome result (IsFirstRowsFault locks.now need.now) }
    ensures none { IfNone result (NoneBlocks locks.now need.now) }
{
    for (index, rows) in locks.iter().enumerate() {
        if let Some(fault) = fault_of(RouteId(index), rows, need) {
            return Some(fault);
        }
    }
    None
}

impl Locks {
    /// No route of this table is set.
    pub fn new(alloc: Global, table: &Checked) -> Result<Locks, AllocError>
        ensures table { IfOk result (λ k. k.table ≡ table.now) }
        ensures free { IfOk result (λ k. (a : Route) → IsSet k a → ⊥) }
    {
        let table = table.copy(alloc)?;
        facts_of(&table);
        let mut locks = Vec::new(alloc);
        for _route in 0..table.layout().routes().len() {
            locks.push(Locked::none())?;
        }
        let all = all_of(&locks);
        Ok(Locks { table, locks, all })
    }

    /// The table.
    pub fn table(&self) -> &Checked
        ensures table { result.now ≡ self.now.table }
        ensures each { length self.now.locked ≡ length self.now.table.routes }
    {
        &self.table
    }

    /// Whether a route is set. No two set routes stand against each other.
    pub fn held(&self, route: RouteId) -> bool
        requires { route.0 < length self.now.table.routes }
        ensures set { IsTrue result ↔ IsSet self.now route }
        ensures apart { AllApart self.now }
    {
        !self.locks[route.0].sections.is_empty()
    }

    /// The sections that a route locks.
    pub fn locked(&self, route: RouteId) -> BitRow
        requires { route.0 < length self.now.table.routes }
        ensures { result ≡ locked_by self.now route }
    {
        self.locks[route.0].sections
    }

    /// Whether no set route blocks a route that isn't set.
    pub fn clear_for(&self, route: RouteId) -> bool
        requires there { route.0 < length self.now.table.routes }
        requires free { IsSet self.now route → ⊥ }
        ensures { IsTrue result ↔ ((a : Route) → Blocks self.now a route → ⊥) }
    {
        !self.all.blocks(&self.table.masks(route))
    }

    /// At which side a set route holds a point.
    pub fn point(&self, point: PointId) -> Option<Side>
        ensures some { IfSome result (λ t. (a : Route) × Holds self.now a point t) }
        ensures none { IfNone result ((a : Route) (t : AtSide) → Holds self.now a point t → ⊥) }
    {
        if self.all.right.contains(point.0) {
            return Some(Side::Right);
        }
        if self.all.left.contains(point.0) {
            return Some(Side::Left);
        }
        None
    }

    /// Whether some set route holds a point at this side.
    pub fn is_held(&self, point: PointId, side: Side) -> bool
        ensures { IsTrue result ↔ ((a : Route) × Holds self.now a point side) }
    {
        match side {
            Side::Right => self.all.right.contains(point.0),
            Side::Left => self.all.left.contains(point.0),
        }
    }

    /// Whether a route holds a point, at whichever side.
    pub fn holds(&self, route: RouteId, point: PointId) -> bool
        requires { route.0 < length self.now.table.routes }
        ensures { IsTrue result ↔ ((t : AtSide) × Holds self.now route point t) }
    {
        let rows = &self.locks[route.0];
        rows.right.contains(point.0) || rows.left.contains(point.0)
    }

    /// What holds of all locks.
    fn facts(&self)
        ensures each { length self.now.locked ≡ length self.now.table.routes }
        ensures apart { AllApart self.now }
        ensures its { (a : Route) (s : ℕ) → Has (locked_by self.now a) s → LeadsOver self.now.table a (record { 0 = s }) }
    {
        let _all = &self.all;
    }

    /// Why a route that isn't set can't be reserved, if it can't.
    pub fn fault(&self, route: RouteId) -> Option<LockFault>
        requires there { route.0 < length self.now.table.routes }
        requires free { IsSet self.now route → ⊥ }
        ensures some { IfSome result (IsFault self.now route) }
        ensures none { IfNone result ((a : Route) → Blocks self.now a route → ⊥) }
    {
        if self.clear_for(route) {
            return None;
        }
        first_fault(&self.locks, &self.table.masks(route))
    }

    /// A route locks these sections from now on.
    fn put(&mut self, route: RouteId, sections: BitRow)
        requires there { route.0 < length self.old.table.routes }
        requires its { (s : ℕ) → Has sections s → LeadsOver self.old.table route (record { 0 = s }) }
        requires apart { AllApart (locking self.old route sections) }
        ensures { self.new ≡ locking self.old route sections }
    {
        let rows = rows_of(&self.table, route, sections);
        self.locks[route.0] = rows;
        self.all = all_of(&self.locks);
    }

    /// Sets a route that isn't set: it locks all its sections, and holds all points that it requires.
    /// Otherwise nothing changes, and it is told why the first route of the table that blocks it does so.
    pub fn reserve(&mut self, route: RouteId) -> Result<(), LockFault>
        requires there { route.0 < length self.old.table.routes }
        requires free { IsSet self.old route → ⊥ }
        ensures clear { OnOk result ((a : Route) → Blocks self.old a route → ⊥) }
        ensures set { OnOk result ((sections : Places) × AreAllSections self.old.table route sections × (self.new ≡ locking self.old route sections)) }
        ensures refused { IfErr result (IsFault self.old route) }
        ensures unchanged { OnErr result (self.new ≡ self.old) }
    {
        self.facts();
        if let Some(fault) = self.fault(route) {
            return Err(fault);
        }
        let need = self.table.masks(route);
        self.put(route, need.sections);
        Ok(())
    }

    /// Frees a section of a route, counted from 0 in the order of its path. The route then holds only the
    /// points that await another section that it locks; with its last section it is free.
    pub fn free_section(&mut self, route: RouteId, k: usize)
        requires there { route.0 < length self.old.table.routes }
        requires locked { (sections : List Section) → AreSections self.old.table route sections → LocksAt self.old route k sections }
        ensures { (s : Section) × IsSection self.old.table route k s × (self.new ≡ locking self.old route (remove (locked_by self.old route) s.0)) }
    {
        self.facts();
        a_route_leads_over_sections_that_are_there();
        facts_of(&self.table);
        let section = self.table.sections(route)[k];
        let left = self.locks[route.0].sections.without(section.0);
        self.put(route, left);
    }

    /// Frees a whole route.
    pub fn free(&mut self, route: RouteId)
        requires { route.0 < length self.old.table.routes }
        ensures { self.new ≡ locking self.old route empty }
    {
        self.facts();
        self.put(route, BitRow::empty());
    }
}
