//! What is locked, as rows of bits.

ghost use Rattle.std.specs.Prelude.{◌≡◌, ◌<◌, ◌↔◌, ℕ, length, IsTrue, IfSome, IfNone};
ghost use Rattle.control_table.specs.sci_telegram.declared.message.Side.TheVariants as side;
ghost use Rattle.control_table.specs.layout.declared.ids.PointId.{PointId as Point};
ghost use Rattle.control_table.specs.layout.Once.{Once};
ghost use Rattle.control_table.specs.layout.Station.{IsStation};
ghost use Rattle.control_table.specs.bit_row.Places.{Has};
ghost use Rattle.control_table.specs.Table.{LeadsOver, Sound};
ghost use Rattle.route_lock.specs.Rows.{AreRows, AwaitsOne, HoldsBy, RowsBlock, RowsClash, all_of, join, none};

use control_table::{
    BitRow, Checked, PointId, RouteId, RouteMasks, Side, required_points_are_there,
};

/// What one route locks, or what all routes lock together.
#[derive(Clone, Copy, Debug)]
pub(crate) struct Locked {
    /// The routes that lock a section.
    pub(crate) routes: BitRow,
    /// Their entry signals.
    pub(crate) entries: BitRow,
    /// The sections that they lock.
    pub(crate) sections: BitRow,
    /// The points that they hold right.
    pub(crate) right: BitRow,
    /// The points that they hold left.
    pub(crate) left: BitRow,
}

impl Locked {
    /// Nothing.
    pub(crate) fn none() -> Locked
        ensures { result ≡ none }
    {
        Locked {
            routes: BitRow::empty(),
            entries: BitRow::empty(),
            sections: BitRow::empty(),
            right: BitRow::empty(),
            left: BitRow::empty(),
        }
    }

    /// What either locks.
    fn join(self, other: Locked) -> Locked
        ensures { result ≡ join self other }
    {
        Locked {
            routes: self.routes.union(other.routes),
            entries: self.entries.union(other.entries),
            sections: self.sections.union(other.sections),
            right: self.right.union(other.right),
            left: self.left.union(other.left),
        }
    }

    /// Whether an entry signal, a route or a section stands against a route that needs this.
    pub(crate) fn clashes(&self, need: &RouteMasks) -> bool
        ensures { IsTrue result ↔ RowsClash self.now need.now }
    {
        self.entries.contains(need.entry.0)
            || self.routes.intersects(need.extra)
            || self.sections.intersects(need.sections)
    }

    /// Whether anything stands against a route that needs this.
    pub(crate) fn blocks(&self, need: &RouteMasks) -> bool
        ensures { IsTrue result ↔ RowsBlock self.now need.now }
    {
        self.clashes(need) || self.right.intersects(need.left) || self.left.intersects(need.right)
    }
}

/// What all routes lock together.
#[tactic(auto, unfolding(crate::specs::Rows::all_of))]
pub(crate) fn all_of(locks: &[Locked]) -> Locked
    ensures { result ≡ all_of locks.now }
{
    let mut all = Locked::none();
    for lock in locks {
        all = all.join(*lock);
    }
    all
}

/// What holds of the layout of every table.
pub(crate) fn facts_of(table: &Checked)
    ensures once { Once table.now }
    ensures station { IsStation table.now }
    ensures sound { Sound table.now }
{
    table.layout();
}

/// Whether two sides are the same.
fn same_side(one: Side, other: Side) -> bool
    ensures { IsTrue result ↔ (one ≡ other) }
{
    one == other
}

/// Whether a required point is required at this side, and a route that locks these sections holds it.
fn is_held(
    table: &Checked,
    route: RouteId,
    need: (PointId, Side),
    side: Side,
    sections: BitRow,
) -> bool
    requires { route.0 < length table.now.routes }
    ensures { IsTrue result ↔ ((need.1 ≡ side) × AwaitsOne table.now route sections need.0) }
{
    same_side(need.1, side) && table.awaited(route, need.0).intersects(sections)
}

/// The points that a route requires at a side and holds, where it locks these sections.
fn held(table: &Checked, route: RouteId, side: Side, sections: BitRow) -> BitRow
    requires { route.0 < length table.now.routes }
    ensures { (p : Point) → Has result p.0 ↔ HoldsBy table.now route sections p side }
{
    facts_of(table);
    required_points_are_there();
    let mut row = BitRow::empty();
    for need in table.required(route) {
        if is_held(table, route, *need, side, sections) {
            row = row.with(need.0.0);
        }
    }
    row
}

/// What a route locks that locks these sections.
pub(crate) fn rows_of(table: &Checked, route: RouteId, sections: BitRow) -> Locked
    requires there { route.0 < length table.now.routes }
    requires its { (s : ℕ) → Has sections s → LeadsOver table.now route (record { 0 = s }) }
    ensures rows { AreRows table.now route result }
    ensures sections { result.sections ≡ sections }
{
    facts_of(table);
    if sections.is_empty() {
        return Locked::none();
    }
    Locked {
        routes: BitRow::empty().with(route.0),
        entries: BitRow::empty().with(table.masks(route).entry.0),
        sections,
        right: held(table, route, Side::Right, sections),
        left: held(table, route, Side::Left, sections),
    }
}
