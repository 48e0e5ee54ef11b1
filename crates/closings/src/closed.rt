//! The set of what is closed.

ghost use Rattle.std.specs.Prelude.{◌≡◌, ◌<◌, [], ◌∷◌, ◌++◌, filter, IfOk, OnOk};
ghost use Rattle.closings.specs.Things.{IsPlaced, first_things, place_of};
ghost use Rattle.closings.specs.Closed.{all_track, closed_things, either, first_places, is_closed, nothing, row, track, with_named, with_row, with_thing, without_named, without_thing};

use crate::thing::{Kind, Named, Thing, thing_at};
use control_table::BitRow;
use control_table::layout::Layout;
use control_table::sci_telegram::Side;
use std::alloc::{AllocError, Global};

/// What is closed of a station: a set of things, each kind as a row of its places in the layout. No call
/// takes memory but the one that lists all.
#[derive(Clone, Copy, Debug)]
pub struct Closings {
    sections: BitRow,
    /// The points that are closed at the right.
    right: BitRow,
    /// The points that are closed at the left.
    left: BitRow,
    signals: BitRow,
    routes: BitRow,
}

/// The row of the first places.
#[tactic(auto, using(crate::proofs::Rows::no_places, crate::proofs::Rows::more_places))]
fn first_places(count: usize) -> BitRow
    requires { count < 65 }
    ensures { result ≡ first_places count }
{
    let mut row = BitRow::empty();
    for place in 0..count {
        row = row.with(place);
    }
    row
}

impl Closings {
    /// Nothing is closed.
    pub fn none() -> Closings
        ensures { result ≡ nothing }
    {
        Closings {
            sections: BitRow::empty(),
            right: BitRow::empty(),
            left: BitRow::empty(),
            signals: BitRow::empty(),
            routes: BitRow::empty(),
        }
    }

    /// Every section is closed, and every point at both sides. So no route can be set.
    pub fn all_track(layout: &Layout) -> Closings
        ensures { result ≡ all_track layout.now }
    {
        // Every layout is a station, which has few entries.
        layout.joints();
        Closings::track(
            first_places(layout.sections().len()),
            first_places(layout.points().len()),
        )
    }

    /// These sections are closed, and these points at both sides. So what set routes lock is told as closings: the
    /// sections that aren't freed, and the points that are held.
    pub fn track(sections: BitRow, points: BitRow) -> Closings
        ensures { result ≡ track sections points }
    {
        Closings {
            sections,
            right: points,
            left: points,
            signals: BitRow::empty(),
            routes: BitRow::empty(),
        }
    }

    /// What is closed by these closings or by others.
    pub fn either(&self, other: &Closings) -> Closings
        ensures { result ≡ either self.now other.now }
    {
        Closings {
            sections: self.sections.union(other.sections),
            right: self.right.union(other.right),
            left: self.left.union(other.left),
            signals: self.signals.union(other.signals),
            routes: self.routes.union(other.routes),
        }
    }

    /// The places of a kind that are closed.
    fn row(&self, kind: Kind) -> BitRow
        ensures { result ≡ row self.now kind }
    {
        match kind {
            Kind::Section => self.sections,
            Kind::PointLeft => self.left,
            Kind::PointRight => self.right,
            Kind::Signal => self.signals,
            Kind::Route => self.routes,
        }
    }

    /// The same, but that these places of a kind are closed.
    fn with_row(&self, kind: Kind, places: BitRow) -> Closings
        ensures { result ≡ with_row self.now kind places }
    {
        let mut other = *self;
        match kind {
            Kind::Section => other.sections = places,
            Kind::PointLeft => other.left = places,
            Kind::PointRight => other.right = places,
            Kind::Signal => other.signals = places,
            Kind::Route => other.routes = places,
        }
        other
    }

    /// Whether a thing is closed.
    pub fn is_closed(&self, thing: Thing) -> bool
        ensures { result ≡ is_closed self.now thing }
    {
        self.row(thing.kind()).contains(thing.place())
    }

    /// What is closed once a thing is closed too.
    fn with(&self, thing: Thing) -> Closings
        requires { place_of thing < 64 }
        ensures { result ≡ with_thing self.now thing }
    {
        let kind = thing.kind();
        self.with_row(kind, self.row(kind).with(thing.place()))
    }

    /// What is closed once a thing is open.
    fn without(&self, thing: Thing) -> Closings
        requires { place_of thing < 64 }
        ensures { result ≡ without_thing self.now thing }
    {
        let kind = thing.kind();
        self.with_row(kind, self.row(kind).without(thing.place()))
    }

    /// What is closed once what a command names is closed too.
    pub fn close(&self, named: Named) -> Closings
        requires { IsPlaced named }
        ensures { result ≡ with_named self.now named }
    {
        match named {
            Named::One(thing) => self.with(thing),
            Named::BothSides(point) => {
                let left = self.with(Thing::Point(point, Side::Left));
                left.with(Thing::Point(point, Side::Right))
            }
        }
    }

    /// What is closed once what a command names is open.
    pub fn open(&self, named: Named) -> Closings
        requires { IsPlaced named }
        ensures { result ≡ without_named self.now named }
    {
        match named {
            Named::One(thing) => self.without(thing),
            Named::BothSides(point) => {
                let left = self.without(Thing::Point(point, Side::Left));
                left.without(Thing::Point(point, Side::Right))
            }
        }
    }

    /// Lists a thing if it is closed, behind those that are listed already.
    fn list_one(&self, things: &mut Vec<Thing>, thing: Thing) -> Result<(), AllocError>
        ensures { OnOk result (things.new.items ≡ things.old.items ++ filter (is_closed self.now) (thing ∷ [])) }
    {
        if self.is_closed(thing) {
            things.push(thing)?;
        }
        Ok(())
    }

    /// Lists the things of a kind that are closed, behind those that are listed already.
    fn list_kind(&self, things: &mut Vec<Thing>, kind: Kind, count: usize) -> Result<(), AllocError>
        ensures { OnOk result (things.new.items ≡ things.old.items ++ filter (is_closed self.now) (first_things kind count)) }
    {
        for place in 0..count {
            self.list_one(things, thing_at(kind, place))?;
        }
        Ok(())
    }

    /// All that is closed of a layout: the sections, the points at the left, those at the right, the
    /// signals and the routes, each kind in layout order.
    #[tactic(auto, using(crate::proofs::Listed::parts_listed))]
    pub fn things(&self, alloc: Global, layout: &Layout) -> Result<Vec<Thing>, AllocError>
        ensures { IfOk result (λ v. v.items ≡ closed_things layout.now self.now) }
    {
        let points = layout.points().len();
        let mut things = Vec::new(alloc);
        self.list_kind(&mut things, Kind::Section, layout.sections().len())?;
        self.list_kind(&mut things, Kind::PointLeft, points)?;
        self.list_kind(&mut things, Kind::PointRight, points)?;
        self.list_kind(&mut things, Kind::Signal, layout.signals().len())?;
        self.list_kind(&mut things, Kind::Route, layout.routes().len())?;
        Ok(things)
    }
}
