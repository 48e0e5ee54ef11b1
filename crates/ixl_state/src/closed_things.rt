//! What is closed, and what the station has.

ghost use Rattle.std.specs.Prelude.{◌≡◌, ◌↔◌, true, IsTrue};
ghost use Rattle.ixl_spec.specs.closings.Closed.{with_named, without_named};
ghost use Rattle.ixl_spec.specs.closings.Things.{HasNamed, HasThing, IsPlaced};
ghost use Rattle.ixl_spec.specs.closings.declared.thing.Named.{Named};
ghost use Rattle.ixl_spec.specs.closings.declared.thing.Thing.{Thing};
ghost use Rattle.ixl_spec.specs.Operations.{has_named, has_thing};

use crate::state::State;
use ixl_spec::{Named, Thing};

impl State {
    /// Whether the station has a thing.
    pub fn has_thing(&self, thing: Thing) -> bool
        ensures { result ≡ has_thing self.now.sited.table self.now.ixl thing }
    {
        let table = self.table();
        match thing {
            Thing::Section(section) => section.0 < table.reporters().len(),
            Thing::Point(point, _) => point.0 < table.point_sections().len(),
            Thing::Signal(signal) => signal.0 < self.field().signals(),
            Thing::Route(route) => route.0 < table.rows().len(),
        }
    }

    /// Whether the station has what a command names.
    pub fn has_named(&self, named: Named) -> bool
        ensures { result ≡ has_named self.now.sited.table self.now.ixl named }
    {
        match named {
            Named::One(thing) => self.has_thing(thing),
            Named::BothSides(point) => point.0 < self.table().point_sections().len(),
        }
    }

    /// A station has the things of its layout, and no others.
    pub fn has_what_its_layout_has(&self)
        ensures thing { (thing : Thing) → IsTrue (has_thing self.now.sited.table self.now.ixl thing) ↔ HasThing self.now.sited.site thing }
        ensures named { (named : Named) → IsTrue (has_named self.now.sited.table self.now.ixl named) ↔ HasNamed self.now.sited.site named }
    {
        let table = self.table();
        table.is_of_its_site();
        table.names_what_is_there();
    }

    /// What a command names is closed.
    pub fn close_named(&mut self, named: Named)
        requires { has_named self.old.sited.table self.old.ixl named ≡ true }
        ensures { self.new ≡ record self.old { ixl = record self.old.ixl { closed = with_named self.old.ixl.closed named } } }
    {
        self.things_are_few(named);
        self.closed = self.closed.close(named);
    }

    /// What a command names is open.
    pub fn open_named(&mut self, named: Named)
        requires { has_named self.old.sited.table self.old.ixl named ≡ true }
        ensures { self.new ≡ record self.old { ixl = record self.old.ixl { closed = without_named self.old.ixl.closed named } } }
    {
        self.things_are_few(named);
        self.closed = self.closed.open(named);
    }

    /// The place of what a station has fits a row of bits.
    fn things_are_few(&self, named: Named)
        requires { has_named self.now.sited.table self.now.ixl named ≡ true }
        ensures { IsPlaced named }
    {
        let table = self.table();
        table.is_of_its_site();
        table.names_what_is_there();
    }
}
