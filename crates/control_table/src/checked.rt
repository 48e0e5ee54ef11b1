//! A control table that was found sound.

ghost use Rattle.std.specs.Prelude.{◌≡◌, ◌≢◌, ◌↔◌, ◌<◌, length, IsTrue, Ok, IfOk, IfErr};
ghost use Rattle.std.specs.List.{list_any};
ghost use Rattle.sci_telegram.specs.declared.message.Aspect.TheVariants.{Stop};
ghost use Rattle.layout.specs.Once.{Once};
ghost use Rattle.layout.specs.Station.{IsStation};
ghost use Rattle.layout.specs.declared.ids.SectionId.{SectionId};
ghost use Rattle.bit_row.specs.Places.{Has};
ghost use Rattle.control_table.specs.Table.{Sound, AreSections, AreRequired, AreProtections, Conflict, HasAspect, is_slow, telegram_version};
ghost use Rattle.control_table.specs.AwaitedSections.{Awaits};
ghost use Rattle.control_table.specs.Masks.{AreMasks};
ghost use Rattle.control_table.specs.Faults.{IsFirstFault};
ghost use Rattle.control_table.specs.inside.TableTests.{IsRowAt, rows_of};
ghost use Rattle.control_table.specs.declared.fault.TableFault.TheVariants.{OutOfMemory};

use crate::conflicts::conflicts;
use crate::fault::TableFault;
use crate::masks::{RouteMasks, all_masks};
use crate::point_release::awaited;
use crate::row::{Row, copy_rows, rows};
use crate::sides::FlankProtection;
use bit_row::BitRow;
use layout::{Layout, PointId, Route, RouteId, SectionId};
use sci_telegram::{Aspect, Side};
use std::alloc::{AllocError, Global};
use std::marker::Model;

/// A layout whose control table is sound, with what each of its routes needs. It is seen as the layout.
#[derive(Debug)]
pub struct Checked {
    layout: Layout,
    rows: Vec<Row>,
    masks: Vec<RouteMasks>,
}

// Written by hand, so that it is proved and compiled here alone.
impl Drop for Checked {
    fn drop(self) {
        let Self {
            layout: _,
            rows: _,
            masks: _,
        } = self;
    }
}

impl Model for Checked {
    ghost use Rattle.std.specs.Prelude.{◌≡◌, Ok};
    ghost use Rattle.layout.specs.Entries.{Site};
    ghost use Rattle.layout.specs.Once.{Once};
    ghost use Rattle.layout.specs.Station.{IsStation};
    ghost use Rattle.control_table.specs.inside.TableTests.{all_masks, rows_of};

    ghost Value = { Site };

    ghost view = { λ c. c.layout };

    ghost invariant = { λ c. (Once c.layout × IsStation c.layout) × (rows_of c.layout ≡ Ok c.rows.items) × (c.masks.items ≡ all_masks c.layout.routes c.rows.items) };
}

/// In no layout a port is joined twice, and every layout is a station.
fn is_station(layout: &Layout)
    ensures once { Once layout.now }
    ensures station { IsStation layout.now }
{
    layout.joints();
}

/// Whether a route is passed slowly.
fn is_slow(route: &Route) -> bool
    ensures { result ≡ is_slow route.now.aspect }
{
    matches!(route.aspect(), Aspect::Slow)
}

/// Whether some route is passed slowly.
fn has_slow(routes: &[Route]) -> bool
    ensures { result ≡ list_any (λ r. is_slow r.aspect) routes.now }
{
    routes.iter().any(|route| is_slow(route))
}

/// The table of a layout, of which these are the rows.
fn sound_table(alloc: Global, layout: Layout, rows: Vec<Row>) -> Result<Checked, AllocError>
    requires once { Once layout }
    requires station { IsStation layout }
    requires rows { rows_of layout ≡ Ok rows.items }
    ensures { IfOk result (λ c. c ≡ layout) }
{
    let masks = all_masks(alloc, layout.routes(), &rows)?;
    Ok(Checked {
        layout,
        rows,
        masks,
    })
}

/// Checks the control table of a layout: accepts exactly the sound ones, and keeps the layout.
///
/// The fault is the lowest of the first faulty route. `OutOfMemory` comes only where memory was refused.
pub fn check(alloc: Global, layout: Layout) -> Result<Checked, TableFault>
    ensures kept { IfOk result (λ c. c ≡ layout) }
    ensures accepts { IfOk result (λ _. Sound layout) }
    ensures refuses { IfErr result (IsFirstFault layout) }
    ensures complete { Sound layout → IfErr result (λ f. f ≡ OutOfMemory) }
{
    is_station(&layout);
    match rows(alloc, &layout) {
        Ok(rows) => Ok(sound_table(alloc, layout, rows)?),
        Err(fault) => Err(fault),
    }
}

impl Checked {
    /// The layout, which lends all entries: names, identities, the key, what detectors report and what
    /// routes write.
    pub fn layout(&self) -> &Layout
        ensures entries { result.now ≡ self.now }
        ensures sound { Sound self.now }
        ensures once { Once self.now }
        ensures station { IsStation self.now }
    {
        &self.layout
    }

    /// The row of a route.
    fn row_at(&self, route: RouteId) -> &Row
        requires { route.0 < length self.now.routes }
        ensures once { Once self.now }
        ensures row { IsRowAt self.now route result.now }
    {
        &self.rows[route.0]
    }

    /// The sections of a route, in the order of its path, of which neighbours that are equal count once.
    pub fn sections(&self, route: RouteId) -> &[SectionId]
        requires { route.0 < length self.now.routes }
        ensures { AreSections self.now route result.now }
    {
        &self.row_at(route).sections
    }

    /// The points that a route requires, each with its side, in layout order: those on its path, and
    /// those that guard its flank.
    pub fn required(&self, route: RouteId) -> &[(PointId, Side)]
        requires { route.0 < length self.now.routes }
        ensures { AreRequired self.now route result.now }
    {
        &self.row_at(route).required
    }

    /// Which required point guards the unused leg of which point on the path of a route, in the order of
    /// the path.
    pub fn protections(&self, route: RouteId) -> &[FlankProtection]
        requires { route.0 < length self.now.routes }
        ensures { AreProtections self.now route result.now }
    {
        &self.row_at(route).protections
    }

    /// The aspect that the entry signal of a route shows for it: proceed or slow, and never stop.
    pub fn aspect(&self, route: RouteId) -> Aspect
        requires { route.0 < length self.now.routes }
        ensures aspect { HasAspect self.now route result }
        ensures goes { result ≢ Stop }
    {
        is_station(&self.layout);
        self.layout.routes()[route.0].aspect()
    }

    /// The version of the telegrams that the table needs: 2 where a route is slow, and otherwise 1.
    pub fn version(&self) -> u8
        ensures { result ≡ telegram_version self.now }
    {
        if has_slow(self.layout.routes()) { 2 } else { 1 }
    }

    /// What a route needs, as rows of bits.
    pub fn masks(&self, route: RouteId) -> RouteMasks
        requires { route.0 < length self.now.routes }
        ensures { AreMasks self.now route result }
    {
        self.masks[route.0]
    }

    /// The sections that a point awaits which a route requires: the route holds it until all of them are
    /// freed. A point on the path awaits its own section, any other those of the points that it protects.
    pub fn awaited(&self, route: RouteId, point: PointId) -> BitRow
        requires { route.0 < length self.now.routes }
        ensures { (s : SectionId) → Has result s.0 ↔ Awaits self.now route point s }
    {
        let layout = self.layout();
        let entry = &layout.routes()[route.0];
        awaited(layout, entry, self.protections(route), point)
    }

    /// Whether two routes conflict: they aren't one, and have the same entry signal, share a section,
    /// require a point at different sides, or one lists the other as an extra conflict.
    pub fn conflict(&self, a: RouteId, b: RouteId) -> bool
        requires first { a.0 < length self.now.routes }
        requires second { b.0 < length self.now.routes }
        ensures { IsTrue result ↔ Conflict self.now a b }
    {
        conflicts(a, b, self.masks(a), self.masks(b))
    }

    /// An equal table.
    pub fn copy(&self, alloc: Global) -> Result<Checked, AllocError>
        ensures { IfOk result (λ c. c ≡ self.now) }
    {
        let layout = self.layout.copy(alloc)?;
        let rows = copy_rows(alloc, &self.rows)?;
        let masks = Vec::from_slice(alloc, &self.masks)?;
        Ok(Checked {
            layout,
            rows,
            masks,
        })
    }
}
