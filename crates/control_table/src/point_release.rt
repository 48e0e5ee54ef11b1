//! Until when a route holds the points that it requires.

ghost use Rattle.std.specs.Prelude.{◌≡◌};
ghost use Rattle.layout.specs.declared.port.Element.TheVariants as element;
ghost use Rattle.layout.specs.Station.{IsStation};
ghost use Rattle.control_table.specs.Topology.{section_of};
ghost use Rattle.control_table.specs.inside.TableTests.{awaited_by, guarded_sections, with_section};

use crate::sides::FlankProtection;
use crate::topology::section_of;
use crate::written::names_point;
use bit_row::BitRow;
use layout::{Element, Layout, PointId, Route};

/// A row of sections that also has the section of a point.
fn with_section(layout: &Layout, row: BitRow, point: PointId) -> BitRow
    requires { IsStation layout.now }
    ensures { result ≡ with_section (section_of layout.now (element.Point point)) row }
{
    match section_of(layout, Element::Point(point)) {
        Some(section) => row.with(section.0),
        None => row,
    }
}

/// The sections of the points that a point guards on a route.
fn guarded_sections(layout: &Layout, flanks: &[FlankProtection], point: PointId) -> BitRow
    requires { IsStation layout.now }
    ensures { result ≡ guarded_sections layout.now point flanks.now }
{
    let mut row = BitRow::empty();
    for flank in flanks {
        if flank.flank.0 == point.0 {
            row = with_section(layout, row, flank.point);
        }
    }
    row
}

/// The sections that a required point awaits: its own where it lies on the path of the route, otherwise
/// those of the points that it guards.
#[tactic(auto, unfolding(crate::specs::inside::TableTests::awaited_by))]
pub(crate) fn awaited(
    layout: &Layout,
    route: &Route,
    flanks: &[FlankProtection],
    point: PointId,
) -> BitRow
    requires { IsStation layout.now }
    ensures { result ≡ awaited_by layout.now route.now flanks.now point }
{
    if names_point(route.points(), point) {
        with_section(layout, BitRow::empty(), point)
    } else {
        guarded_sections(layout, flanks, point)
    }
}
