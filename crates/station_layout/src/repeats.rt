//! What comes twice on a path.

ghost use Rattle.std.specs.Prelude.{◌≡◌, false};
ghost use Rattle.control_table.specs.Topology.{section_of};
ghost use Rattle.station_layout.specs.Search.{first_of};
ghost use Rattle.station_layout.specs.Repeats.{back_at, comes_back, comes_twice, repeated_detail, twice_at};

use crate::detail::PathDetail;
use crate::layout_names::{element_name, item_at};
use control_table::layout::{Element, Port, Route};
use control_table::{Layout, SectionId};

/// Whether an element comes twice on a path.
#[tactic(auto, unfolding(crate::specs::Repeats::comes_twice))]
fn comes_twice(path: &[Port], element: Element) -> bool
    ensures { result ≡ comes_twice element false path.now }
{
    let mut was_there = false;
    for left in path {
        let here = left.element == element;
        if here && was_there {
            return true;
        }
        was_there = here || was_there;
    }
    false
}

/// The element that a path leaves by a port, if it comes twice on the path.
#[tactic(auto, unfolding(crate::specs::Repeats::twice_at))]
fn twice_at(layout: &Layout, path: &[Port], left: Port) -> Option<PathDetail>
    ensures { result ≡ twice_at layout.now path.now left }
{
    if !comes_twice(path, left.element) {
        return None;
    }
    Some(PathDetail::Twice(element_name(layout, left.element)?))
}

/// The section in which an element lies. A border lies in none.
fn section_of(layout: &Layout, element: Element) -> Option<SectionId>
    ensures { result ≡ section_of layout.now element }
{
    match element {
        Element::Track(track) => Some(item_at(layout.tracks(), track.0)?.section),
        Element::Point(point) => Some(item_at(layout.points(), point.0)?.section),
        Element::Border(_) => None,
    }
}

/// Whether a path comes back to a section that it left.
#[tactic(auto, unfolding(crate::specs::Repeats::comes_back, crate::specs::Repeats::lies_in))]
fn comes_back(layout: &Layout, path: &[Port], section: SectionId) -> bool
    ensures { result ≡ comes_back layout.now section false false path.now }
{
    let mut is_there = false;
    let mut has_left = false;
    for left in path {
        let here = match section_of(layout, left.element) {
            Some(other) => other.0 == section.0,
            None => false,
        };
        if here && has_left {
            return true;
        }
        has_left = has_left || is_there && !here;
        is_there = here;
    }
    false
}

/// The section of an element, if a path comes back to it.
#[tactic(auto, unfolding(crate::specs::Repeats::back_at))]
fn back_at(layout: &Layout, path: &[Port], left: Port) -> Option<PathDetail>
    ensures { result ≡ back_at layout.now path.now left }
{
    let section = section_of(layout, left.element)?;
    if !comes_back(layout, path, section) {
        return None;
    }
    Some(PathDetail::ComesBack(item_at(layout.sections(), section.0)?))
}

/// The first element of a path that comes twice on it.
fn first_twice(layout: &Layout, path: &[Port]) -> Option<PathDetail>
    ensures { result ≡ first_of (twice_at layout.now path.now) path.now }
{
    for left in path {
        if let Some(found) = twice_at(layout, path, *left) {
            return Some(found);
        }
    }
    None
}

/// The first section to which a path comes back.
fn first_back(layout: &Layout, path: &[Port]) -> Option<PathDetail>
    ensures { result ≡ first_of (back_at layout.now path.now) path.now }
{
    for left in path {
        if let Some(found) = back_at(layout, path, *left) {
            return Some(found);
        }
    }
    None
}

/// What comes twice on the path of a route.
#[tactic(auto, unfolding(crate::specs::Repeats::repeated_detail))]
pub(crate) fn repeated_detail(layout: &Layout, route: &Route) -> Option<PathDetail>
    ensures { result ≡ repeated_detail layout.now route.now }
{
    let path = route.path();
    first_twice(layout, path).or(first_back(layout, path))
}
