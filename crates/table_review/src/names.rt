//! What the entries of a layout are called in its text.

ghost use Rattle.std.specs.Prelude.{◌≡◌, [], ◌++◌, OnOk, slice_get};
ghost use Rattle.std.specs.Option.{option_map, unwrap_or};
ghost use Rattle.table_review.specs.Names as names;

use route_derivation::control_table::layout::{
    BorderId, Element, End, Exit, Layout, PointId, Port, SectionId, SignalId, TrackId,
};
use route_derivation::control_table::{Name, Side};
use std::alloc::AllocError;

/// The word for a port of an element.
fn end_word(end: End) -> &'static str
    ensures { result.now ≡ names.end_word end }
{
    match end {
        End::A => "a",
        End::B => "b",
        End::Tip => "tip",
        End::Left => "left",
        End::Right => "right",
        End::End => "end",
    }
}

/// The word for a side.
fn side_word(side: Side) -> &'static str
    ensures { result.now ≡ names.side_word side }
{
    match side {
        Side::Left => "left",
        Side::Right => "right",
    }
}

/// The item of a list at a place, counted from 0.
fn item_at<T: Copy>(items: &[T], place: usize) -> Option<T>
    ensures { result ≡ slice_get items.now place }
{
    items.get(place).copied()
}

/// The name of a track.
#[tactic(auto, unfolding(crate::specs::Names::track_name))]
fn track_name(layout: &Layout, track: TrackId) -> Option<Name>
    ensures { unwrap_or result [] ≡ names.track_name layout.now track }
{
    Some(item_at(layout.tracks(), track.0)?.name)
}

/// The name of a point.
#[tactic(auto, unfolding(crate::specs::Names::point_name))]
fn point_name(layout: &Layout, point: PointId) -> Option<Name>
    ensures { unwrap_or result [] ≡ names.point_name layout.now point }
{
    Some(item_at(layout.points(), point.0)?.name)
}

/// The name of a signal.
#[tactic(auto, unfolding(crate::specs::Names::signal_name))]
fn signal_name(layout: &Layout, signal: SignalId) -> Option<Name>
    ensures { unwrap_or result [] ≡ names.signal_name layout.now signal }
{
    Some(item_at(layout.signals(), signal.0)?.name)
}

/// The name of a section.
#[tactic(auto, unfolding(crate::specs::Names::section_name))]
fn section_name(layout: &Layout, section: SectionId) -> Option<Name>
    ensures { unwrap_or result [] ≡ names.section_name layout.now section }
{
    item_at(layout.sections(), section.0)
}

/// The name of a border.
#[tactic(auto, unfolding(crate::specs::Names::border_name))]
fn border_name(layout: &Layout, border: BorderId) -> Option<Name>
    ensures { unwrap_or result [] ≡ names.border_name layout.now border }
{
    item_at(layout.borders(), border.0)
}

/// The name of an element.
fn element_name(layout: &Layout, element: Element) -> Option<Name>
    ensures { unwrap_or result [] ≡ names.element_name layout.now element }
{
    match element {
        Element::Track(track) => track_name(layout, track),
        Element::Point(point) => point_name(layout, point),
        Element::Border(border) => border_name(layout, border),
    }
}

/// The name of an exit.
fn exit_name(layout: &Layout, exit: Exit) -> Option<Name>
    ensures { unwrap_or result [] ≡ names.exit_name layout.now exit }
{
    match exit {
        Exit::Signal(signal) => signal_name(layout, signal),
        Exit::Border(border) => border_name(layout, border),
    }
}

/// Adds some words.
pub(crate) fn add(text: &mut Vec<u8>, words: &str) -> Result<(), AllocError>
    ensures { OnOk result (text.new.items ≡ text.old.items ++ words.now) }
{
    text.extend_from_slice(words.as_bytes())
}

/// Adds a name: nothing stands for one that isn't there.
pub(crate) fn add_name(text: &mut Vec<u8>, name: Option<Name>) -> Result<(), AllocError>
    ensures { OnOk result (text.new.items ≡ text.old.items ++ unwrap_or name []) }
{
    match name {
        Some(name) => add(text, name.as_str()),
        None => add(text, ""),
    }
}

/// Adds the word for a port of an element.
fn add_end(text: &mut Vec<u8>, end: End) -> Result<(), AllocError>
    ensures { OnOk result (text.new.items ≡ text.old.items ++ names.end_word end) }
{
    add(text, end_word(end))
}

/// Adds the word for a side.
pub(crate) fn add_side_word(text: &mut Vec<u8>, side: Side) -> Result<(), AllocError>
    ensures { OnOk result (text.new.items ≡ text.old.items ++ names.side_word side) }
{
    add(text, side_word(side))
}

/// Adds the name of a point.
pub(crate) fn add_point(
    text: &mut Vec<u8>,
    layout: &Layout,
    point: PointId,
) -> Result<(), AllocError>
    ensures { OnOk result (text.new.items ≡ text.old.items ++ names.point_name layout.now point) }
{
    add_name(text, point_name(layout, point))
}

/// Adds the name of a signal.
pub(crate) fn add_signal(
    text: &mut Vec<u8>,
    layout: &Layout,
    signal: SignalId,
) -> Result<(), AllocError>
    ensures { OnOk result (text.new.items ≡ text.old.items ++ names.signal_name layout.now signal) }
{
    add_name(text, signal_name(layout, signal))
}

/// Adds the name of a section.
pub(crate) fn add_section(
    text: &mut Vec<u8>,
    layout: &Layout,
    section: SectionId,
) -> Result<(), AllocError>
    ensures { OnOk result (text.new.items ≡ text.old.items ++ names.section_name layout.now section) }
{
    add_name(text, section_name(layout, section))
}

/// Adds the name of a border.
pub(crate) fn add_border(
    text: &mut Vec<u8>,
    layout: &Layout,
    border: BorderId,
) -> Result<(), AllocError>
    ensures { OnOk result (text.new.items ≡ text.old.items ++ names.border_name layout.now border) }
{
    add_name(text, border_name(layout, border))
}

/// Adds the name of an exit.
pub(crate) fn add_exit(text: &mut Vec<u8>, layout: &Layout, exit: Exit) -> Result<(), AllocError>
    ensures { OnOk result (text.new.items ≡ text.old.items ++ names.exit_name layout.now exit) }
{
    add_name(text, exit_name(layout, exit))
}

/// Adds the name of an element.
fn add_element(text: &mut Vec<u8>, layout: &Layout, element: Element) -> Result<(), AllocError>
    ensures { OnOk result (text.new.items ≡ text.old.items ++ names.element_name layout.now element) }
{
    add_name(text, element_name(layout, element))
}

/// Adds a port: the name of its element, a dot, and its word.
#[tactic(auto, using(crate::proofs::Added::three_added))]
pub(crate) fn add_port(text: &mut Vec<u8>, layout: &Layout, port: Port) -> Result<(), AllocError>
    ensures { OnOk result (text.new.items ≡ text.old.items ++ names.port_text layout.now port) }
{
    add_element(text, layout, port.element)?;
    add(text, ".")?;
    add_end(text, port.end)
}
