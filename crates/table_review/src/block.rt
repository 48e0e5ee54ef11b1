//! Routes as entries of a layout's text.

ghost use Rattle.std.specs.Prelude.{codes, ◌≡◌, ◌++◌, [], IfOk, OnOk};
ghost use Rattle.std.specs.List.{flat_map};
ghost use Rattle.table_review.specs.Block as block;
ghost use Rattle.table_review.specs.Names as names;

use crate::names::{add, add_exit, add_point, add_port, add_section, add_side_word, add_signal};
use route_derivation::DerivedRoute;
use route_derivation::control_table::layout::{Layout, PointId, Port, SectionId};
use route_derivation::control_table::{Aspect, Side};
use std::alloc::{AllocError, Global};

/// How a route is written: as a block `[[route]]` after an empty line, or as an item of an array `route`.
#[derive(Clone, Copy)]
pub enum Form {
    Block,
    Item,
}

impl Form {
    /// What stands before the first key.
    fn opening(self) -> &'static str
        ensures { result.now ≡ block.opening self }
    {
        match self {
            Form::Block => "\n[[route]]\n",
            Form::Item => "  { ",
        }
    }

    /// What stands between two keys.
    fn between(self) -> &'static str
        ensures { result.now ≡ block.between self }
    {
        match self {
            Form::Block => "\n",
            Form::Item => ", ",
        }
    }

    /// What stands after the last key.
    fn closing(self) -> &'static str
        ensures { result.now ≡ block.closing self }
    {
        match self {
            Form::Block => "\n",
            Form::Item => " },\n",
        }
    }
}

/// Adds what stands before the first key.
fn add_opening(text: &mut Vec<u8>, form: Form) -> Result<(), AllocError>
    ensures { OnOk result (text.new.items ≡ text.old.items ++ block.opening form) }
{
    add(text, form.opening())
}

/// Adds what stands between two keys.
fn add_between(text: &mut Vec<u8>, form: Form) -> Result<(), AllocError>
    ensures { OnOk result (text.new.items ≡ text.old.items ++ block.between form) }
{
    add(text, form.between())
}

/// Adds what stands after the last key.
fn add_closing(text: &mut Vec<u8>, form: Form) -> Result<(), AllocError>
    ensures { OnOk result (text.new.items ≡ text.old.items ++ block.closing form) }
{
    add(text, form.closing())
}

/// An item of a list in a route.
#[derive(Clone, Copy)]
enum Item {
    Port(Port),
    Point(PointId, Side),
    Section(SectionId),
}

/// Adds a section between quotes.
#[tactic(auto, using(crate::proofs::Added::three_added))]
fn add_quoted_section(
    text: &mut Vec<u8>,
    layout: &Layout,
    section: SectionId,
) -> Result<(), AllocError>
    ensures { OnOk result (text.new.items ≡ text.old.items ++ block.quoted (names.section_name layout.now section)) }
{
    add(text, "\"")?;
    add_section(text, layout, section)?;
    add(text, "\"")
}

/// Adds a port between quotes.
#[tactic(auto, using(crate::proofs::Added::three_added))]
fn add_quoted_port(text: &mut Vec<u8>, layout: &Layout, port: Port) -> Result<(), AllocError>
    ensures { OnOk result (text.new.items ≡ text.old.items ++ block.quoted (names.port_text layout.now port)) }
{
    add(text, "\"")?;
    add_port(text, layout, port)?;
    add(text, "\"")
}

/// Adds at which side a point lies.
#[tactic(auto, using(crate::proofs::Added::four_added))]
fn add_side(
    text: &mut Vec<u8>,
    layout: &Layout,
    point: PointId,
    side: Side,
) -> Result<(), AllocError>
    ensures { OnOk result (text.new.items ≡ text.old.items ++ block.side_text layout.now point side) }
{
    add_point(text, layout, point)?;
    add(text, " = \"")?;
    add_side_word(text, side)?;
    add(text, "\"")
}

/// Adds an item of a list.
fn add_item(text: &mut Vec<u8>, layout: &Layout, item: Item) -> Result<(), AllocError>
    ensures { OnOk result (text.new.items ≡ text.old.items ++ block.item_text layout.now item) }
{
    match item {
        Item::Port(port) => add_quoted_port(text, layout, port),
        Item::Point(point, side) => add_side(text, layout, point, side),
        Item::Section(section) => add_quoted_section(text, layout, section),
    }
}

/// Adds an item that isn't the first of its list.
#[tactic(auto, using(crate::proofs::Added::two_added))]
fn add_further(text: &mut Vec<u8>, layout: &Layout, item: &Item) -> Result<(), AllocError>
    ensures { OnOk result (text.new.items ≡ text.old.items ++ block.further_text layout.now item.now) }
{
    add(text, ", ")?;
    add_item(text, layout, *item)
}

/// Adds items that aren't the first of their list.
fn add_all_further(text: &mut Vec<u8>, layout: &Layout, items: &[Item]) -> Result<(), AllocError>
    ensures { OnOk result (text.new.items ≡ text.old.items ++ flat_map (block.further_text layout.now) items.now) }
{
    for item in items {
        add_further(text, layout, item)?;
    }
    Ok(())
}

/// Adds the items of a list, with a comma between each two.
fn add_items(text: &mut Vec<u8>, layout: &Layout, items: &[Item]) -> Result<(), AllocError>
    ensures { OnOk result (text.new.items ≡ text.old.items ++ block.items_text layout.now items.now) }
{
    match items.split_first() {
        Some((first, rest)) => {
            add_item(text, layout, *first)?;
            add_all_further(text, layout, rest)
        }
        None => add(text, ""),
    }
}

/// Adds a list between words.
#[tactic(auto, using(crate::proofs::Added::three_added))]
fn add_list(
    text: &mut Vec<u8>,
    layout: &Layout,
    before: &str,
    items: &[Item],
    after: &str,
) -> Result<(), AllocError>
    ensures { OnOk result (text.new.items ≡ text.old.items ++ block.list_text layout.now before.now items.now after.now) }
{
    add(text, before)?;
    add_items(text, layout, items)?;
    add(text, after)
}

/// Adds a key with a list, after the key before it.
#[tactic(auto, using(crate::proofs::Added::two_added))]
fn add_list_key(
    text: &mut Vec<u8>,
    layout: &Layout,
    form: Form,
    words: (&str, &str),
    items: &[Item],
) -> Result<(), AllocError>
    ensures { OnOk result (text.new.items ≡ text.old.items ++ (block.between form ++ block.list_text layout.now words.entry.0.now items.now words.entry.1.now)) }
{
    add_between(text, form)?;
    add_list(text, layout, words.0, items, words.1)
}

/// Adds a key with a list, unless that is empty.
fn add_optional(
    text: &mut Vec<u8>,
    layout: &Layout,
    form: Form,
    words: (&str, &str),
    items: &[Item],
) -> Result<(), AllocError>
    ensures { OnOk result (text.new.items ≡ text.old.items ++ block.optional_text layout.now form words.entry.0.now items.now words.entry.1.now) }
{
    if items.is_empty() {
        return add(text, "");
    }
    add_list_key(text, layout, form, words, items)
}

/// Adds the key of a route that requires no point.
#[tactic(auto, using(crate::proofs::Added::two_added))]
fn add_no_points(text: &mut Vec<u8>, form: Form) -> Result<(), AllocError>
    ensures { OnOk result (text.new.items ≡ text.old.items ++ (block.between form ++ codes "points = {}")) }
{
    add_between(text, form)?;
    add(text, "points = {}")
}

/// Adds the key with the points that a route requires, also where it requires none.
fn add_points(
    text: &mut Vec<u8>,
    layout: &Layout,
    form: Form,
    words: (&str, &str),
    points: &[Item],
) -> Result<(), AllocError>
    ensures { OnOk result (text.new.items ≡ text.old.items ++ block.points_text layout.now form words.entry.0.now points.now words.entry.1.now) }
{
    if points.is_empty() {
        return add_no_points(text, form);
    }
    add_list_key(text, layout, form, words, points)
}

/// Ports as items of a list.
#[tactic(auto, unfolding(crate::specs::Block::port_items))]
fn port_items(alloc: Global, ports: &[Port]) -> Result<Vec<Item>, AllocError>
    ensures { IfOk result (λ v. v.items ≡ block.port_items ports.now) }
{
    ports.iter().map(|port| Item::Port(*port)).collect(alloc)
}

/// Points with their sides as items of a list.
#[tactic(auto, unfolding(crate::specs::Block::point_items))]
fn point_items(alloc: Global, points: &[(PointId, Side)]) -> Result<Vec<Item>, AllocError>
    ensures { IfOk result (λ v. v.items ≡ block.point_items points.now) }
{
    points
        .iter()
        .map(|point| Item::Point(point.0, point.1))
        .collect(alloc)
}

/// Sections as items of a list.
#[tactic(auto, unfolding(crate::specs::Block::section_items))]
fn section_items(alloc: Global, sections: &[SectionId]) -> Result<Vec<Item>, AllocError>
    ensures { IfOk result (λ v. v.items ≡ block.section_items sections.now) }
{
    sections
        .iter()
        .map(|section| Item::Section(*section))
        .collect(alloc)
}

/// Adds the key with the name of a route.
#[tactic(auto, using(crate::proofs::Added::three_added))]
fn add_name_key(text: &mut Vec<u8>, route: &DerivedRoute) -> Result<(), AllocError>
    ensures { OnOk result (text.new.items ≡ text.old.items ++ block.name_key route.now) }
{
    add(text, "name = \"")?;
    add(text, route.name().as_str())?;
    add(text, "\"")
}

/// Adds the key with the signal at which a route begins.
#[tactic(auto, using(crate::proofs::Added::three_added))]
fn add_entry_key(
    text: &mut Vec<u8>,
    layout: &Layout,
    route: &DerivedRoute,
) -> Result<(), AllocError>
    ensures { OnOk result (text.new.items ≡ text.old.items ++ block.entry_key layout.now route.now) }
{
    add(text, "entry = \"")?;
    add_signal(text, layout, route.entry())?;
    add(text, "\"")
}

/// Adds the key with the end of a route.
#[tactic(auto, using(crate::proofs::Added::three_added))]
fn add_exit_key(text: &mut Vec<u8>, layout: &Layout, route: &DerivedRoute) -> Result<(), AllocError>
    ensures { OnOk result (text.new.items ≡ text.old.items ++ block.exit_key layout.now route.now) }
{
    add(text, "exit = \"")?;
    add_exit(text, layout, route.exit())?;
    add(text, "\"")
}

/// What is written, how, and where.
#[derive(Clone, Copy)]
struct Written<'a> {
    alloc: Global,
    layout: &'a Layout,
    route: &'a DerivedRoute,
    form: Form,
}

/// Adds what a route is called and where it begins.
#[tactic(auto, using(crate::proofs::Added::four_added))]
fn add_head(text: &mut Vec<u8>, written: Written<'_>) -> Result<(), AllocError>
    ensures { OnOk result (text.new.items ≡ text.old.items ++ block.head_text written.entry.form written.entry.layout.now written.entry.route.now) }
{
    let Written {
        layout,
        route,
        form,
        ..
    } = written;
    add_opening(text, form)?;
    add_name_key(text, route)?;
    add_between(text, form)?;
    add_entry_key(text, layout, route)
}

/// Adds where a route ends and by which ports it leads.
#[tactic(auto, using(crate::proofs::Added::three_added))]
fn add_way(text: &mut Vec<u8>, written: Written<'_>) -> Result<(), AllocError>
    ensures { OnOk result (text.new.items ≡ text.old.items ++ block.way_text written.entry.form written.entry.layout.now written.entry.route.now) }
{
    let Written {
        alloc,
        layout,
        route,
        form,
    } = written;
    let ports = port_items(alloc, route.path())?;
    add_between(text, form)?;
    add_exit_key(text, layout, route)?;
    add_list_key(text, layout, form, ("path = [", "]"), &ports)
}

/// Adds which points a route requires, and its approach.
#[tactic(auto, using(crate::proofs::Added::three_added))]
fn add_needs(text: &mut Vec<u8>, written: Written<'_>) -> Result<(), AllocError>
    ensures { OnOk result (text.new.items ≡ text.old.items ++ block.needs_text written.entry.form written.entry.layout.now written.entry.route.now) }
{
    let Written {
        alloc,
        layout,
        route,
        form,
    } = written;
    let points = point_items(alloc, route.points())?;
    let flank = point_items(alloc, route.flank())?;
    let sections = section_items(alloc, route.approach())?;
    add_points(text, layout, form, ("points = { ", " }"), &points)?;
    add_optional(text, layout, form, ("flank = { ", " }"), &flank)?;
    add_optional(text, layout, form, ("approach = [", "]"), &sections)
}

/// Adds the aspect of a route that is slow.
#[tactic(auto, using(crate::proofs::Added::two_added))]
fn add_aspect(text: &mut Vec<u8>, form: Form, aspect: Aspect) -> Result<(), AllocError>
    ensures { OnOk result (text.new.items ≡ text.old.items ++ block.aspect_text form aspect) }
{
    if !matches!(aspect, Aspect::Slow) {
        return add(text, "");
    }
    add_between(text, form)?;
    add(text, "aspect = \"slow\"")
}

/// Adds a route.
#[tactic(auto, using(crate::proofs::Added::five_added))]
pub fn add_route(
    alloc: Global,
    text: &mut Vec<u8>,
    layout: &Layout,
    route: &DerivedRoute,
    form: Form,
) -> Result<(), AllocError>
    ensures { OnOk result (text.new.items ≡ text.old.items ++ block.route_text form layout.now route.now) }
{
    let written = Written {
        alloc,
        layout,
        route,
        form,
    };
    add_head(text, written)?;
    add_way(text, written)?;
    add_needs(text, written)?;
    add_aspect(text, form, route.aspect())?;
    add_closing(text, form)
}

/// Routes, one after the other.
pub(crate) fn routes_in(
    alloc: Global,
    layout: &Layout,
    routes: &[DerivedRoute],
    form: Form,
) -> Result<Vec<u8>, AllocError>
    ensures { IfOk result (λ v. v.items ≡ flat_map (block.route_text form layout.now) routes.now) }
{
    let mut text = Vec::new(alloc);
    for route in routes {
        add_route(alloc, &mut text, layout, route, form)?;
    }
    Ok(text)
}
