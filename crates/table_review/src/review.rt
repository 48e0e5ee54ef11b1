//! What a sound table is told to lack, line by line.

ghost use Rattle.std.specs.Prelude.{IfOk};
ghost use Rattle.table_review.specs.Asked.{IsSoundText};

use crate::fault::ReviewFault;
use crate::names::{
    add, add_border, add_exit, add_name, add_point, add_port, add_section, add_side_word,
    add_signal,
};
use crate::slow_key::slow_legs;
use crate::topology::layout_or_topology;
use route_derivation::control_table::layout::{
    BorderId, Exit, Layout, PointId, Port, Route, SectionId, SignalId,
};
use route_derivation::control_table::{Checked, Side, check};
use route_derivation::{
    ApproachRule, DerivedRoute, Hindrance, ImpossibleWay, SlowLegs, Underived, all_signals,
    approach_of, impossible_ways, lacking_routes,
};
use std::alloc::{AllocError, Global};

/// Adds a space and the name of a section.
fn add_spaced_section(
    text: &mut Vec<u8>,
    layout: &Layout,
    section: SectionId,
) -> Result<(), AllocError> {
    add(text, " ")?;
    add_section(text, layout, section)
}

/// Adds the line of a route that the table lacks.
fn add_left_out(
    text: &mut Vec<u8>,
    layout: &Layout,
    route: &DerivedRoute,
) -> Result<(), AllocError> {
    add(text, "left out ")?;
    add_name(text, Some(*route.name()))?;
    add(text, ": over")?;
    for port in route.path() {
        add(text, " ")?;
        add_port(text, layout, *port)?;
    }
    add(text, "\n")
}

/// Adds the leg of a point at a side.
fn add_leg(
    text: &mut Vec<u8>,
    layout: &Layout,
    point: PointId,
    side: Side,
) -> Result<(), AllocError> {
    add_point(text, layout, point)?;
    add(text, ".")?;
    add_side_word(text, side)
}

/// Adds that a leg is open.
fn add_open_leg(
    text: &mut Vec<u8>,
    layout: &Layout,
    leg: (PointId, Side),
    from: Port,
) -> Result<(), AllocError> {
    add_leg(text, layout, leg.0, leg.1)?;
    add(text, " is open, no signal stands at ")?;
    add_port(text, layout, from)?;
    add(text, ", to which it is joined")
}

/// Adds that a point is required at both sides.
fn add_both_sides(
    text: &mut Vec<u8>,
    layout: &Layout,
    point: PointId,
    left: (PointId, Side),
    right: (PointId, Side),
) -> Result<(), AllocError> {
    add_point(text, layout, point)?;
    add(text, " is required left by ")?;
    add_leg(text, layout, left.0, left.1)?;
    add(text, " and right by ")?;
    add_leg(text, layout, right.0, right.1)
}

/// Adds what hinders a way.
fn add_hindrance(
    text: &mut Vec<u8>,
    layout: &Layout,
    hindrance: Hindrance,
) -> Result<(), AllocError> {
    match hindrance {
        Hindrance::OpenLeg(point, side, from) => add_open_leg(text, layout, (point, side), from),
        Hindrance::BothSides(point, left, right) => {
            add_both_sides(text, layout, point, left, right)
        }
    }
}

/// The line of an impossible way.
fn impossible_line(
    alloc: Global,
    layout: &Layout,
    way: &ImpossibleWay,
) -> Result<Vec<u8>, AllocError> {
    let mut line = Vec::new(alloc);
    add(&mut line, "impossible ")?;
    add_signal(&mut line, layout, way.entry)?;
    add(&mut line, " to ")?;
    add_exit(&mut line, layout, way.exit)?;
    add(&mut line, ": ")?;
    add_hindrance(&mut line, layout, way.hindrance)?;
    add(&mut line, "\n")?;
    Ok(line)
}

/// Whether a line stands in a list.
fn is_told(lines: &[Vec<u8>], line: &[u8]) -> bool {
    lines.iter().any(|told| told.as_slice() == line)
}

/// The lines of impossible ways, each once.
fn impossible_lines(
    alloc: Global,
    layout: &Layout,
    ways: &[ImpossibleWay],
) -> Result<Vec<Vec<u8>>, AllocError> {
    let mut lines = Vec::new(alloc);
    for way in ways {
        let line = impossible_line(alloc, layout, way)?;
        if !is_told(&lines, &line) {
            lines.push(line)?;
        }
    }
    Ok(lines)
}

/// Adds the line of a signal at which more ways begin than are looked at.
fn add_many_ways(text: &mut Vec<u8>, layout: &Layout, signal: SignalId) -> Result<(), AllocError> {
    add(text, "more than 64 ways from ")?;
    add_signal(text, layout, signal)?;
    add(text, ": those that are impossible aren't told\n")
}

/// Adds the impossible ways of a signal.
fn add_impossible(
    alloc: Global,
    text: &mut Vec<u8>,
    layout: &Layout,
    signal: SignalId,
) -> Result<(), ReviewFault> {
    match impossible_ways(alloc, layout, signal) {
        Ok(ways) => {
            for line in impossible_lines(alloc, layout, &ways)? {
                text.extend_from_slice(&line)?;
            }
            Ok(())
        }
        Err(Underived::TooMany) => Ok(add_many_ways(text, layout, signal)?),
        Err(fault) => Err(ReviewFault::Underived(fault)),
    }
}

/// Whether a route of a table begins at a signal.
fn begins_route(routes: &[Route], signal: SignalId) -> bool {
    routes.iter().any(|route| route.entry().0 == signal.0)
}

/// Whether a route of a table ends at a border.
fn ends_route(routes: &[Route], border: BorderId) -> bool {
    routes
        .iter()
        .any(|route| route.exit() == Exit::Border(border))
}

/// Adds the signals at which no route begins, and the borders at which none ends.
fn add_without_routes(text: &mut Vec<u8>, layout: &Layout) -> Result<(), AllocError> {
    for place in 0..layout.signals().len() {
        if !begins_route(layout.routes(), SignalId(place)) {
            add(text, "no route from ")?;
            add_signal(text, layout, SignalId(place))?;
            add(text, "\n")?;
        }
    }
    for place in 0..layout.borders().len() {
        if !ends_route(layout.routes(), BorderId(place)) {
            add(text, "no route to border ")?;
            add_border(text, layout, BorderId(place))?;
            add(text, "\n")?;
        }
    }
    Ok(())
}

/// Whether a section stands in a list.
fn has_section(sections: &[SectionId], section: SectionId) -> bool {
    sections.iter().any(|one| one.0 == section.0)
}

/// The sections of one list that another lacks.
fn sections_lacking(
    alloc: Global,
    wanted: &[SectionId],
    listed: &[SectionId],
) -> Result<Vec<SectionId>, AllocError> {
    let mut lacking = Vec::new(alloc);
    for section in wanted {
        if !has_section(listed, *section) {
            lacking.push(*section)?;
        }
    }
    Ok(lacking)
}

/// Adds which sections the approach of a route lacks.
fn add_approach(
    alloc: Global,
    text: &mut Vec<u8>,
    layout: &Layout,
    route: &Route,
) -> Result<(), AllocError> {
    if route.approach().is_empty() {
        add(text, "no approach of ")?;
        add_name(text, Some(*route.name()))?;
        return add(text, ": each cancel holds it for 120 s\n");
    }
    let wanted = approach_of(alloc, layout, ApproachRule::Signal, route.entry())?;
    let lacking = sections_lacking(alloc, &wanted, route.approach())?;
    if lacking.is_empty() {
        return Ok(());
    }
    add(text, "approach of ")?;
    add_name(text, Some(*route.name()))?;
    add(text, " lacks")?;
    for section in &lacking {
        add_spaced_section(text, layout, *section)?;
    }
    add(text, "\n")
}

/// Adds the routes that a table lacks.
fn add_all_left_out(
    alloc: Global,
    text: &mut Vec<u8>,
    layout: &Layout,
    slow: &[SlowLegs],
) -> Result<(), ReviewFault> {
    let entries = all_signals(alloc, layout)?;
    match lacking_routes(alloc, layout, &entries, slow, ApproachRule::Signal) {
        Ok(routes) => {
            for route in &routes {
                add_left_out(text, layout, route)?;
            }
            Ok(())
        }
        Err(Underived::TooMany) => Ok(add(
            text,
            "more than 64 routes: those that are left out aren't told\n",
        )?),
        Err(fault) => Err(ReviewFault::Underived(fault)),
    }
}

/// The lines that tell what a sound table lacks.
fn review(alloc: Global, table: &Checked, slow: &[SlowLegs]) -> Result<Vec<u8>, ReviewFault> {
    let layout = table.layout();
    let mut text = Vec::new(alloc);
    add_all_left_out(alloc, &mut text, layout, slow)?;
    for place in 0..layout.signals().len() {
        add_impossible(alloc, &mut text, layout, SignalId(place))?;
    }
    add_without_routes(&mut text, layout)?;
    for route in layout.routes() {
        add_approach(alloc, &mut text, layout, route)?;
    }
    Ok(text)
}

/// What the table of a layout's text lacks, in words, each in a line: the routes that are left out; the ways that can't
/// be routes, and why; the signals at which no route begins, and the borders at which none ends; and the approaches that
/// lack sections. The table has to be sound, as for `check`.
pub fn review_text(alloc: Global, text: &str) -> Result<Vec<u8>, ReviewFault>
    ensures { IfOk result (λ _. IsSoundText text.now) }
{
    let layout = layout_or_topology(alloc, text)?;
    let slow = slow_legs(alloc, text)?;
    let table = check(alloc, layout)?;
    review(alloc, &table, &slow)
}
