//! What a node has told of what is closed.

ghost use Rattle.std.specs.Prelude.{◌≡◌, ◌++◌, ◌∷◌, [], IfOk, OnOk};
ghost use Rattle.panel_desk.specs.declared.panel_line.PanelLine.TheVariants.{Closed};
ghost use Rattle.node_panel.specs.ClosedHeard.{all_open, closed_lines, each, nothing_closed, point_line, put_closing, route_line, section_line, signal_line};

use crate::heard::{put_all, put_at};
use panel_desk::{Layout, PanelLine, PointId, RouteId, SectionId, Side, SignalId, Thing};
use std::alloc::{AllocError, Global};
use std::marker::Model;

/// Of each thing, whether it is closed, by what was told last.
#[derive(Drop)]
pub(crate) struct ClosedHeard {
    sections: Vec<bool>,
    /// Of each point, whether it is closed at the left.
    left: Vec<bool>,
    right: Vec<bool>,
    signals: Vec<bool>,
    routes: Vec<bool>,
}

impl Model for ClosedHeard {
    ghost use Rattle.node_panel.specs.ClosedHeard.{ClosedView};

    ghost Value = { ClosedView };

    ghost view = { λ c. record { sections = c.sections.items; left = c.left.items; right = c.right.items; signals = c.signals.items; routes = c.routes.items } };
}

impl ClosedHeard {
    /// Of a station with this layout nothing was told as closed.
    pub(crate) fn nothing(alloc: Global, layout: &Layout) -> Result<ClosedHeard, AllocError>
        ensures { IfOk result (λ closed. closed ≡ nothing_closed layout.now) }
    {
        let points = layout.points().len();
        Ok(ClosedHeard {
            sections: vec![in alloc; false; layout.sections().len()]?,
            left: vec![in alloc; false; points]?,
            right: vec![in alloc; false; points]?,
            signals: vec![in alloc; false; layout.signals().len()]?,
            routes: vec![in alloc; false; layout.routes().len()]?,
        })
    }

    /// Nothing was told as closed.
    pub(crate) fn forget(&mut self)
        ensures { self.new ≡ all_open self.old }
    {
        put_all(&mut self.sections, false);
        put_all(&mut self.left, false);
        put_all(&mut self.right, false);
        put_all(&mut self.signals, false);
        put_all(&mut self.routes, false);
    }

    /// A thing is told as closed, or as open.
    pub(crate) fn put(&mut self, thing: Thing, is_closed: bool)
        ensures { self.new ≡ put_closing thing is_closed self.old }
    {
        match thing {
            Thing::Section(section) => put_at(&mut self.sections, section.0, is_closed),
            Thing::Point(point, Side::Left) => put_at(&mut self.left, point.0, is_closed),
            Thing::Point(point, Side::Right) => put_at(&mut self.right, point.0, is_closed),
            Thing::Signal(signal) => put_at(&mut self.signals, signal.0, is_closed),
            Thing::Route(route) => put_at(&mut self.routes, route.0, is_closed),
        }
    }

    /// Adds a line of each thing.
    pub(crate) fn add_lines(&self, lines: &mut Vec<PanelLine>) -> Result<(), AllocError>
        ensures { OnOk result (lines.new.items ≡ lines.old.items ++ closed_lines self.now) }
    {
        add_sections(lines, &self.sections)?;
        add_points(lines, Side::Left, &self.left)?;
        add_points(lines, Side::Right, &self.right)?;
        add_signals(lines, &self.signals)?;
        add_routes(lines, &self.routes)
    }
}

/// Adds the line of a thing.
fn add(lines: &mut Vec<PanelLine>, thing: Thing, is_closed: bool) -> Result<(), AllocError>
    ensures { OnOk result (lines.new.items ≡ lines.old.items ++ Closed thing is_closed ∷ []) }
{
    lines.push(PanelLine::Closed { thing, is_closed })?;
    Ok(())
}

fn add_sections(lines: &mut Vec<PanelLine>, closed: &[bool]) -> Result<(), AllocError>
    ensures { OnOk result (lines.new.items ≡ lines.old.items ++ each section_line 0 closed.now) }
{
    for (place, is_closed) in closed.iter().enumerate() {
        add(lines, Thing::Section(SectionId(place)), *is_closed)?;
    }
    Ok(())
}

fn add_points(lines: &mut Vec<PanelLine>, side: Side, closed: &[bool]) -> Result<(), AllocError>
    ensures { OnOk result (lines.new.items ≡ lines.old.items ++ each (point_line side) 0 closed.now) }
{
    for (place, is_closed) in closed.iter().enumerate() {
        add(lines, Thing::Point(PointId(place), side), *is_closed)?;
    }
    Ok(())
}

fn add_signals(lines: &mut Vec<PanelLine>, closed: &[bool]) -> Result<(), AllocError>
    ensures { OnOk result (lines.new.items ≡ lines.old.items ++ each signal_line 0 closed.now) }
{
    for (place, is_closed) in closed.iter().enumerate() {
        add(lines, Thing::Signal(SignalId(place)), *is_closed)?;
    }
    Ok(())
}

fn add_routes(lines: &mut Vec<PanelLine>, closed: &[bool]) -> Result<(), AllocError>
    ensures { OnOk result (lines.new.items ≡ lines.old.items ++ each route_line 0 closed.now) }
{
    for (place, is_closed) in closed.iter().enumerate() {
        add(lines, Thing::Route(RouteId(place)), *is_closed)?;
    }
    Ok(())
}
