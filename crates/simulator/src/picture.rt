//! The text of a world's picture.

ghost use Rattle.std.specs.Prelude.{◌≡◌, ◌++◌, IfOk, OnOk, length, string_bytes};
ghost use Rattle.simulator_spec.specs.Picture.{point_lines, route_lines, section_lines, signal_lines};
ghost use Rattle.simulator_spec.specs.Interlocking.{held_of};
ghost use Rattle.simulator.specs.World.{IsPicture};
ghost use Rattle.simulator.specs.inside.Lines.{point_line, route_line, section_line, signal_line};

use crate::words::{authority, driven_words, safe_word, set_word};
use crate::world::World;
use simulator_spec::{
    Aspect, MICROS, Name, Occupancy, PointId, Position, RouteId, SectionId, Side, SignalId,
};
use std::alloc::{AllocError, Global};

impl World {
    /// The text of the picture: true time in whole milliseconds, a line for each signal, point, section and route in the
    /// order of the layout, and last whether what is seen is safe. It is, so the last line is `safe`. The last line has no
    /// line feed after it.
    pub fn picture(&self, alloc: Global) -> Result<String, AllocError>
        ensures { IfOk result (λ text. IsPicture self.now.sited self.now.run (string_bytes text)) }
    {
        let is_safe = self.safe();
        let millis = self.time() / MICROS;
        let mut text = format!(in alloc; "time {millis}")?;
        push_signals(&mut text, self)?;
        push_points(&mut text, self)?;
        push_sections(&mut text, self)?;
        push_routes(&mut text, self)?;
        let last = safe_word(is_safe);
        write!(text, "\n{last}")?;
        Ok(text)
    }
}

/// Adds the lines of the signals.
fn push_signals(text: &mut String, world: &World) -> Result<(), AllocError>
    ensures { OnOk result (string_bytes text.new ≡ string_bytes text.old ++ signal_lines world.now.sited.site (held_of world.now.sited.table world.now.run.interlocking world.now.run.frozen) 0 world.now.sited.site.signals world.now.run.signals) }
{
    let held = world.held();
    let layout = world.table().layout();
    let signals = layout.signals();
    for place in 0..signals.len() {
        let route = authority(layout, &held, place);
        push_signal(
            text,
            &signals[place].name,
            world.shown(SignalId(place)),
            route,
        )?;
    }
    Ok(())
}

/// Adds the line of a signal, with the route that has authority from it.
fn push_signal(
    text: &mut String,
    name: &Name,
    aspect: Aspect,
    authority: &str,
) -> Result<(), AllocError>
    ensures { OnOk result (string_bytes text.new ≡ string_bytes text.old ++ signal_line name.now aspect authority.now) }
{
    let name = name.as_str();
    let aspect = aspect.word();
    write!(text, "\nsignal {name} {aspect} {authority}")
}

/// Adds the lines of the points.
fn push_points(text: &mut String, world: &World) -> Result<(), AllocError>
    requires { length world.now.run.points ≡ length world.now.sited.site.points }
    ensures { OnOk result (string_bytes text.new ≡ string_bytes text.old ++ point_lines world.now.sited.site.points world.now.run.positions world.now.run.points) }
{
    let points = world.table().layout().points();
    for place in 0..points.len() {
        let position = world.position(PointId(place));
        push_point(
            text,
            &points[place].name,
            position,
            world.driven(PointId(place)),
        )?;
    }
    Ok(())
}

/// Adds the line of a point.
fn push_point(
    text: &mut String,
    name: &Name,
    position: Position,
    driven: Option<Side>,
) -> Result<(), AllocError>
    ensures { OnOk result (string_bytes text.new ≡ string_bytes text.old ++ point_line name.now position driven) }
{
    let name = name.as_str();
    let position = position.word();
    let driven = driven_words(driven);
    write!(text, "\npoint {name} {position}{driven}")
}

/// Adds the lines of the sections.
fn push_sections(text: &mut String, world: &World) -> Result<(), AllocError>
    ensures { OnOk result (string_bytes text.new ≡ string_bytes text.old ++ section_lines world.now.sited.site.sections world.now.run.occupancies) }
{
    let sections = world.table().layout().sections();
    for place in 0..sections.len() {
        push_section(text, &sections[place], world.occupancy(SectionId(place)))?;
    }
    Ok(())
}

/// Adds the line of a section.
fn push_section(text: &mut String, name: &Name, occupancy: Occupancy) -> Result<(), AllocError>
    ensures { OnOk result (string_bytes text.new ≡ string_bytes text.old ++ section_line name.now occupancy) }
{
    let name = name.as_str();
    let occupancy = occupancy.word();
    write!(text, "\nsection {name} {occupancy}")
}

/// Adds the lines of the routes.
fn push_routes(text: &mut String, world: &World) -> Result<(), AllocError>
    ensures { OnOk result (string_bytes text.new ≡ string_bytes text.old ++ route_lines world.now.sited.site.routes world.now.run.interlocking.ixl.routes) }
{
    let routes = world.table().layout().routes();
    for place in 0..routes.len() {
        push_route(text, routes[place].name(), world.is_set(RouteId(place)))?;
    }
    Ok(())
}

/// Adds the line of a route.
fn push_route(text: &mut String, name: &Name, is_set: bool) -> Result<(), AllocError>
    ensures { OnOk result (string_bytes text.new ≡ string_bytes text.old ++ route_line name.now is_set) }
{
    let name = name.as_str();
    let state = set_word(is_set);
    write!(text, "\nroute {name} {state}")
}
