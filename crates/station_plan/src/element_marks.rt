//! How tracks, points, borders and joints are drawn.

ghost use Rattle.std.specs.Prelude.{◌≡◌, ◌++◌, ◌∷◌, [], OnOk};
ghost use Rattle.station_plan.specs.Faces.{band, border_strokes, rail, tick};
ghost use Rattle.station_plan.specs.Strokes.{line, strokes, written};

use crate::marks::Marks;
use crate::sketch::{Sketch, sign, spot};
use crate::units::Units;
use crate::yard::Place;
use control_table::Name;
use control_table::layout::End;
use drawing::{Anchor, Spot};
use std::alloc::AllocError;

/// Half the length of what marks a dead end.
const STOP: Units = Units(7);
/// Half the length of a joint.
const TICK: Units = Units(6);

/// A spot that lies elsewhere.
pub(crate) fn moved(from: Spot, x: i32, y: i32) -> Spot {
    Spot {
        x: from.x.saturating_add(x),
        y: from.y.saturating_add(y),
    }
}

/// A spot so far along a line from another.
pub(crate) fn along(from: Spot, side: i32, slope: i32, length: i32) -> Spot {
    moved(
        from,
        side.saturating_mul(length),
        slope.saturating_mul(length),
    )
}

/// Draws a track: its line, its ends and its name.
pub(crate) fn draw_track(
    marks: &mut Marks,
    more: &mut Marks,
    sketch: &Sketch,
    element: usize,
    name: Name,
) -> Result<(), AllocError>
    ensures drawn { OnOk result (strokes marks.new.marks.items ≡ strokes marks.old.marks.items ++ rail) }
    ensures named { OnOk result (written marks.new.marks.items ≡ written marks.old.marks.items ++ name) }
{
    draw_row(marks, "rail", sketch, element)?;
    draw_ends(more, sketch, element)?;
    let (at, anchor) = track_name_spot(sketch, element);
    marks.name("name", at, anchor, name, true)
}

/// Where the name of a track stands.
fn track_name_spot(sketch: &Sketch, element: usize) -> (Spot, Anchor) {
    if sketch.is_by_hand() {
        return hand_text(sketch, element, true);
    }
    let (left, right) = sketch.row_line(element);
    let room = sketch.signal_room(element, false);
    let middle = (Units(left.x) + room + Units(right.x)).half();
    (spot(middle, Units(left.y) - Units(8)), Anchor::Middle)
}

/// Where a text stands above or below the middle of a track that is drawn by hand.
pub(crate) fn hand_text(sketch: &Sketch, element: usize, above: bool) -> (Spot, Anchor) {
    let at = sketch.hand_spot(element);
    let heading = sketch.first_heading(Place {
        element,
        end: End::B,
    });
    let down = if above { -8 } else { 15 };
    if heading.slope == 0 {
        return (moved(at, 0, down), Anchor::Middle);
    }
    // Beside a line that leads up or down it stands where the line leaves room.
    let right = heading.side.saturating_mul(heading.slope) >= 0;
    if right == above {
        (moved(at, 9, down.saturating_div(2)), Anchor::Start)
    } else {
        (moved(at, -9, down.saturating_div(2)), Anchor::End)
    }
}

/// Draws the line of an element on its row, or as it is drawn by hand: from its first end to its second.
fn draw_row(
    marks: &mut Marks,
    class: &str,
    sketch: &Sketch,
    element: usize,
) -> Result<(), AllocError>
    ensures drawn { OnOk result (strokes marks.new.marks.items ≡ strokes marks.old.marks.items ++ line class.now ∷ []) }
    ensures named { OnOk result (written marks.new.marks.items ≡ written marks.old.marks.items) }
{
    if !sketch.is_by_hand() {
        let (left, right) = sketch.row_line(element);
        return marks.line(class, left, right);
    }
    let (from, to) = match sketch.numbers.ends(element) {
        [from, to, ..] => (*from, *to),
        _ => (End::End, End::End),
    };
    let line = sketch.hand_line(Place { element, end: from }, Place { element, end: to })?;
    marks.path(class, line)
}

/// Draws what stands at the ends of a track.
fn draw_ends(marks: &mut Marks, sketch: &Sketch, element: usize) -> Result<(), AllocError> {
    if !sketch.is_by_hand() {
        draw_end(marks, sketch, element, false)?;
        return draw_end(marks, sketch, element, true);
    }
    for end in sketch.numbers.ends(element) {
        draw_buffer(marks, sketch, Place { element, end: *end })?;
    }
    Ok(())
}

/// Draws a dead end at a port that is drawn by hand, if it is one.
fn draw_buffer(marks: &mut Marks, sketch: &Sketch, place: Place) -> Result<(), AllocError> {
    if sketch.port(place).mate.is_some() {
        return Ok(());
    }
    let (one, other) = across(sketch, place, 7, 5);
    marks.line("buffer", one, other)
}

/// The ends of a line across another at a port that is drawn by hand: so long to each side, or so long across a slanted one.
fn across(sketch: &Sketch, place: Place, level: i32, slanted: i32) -> (Spot, Spot) {
    let heading = sketch.heading(place);
    let length = if heading.is_slanted() { slanted } else { level };
    let at = sketch.hand_port(place);
    let right = heading.right();
    (
        right.along(at, length.saturating_neg()),
        right.along(at, length),
    )
}

/// Draws what stands at an end of a row: a dead end, or the number of the joint by which the line goes on elsewhere.
fn draw_end(
    marks: &mut Marks,
    sketch: &Sketch,
    element: usize,
    right: bool,
) -> Result<(), AllocError> {
    let Some(place) = sketch.level_port(element, right) else {
        return Ok(());
    };
    if sketch.port(place).mate.is_some() {
        return draw_connector(marks, sketch, place);
    }
    let at = sketch.port_spot(place);
    marks.line("buffer", moved(at, 0, -STOP.0), moved(at, 0, STOP.0))
}

/// Draws the number of the joint by which a line goes on elsewhere, where it does.
fn draw_connector(marks: &mut Marks, sketch: &Sketch, place: Place) -> Result<(), AllocError> {
    let Some(number) = sketch.port(place).connector else {
        return Ok(());
    };
    let (slope, line, ring) = if sketch.is_level(place) {
        (0, 16, 8)
    } else {
        (sketch.slope(place.element), 8, 6)
    };
    let side = sign(sketch.is_right(place));
    let at = sketch.port_spot(place);
    let end = along(at, side, slope, line);
    marks.line("elsewhere", at, end)?;
    marks.number(along(end, side, slope, ring), number)
}

/// Draws the tip or a leg of a point. No buffer stands after an open one: that of a trap point just ends.
pub(crate) fn draw_branch(
    marks: &mut Marks,
    more: &mut Marks,
    sketch: &Sketch,
    place: Place,
) -> Result<(), AllocError>
    ensures drawn { OnOk result (strokes marks.new.marks.items ≡ strokes marks.old.marks.items ++ rail) }
    ensures named { OnOk result (written marks.new.marks.items ≡ written marks.old.marks.items) }
{
    draw_leg(marks, "rail", sketch, place)?;
    draw_connector(more, sketch, place)
}

/// Draws the line from a point to a port.
fn draw_leg(marks: &mut Marks, class: &str, sketch: &Sketch, place: Place) -> Result<(), AllocError>
    ensures drawn { OnOk result (strokes marks.new.marks.items ≡ strokes marks.old.marks.items ++ line class.now ∷ []) }
    ensures named { OnOk result (written marks.new.marks.items ≡ written marks.old.marks.items) }
{
    if sketch.is_by_hand() {
        let spots = Vec::from_slice(marks.alloc, sketch.line_at(place))?;
        return marks.path(class, spots);
    }
    let from = sketch.spot(place.element);
    let corner = sketch.corner_of(place);
    let to = sketch.port_spot(place);
    marks.bend(class, from, corner, to)
}

/// Draws the name of a point at the side from which its other leg doesn't part, the hand of this leg where it is drawn
/// otherwise than it leads, and a ring round it where it protects the flank of the route that is shown.
pub(crate) fn draw_point(
    marks: &mut Marks,
    more: &mut Marks,
    sketch: &Sketch,
    element: usize,
    name: Name,
    is_flank: bool,
) -> Result<(), AllocError>
    ensures drawn { OnOk result (strokes marks.new.marks.items ≡ strokes marks.old.marks.items) }
    ensures named { OnOk result (written marks.new.marks.items ≡ written marks.old.marks.items ++ name) }
{
    let at = sketch.spot(element);
    let up = sketch.parts_up(element);
    let down = if up { 16 } else { -8 };
    marks.name("name", moved(at, 0, down), Anchor::Middle, name, !up)?;
    if !sketch.is_by_hand() && up != sketch.leads_up(sketch.minor(element)) {
        draw_hand(more, sketch, element)?;
    }
    if is_flank {
        more.circle("guard", at, 4)?;
    }
    Ok(())
}

/// Draws the hand of the other leg of a point.
fn draw_hand(marks: &mut Marks, sketch: &Sketch, element: usize) -> Result<(), AllocError> {
    let place = sketch.minor(element);
    let side = sign(sketch.is_right(place));
    let at = moved(
        sketch.spot(element),
        side.saturating_mul(3),
        sketch.slope(element).saturating_mul(14).saturating_add(4),
    );
    let hand = if place.end == End::Left { "L" } else { "R" };
    marks.text("hand", at, Anchor::Middle, hand)
}

/// Draws a border: an arrow into the plan, its line, and its name.
pub(crate) fn draw_border(
    marks: &mut Marks,
    more: &mut Marks,
    sketch: &Sketch,
    element: usize,
    name: Name,
) -> Result<(), AllocError>
    ensures drawn { OnOk result (strokes marks.new.marks.items ≡ strokes marks.old.marks.items ++ border_strokes) }
    ensures named { OnOk result (written marks.new.marks.items ≡ written marks.old.marks.items ++ name) }
{
    let place = Place {
        element,
        end: End::End,
    };
    let (outer, right) = border_spot(sketch, place);
    let side = sign(right);
    let tip = moved(outer, side.saturating_mul(10), 0);
    marks.triangle("arrow", moved(outer, 0, -5), tip, moved(outer, 0, 5))?;
    marks.line("rail", tip, sketch.port_spot(place))?;
    draw_border_end(more, sketch, place, right)?;
    let anchor = if right { Anchor::Start } else { Anchor::End };
    marks.name("name", moved(outer, 0, -8), anchor, name, true)
}

/// Where the arrow of a border begins, and whether it leads to the right.
fn border_spot(sketch: &Sketch, place: Place) -> (Spot, bool) {
    if !sketch.is_by_hand() {
        let right = sketch.is_right(place);
        let half = sketch.facts(place.element).half.times(sign(right));
        let at = sketch.spot(place.element);
        return (spot(Units(at.x) - half, Units(at.y)), right);
    }
    let right = match sketch.port(place).mate {
        Some(mate) => sketch.heading(mate).side < 1,
        None => true,
    };
    let outward = sign(!right).saturating_mul(16);
    (moved(sketch.hand_port(place), outward, 0), right)
}

/// Draws what stands at the end of a border.
fn draw_border_end(
    marks: &mut Marks,
    sketch: &Sketch,
    place: Place,
    right: bool,
) -> Result<(), AllocError> {
    if sketch.is_by_hand() {
        draw_buffer(marks, sketch, place)
    } else {
        draw_end(marks, sketch, place.element, right)
    }
}

/// Draws a joint across the line.
pub(crate) fn draw_joint(marks: &mut Marks, sketch: &Sketch, place: Place) -> Result<(), AllocError>
    ensures drawn { OnOk result (strokes marks.new.marks.items ≡ strokes marks.old.marks.items ++ tick) }
    ensures named { OnOk result (written marks.new.marks.items ≡ written marks.old.marks.items) }
{
    if sketch.is_by_hand() {
        let (one, other) = across(sketch, place, TICK.0, 4);
        return marks.line("joint", one, other);
    }
    let at = sketch.port_spot(place);
    if !sketch.is_slanted(place) {
        return marks.line("joint", moved(at, 0, -TICK.0), moved(at, 0, TICK.0));
    }
    let across = sign(sketch.is_right(place))
        .saturating_mul(sketch.slope(place.element))
        .saturating_mul(4);
    marks.line(
        "joint",
        moved(at, -4, across),
        moved(at, 4, across.saturating_neg()),
    )
}

/// Draws the band of an element's section.
pub(crate) fn draw_band(
    marks: &mut Marks,
    sketch: &Sketch,
    element: usize,
) -> Result<(), AllocError>
    ensures drawn { OnOk result (strokes marks.new.marks.items ≡ strokes marks.old.marks.items ++ band ∷ []) }
    ensures named { OnOk result (written marks.new.marks.items ≡ written marks.old.marks.items) }
{
    draw_row(marks, "band", sketch, element)
}

/// Draws the band of a point's section: its row and its other leg.
pub(crate) fn draw_point_band(
    marks: &mut Marks,
    sketch: &Sketch,
    element: usize,
) -> Result<(), AllocError>
    ensures drawn { OnOk result (strokes marks.new.marks.items ≡ strokes marks.old.marks.items ++ band ∷ band ∷ []) }
    ensures named { OnOk result (written marks.new.marks.items ≡ written marks.old.marks.items) }
{
    draw_band(marks, sketch, element)?;
    draw_leg(marks, "band", sketch, sketch.other_leg(element))
}
