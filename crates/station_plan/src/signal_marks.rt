//! How signals are drawn: at the right hand of the trains that they rule, with a foot, a mast and two lamps.

ghost use Rattle.std.specs.Prelude.{◌≡◌, ◌++◌, ◌∷◌, [], OnOk, codes};
ghost use Rattle.station_plan.specs.Faces.{signal_strokes};
ghost use Rattle.station_plan.specs.Strokes.{circle, line, strokes, written};

use crate::drawn_lines::Heading;
use crate::element_marks::{along, moved};
use crate::marks::Marks;
use crate::sketch::{Sketch, sign};
use crate::units::Units;
use crate::yard::Place;
use control_table::Name;
use drawing::{Anchor, Spot};
use std::alloc::AllocError;

/// The mast of a signal: where it begins, which way it leads, and how far along it its parts lie.
#[derive(Clone, Copy)]
struct Mast {
    /// The middle of its foot.
    foot: Spot,
    /// Which way it leads to the side.
    side: i32,
    /// Which way it leads up or down.
    slope: i32,
    /// How far its top lies.
    top: i32,
    /// How far its lower lamp lies.
    near: i32,
    /// How far its upper lamp lies.
    distant: i32,
}

impl Mast {
    /// The spot so far along it.
    fn at(self, length: i32) -> Spot {
        along(self.foot, self.side, self.slope, length)
    }
}

/// Where the parts of a signal lie.
#[derive(Clone, Copy)]
struct Symbol {
    mast: Mast,
    /// The ends of its foot.
    ends: (Spot, Spot),
    /// Its name.
    name: Spot,
    anchor: Anchor,
    /// Whether a long name grows upward.
    upward: bool,
}

/// A signal beside a row: below it for trains to the right, above it for the others.
fn level_symbol(sketch: &Sketch, place: Place) -> Symbol {
    let right = sketch.is_right(place);
    let side = sign(right);
    let back = sketch.clearance(place.element, right) + Units(31);
    let foot = moved(
        sketch.port_spot(place),
        back.times(side).0.saturating_neg(),
        side.saturating_mul(11),
    );
    let mast = Mast {
        foot,
        side,
        slope: 0,
        top: 12,
        near: 16,
        distant: 24,
    };
    let (anchor, down) = if right {
        (Anchor::End, 14)
    } else {
        (Anchor::Start, -7)
    };
    Symbol {
        mast,
        ends: (moved(foot, 0, -4), moved(foot, 0, 4)),
        name: moved(mast.at(28), 0, down),
        anchor,
        upward: !right,
    }
}

/// A signal beside a leg that leads up or down by 45 degrees, at the right hand of a train on the leg.
fn slanted_symbol(sketch: &Sketch, place: Place) -> Symbol {
    let side = sign(sketch.is_right(place));
    let slope = sketch.slope(place.element);
    let start = sketch.stub(place, Units(20));
    let foot = moved(start, slope.saturating_mul(-8), side.saturating_mul(8));
    let across = slope.saturating_mul(3);
    let down = side.saturating_mul(3);
    let mast = Mast {
        foot,
        side,
        slope,
        top: 8,
        near: 11,
        distant: 17,
    };
    Symbol {
        mast,
        ends: (
            moved(foot, across, down.saturating_neg()),
            moved(foot, across.saturating_neg(), down),
        ),
        name: moved(
            mast.at(mast.near),
            slope.saturating_mul(-9),
            side.saturating_mul(6).saturating_add(3),
        ),
        anchor: if slope < 0 {
            Anchor::Start
        } else {
            Anchor::End
        },
        upward: false,
    }
}

/// A signal beside a line that is drawn by hand, at the right hand of a train that leaves by the port.
fn hand_symbol(sketch: &Sketch, place: Place) -> Symbol {
    let heading = sketch.heading(place);
    let right = heading.right();
    let (back, beside, half): (i32, i32, i32) = if heading.is_slanted() {
        (23, 8, 3)
    } else {
        (31, 11, 4)
    };
    let start = heading.along(sketch.hand_port(place), back.saturating_neg());
    let foot = right.along(start, beside);
    let (top, near, distant) = if heading.is_slanted() {
        (8, 11, 17)
    } else {
        (12, 16, 24)
    };
    let mast = Mast {
        foot,
        side: heading.side,
        slope: heading.slope,
        top,
        near,
        distant,
    };
    let (anchor, across, down) = hand_name(heading);
    Symbol {
        mast,
        ends: (
            right.along(foot, half),
            right.along(foot, half.saturating_neg()),
        ),
        name: moved(mast.at(near), across, down),
        anchor,
        upward: right.slope < 0,
    }
}

/// Where the name of a signal stands beside its lower lamp, by the way in which its trains go.
fn hand_name(heading: Heading) -> (Anchor, i32, i32) {
    let right = heading.right();
    if heading.slope == 0 {
        let down = if right.slope > 0 { 14 } else { -7 };
        return (Anchor::Middle, 0, down);
    }
    let down = right.slope.saturating_mul(6).saturating_add(3);
    if right.side > 0 {
        (Anchor::Start, 9, down)
    } else {
        (Anchor::End, -9, down)
    }
}

/// Draws a signal that stands at a port.
pub(crate) fn draw_signal(
    marks: &mut Marks,
    sketch: &Sketch,
    place: Place,
    name: Name,
) -> Result<(), AllocError>
    ensures drawn { OnOk result (strokes marks.new.marks.items ≡ strokes marks.old.marks.items ++ signal_strokes) }
    ensures named { OnOk result (written marks.new.marks.items ≡ written marks.old.marks.items ++ name) }
{
    let symbol = if sketch.is_by_hand() {
        hand_symbol(sketch, place)
    } else if sketch.is_level(place) {
        level_symbol(sketch, place)
    } else {
        slanted_symbol(sketch, place)
    };
    marks.line("mast", symbol.ends.0, symbol.ends.1)?;
    draw_mast(marks, symbol.mast)?;
    marks.name("name", symbol.name, symbol.anchor, name, symbol.upward)
}

/// Draws the mast of a signal from its foot to its top, and its two lamps.
fn draw_mast(marks: &mut Marks, mast: Mast) -> Result<(), AllocError>
    ensures drawn { OnOk result (strokes marks.new.marks.items ≡ strokes marks.old.marks.items ++ line (codes "mast") ∷ circle (codes "lamp near") ∷ circle (codes "lamp distant") ∷ []) }
    ensures named { OnOk result (written marks.new.marks.items ≡ written marks.old.marks.items) }
{
    marks.line("mast", mast.foot, mast.at(mast.top))?;
    marks.circle("lamp near", mast.at(mast.near), 4)?;
    marks.circle("lamp distant", mast.at(mast.distant), 4)
}
