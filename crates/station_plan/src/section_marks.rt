//! How sections and their detection controllers are drawn.

ghost use Rattle.std.specs.Prelude.{◌≡◌, ◌++◌, ◌∷◌, [], OnOk};
ghost use Rattle.std.specs.List.{flat_map};
ghost use Rattle.station_plan.specs.Faces.{band, is_named, point_bands, section_strokes, track_bands};
ghost use Rattle.station_plan.specs.Strokes.{strokes, written};

use crate::element_marks::{draw_band, draw_point_band, hand_text, moved};
use crate::labels::{LETTER, LINE, lines};
use crate::marks::Marks;
use crate::sketch::{Sketch, spot};
use crate::units::{Units, count};
use control_table::layout::{Detector, Point, Track};
use control_table::{Layout, Name, SectionId};
use drawing::{Anchor, Spot};
use std::alloc::AllocError;

/// The words of a class for the tints.
const TINTS: [&str; 8] = [
    " tint-0", " tint-1", " tint-2", " tint-3", " tint-4", " tint-5", " tint-6", " tint-7",
];

/// The detection controller that reports a section.
pub(crate) fn detector_of(detectors: &[Detector], section: SectionId) -> usize {
    for (number, detector) in detectors.iter().enumerate() {
        if detector.sections().contains(&section) {
            return number;
        }
    }
    0
}

/// The word of a class for a detection controller, by which its bands have a tint.
pub(crate) fn tint(detector: usize) -> &'static str {
    TINTS[detector % TINTS.len()]
}

/// Whether a section has a name.
fn is_named(layout: &Layout, name: &Name, section: SectionId) -> bool
    ensures { result ≡ is_named layout.now name.now section }
{
    match layout.sections().get(section.0) {
        Some(other) => other.as_str() == name.as_str(),
        None => false,
    }
}

/// Draws a section: its bands, and more: its name, where it is written.
pub(crate) fn draw_section(
    marks: &mut Marks,
    more: &mut Marks,
    layout: &Layout,
    sketch: &Sketch,
    name: &Name,
) -> Result<(), AllocError>
    ensures drawn { OnOk result (strokes marks.new.marks.items ≡ strokes marks.old.marks.items ++ section_strokes layout.now name.now) }
    ensures named { OnOk result (written marks.new.marks.items ≡ written marks.old.marks.items) }
{
    draw_tracks(marks, more, layout, sketch, name, layout.tracks())?;
    draw_points(marks, more, layout, sketch, name, layout.points())
}

/// Draws the bands of the tracks of a section.
fn draw_tracks(
    marks: &mut Marks,
    more: &mut Marks,
    layout: &Layout,
    sketch: &Sketch,
    name: &Name,
    tracks: &[Track],
) -> Result<(), AllocError>
    ensures drawn { OnOk result (strokes marks.new.marks.items ≡ strokes marks.old.marks.items ++ flat_map (track_bands layout.now name.now) tracks.now) }
    ensures named { OnOk result (written marks.new.marks.items ≡ written marks.old.marks.items) }
{
    for (number, track) in tracks.iter().enumerate() {
        if is_named(layout, name, track.section) {
            draw_band(marks, sketch, number)?;
            draw_track_label(more, sketch, number, name)?;
        }
    }
    Ok(())
}

/// Draws the bands of the points of a section.
fn draw_points(
    marks: &mut Marks,
    more: &mut Marks,
    layout: &Layout,
    sketch: &Sketch,
    name: &Name,
    points: &[Point],
) -> Result<(), AllocError>
    ensures drawn { OnOk result (strokes marks.new.marks.items ≡ strokes marks.old.marks.items ++ flat_map (point_bands layout.now name.now) points.now) }
    ensures named { OnOk result (written marks.new.marks.items ≡ written marks.old.marks.items) }
{
    for (number, point) in points.iter().enumerate() {
        if is_named(layout, name, point.section) {
            let element = sketch.numbers.point(number);
            draw_point_band(marks, sketch, element)?;
            draw_point_label(more, sketch, element, name)?;
        }
    }
    Ok(())
}

/// Names the section of a track, where it is to be named.
fn draw_track_label(
    more: &mut Marks,
    sketch: &Sketch,
    element: usize,
    name: &Name,
) -> Result<(), AllocError> {
    if sketch.section_letters(element) == 0 {
        return Ok(());
    }
    let (at, anchor) = track_label_spot(sketch, element);
    more.name("label", at, anchor, *name, false)
}

/// Where the name of a track's section stands.
fn track_label_spot(sketch: &Sketch, element: usize) -> (Spot, Anchor) {
    if sketch.is_by_hand() {
        return hand_text(sketch, element, false);
    }
    let (left, right) = sketch.row_line(element);
    let x = (Units(left.x) + Units(right.x) - sketch.signal_room(element, true)).half();
    (spot(x, Units(left.y) + Units(15)), Anchor::Middle)
}

/// Names the section of a point beyond the point's own name, where it is to be named.
fn draw_point_label(
    more: &mut Marks,
    sketch: &Sketch,
    element: usize,
    name: &Name,
) -> Result<(), AllocError> {
    if sketch.section_letters(element) == 0 {
        return Ok(());
    }
    let up = sketch.parts_up(element);
    let beyond = LINE.times(count(lines(sketch.facts(element).label.name_letters)));
    let down = if up {
        Units(16) + beyond
    } else {
        Units(-8) - beyond
    };
    let at = moved(sketch.spot(element), 0, down.0);
    more.name("label", at, Anchor::Middle, *name, !up)
}

/// Draws a detection controller below the plan: its tint and its name.
pub(crate) fn draw_detector(marks: &mut Marks, name: &Name, at: Spot) -> Result<(), AllocError>
    ensures drawn { OnOk result (strokes marks.new.marks.items ≡ strokes marks.old.marks.items ++ band ∷ []) }
    ensures named { OnOk result (written marks.new.marks.items ≡ written marks.old.marks.items ++ name.now) }
{
    marks.line("band", moved(at, 0, -4), moved(at, 22, -4))?;
    marks.text("label", moved(at, 30, 0), Anchor::Start, name.as_str())
}

/// Writes the names of the sections of a detection controller after its own, with so many letters on a line. It tells how
/// far down they come.
pub(crate) fn draw_list(
    more: &mut Marks,
    names: &[Name],
    detector: &Detector,
    at: Spot,
    letters: usize,
) -> Result<Units, AllocError> {
    let mut words = String::from_str(more.alloc, ":")?;
    let mut before = detector.name().as_str().len();
    let mut next = moved(at, 30, 0);
    for section in detector.sections() {
        let word = section_word(names, *section);
        let taken = before.saturating_add(words.len());
        if taken.saturating_add(word.len()) >= letters {
            draw_words(more, next, before, words.as_str())?;
            words.clear();
            before = 0;
            next = moved(next, 0, LINE.0);
        }
        words.push_str(" ")?;
        words.push_str(word)?;
    }
    draw_words(more, next, before, words.as_str())?;
    Ok(Units(next.y) + LINE + Units(5))
}

/// Writes words after so many letters.
fn draw_words(more: &mut Marks, begin: Spot, before: usize, words: &str) -> Result<(), AllocError> {
    let at = moved(begin, LETTER.times(count(before)).0, 0);
    more.text("label", at, Anchor::Start, words)
}

/// The name of a section.
fn section_word(names: &[Name], section: SectionId) -> &str {
    if section.0 < names.len() {
        names[section.0].as_str()
    } else {
        ""
    }
}
