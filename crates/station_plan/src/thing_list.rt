//! The list of all that a plan draws: one thing for each subject of the layout, in table order.

ghost use Rattle.std.specs.Prelude.{◌≡◌, ◌++◌, ◌∷◌, [], map, OnOk, IfOk};
ghost use Rattle.station_plan.specs.Subjects.{detector_subject, subjects, subjects_of};
ghost use Rattle.station_plan.specs.Faces.{AreDrawn, strokes_for, words_for};
ghost use Rattle.station_plan.specs.Strokes.{strokes, written};
ghost use Rattle.station_plan.specs.inside.Placing.{subjects_at};

use crate::drawn_lines::DrawnLine;
use crate::element_marks::{draw_border, draw_branch, draw_joint, draw_point, draw_track};
use crate::extent::{EVERYWHERE, Extent, reach_of_things};
use crate::marks::Marks;
use crate::notes::LINES;
use crate::numbers::Numbers;
use crate::placed::{NO_PORT, Placed, place_all};
use crate::section_marks::{draw_detector, draw_list, draw_section};
use crate::seen_words::state_word;
use crate::shown::{Marking, Shown, is_marked, mark};
use crate::signal_marks::draw_signal;
use crate::sketch::{Sketch, spot};
use crate::thing::{Subject, Thing};
use crate::units::Units;
use control_table::layout::Detector;
use control_table::{Checked, Layout};
use drawing::Spot;
use std::alloc::{AllocError, Global};

/// What things are drawn from.
#[derive(Clone, Copy)]
struct Scene<'a> {
    layout: &'a Layout,
    sketch: &'a Sketch,
    shown: &'a Shown,
    /// Where the next detection controller stands, below the plan.
    below: Spot,
}

/// Draws what is placed: its symbol and its name, and what its place adds.
fn draw(
    marks: &mut Marks,
    more: &mut Marks,
    scene: Scene<'_>,
    placed: &Placed,
) -> Result<(), AllocError>
    ensures drawn { OnOk result (strokes marks.new.marks.items ≡ strokes marks.old.marks.items ++ strokes_for scene.entry.layout.now placed.now.subject) }
    ensures named { OnOk result (written marks.new.marks.items ≡ written marks.old.marks.items ++ words_for placed.now.subject) }
{
    let sketch = scene.sketch;
    let at = placed.at;
    match &placed.subject {
        Subject::Section(name) => draw_section(marks, more, scene.layout, sketch, name),
        Subject::Track(name) => draw_track(marks, more, sketch, at.element, *name),
        Subject::Point(name) => {
            let is_flank = is_marked(scene.layout, scene.shown, placed, Marking::Flank);
            draw_point(marks, more, sketch, at.element, *name, is_flank)
        }
        Subject::Tip(_) | Subject::Left(_) | Subject::Right(_) => {
            draw_branch(marks, more, sketch, at)
        }
        Subject::Border(name) => draw_border(marks, more, sketch, at.element, *name),
        Subject::Joint(..) => draw_joint(marks, sketch, at),
        Subject::Signal(name) => draw_signal(marks, sketch, at, *name),
        Subject::Detector(name) => draw_detector(marks, name, scene.below),
    }
}

/// Adds the thing of what is placed, to which its place adds these marks and more.
fn add(
    things: &mut Vec<Thing>,
    scene: Scene<'_>,
    placed: &Placed,
    mut more: Marks,
) -> Result<(), AllocError>
    requires { AreDrawn scene.layout.now scene.shown.now.seen things.old.items }
    ensures listed { OnOk result (subjects_of things.new.items ≡ subjects_of things.old.items ++ placed.now.subject ∷ []) }
    ensures drawn { OnOk result (AreDrawn scene.entry.layout.now scene.entry.shown.now.seen things.new.items) }
{
    let alloc = scene.sketch.alloc;
    let mut marks = Marks::new(alloc);
    draw(&mut marks, &mut more, scene, placed)?;
    let mut marked = String::new(alloc);
    mark(&mut marked, scene.layout, scene.shown, placed)?;
    let state = state_word(scene.layout, scene.shown, &placed.subject);
    let state = String::from_str(alloc, state)?;
    things.push(Thing {
        subject: placed.subject,
        marked,
        state,
        marks: marks.marks,
        more: more.marks,
    })?;
    Ok(())
}

/// Adds the things of what is placed, in order.
fn add_placed(
    things: &mut Vec<Thing>,
    scene: Scene<'_>,
    placed: &[Placed],
) -> Result<(), AllocError>
    requires { AreDrawn scene.layout.now scene.shown.now.seen things.old.items }
    ensures listed { OnOk result (subjects_of things.new.items ≡ subjects_of things.old.items ++ subjects_at placed.now) }
    ensures drawn { OnOk result (AreDrawn scene.entry.layout.now scene.entry.shown.now.seen things.new.items) }
{
    for one in placed {
        add(things, scene, one, Marks::new(scene.sketch.alloc))?;
    }
    Ok(())
}

/// How many letters a line below the plan may have.
fn letters(extent: Extent) -> usize {
    let width = extent.width().or_more(Units(480)).or_less(Units(1540));
    usize::try_from(width.part(1, 6).0)
        .unwrap_or(80)
        .saturating_sub(6)
}

/// Adds the detection controllers, one below the other, each with the names of its sections.
fn add_detectors(
    things: &mut Vec<Thing>,
    scene: Scene<'_>,
    detectors: &[Detector],
) -> Result<(), AllocError>
    requires { AreDrawn scene.layout.now scene.shown.now.seen things.old.items }
    ensures listed { OnOk result (subjects_of things.new.items ≡ subjects_of things.old.items ++ map detector_subject detectors.now) }
    ensures drawn { OnOk result (AreDrawn scene.entry.layout.now scene.entry.shown.now.seen things.new.items) }
{
    let extent = reach_of_things(things, false, EVERYWHERE.0, EVERYWHERE.1).or_origin();
    let letters = letters(extent);
    let mut down = extent.bottom + Units(32) + LINES;
    for (number, detector) in detectors.iter().enumerate() {
        let below = spot(extent.left, down);
        let mut names = Marks::new(scene.sketch.alloc);
        down = draw_list(
            &mut names,
            scene.layout.sections(),
            detector,
            below,
            letters,
        )?;
        let placed = Placed {
            subject: Subject::Detector(*detector.name()),
            number,
            at: NO_PORT,
        };
        add(things, Scene { below, ..scene }, &placed, names)?;
    }
    Ok(())
}

/// Lays the sketch of a layout, and adds all that its plan draws.
fn add_all(
    things: &mut Vec<Thing>,
    sketch: &mut Sketch,
    layout: &Layout,
    shown: &Shown,
    lines: &[DrawnLine],
) -> Result<(), AllocError>
    requires { things.old.items ≡ [] }
    ensures listed { OnOk result (subjects_of things.new.items ≡ subjects layout.now) }
    ensures drawn { OnOk result (AreDrawn layout.now shown.now.seen things.new.items) }
{
    sketch.lay(layout, lines)?;
    let scene = Scene {
        layout,
        sketch,
        shown,
        below: spot(Units(0), Units(0)),
    };
    let mut placed = Vec::new(scene.sketch.alloc);
    place_all(&mut placed, scene.sketch.numbers, layout)?;
    add_placed(things, scene, &placed)?;
    add_detectors(things, scene, layout.detectors())
}

/// The list of all that a plan of a layout draws. The error comes only where memory was refused.
pub fn things(alloc: Global, table: &Checked, shown: &Shown) -> Result<Vec<Thing>, AllocError>
    ensures listed { IfOk result (λ things. subjects_of things.items ≡ subjects table.now) }
    ensures drawn { IfOk result (λ things. AreDrawn table.now shown.now.seen things.items) }
{
    things_by_hand(alloc, table, shown, &[])
}

/// The same, laid as these lines say.
pub(crate) fn things_by_hand(
    alloc: Global,
    table: &Checked,
    shown: &Shown,
    lines: &[DrawnLine],
) -> Result<Vec<Thing>, AllocError>
    ensures listed { IfOk result (λ things. subjects_of things.items ≡ subjects table.now) }
    ensures drawn { IfOk result (λ things. AreDrawn table.now shown.now.seen things.items) }
{
    let layout = table.layout();
    let mut sketch = Sketch::new(alloc, Numbers::of(layout));
    let mut things = Vec::new(alloc);
    let listed = add_all(&mut things, &mut sketch, layout, shown, lines);
    drop(sketch);
    listed?;
    Ok(things)
}
