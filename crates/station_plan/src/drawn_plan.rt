//! The picture of a plan.

ghost use Rattle.std.specs.Prelude.{◌≡◌, [], IfOk, OnOk};
ghost use Rattle.drawing.specs.declared.picture.Picture.{Picture as Plan};
ghost use Rattle.station_plan.specs.Plan.{IsPlanOf};

use crate::drawn_lines::DrawnLine;
use crate::extent::{EVERYWHERE, reach_of_things};
use crate::groups::add_all;
use crate::marks::Marks;
use crate::notes::{LINES, draw_legend};
use crate::paper::lay_paper;
use crate::shown::Shown;
use crate::sketch::spot;
use crate::style::STYLE;
use crate::thing::Thing;
use crate::thing_list::things_by_hand;
use crate::units::Units;
use control_table::{Checked, Layout};
use drawing::{Anchor, Frame, Group, Picture, Strip};
use std::alloc::{AllocError, Global};

/// Draws what stands below a plan, the name of its station and what its marks mean, and lays all on paper.
fn lay_out(
    notes: &mut Marks,
    strips: &mut Vec<Strip>,
    layout: &Layout,
    things: &[Thing],
    shown: &Shown,
) -> Result<Frame, AllocError> {
    let (left, right) = EVERYWHERE;
    let drawn = reach_of_things(things, false, left, right);
    let all = reach_of_things(things, true, left, right)
        .with(drawn)
        .or_origin();
    let drawn = drawn.or_origin();
    let below = spot(drawn.left, drawn.bottom + Units(32));
    let name = layout.station().name.as_str();
    notes.text("heading", below, Anchor::Start, name)?;
    let legend = spot(drawn.left, all.bottom + LINES);
    draw_legend(notes, layout, shown, legend)?;
    lay_paper(strips, things, &notes.marks)
}

/// Adds the groups of a plan to a list that is empty, and the strips on its paper, which it tells.
fn draw(
    strips: &mut Vec<Strip>,
    groups: &mut Vec<Group>,
    alloc: Global,
    table: &Checked,
    shown: &Shown,
    lines: &[DrawnLine],
) -> Result<Frame, AllocError>
    requires { groups.old.items ≡ [] }
    ensures { OnOk result ((picture : Plan) → picture.groups ≡ groups.new → IsPlanOf table.now shown.now.seen picture) }
{
    let things = things_by_hand(alloc, table, shown, lines)?;
    let mut notes = Marks::new(alloc);
    let paper = lay_out(&mut notes, strips, table.layout(), &things, shown)?;
    add_all(groups, alloc, things, notes.marks)?;
    Ok(paper)
}

/// The plan of a layout, as a picture at most 1600 units wide: each of its elements is a group of its own, once, whose
/// identity is its kind and its name. The error comes only where memory was refused.
pub fn plan(alloc: Global, table: &Checked, shown: &Shown) -> Result<Picture, AllocError>
    ensures { IfOk result (IsPlanOf table.now shown.now.seen) }
{
    plan_by_hand(alloc, table, shown, &[])
}

/// The same, laid as these lines say, where they say of each track, point and border where it lies, along lines that are
/// level, upright or by 45 degrees, and what is joined meets.
pub fn plan_by_hand(
    alloc: Global,
    table: &Checked,
    shown: &Shown,
    lines: &[DrawnLine],
) -> Result<Picture, AllocError>
    ensures { IfOk result (IsPlanOf table.now shown.now.seen) }
{
    let title = String::from_str(alloc, table.layout().station().name.as_str())?;
    let style = String::from_str(alloc, STYLE)?;
    let mut strips = Vec::new(alloc);
    let mut groups = Vec::new(alloc);
    let paper = draw(&mut strips, &mut groups, alloc, table, shown, lines)?;
    Ok(Picture {
        title,
        style,
        paper,
        strips,
        groups,
    })
}
