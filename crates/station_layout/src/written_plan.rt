//! The plan of a text, with what is wrong written where there is none.

ghost use Rattle.std.specs.Prelude.{◌≡◌, ◌≤◌, IfErr, IfOk, IsErr, OnOk, option_copied};
ghost use Rattle.station_check.specs.Failures.{Explained, Leaves};
ghost use Rattle.station_plan.specs.Plan.{IsPlanOf};
ghost use Rattle.station_layout.specs.PlanText.{CanPlan, Explains, ExplainsDrawn, IsDrawn, IsPlanned};
ghost use Rattle.station_layout.specs.inside.Drawn.{ExplainsDrawnOf, IsDrawnOf};

use crate::drawn_lines::lines_in;
use crate::request::route_asked;
use crate::seen::seen_in;
use control_table::Checked;
use drawing::{Picture, svg};
use station_check::{Failure, table_of, tell};
use station_plan::{Shown, plan_by_hand};
use std::alloc::{AllocError, Global};
use std::io::Write;

/// Writes the track plan of the text of a layout, as SVG. With the name of a route, its path is drawn thick, and its flank
/// points and approach sections are marked. With the text of a picture, as `station sim` prints it, the plan shows aspects,
/// positions, occupied sections and set routes. The status is 0 where the plan was written to `out`. Where the layout isn't
/// sound, or no route has this name, or a line of the picture is faulty, or memory is lacking, `out` stays as it is, `err`
/// is told so, and the status is 1. It is 1 also where the plan couldn't be written to its end, of which nothing is told.
pub fn plan_text<W: Write, E: Write>(
    alloc: Global,
    layout: &str,
    route: Option<&str>,
    picture: Option<&str>,
    out: &mut W,
    err: &mut E,
) -> u8
    ensures status { result ≤ 1 }
    ensures done { result ≡ 0 → IsPlanned layout.now (option_copied route.entry) (option_copied picture.entry) (W.contents out.old) (W.contents out.new) }
    ensures faulty { (CanPlan layout.now (option_copied route.entry) (option_copied picture.entry) → ⊥) → (result ≡ 1) × (out.new ≡ out.old) }
    ensures silent { result ≡ 0 → err.new ≡ err.old }
    // Only a beginning of the line was told where a write to `err` failed.
    ensures explains { result ≡ 1 → Explained (Explains layout.now (option_copied route.entry) (option_copied picture.entry)) result out.old out.new (E.contents err.old) (E.contents err.new) }
{
    match write_plan(alloc, layout, route, picture, out) {
        Ok(()) => 0,
        Err(failure) => tell(&failure, err),
    }
}

/// Draws the plan, and writes it at once.
fn write_plan<W: Write>(
    alloc: Global,
    layout: &str,
    route: Option<&str>,
    picture: Option<&str>,
    out: &mut W,
) -> Result<(), Failure>
    ensures done { OnOk result (IsPlanned layout.now (option_copied route.entry) (option_copied picture.entry) (W.contents out.old) (W.contents out.new)) }
    ensures faulty { (CanPlan layout.now (option_copied route.entry) (option_copied picture.entry) → ⊥) → IsErr result × (out.new ≡ out.old) }
    ensures explains { IfErr result (λ failure. Explains layout.now (option_copied route.entry) (option_copied picture.entry) failure × Leaves failure out.old out.new) }
{
    let text = drawn(alloc, layout, route, picture)?;
    let written = out.write_all(&text);
    drop(text);
    written?;
    out.flush()?;
    Ok(())
}

/// The plan of a text, as SVG.
fn drawn(
    alloc: Global,
    layout: &str,
    route: Option<&str>,
    picture: Option<&str>,
) -> Result<Vec<u8>, Failure>
    ensures drawn { IfOk result (λ text. IsDrawn layout.now (option_copied route.entry) (option_copied picture.entry) text.items) }
    ensures explains { IfErr result (ExplainsDrawn layout.now (option_copied route.entry) (option_copied picture.entry)) }
{
    let table = table_of(alloc, layout)?;
    let drawn = drawn_of(alloc, layout, &table, route, picture);
    drop(table);
    drawn
}

/// The plan of a layout, as SVG.
fn drawn_of(
    alloc: Global,
    text: &str,
    table: &Checked,
    route: Option<&str>,
    picture: Option<&str>,
) -> Result<Vec<u8>, Failure>
    ensures drawn { IfOk result (λ text. IsDrawnOf table.now (option_copied route.entry) (option_copied picture.entry) text.items) }
    ensures explains { IfErr result (ExplainsDrawnOf table.now (option_copied route.entry) (option_copied picture.entry)) }
{
    let Ok(route) = route_asked(table, route) else {
        return Err(Failure::Route);
    };
    let seen = seen_in(alloc, table, picture)?;
    let plan = plan_in(alloc, text, table, &Shown { route, seen })?;
    let text = svg(alloc, &plan);
    drop(plan);
    Ok(text?)
}

/// The plan of a layout, as its text says that it is drawn.
fn plan_in(alloc: Global, text: &str, table: &Checked, shown: &Shown) -> Result<Picture, AllocError>
    ensures { IfOk result (IsPlanOf table.now shown.now.seen) }
{
    let lines = lines_in(alloc, text)?;
    plan_by_hand(alloc, table, shown, &lines)
}
