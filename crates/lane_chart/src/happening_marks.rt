//! How commands and restarts are drawn above the rows.

ghost use Rattle.std.specs.Prelude.{◌≡◌, ◌++◌, ◌∷◌, [], ℕ, IfOk, List, OnOk, string_bytes};
ghost use Rattle.lane_chart.specs.Chart.{faces, happening_faces};
ghost use Rattle.lane_chart.specs.Faces.{happening_face, happening_strokes, kind_of};
ghost use Rattle.lane_chart.specs.Strokes.{named, strokes};

use crate::change::Happening;
use crate::marks::Marks;
use crate::row_marks::width;
use crate::scale::Window;
use drawing::{Anchor, Group, Spot};
use rasta_core_link::MICROS;
use std::alloc::{AllocError, Global};

/// How many lines of text stand above each other.
const LEVELS: usize = 4;
/// Where the lowest of them stands.
const LOWEST: i32 = 76;
/// How far they lie apart.
const APART: i32 = 12;
/// Where the marks point to.
const TIP: i32 = 90;
/// Where the words end at most.
const BORDER: i32 = 1596;

/// The first line of text on which nothing stands from here on, which it keeps for a text that ends there.
fn level(ends: &mut [i32], from: i32, to: i32) -> Option<usize> {
    for level in 0..ends.len() {
        if ends[level] <= from {
            ends[level] = to;
            return Some(level);
        }
    }
    None
}

/// Where a line of text stands.
fn base_line(level: usize) -> i32 {
    let down = i32::try_from(level).unwrap_or(0).saturating_mul(APART);
    LOWEST.saturating_sub(down)
}

/// The word of what a happening is.
fn kind_word(node: Option<usize>) -> &'static str
    ensures { result.now ≡ kind_of node }
{
    match node {
        Some(_) => "restart",
        None => "command",
    }
}

/// Draws a happening, with its words where there is room for them.
fn draw_happening(
    marks: &mut Marks,
    window: Window,
    happening: &Happening,
    ends: &mut [i32],
) -> Result<(), AllocError>
    ensures drawn { OnOk result (strokes marks.new.marks.items ≡ strokes marks.old.marks.items ++ happening_strokes window happening.now) }
    ensures named { OnOk result (named marks.new.marks.items ≡ named marks.old.marks.items) }
{
    if !window.has(happening.time) {
        return Ok(());
    }
    let x = window.place(happening.time);
    marks.arrow(kind_word(happening.node), Spot { x, y: TIP })?;
    draw_words(marks, x, happening.words.as_str(), ends)
}

/// Writes words above a place, where there is room for them.
fn draw_words(marks: &mut Marks, x: i32, words: &str, ends: &mut [i32]) -> Result<(), AllocError>
    ensures drawn { OnOk result (strokes marks.new.marks.items ≡ strokes marks.old.marks.items) }
    ensures named { OnOk result (named marks.new.marks.items ≡ named marks.old.marks.items) }
{
    let wide = width(words);
    let from = x.saturating_sub(3).min(BORDER.saturating_sub(wide));
    match level(ends, from, from.saturating_add(wide)) {
        Some(level) => {
            let at = Spot {
                x: from,
                y: base_line(level),
            };
            marks.text("words", at, Anchor::Start, words)
        }
        None => Ok(()),
    }
}

/// Adds a happening as a group, which goes by its line.
fn add_happening(
    groups: &mut Vec<Group>,
    alloc: Global,
    window: Window,
    happening: &Happening,
    ends: &mut [i32],
) -> Result<(), AllocError>
    ensures { OnOk result (faces groups.new.items ≡ faces groups.old.items ++ happening_face window happening.now ∷ []) }
{
    let mut marks = Marks::new(alloc);
    draw_happening(&mut marks, window, happening, ends)?;
    let id = format!(in alloc; "line.{}", happening.line);
    let class = String::from_str(alloc, kind_word(happening.node));
    let title = format!(in alloc;
        "line {}, {} ms: {}",
        happening.line,
        happening.time / MICROS,
        happening.words
    );
    add_group(groups, id, class, title, marks)
}

/// Adds marks as a group: by its identity, its class, and what a viewer says of it, if there was memory for these.
pub(crate) fn add_group(
    groups: &mut Vec<Group>,
    id: Result<String, AllocError>,
    class: Result<String, AllocError>,
    title: Result<String, AllocError>,
    marks: Marks,
) -> Result<(), AllocError>
    ensures { (identity words : List ℕ) → IfOk id (λ id. string_bytes id ≡ identity) → IfOk title (λ title. string_bytes title ≡ words) → OnOk result (faces groups.new.items ≡ faces groups.old.items ++ record { id = identity; title = words; strokes = strokes marks.marks.items; name = named marks.marks.items } ∷ []) }
{
    let id = id?;
    let class = class?;
    let title = title?;
    groups.push(Group {
        id,
        class,
        title,
        marks: marks.marks,
    })?;
    Ok(())
}

/// Adds a group for each happening, in order.
pub(crate) fn add_happenings(
    groups: &mut Vec<Group>,
    alloc: Global,
    window: Window,
    happenings: &[Happening],
) -> Result<(), AllocError>
    ensures { OnOk result (faces groups.new.items ≡ faces groups.old.items ++ happening_faces window happenings.now) }
{
    let mut ends = [0; LEVELS];
    for happening in happenings {
        add_happening(groups, alloc, window, happening, &mut ends)?;
    }
    Ok(())
}
