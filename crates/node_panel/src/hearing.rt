//! What the node tells in a turn is heard.

ghost use Rattle.std.specs.Prelude.{◌≡◌, [], ◌∷◌, List, map, IfOk, OnOk};
ghost use Rattle.node_drive.specs.Calls.{AsksLine, Calls, LineHeard, Text};
ghost use Rattle.node_panel.specs.Heard.{heard_all, heard_by};
ghost use Rattle.node_panel.specs.Noted.{noted_all, noted_by};

use crate::heard::Heard;
use crate::noted::note_as;
use crate::told::read_told;
use node_drive::{NextLine, Outside};
use panel_desk::{Desk, Layout};
use std::alloc::{AllocError, Global};

/// How many lines a turn takes at most: those of a node at every limit, of which all is told at once.
const MOST_LINES: usize = 1024;

/// Hears the lines that have come. Answers are noted, and what the process tells of its file.
pub(crate) fn hear_lines<O: Outside>(
    alloc: Global,
    layout: &Layout,
    outside: &mut O,
    reading: u64,
    heard: &mut Heard,
    desk: &mut Desk,
) -> Result<(), AllocError>
    ensures { OnOk result ((lines : List LineHeard) × Calls (O.told outside.old) (O.told outside.new) (map AsksLine lines) × (heard.new ≡ heard_all layout.now lines heard.old) × (desk.new ≡ noted_all layout.now reading lines heard.old desk.old)) }
{
    for _ in 0..MOST_LINES {
        if !hear_next(alloc, layout, outside, reading, heard, desk)? {
            return Ok(());
        }
    }
    Ok(())
}

/// Hears the next line. It answers whether there was one.
fn hear_next<O: Outside>(
    alloc: Global,
    layout: &Layout,
    outside: &mut O,
    reading: u64,
    heard: &mut Heard,
    desk: &mut Desk,
) -> Result<bool, AllocError>
    ensures { OnOk result ((line : LineHeard) × Calls (O.told outside.old) (O.told outside.new) (AsksLine line ∷ []) × (heard.new ≡ heard_by layout.now line heard.old) × (desk.new ≡ noted_by layout.now reading line heard.old desk.old)) }
{
    let line = outside.next_line(alloc)?;
    match line {
        NextLine::Text(text) => {
            hear_text(alloc, layout, text.as_str(), reading, heard, desk)?;
            Ok(true)
        }
        NextLine::Nothing => Ok(false),
        NextLine::Closed => {
            heard.forget();
            Ok(false)
        }
    }
}

/// Hears a line. An answer is noted with its command, and what the process tells of its file as it came.
fn hear_text(
    alloc: Global,
    layout: &Layout,
    text: &str,
    reading: u64,
    heard: &mut Heard,
    desk: &mut Desk,
) -> Result<(), AllocError>
    ensures heard { heard.new ≡ heard_by layout.now (Text text.now) heard.old }
    ensures noted { OnOk result (desk.new ≡ noted_by layout.now reading (Text text.now) heard.old desk.old) }
{
    let noting = heard.hear(read_told(layout, text), text);
    note_as(alloc, layout, reading, noting, text, desk)
}
