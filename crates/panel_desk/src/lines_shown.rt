//! Lines are shown on the desk.

ghost use Rattle.std.specs.Prelude.{◌≡◌, OnOk};
ghost use Rattle.panel_desk.specs.Lines.{told};
ghost use Rattle.panel_desk.specs.Boards.{shown_all};
ghost use Rattle.panel_desk.specs.ShownLines.{panel_text};

use crate::desk::Desk;
use crate::panel_line::{PanelLine, PanelText};
use node_lines::Layout;
use std::alloc::{AllocError, Global};

/// Shows lines, each at its place; a line for whose place the desk has none isn't shown.
pub fn show_lines(
    alloc: Global,
    layout: &Layout,
    lines: &[PanelLine],
    desk: &mut Desk,
) -> Result<(), AllocError>
    ensures { OnOk result (desk.new ≡ record desk.old { board = shown_all layout.now 0 lines.now desk.old.board }) }
{
    for place in 0..lines.len() {
        show_line(alloc, layout, place, lines[place], desk)?;
    }
    Ok(())
}

/// Shows a line at a place, if the desk has one.
fn show_line(
    alloc: Global,
    layout: &Layout,
    place: usize,
    line: PanelLine,
    desk: &mut Desk,
) -> Result<(), AllocError>
    ensures { OnOk result (desk.new ≡ record desk.old { board = told place (panel_text layout.now line) desk.old.board }) }
{
    if place >= desk.places() {
        return Ok(());
    }
    let line = PanelText { layout, line };
    let text = format!(in alloc; "{line}")?;
    desk.show(place, text.as_str())
}
