//! What of the lines that the node tells is noted in the panel's log.

ghost use Rattle.std.specs.Prelude.{◌≡◌, OnOk};
ghost use Rattle.node_panel.specs.Noted.{answer_text, line_text, noted, noted_as};

use panel_desk::node_lines::{CommandText, OperatorCommand};
use panel_desk::{Desk, Layout};
use std::alloc::{AllocError, Global};

/// What is noted of a line that was heard.
#[derive(Clone, Copy)]
pub(crate) enum Noting {
    Nothing,
    /// The command to which it is the answer, with it.
    Answer(OperatorCommand),
    /// The line as it came.
    Line,
}

/// Notes a line that was heard, as far as it is to be.
pub(crate) fn note_as(
    alloc: Global,
    layout: &Layout,
    reading: u64,
    noting: Noting,
    line: &str,
    desk: &mut Desk,
) -> Result<(), AllocError>
    ensures { OnOk result (desk.new ≡ noted_as layout.now reading line.now noting desk.old) }
{
    match noting {
        Noting::Nothing => Ok(()),
        Noting::Answer(command) => note_command(alloc, layout, reading, command, line, desk),
        Noting::Line => note_line(alloc, reading, line, desk),
    }
}

/// Notes a command with its answer.
pub(crate) fn note_command(
    alloc: Global,
    layout: &Layout,
    reading: u64,
    command: OperatorCommand,
    answer: &str,
    desk: &mut Desk,
) -> Result<(), AllocError>
    ensures { OnOk result (desk.new ≡ noted (answer_text layout.now reading command answer.now) desk.old) }
{
    let command = CommandText { layout, command };
    let line = format!(in alloc; "{reading} {command} = {answer}")?;
    desk.note(line.as_str())
}

/// Notes a line that was told.
fn note_line(alloc: Global, reading: u64, line: &str, desk: &mut Desk) -> Result<(), AllocError>
    ensures { OnOk result (desk.new ≡ noted (line_text reading line.now) desk.old) }
{
    let noted = format!(in alloc; "{reading} told = {line}")?;
    desk.note(noted.as_str())
}
