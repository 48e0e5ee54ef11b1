//! Lines over a connection to another process, which comes and goes.

ghost use Rattle.std.specs.Prelude.{◌≡◌, IfOk, Ok, OnOk, false, true};
ghost use Rattle.node_drive.specs.declared.outside.NextLine.TheVariants.{Closed};
ghost use Rattle.node_network.specs.Listeners.{is_there};

use crate::line_input::LineInput;
use crate::line_output::write_line;
use node_drive::{BrokenOff, NextLine};
use std::alloc::{AllocError, Global};
use std::io::{Read, Write};
use std::net::OpenStream;

/// The other end of a stream is there, if its calls needn't wait. It tells whether it is.
pub(crate) fn connect<S: OpenStream + Read + Drop>(
    end: &mut Option<LineInput<S>>,
    stream: S,
) -> bool
    requires { is_there end.old ≡ false }
    ensures { result ≡ is_there end.new }
{
    let Ok(()) = stream.set_nonblocking(true) else {
        return false;
    };
    // Where this fails, lines come later.
    let _ = stream.set_nodelay(true);
    *end = Some(LineInput::new(stream));
    true
}

/// The next line, if there is one. The connection is closed at its end, and none comes where nobody is there.
pub(crate) fn next_line<S: Read + Drop>(
    end: &mut Option<LineInput<S>>,
    alloc: Global,
) -> Result<NextLine, AllocError>
    ensures nobody { is_there end.old ≡ false → result ≡ Ok Closed }
    ensures gone { IfOk result (λ answer. answer ≡ Closed → is_there end.new ≡ false) }
{
    let Some(lines) = end else {
        return Ok(NextLine::Closed);
    };
    let answer = lines.next_line(alloc);
    if matches!(&answer, Ok(NextLine::Closed)) {
        *end = None;
    }
    answer
}

/// Writes a line. The connection is closed where it can't be written at once.
pub(crate) fn write_line_to<S: Write + Drop>(
    end: &mut Option<LineInput<S>>,
    alloc: Global,
    text: &str,
) -> Result<(), BrokenOff>
    ensures there { OnOk result (is_there end.old ≡ true) }
    ensures nobody { is_there end.old ≡ false → is_there end.new ≡ false }
{
    let Some(lines) = end else {
        return Err(BrokenOff);
    };
    let written = write_line(alloc, &mut lines.input, text);
    if written.is_err() {
        *end = None;
    }
    written
}
