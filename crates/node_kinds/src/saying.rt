//! The lines that are to be told.

ghost use Rattle.std.specs.Prelude.{◌≡◌, ◌++◌, ◌∷◌, [], OnOk};
ghost use Rattle.ixl.specs.Interlocking.{told};
ghost use Rattle.node_kinds.specs.Interlockings.{answer_by_step, answer_line};
ghost use Rattle.node_drive.specs.node_lines.Known.{operator_text};
ghost use Rattle.node_kinds.specs.inside.InterlockingSteps.{texts};

use ixl::{Command, Reply};
use node_drive::node_lines::{OperatorLine, OperatorText};
use simulator_spec::Layout;
use std::alloc::{AllocError, Global};
use std::collections::VecDeque;

/// A line is to be told after the others.
pub(crate) fn say(
    alloc: Global,
    layout: &Layout,
    said: &mut VecDeque<String>,
    line: OperatorLine,
) -> Result<(), AllocError>
    ensures { OnOk result (texts said.new ≡ texts said.old ++ operator_text layout.now line ∷ []) }
{
    let line = OperatorText { layout, line };
    said.push_back(format!(in alloc; "{line}")?)?;
    Ok(())
}

/// The answer to a command is to be told.
pub(crate) fn say_answer(
    alloc: Global,
    layout: &Layout,
    said: &mut VecDeque<String>,
    reply: Reply,
) -> Result<(), AllocError>
    ensures { OnOk result (texts said.new ≡ texts said.old ++ answer_line layout.now (told reply)) }
{
    match reply {
        Reply::Accepted => say(alloc, layout, said, OperatorLine::Accepted),
        Reply::Refused(refusal) => say(alloc, layout, said, OperatorLine::Refused(refusal)),
        Reply::Ticked | Reply::Received(_) => Ok(()),
    }
}

/// The answer that the step of a command gives is to be told, unless its line was answered when it was taken.
pub(crate) fn say_answer_by_step(
    alloc: Global,
    layout: &Layout,
    said: &mut VecDeque<String>,
    command: Command,
    reply: Reply,
) -> Result<(), AllocError>
    ensures { OnOk result (texts said.new ≡ texts said.old ++ answer_by_step layout.now command (told reply)) }
{
    match command {
        Command::Cancel(_) => Ok(()),
        _ => say_answer(alloc, layout, said, reply),
    }
}
