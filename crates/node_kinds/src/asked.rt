//! What an operator's line asks for.

ghost use Rattle.std.specs.Prelude.{◌≡◌, ◌++◌, OnOk};
ghost use Rattle.ixl.specs.Interlocking.{told};
ghost use Rattle.simulator_spec.specs.Nodes.{key_of};
ghost use Rattle.simulator_spec.specs.ixl_spec.Step.{Commands, answer_by, reply};
ghost use Rattle.simulator_spec.specs.ixl_spec.declared.command.Command.TheVariants as command;
ghost use Rattle.node_kinds.specs.Interlockings.{answer_to, answer_to_all, cancels, wanted};
ghost use Rattle.node_kinds.specs.inside.InterlockingSteps.{texts};

use crate::saying::say_answer;
use ixl::{Command, Interlocking, Refusal, Reply};
use node_drive::node_lines::OperatorCommand;
use simulator_spec::{Millis, RouteId};
use std::alloc::{AllocError, Global};
use std::collections::VecDeque;

/// The answer to a command for which this refusal was found, or none.
fn answer_by(refusal: Option<Refusal>) -> Reply
    ensures { told result ≡ answer_by refusal }
{
    match refusal {
        Some(cause) => Reply::Refused(cause),
        None => Reply::Accepted,
    }
}

/// Whether cancels are taken, as it is answered.
fn answer_to_all(ixl: &Interlocking, now: Millis) -> Reply
    ensures { told result ≡ answer_to_all now ixl.now.state.ixl }
{
    answer_by(ixl.refusal_of_any(now))
}

/// The answer to a cancel of one route.
fn answer_to_cancel(ixl: &Interlocking, now: Millis, route: RouteId) -> Reply
    ensures { told result ≡ reply now ixl.now.state.sited.table (key_of ixl.now.state.sited.site) (Commands (command.Cancel route)) ixl.now.state.ixl }
{
    answer_by(ixl.refusal(now, Command::Cancel(route)))
}

/// Each route that is set is to be cancelled.
fn add_cancels(left: &mut VecDeque<Command>, ixl: &Interlocking) -> Result<(), AllocError>
    ensures { OnOk result (left.new.items ≡ left.old.items ++ cancels ixl.now.state.ixl.routes) }
{
    for place in 0..ixl.state().table().rows().len() {
        let route = RouteId(place);
        if ixl.is_set(route) {
            left.push_back(Command::Cancel(route))?;
        }
    }
    Ok(())
}

/// The answer that a line is given when it is taken is to be told.
pub(crate) fn say_answer_to(
    alloc: Global,
    ixl: &Interlocking,
    now: Millis,
    said: &mut VecDeque<String>,
    asked: OperatorCommand,
) -> Result<(), AllocError>
    ensures { OnOk result (texts said.new ≡ texts said.old ++ answer_to ixl.now.state.sited.site ixl.now.state.sited.table now ixl.now.state.ixl asked) }
{
    let reply = match asked {
        OperatorCommand::One(Command::Cancel(route)) => answer_to_cancel(ixl, now, route),
        OperatorCommand::One(_) => return Ok(()),
        OperatorCommand::CancelAll => answer_to_all(ixl, now),
    };
    say_answer(alloc, ixl.table().checked().layout(), said, reply)
}

/// The commands of a line are to come.
pub(crate) fn add_wanted(
    left: &mut VecDeque<Command>,
    ixl: &Interlocking,
    asked: OperatorCommand,
) -> Result<(), AllocError>
    ensures { OnOk result (left.new.items ≡ left.old.items ++ wanted ixl.now.state.ixl asked) }
{
    match asked {
        OperatorCommand::One(command) => Ok(left.push_back(command)?),
        OperatorCommand::CancelAll => add_cancels(left, ixl),
    }
}
