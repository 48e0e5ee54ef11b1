//! What was asked for at the desk is asked of the node.

ghost use Rattle.std.specs.Prelude.{◌≡◌, [], ◌∷◌, List, OnOk, map};
ghost use Rattle.std.specs.List.{flat_map};
ghost use Rattle.std.specs.Option.{option_to_list};
ghost use Rattle.node_drive.specs.Calls.{Call, Calls};
ghost use Rattle.node_panel.specs.Turns.{AsksEach, AsksNumbers, IsQuestion, IsQuestionIf, asked_by, requested};
ghost use Rattle.panel_desk.specs.Boards.{Notes};

use crate::heard::Heard;
use crate::noted::note_command;
use node_drive::Outside;
use panel_desk::node_lines::{CommandText, OperatorCommand};
use panel_desk::{Command, Desk, Event, Layout, PanelCommand, RouteId, StandingOrderText};
use std::alloc::{AllocError, Global};

/// The word by which an operator asks for the numbers.
const NUMBERS: &str = "numbers";

/// Asks each command of the node, one after the other.
pub(crate) fn ask_each<O: Outside>(
    alloc: Global,
    layout: &Layout,
    outside: &mut O,
    commands: &[PanelCommand],
    heard: &mut Heard,
    desk: &mut Desk,
) -> Result<(), AllocError>
    ensures { OnOk result ((calls : List Call) × Calls (O.told outside.old) (O.told outside.new) calls × AsksEach layout.now (flat_map asked_by commands.now) heard.old calls heard.new × Notes desk.old desk.new) }
{
    for command in commands {
        ask_wanted(alloc, layout, outside, command, heard, desk)?;
    }
    Ok(())
}

/// Asks of the node what a command asks of an interlocking. All else is noted as not taken here.
fn ask_wanted<O: Outside>(
    alloc: Global,
    layout: &Layout,
    outside: &mut O,
    command: &PanelCommand,
    heard: &mut Heard,
    desk: &mut Desk,
) -> Result<(), AllocError>
    ensures { OnOk result ((calls : List Call) × Calls (O.told outside.old) (O.told outside.new) calls × AsksEach layout.now (asked_by command.now) heard.old calls heard.new × Notes desk.old desk.new) }
{
    match operator_command(command) {
        Some(command) => ask(alloc, layout, outside, command, heard, desk),
        None => note_own(alloc, layout, heard.millis, command, desk),
    }
}

/// Notes what isn't asked of the node: what the panel does by itself, or what isn't taken here.
fn note_own(
    alloc: Global,
    layout: &Layout,
    reading: u64,
    command: &PanelCommand,
    desk: &mut Desk,
) -> Result<(), AllocError>
    ensures { OnOk result (Notes desk.old desk.new) }
{
    if let PanelCommand::Stand(order) = command {
        let order = StandingOrderText {
            layout,
            order: *order,
        };
        let line = format!(in alloc; "{reading} {order} = accepted")?;
        return desk.note(line.as_str());
    }
    let line = format!(in alloc; "{reading} an occupancy or a fault = not taken here")?;
    desk.note(line.as_str())
}

/// Asks the node to set routes, one after the other.
pub(crate) fn ask_routes<O: Outside>(
    alloc: Global,
    layout: &Layout,
    outside: &mut O,
    routes: &[RouteId],
    heard: &mut Heard,
    desk: &mut Desk,
) -> Result<(), AllocError>
    ensures { OnOk result ((calls : List Call) × Calls (O.told outside.old) (O.told outside.new) calls × AsksEach layout.now (map requested routes.now) heard.old calls heard.new × Notes desk.old desk.new) }
{
    for route in routes {
        let command = OperatorCommand::One(Command::Request(*route));
        ask(alloc, layout, outside, command, heard, desk)?;
    }
    Ok(())
}

/// What of a command an interlocking is asked, if anything is.
fn operator_command(command: &PanelCommand) -> Option<OperatorCommand>
    ensures { option_to_list result ≡ asked_by command.now }
{
    match command {
        PanelCommand::Event(Event::Request(command)) => Some(OperatorCommand::One(*command)),
        PanelCommand::CancelAll => Some(OperatorCommand::CancelAll),
        _ => None,
    }
}

/// Asks a command of the node. Where its line can't be written whole, that is noted.
fn ask<O: Outside>(
    alloc: Global,
    layout: &Layout,
    outside: &mut O,
    command: OperatorCommand,
    heard: &mut Heard,
    desk: &mut Desk,
) -> Result<(), AllocError>
    ensures { OnOk result ((calls : List Call) × Calls (O.told outside.old) (O.told outside.new) calls × AsksEach layout.now (command ∷ []) heard.old calls heard.new × Notes desk.old desk.new) }
{
    let text = CommandText { layout, command };
    let line = format!(in alloc; "{text}")?;
    match outside.write_line(line.as_str()) {
        Ok(()) => heard.ask(command),
        Err(_) => note_command(alloc, layout, heard.millis, command, "lost", desk),
    }
}

/// Asks the node for its numbers, where that is due.
pub(crate) fn ask_numbers<O: Outside>(outside: &mut O, heard: &mut Heard)
    ensures { (calls : List Call) × Calls (O.told outside.old) (O.told outside.new) calls × AsksNumbers heard.old calls heard.new }
{
    let wants = heard.wants_numbers();
    write_question(outside, wants);
    heard.note_question(wants);
}

/// Writes the question for the numbers, if it is to be asked. Where its line can't be written whole, it is asked again when that is
/// due.
#[tactic(auto, using(crate::proofs::Questions::nothing_asked))]
fn write_question<O: Outside>(outside: &mut O, wants: bool)
    ensures { (calls : List Call) × Calls (O.told outside.old) (O.told outside.new) calls × IsQuestionIf wants calls }
{
    if wants {
        write_numbers(outside);
    }
}

/// Writes the question for the numbers, or a beginning of it.
fn write_numbers<O: Outside>(outside: &mut O)
    ensures { (calls : List Call) × Calls (O.told outside.old) (O.told outside.new) calls × IsQuestion calls }
{
    let _ = outside.write_line(NUMBERS);
}
