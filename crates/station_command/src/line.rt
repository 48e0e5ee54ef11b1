//! The command line of `station`, made of the table of its commands.

ghost use Rattle.std.specs.Prelude.{◌≡◌, IfOk, false};
ghost use Rattle.clap.specs.Words.{app_of, rule_of, with_subcommand};
ghost use Rattle.clap.specs.declared.builder.command.Command.TheViews.{out-Command};
ghost use Rattle.station_command.specs.Line.{rule_of as rule_of_row, station_line};
ghost use Rattle.station_command.specs.inside.Entries.{argument_of_row, line_of_entry};

use crate::command_table::{Argument, COMMANDS, Entry, Kind};
use crate::texts::{ABOUT, Help};
use clap::builder::ValueParser;
use clap::{Arg, ArgAction, Command};
use std::alloc::{AllocError, Global};

/// An argument as its row says.
fn made<'a>(alloc: Global, argument: &Argument) -> Arg<'a>
    ensures rule { rule_of result ≡ rule_of_row (argument_of_row argument.now) }
    ensures local { result.global ≡ false }
{
    let Argument(name, kind, needed, help) = *argument;
    let arg = Arg::new(alloc, name).required(needed).help(help.words());
    match kind {
        Kind::File(value) => arg.value_name(value),
        Kind::Word(value) => arg.long(name).value_name(value),
        Kind::Number(value, low, high) => arg
            .long(name)
            .value_name(value)
            .value_parser(ValueParser::unsigned(low, high)),
        Kind::Switch => arg.long(name).action(ArgAction::SetTrue),
    }
}

/// A command as its entry says.
fn command<'a>(alloc: Global, entry: &Entry) -> Result<Command<'a>, AllocError>
    ensures { IfOk result (λ line. (app_of line ≡ line_of_entry entry.now) × ((out-Command line).has_globals ≡ false)) }
{
    let mut line = Command::new(alloc, entry.word)
        .about(entry.help.about())
        .long_about(entry.help.details());
    for argument in entry.arguments {
        line = line.arg(made(alloc, argument))?;
    }
    Ok(line)
}

/// A command line with the command of an entry, too.
fn with_entry<'a>(
    alloc: Global,
    line: Command<'a>,
    entry: &Entry,
) -> Result<Command<'a>, AllocError>
    ensures { IfOk result (λ more. app_of more ≡ with_subcommand (app_of line.entry) (line_of_entry entry.now).top) }
{
    match command(alloc, entry) {
        Ok(command) => line.subcommand(command),
        Err(error) => Err(error),
    }
}

/// The command line of `station`.
pub(crate) fn station<'a>(alloc: Global) -> Result<Command<'a>, AllocError>
    ensures { IfOk result (λ line. app_of line ≡ station_line) }
{
    let mut line = Command::new(alloc, "station")
        .bin_name("station")?
        .version("1.0.0")
        .about(ABOUT)
        .subcommand_required(true)
        .arg_required_else_help(true);
    for entry in COMMANDS {
        line = with_entry(alloc, line, entry)?;
    }
    Ok(line)
}
