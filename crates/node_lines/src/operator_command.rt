//! What an operator asks of an interlocking.

ghost use Rattle.std.specs.Prelude.{◌≡◌};
ghost use Rattle.replay_words.specs.Cut.{words};
ghost use Rattle.node_lines.specs.Commands.{cancel, command_said, one, resume, set};

use replay_lines::ixl_spec::{Command, Layout, side_word};
use replay_lines::{
    close_named, move_point, open_named, point_word, release, route_named, route_word,
};
use replay_words::{Fault, Words};
use std::fmt;

/// What an operator asks for.
#[derive(Clone, Copy)]
pub enum OperatorCommand {
    /// One command to the interlocking.
    One(Command),
    /// To cancel each route of the table. The word `all` always asks for this, whatever a route is called.
    CancelAll,
}

/// What an operator asks for, as its line asks it.
#[derive(Clone, Copy)]
pub struct CommandText<'a> {
    pub layout: &'a Layout,
    pub command: OperatorCommand,
}

impl<'a> fmt::Display for CommandText<'a> {
    ghost use Rattle.std.specs.Prelude.{Some};
    ghost use Rattle.node_lines.specs.Commands.{command_text};

    ghost output = { λ text. Some (command_text text.layout.now text.command) };

    fn fmt<W: fmt::Write>(&self, f: &mut fmt::Formatter<W>) -> fmt::Result {
        match self.command {
            OperatorCommand::One(Command::Request(route)) => {
                let route = route_word(self.layout, route);
                write!(f, "set {route}")
            }
            OperatorCommand::One(Command::Cancel(route)) => {
                let route = route_word(self.layout, route);
                write!(f, "cancel {route}")
            }
            OperatorCommand::One(Command::Resume) => write!(f, "resume"),
            OperatorCommand::One(Command::Release(route)) => {
                let route = route_word(self.layout, route);
                write!(f, "release {route}")
            }
            OperatorCommand::One(Command::Move(point, side)) => {
                let point = point_word(self.layout, point);
                let side = side_word(side);
                write!(f, "move {point} {side}")
            }
            OperatorCommand::One(Command::Close(named)) => {
                let name = named.name_word(self.layout);
                match named.side() {
                    Some(side) => {
                        let side = side_word(side);
                        write!(f, "close {name} {side}")
                    }
                    None => write!(f, "close {name}"),
                }
            }
            OperatorCommand::One(Command::Open(named)) => {
                let name = named.name_word(self.layout);
                match named.side() {
                    Some(side) => {
                        let side = side_word(side);
                        write!(f, "open {name} {side}")
                    }
                    None => write!(f, "open {name}"),
                }
            }
            OperatorCommand::CancelAll => write!(f, "cancel all"),
        }
    }
}

/// What a line asks for, or the lowest fault of its words. Each word that names no route of the table stands for one that the
/// table lacks, which the interlocking refuses.
pub fn read_command(layout: &Layout, line: &str) -> Result<OperatorCommand, Fault>
    ensures { result ≡ command_said layout.now (words line.now) }
{
    let mut words = Words::of(line);
    match words.next() {
        Some("resume") => resume(words),
        Some("set") => set(layout, words),
        Some("cancel") => cancel(layout, words),
        Some("release") => one(release(layout, words)),
        Some("move") => one(move_point(layout, words)),
        Some("close") => one(close_named(layout, words)),
        Some("open") => one(open_named(layout, words)),
        _ => Err(Fault::Words),
    }
}

fn one(command: Result<Command, Fault>) -> Result<OperatorCommand, Fault>
    ensures { result ≡ one command }
{
    Ok(OperatorCommand::One(command?))
}

fn resume(mut words: Words<'_>) -> Result<OperatorCommand, Fault>
    ensures { result ≡ resume words.entry }
{
    match words.next() {
        None => Ok(OperatorCommand::One(Command::Resume)),
        Some(_) => Err(Fault::Words),
    }
}

fn set(layout: &Layout, mut words: Words<'_>) -> Result<OperatorCommand, Fault>
    ensures { result ≡ set layout.now words.entry }
{
    let (Some(route), None) = (words.next(), words.next()) else {
        return Err(Fault::Words);
    };
    Ok(OperatorCommand::One(Command::Request(route_named(layout, route))))
}

fn cancel(layout: &Layout, mut words: Words<'_>) -> Result<OperatorCommand, Fault>
    ensures { result ≡ cancel layout.now words.entry }
{
    let (Some(route), None) = (words.next(), words.next()) else {
        return Err(Fault::Words);
    };
    if route == "all" {
        return Ok(OperatorCommand::CancelAll);
    }
    Ok(OperatorCommand::One(Command::Cancel(route_named(layout, route))))
}
