//! The lines of a node.

ghost use Rattle.std.specs.Prelude.{◌≡◌, Err, IfErr, IfOk, MatchResult, Ok, false};
ghost use Rattle.node_drive.specs.declared.outside.NextLine.TheVariants.{Closed};
ghost use Rattle.node_network.specs.Lines.{unless_closed};
ghost use Rattle.node_network.specs.Listeners.{IsForNobody, began, first_lines, is_field};
ghost use Rattle.node_network.specs.declared.fault.OpenFault.TheVariants.{NoListener};
ghost use Rattle.node_network.specs.declared.lines.Kind.TheVariants.{Field, Operator};
ghost use Rattle.node_network.specs.declared.stream_lines.StreamLines.{StreamLines};

use crate::connection_lines::ConnectionLines;
use crate::fault::OpenFault;
use crate::line_input::LineInput;
use crate::line_output::write_line;
use crate::other_end::{next_line, write_line_to};
use crate::stream_lines::{OperatorLines, StreamLines};
use node_drive::{BrokenOff, NextLine};
use std::alloc::{AllocError, Global};
use std::io::{Read, Write};
use std::net::{Net, OpenListener, SocketAddr};

/// The lines of a node, in and out.
pub struct Lines<R: Net, I, O> {
    pub(crate) kind: Kind<R, I, O>,
}

// Written by hand, so that it is proved and compiled here alone.
impl<R: Net, I: Drop, O: Drop> Drop for Lines<R, I, O> {
    fn drop(self) {
        let Self { kind: _ } = self;
    }
}

/// Whose lines they are, and over what.
#[derive(Drop)]
pub(crate) enum Kind<R: Net, I, O> {
    Field(StreamLines<I, O>),
    Operator(OperatorLines<I, O>),
    Connection(ConnectionLines<R>),
}

impl<R: Net, I: Read, O: Write> Lines<R, I, O> {
    /// The lines of field equipment. Without them a controller can't go on: their end is told.
    pub fn of_field(input: I, output: O) -> Lines<R, I, O>
        ensures { result.kind ≡ Field (first_lines input output) }
    {
        let input = LineInput::new(input);
        Lines {
            kind: Kind::Field(StreamLines { input, output }),
        }
    }

    /// The lines of an operator, who listens from the beginning. At the end of the input the operator says nothing more.
    pub fn of_operator(input: I, output: O) -> Lines<R, I, O>
        ensures { result.kind ≡ Operator (record { streams = first_lines input output; told = false }) }
    {
        let input = LineInput::new(input);
        let lines = OperatorLines {
            streams: StreamLines { input, output },
            told: false,
        };
        Lines {
            kind: Kind::Operator(lines),
        }
    }

    /// The lines of an operator who comes and goes over a connection to an address.
    pub fn over_connection(net: &R, address: SocketAddr) -> Result<Lines<R, I, O>, OpenFault>
        ensures nobody { IfOk result (λ lines. IsForNobody lines.kind) }
        ensures fault { IfErr result (λ fault. fault ≡ NoListener) }
    {
        let Ok(listener) = net.bind(address) else {
            return Err(OpenFault::NoListener);
        };
        let Ok(()) = listener.set_nonblocking(true) else {
            return Err(OpenFault::NoListener);
        };
        let lines = ConnectionLines {
            listener,
            operator: None,
        };
        Ok(Lines {
            kind: Kind::Connection(lines),
        })
    }

    /// Whether they are those of field equipment.
    pub(crate) fn are_of_field(&self) -> bool
        ensures { result ≡ is_field self.now.kind }
    {
        matches!(&self.kind, Kind::Field(_))
    }

    pub(crate) fn has_listener(&mut self) -> bool
        ensures { result ≡ began self.old.kind self.new.kind }
    {
        match &mut self.kind {
            Kind::Field(_) => false,
            Kind::Operator(lines) => lines.has_listener(),
            Kind::Connection(lines) => lines.has_listener(),
        }
    }

    /// The next line, if there is one. An operator who has gone says nothing.
    pub(crate) fn next_line(&mut self, alloc: Global) -> Result<NextLine, AllocError>
        ensures field { IfOk result (λ answer. answer ≡ Closed → (lines : StreamLines I O) × (self.old.kind ≡ Field lines)) }
    {
        match &mut self.kind {
            Kind::Field(lines) => lines.input.next_line(alloc),
            Kind::Operator(lines) => unless_closed(lines.streams.input.next_line(alloc)),
            Kind::Connection(lines) => unless_closed(next_line(&mut lines.operator, alloc)),
        }
    }

    pub(crate) fn write_line(&mut self, alloc: Global, text: &str) -> Result<(), BrokenOff> {
        match &mut self.kind {
            Kind::Field(lines) => write_line(alloc, &mut lines.output, text),
            Kind::Operator(lines) => write_line(alloc, &mut lines.streams.output, text),
            Kind::Connection(lines) => {
                // Where it can't be written, nobody is there any more.
                let _ = write_line_to(&mut lines.operator, alloc, text);
                Ok(())
            }
        }
    }
}

/// That no line comes any more is told as that there is none yet.
fn unless_closed(answer: Result<NextLine, AllocError>) -> Result<NextLine, AllocError>
    ensures told { MatchResult answer (λ line. result ≡ Ok (unless_closed line)) (λ error. result ≡ Err error) }
    ensures open { IfOk result (λ answer. answer ≡ Closed → ⊥) }
{
    match answer {
        Ok(NextLine::Closed) => Ok(NextLine::Nothing),
        answer => answer,
    }
}
