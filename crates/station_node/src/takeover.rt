//! How a new process of the interlocking takes over what its file has closed.

ghost use Rattle.std.specs.Prelude.{◌≡◌, not, Err, IfOk, IsErr, IsTrue, OnErr, OnOk, string_bytes};
ghost use Rattle.std.specs.Option.{option_map};
ghost use Rattle.closings_file.specs.declared.fault.FileFault.TheVariants.{Unreadable};
ghost use Rattle.closings_file.specs.Files.{found_in, found_of};
ghost use Rattle.node_kinds.specs.node_drive.Calls.{line_heard};
ghost use Rattle.station_node.specs.Takeover.{all_to_keep, close_text, line_asked, listener_asked, next_told, taken_over};

use closings_file::{Found, Keeper};
use node_kinds::node_drive::node_lines::{Command, CommandText, OperatorCommand};
use node_kinds::node_drive::{Named, NextLine, Thing, ToKeep};
use node_kinds::simulator_spec::Layout;
use std::alloc::{AllocError, Global};
use std::io;
use std::marker::Model;

/// What a new process takes over from those before it, by its file: it tells its node to close each thing that is closed there, by
/// lines as those of an operator, before the node hears anything else.
#[derive(Drop)]
pub struct Takeover {
    /// What the process found, and why its file wasn't taken at its word, if it wasn't.
    found: Found,
    /// All that the node is told to close, and how many of these things it was told.
    things: Vec<Thing>,
    told: usize,
    /// Whether the node hears nothing else yet.
    giving: bool,
}

impl Model for Takeover {
    ghost use Rattle.std.specs.Prelude.{drop};
    ghost use Rattle.std.specs.Coded.{codes};
    ghost use Rattle.node_kinds.specs.simulator_spec.bit_row.Places.{places_code};
    ghost use Rattle.station_node.specs.Takeover.{TakenOver};

    ghost Value = { TakenOver };

    ghost coded = { Prim.hlevel (codes, places_code) };

    ghost view = { λ t. record { found = t.found; left = drop t.told t.things.items; giving = t.giving } };
}

/// What is taken over where this is what the place of the file answered when it was read.
pub(crate) fn take_over(
    alloc: Global,
    layout: &Layout,
    keeper: &Keeper,
    answer: io::Result<Option<Vec<u8>>>,
) -> Result<Takeover, AllocError>
    ensures read { IfOk result (λ takeover. IfOk answer (λ file. takeover ≡ taken_over layout.now (found_in layout.now keeper.now.head (option_map (λ bytes. bytes.items) file)))) }
    ensures unreadable { IfOk result (λ takeover. IsErr answer → takeover ≡ taken_over layout.now (found_of layout.now (Err Unreadable))) }
{
    Takeover::of(alloc, layout, keeper.found(layout, answer))
}

/// The line by which a node is told to close a thing.
fn close_line(alloc: Global, layout: &Layout, thing: Thing) -> Result<String, AllocError>
    ensures { IfOk result (λ line. string_bytes line ≡ close_text layout.now thing) }
{
    let command = OperatorCommand::One(Command::Close(Named::One(thing)));
    let line = CommandText { layout, command };
    format!(in alloc; "{line}")
}

impl Takeover {
    /// Of a process that finds this as it begins.
    fn of(alloc: Global, layout: &Layout, found: Found) -> Result<Takeover, AllocError>
        ensures { IfOk result (λ takeover. takeover ≡ taken_over layout.now found) }
    {
        let things = found.closings.things(alloc, layout)?;
        Ok(Takeover {
            found,
            things,
            told: 0,
            giving: true,
        })
    }

    /// What the process found.
    pub(crate) fn found(&self) -> Found
        ensures { result ≡ self.now.found }
    {
        self.found
    }

    /// Whether the node hears nothing else yet.
    pub(crate) fn is_giving(&self) -> bool
        ensures { result ≡ self.now.giving }
    {
        self.giving
    }

    /// What the node hears that asks for a line and hears nothing else yet: it is told to close the next thing.
    pub(crate) fn next_line(
        &mut self,
        alloc: Global,
        layout: &Layout,
    ) -> Result<NextLine, AllocError>
        requires { IsTrue self.old.giving }
        ensures line { IfOk result (λ line. line_heard line ≡ next_told layout.now self.old.left) }
        ensures behind { OnOk result (self.new ≡ line_asked self.old) }
        ensures none { OnErr result (self.new ≡ self.old) }
    {
        let Some(thing) = self.things.get(self.told) else {
            return Ok(NextLine::Nothing);
        };
        let line = close_line(alloc, layout, *thing)?;
        self.told += 1;
        Ok(NextLine::Text(line))
    }

    /// It is asked whether an operator began to listen. The answer tells whether he may be let in: once all is told.
    pub(crate) fn lets_in(&mut self) -> bool
        ensures after { self.new ≡ listener_asked self.old }
        ensures answer { result ≡ not self.new.giving }
    {
        if self.told >= self.things.len() {
            self.giving = false;
        }
        !self.giving
    }

    /// All that the file is to have, where the node asks to keep this: what it wasn't told yet isn't lost.
    pub(crate) fn all_to_keep(&self, all: ToKeep) -> ToKeep
        ensures { result ≡ all_to_keep self.now all }
    {
        if !self.giving {
            return all;
        }
        ToKeep {
            counts: all.counts,
            closings: all.closings.either(&self.found.closings),
        }
    }
}
