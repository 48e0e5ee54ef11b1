//! Why a panel of a node isn't attended.

ghost use Rattle.std.specs.Prelude.{◌≡◌, string_bytes};
ghost use Rattle.node_panel.specs.Panels.{Tells, failure_line};

use panel_desk::write_as_taken;
use std::alloc::AllocError;
use std::io;
use std::io::Write;

/// Why a panel of a node isn't attended.
#[derive(Clone, Copy, PartialEq, Eq)]
pub(crate) enum NodePanelFailure {
    /// The address of the node isn't one.
    Address,
    /// A record was asked for.
    Record,
    NoClock,
    NoPort,
    /// The address of the page can't be written, or its token can't be drawn.
    Io,
    NoMemory,
}

impl NodePanelFailure {
    /// The line that tells it.
    fn line(self) -> &'static str
        ensures { result.now ≡ failure_line self }
    {
        match self {
            NodePanelFailure::Address => "the address of the node is an IP address and a port\n",
            NodePanelFailure::Record => {
                "a panel of a node writes no record: the node does, with its own --record\n"
            }
            NodePanelFailure::NoClock => "the clock cannot be read\n",
            NodePanelFailure::NoPort => "the port of the page cannot be opened\n",
            NodePanelFailure::Io => "cannot write the address of the page, or draw its token\n",
            NodePanelFailure::NoMemory => "out of memory\n",
        }
    }

    /// Writes its line, or as much of it as the writer takes.
    pub(crate) fn tell<E: Write>(self, err: &mut E)
        ensures { Tells self (E.contents err.old) (E.contents err.new) }
    {
        write_as_taken(self.line().as_bytes(), err);
    }
}

impl From<AllocError> for NodePanelFailure {
    fn from(_: AllocError) -> Self {
        NodePanelFailure::NoMemory
    }
}

impl From<io::Error> for NodePanelFailure {
    fn from(_: io::Error) -> Self {
        NodePanelFailure::Io
    }
}
