//! The lines of an operator over a connection.

ghost use Rattle.std.specs.Prelude.{◌≡◌, ◌&&◌, not, true};
ghost use Rattle.node_network.specs.Listeners.{is_there};

use crate::line_input::LineInput;
use crate::other_end::connect;
use std::net::{Net, OpenListener};

/// The lines of an operator who comes and goes, over one connection at a time. What is written while nobody is there is dropped.
#[derive(Drop)]
pub(crate) struct ConnectionLines<R: Net> {
    pub(crate) listener: R::Listener,
    pub(crate) operator: Option<LineInput<R::Stream>>,
}

impl<R: Net> ConnectionLines<R> {
    /// Whether an operator came since the last question. Nobody is let in while one is there.
    pub(crate) fn has_listener(&mut self) -> bool
        ensures came { result ≡ not (is_there self.old.operator) && is_there self.new.operator }
        ensures stays { is_there self.old.operator ≡ true → self.new.operator ≡ self.old.operator }
    {
        if self.operator.is_some() {
            return false;
        }
        match self.listener.accept() {
            Ok((stream, _)) => connect(&mut self.operator, stream),
            Err(_) => false,
        }
    }
}
