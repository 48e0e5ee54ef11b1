//! Lines to and from a node, as its operator has them.

ghost use Rattle.std.specs.Prelude.{◌≡◌, ◌&&◌, false, not, true};
ghost use Rattle.node_network.specs.Listeners.{is_there};

use crate::line_input::LineInput;
use crate::other_end::connect;
use std::net::{Net, SocketAddr};

/// How many questions whether a node is there pass between two calls of it.
const PATIENCE: u64 = 100;

/// The lines of a node's operator, over a connection to an address. It is made anew where it was lost.
#[derive(Drop)]
pub(crate) struct CallingLines<'a, R: Net> {
    pub(crate) net: &'a R,
    pub(crate) address: SocketAddr,
    pub(crate) node: Option<LineInput<R::Stream>>,
    /// How many questions pass until the next call.
    pub(crate) left: u64,
}

impl<'a, R: Net> CallingLines<'a, R> {
    /// Whether the node was reached since the last question.
    pub(crate) fn has_listener(&mut self) -> bool
        ensures came { result ≡ not (is_there self.old.node) && is_there self.new.node }
        ensures stays { is_there self.old.node ≡ true → self.new.node ≡ self.old.node }
    {
        if self.node.is_some() {
            return false;
        }
        if self.left > 0 {
            self.left -= 1;
            return false;
        }
        self.left = PATIENCE;
        match self.net.connect(self.address) {
            Ok(stream) => connect(&mut self.node, stream),
            Err(_) => false,
        }
    }
}
