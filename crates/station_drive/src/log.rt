//! What was asked of a network, and what it answered.

ghost use Rattle.std.specs.Prelude.{◌≡◌, [], ◌∷◌, IfOk};
ghost use Rattle.station_drive.specs.Told.{Call, Grows};
ghost use Rattle.station_drive.specs.Log.{call_of, told_by};

use crate::simulator_event::NodeId;
use std::alloc::AllocError;

/// A call of a network.
#[derive(Debug, Drop)]
pub enum NetCall {
    /// Bytes were to be sent to a node.
    Sent(NodeId, Vec<u8>),
    /// A node asked, and was given a datagram.
    Heard(NodeId, Vec<u8>),
    /// A node asked, and there was no datagram for it.
    Silent(NodeId),
    /// A node asked, and the call failed.
    Failed(NodeId),
}

/// The calls of a network.
#[derive(Drop)]
pub(crate) struct Log {
    pub(crate) calls: Vec<NetCall>,
    /// Whether memory was there for each call.
    pub(crate) tells: bool,
}

impl Log {
    /// Keeps a call, if memory was there for it.
    pub(crate) fn add(&mut self, call: Result<NetCall, AllocError>)
        ensures { (one : Call) → IfOk call (λ kept. call_of kept ≡ one) → Grows (told_by self.old) (told_by self.new) (one ∷ []) }
    {
        let Ok(call) = call else {
            self.tells = false;
            return;
        };
        if self.calls.push(call).is_err() {
            self.tells = false;
        }
    }
}
