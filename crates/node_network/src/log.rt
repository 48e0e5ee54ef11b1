//! What was asked of what a process has outside, and what it answered.

ghost use Rattle.std.specs.Prelude.{[], ◌∷◌};
ghost use Rattle.node_drive.specs.Calls.{Grows};
ghost use Rattle.node_network.specs.Log.{call_of, told_calls};

use node_drive::{Fault, NodeId, Origin, ToKeep};

/// A call of a node's process.
#[derive(Drop)]
pub enum OutsideCall {
    /// It waited until the next round was due.
    Rested,
    /// It read the clock.
    Read(u64),
    /// It asked whether an operator began to listen.
    AskedListener(bool),
    /// It asked for a line, and was given one.
    HeardLine(String),
    /// It asked for a line, and there was none.
    HeardNoLine,
    /// It asked for a line, and none came any more.
    HeardEnd,
    /// It asked for a datagram, and was given one.
    HeardDatagram(Origin, Vec<u8>),
    /// It asked for a datagram, and none waited.
    HeardNoDatagram,
    /// It asked for a datagram, and the call failed.
    FailedToReceive,
    /// It threw away so many datagrams that waited, and whether none waited any more.
    ThrewAway(u64, bool),
    /// It wrote a line.
    Wrote(String),
    /// It didn't write a line whole.
    BrokeOff(String),
    /// It sent bytes to a node, or they were lost.
    Sent(NodeId, Vec<u8>),
    /// It told the fault of a line.
    Complained(u64, Fault),
    /// It kept this in its file, or the file wasn't written.
    Kept(ToKeep, bool),
}

/// The calls of a process.
#[derive(Drop)]
pub(crate) struct Log {
    pub(crate) calls: Vec<OutsideCall>,
    /// Whether memory was there for each call.
    pub(crate) tells: bool,
}

impl Log {
    /// Keeps a call, if memory is there for it, and was for each before it.
    pub(crate) fn add(&mut self, call: OutsideCall)
        ensures { Grows (told_calls self.old.tells self.old.calls.items) (told_calls self.new.tells self.new.calls.items) (call_of call ∷ []) }
    {
        if self.tells {
            let kept = self.calls.push(call);
            self.tells = kept.is_ok();
            drop(kept);
        } else {
            drop(call);
        }
    }
}
