//! What a node's process has outside: its clock, its lines in and out, and its socket.

use node_lines::{AuxiliaryCounts, Closings, Fault, NodeId, Received};
use std::alloc::{AllocError, Global};

/// A network over which nodes send their datagrams.
#[derive(Clone, Copy, Debug)]
pub enum Network {
    /// The only one.
    Alone,
    /// The first of two.
    First,
    /// The second of two.
    Second,
}

/// Where a datagram came from.
#[derive(Clone, Copy)]
pub struct Origin {
    /// The node from whose address it came, if it is that of one.
    pub from: Option<NodeId>,
    /// The network over which it came.
    pub over: Network,
}

/// A datagram that has come.
#[derive(Drop)]
pub struct Arrived {
    pub origin: Origin,
    pub bytes: Received,
}

/// What the question for a datagram is answered.
#[derive(Drop)]
pub enum NextDatagram {
    /// One that waited.
    Came(Arrived),
    /// None waits that came 90 ms ago or more: not in a socket, and not in the hold before it.
    Empty,
    /// The call failed: whether one waits isn't known.
    Failed,
}

/// What was thrown away.
#[derive(Clone, Copy)]
pub struct ThrownAway {
    /// How many datagrams.
    pub count: u64,
    /// Whether none waited any more that came 90 ms ago or more.
    pub found_empty: bool,
}

/// What the question for a line is answered.
#[derive(Drop)]
pub enum NextLine {
    /// A line, without its line feed.
    Text(String),
    /// There is none yet.
    Nothing,
    /// None comes any more.
    Closed,
}

/// What the process of an interlocking keeps in a file for one that begins later.
#[derive(Clone, Copy)]
pub struct ToKeep {
    /// How many auxiliary commands were accepted.
    pub counts: AuxiliaryCounts,
    /// What is to be closed.
    pub closings: Closings,
}

/// A line wasn't written whole.
#[derive(Clone, Copy)]
pub struct BrokenOff;

/// What a node's process has outside. One list tells of all of it, so that the order of its calls is seen. Nothing of it blocks
/// but `rest`.
pub trait Outside {
    ghost use Rattle.std.specs.Prelude.{◌≡◌, [], ◌∷◌, IfOk, OnErr, OnOk};
    ghost use Rattle.node_drive.specs.Calls.{AsksDatagram, AsksLine, AsksListener, BreaksOff, Calls, Complains, Keeps, Reads, Rests, Sends, ThrowsAway, Told, Writes, datagram_heard, line_heard};

    /// What it tells.
    ghost told: { Self → Told };

    /// Waits until the next round is due.
    fn rest(&mut self)
        ensures { Calls (told self.old) (told self.new) (Rests ∷ []) };

    /// Reads the clock, in milliseconds that don't fall.
    fn read_clock(&mut self) -> u64
        ensures { Calls (told self.old) (told self.new) (Reads result ∷ []) };

    /// Whether an operator began to listen since the last question. Field equipment never does.
    fn has_listener(&mut self) -> bool
        ensures { Calls (told self.old) (told self.new) (AsksListener result ∷ []) };

    /// The next line, if there is one.
    fn next_line(&mut self, alloc: Global) -> Result<NextLine, AllocError>
        ensures heard { IfOk result (λ line. Calls (told self.old) (told self.new) (AsksLine (line_heard line) ∷ [])) }
        ensures none { OnErr result (Calls (told self.old) (told self.new) []) };

    /// The next datagram, if there is one.
    fn next_datagram(&mut self) -> NextDatagram
        ensures { Calls (told self.old) (told self.new) (AsksDatagram (datagram_heard result) ∷ []) };

    /// Throws away datagrams that wait, until none waits that came 90 ms ago or more, or as many as are thrown away in one go.
    fn throw_away(&mut self) -> ThrownAway
        ensures { Calls (told self.old) (told self.new) (ThrowsAway result.count result.found_empty ∷ []) };

    /// Writes a line with its line feed, and hands it on; or at most a beginning of it was written.
    fn write_line(&mut self, text: &str) -> Result<(), BrokenOff>
        ensures done { OnOk result (Calls (told self.old) (told self.new) (Writes text.now ∷ [])) }
        ensures failed { OnErr result (Calls (told self.old) (told self.new) (BreaksOff text.now ∷ [])) };

    /// Sends bytes to a node. Where that fails they are lost.
    fn send(&mut self, to: NodeId, bytes: &[u8])
        ensures { Calls (told self.old) (told self.new) (Sends to bytes.now ∷ []) };

    /// Tells the fault of a line on standard error, with the line's number. Where that fails it isn't told.
    fn complain(&mut self, line: u64, fault: Fault)
        ensures { Calls (told self.old) (told self.new) (Complains line fault ∷ []) };

    /// Keeps this in a file for a process that begins later. It answers whether the file has it on disk; where it doesn't, the file
    /// has what it had before, or this.
    fn keep(&mut self, all: ToKeep) -> bool
        ensures { Calls (told self.old) (told self.new) (Keeps all result ∷ []) };
}
