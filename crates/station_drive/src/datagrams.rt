//! The network over which a station is driven.

use replay_lines::Received;
use simulator_event::NodeId;
use thiserror::Error;

/// A call of a network failed.
#[derive(Clone, Copy, Debug, PartialEq, Eq, Error)]
pub enum NetFault {
    #[error("a call of the network failed")]
    Failed,
}

/// A network that carries datagrams between the nodes of a station, or loses them.
pub trait Datagrams {
    ghost use Rattle.std.specs.Prelude.{◌≡◌, ℕ};
    ghost use Rattle.station_drive.specs.Told.{Asks, Call, Counts, Sends, heard_of};

    /// What it can tell of itself.
    ghost Told: { Type 0 };

    /// What it tells now.
    ghost told: { Self → Told };

    /// What a call makes of that: what it tells before the call and after it.
    ghost carries: { Told → Call → Told → Type 0 };

    /// How many of its calls failed.
    ghost failed: { Self → ℕ };

    /// Sends bytes to a node. Where that fails they are lost.
    fn send(&mut self, to: NodeId, bytes: &[u8]) -> Result<(), NetFault>
        ensures told { carries (told self.old) (Sends to bytes.now) (told self.new) }
        ensures faults { Counts result (failed self.old) (failed self.new) };

    /// A datagram that has come to a node, if there is one. It doesn't wait.
    fn receive(&mut self, node: NodeId) -> Result<Option<Received>, NetFault>
        ensures told { carries (told self.old) (Asks node (heard_of (λ bytes. bytes.items) result)) (told self.new) }
        ensures faults { Counts result (failed self.old) (failed self.new) };

    /// How many calls failed. At its greatest value the count stays: a call that fails then answers that it sent, or
    /// that there is nothing.
    fn faults(&self) -> u64
        ensures { result ≡ failed self.now };
}
