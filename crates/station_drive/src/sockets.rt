//! A network of sockets.

ghost use Rattle.std.specs.Prelude.{◌≡◌, ◌+◌, ◌<◌, ◌^◌, IfOk, IsErr, Ok, OnErr, length, slice_get};
ghost use Rattle.std.specs.Option.{option_map};
ghost use Rattle.station_drive.specs.Told.{Counts};

use crate::port::Port;
use crate::simulator_event::NodeId;
use crate::{Datagrams, NetFault, Received};
use std::alloc::Global;
use std::io;
use std::net::Net;
use thiserror::Error;

/// Why sockets can't be opened.
#[derive(Clone, Copy, Debug, PartialEq, Eq, Error)]
pub enum OpenFault {
    #[error("out of memory")]
    OutOfMemory,
    /// The system gives no more of them.
    #[error("no socket can be opened")]
    NoSocket,
}

impl From<io::Error> for OpenFault {
    fn from(_error: io::Error) -> OpenFault {
        OpenFault::NoSocket
    }
}

/// A socket for each node, in the order of the nodes, on the loopback interface, each at a port that the system gives. What goes
/// to a node goes over its own socket, which takes nothing from elsewhere: so two runs don't hear each other.
pub struct Sockets {
    ports: Vec<Port>,
    /// How many calls failed.
    failed: u64,
}

// Written by hand, so that it is proved and compiled here alone.
impl Drop for Sockets {
    fn drop(self) {
        let Self {
            ports: _,
            failed: _,
        } = self;
    }
}

impl Sockets {
    /// Opens the sockets of so many nodes.
    pub fn open(net: &impl Net, alloc: Global, nodes: usize) -> Result<Sockets, OpenFault>
        ensures { IfOk result (λ sockets. length sockets.ports.items ≡ nodes) }
    {
        let mut ports = Vec::new(alloc);
        for _ in 0..nodes {
            let port = Port::open(net)?;
            if ports.push(port).is_err() {
                return Err(OpenFault::OutOfMemory);
            }
        }
        Ok(Sockets { ports, failed: 0 })
    }

    /// What a call answers: a failure is counted. Where it can't be counted any more, the call answers otherwise.
    fn count<T: Drop>(&mut self, tried: Result<T, NetFault>, otherwise: T) -> Result<T, NetFault>
        ensures counts { Counts result self.old.failed self.new.failed }
        ensures done { IfOk tried (λ answer. result ≡ Ok answer) }
        ensures failed { OnErr tried (self.old.failed + 1 < 2 ^ 64 → IsErr result) }
    {
        match tried {
            Ok(answer) => Ok(answer),
            Err(_) if self.failed == u64::MAX => Ok(otherwise),
            Err(fault) => {
                self.failed += 1;
                Err(fault)
            }
        }
    }

    /// The socket of a node.
    fn port(&self, node: NodeId) -> Option<&Port>
        ensures { option_map (λ port. port.now) result ≡ slice_get self.now.ports.items node.0 }
    {
        self.ports.as_slice().get(node.0)
    }
}

impl Datagrams for Sockets {
    ghost use Rattle.station_drive.specs.Log.{Silent, anything};

    ghost Told = { Silent };

    ghost told = { λ _. tt };

    ghost carries = { anything };

    ghost failed = { λ sockets. sockets.failed };

    fn send(&mut self, to: NodeId, bytes: &[u8]) -> Result<(), NetFault> {
        let sent = match self.port(to) {
            Some(port) => port.send(bytes),
            None => Err(NetFault::Failed),
        };
        self.count(sent, ())
    }

    fn receive(&mut self, node: NodeId) -> Result<Option<Received>, NetFault> {
        let heard = match self.port(node) {
            Some(port) => port.receive(),
            None => Err(NetFault::Failed),
        };
        self.count(heard, None)
    }

    fn faults(&self) -> u64 {
        self.failed
    }
}
