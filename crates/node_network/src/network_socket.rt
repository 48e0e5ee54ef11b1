//! The socket of a node in one network.

ghost use Rattle.std.specs.Prelude.{◌≡◌, ◌≤◌, Err, IfOk, length};
ghost use Rattle.std.specs.Bool.{Decides};
ghost use Rattle.node_drive.specs.Calls.{Came, datagram_heard};
ghost use Rattle.node_network.specs.Places.{IsFromNode, IsNodeOf};
ghost use Rattle.node_network.specs.declared.fault.OpenFault.TheVariants.{NoAddress};

use crate::fault::OpenFault;
use node_drive::{
    Arrived, LONGEST_DATAGRAM, Network, NextDatagram, NodeId, Origin, Received, ThrownAway,
};
use std::alloc::Global;
use std::io::ErrorKind;
use std::net::{Net, SocketAddr, UdpSocket};

/// How many datagrams are thrown away at most in one go.
pub(crate) const MOST_THROWN_AWAY: u64 = 4096;

/// The socket of a node in a network, at the node's own address there alone, with the addresses of all nodes in their order.
#[derive(Drop)]
pub(crate) struct NetworkSocket {
    socket: UdpSocket,
    addresses: Vec<SocketAddr>,
}

impl NetworkSocket {
    /// Opens the socket of a node, whose calls don't wait. It fails where another process has the address.
    pub(crate) fn open(
        net: &impl Net,
        alloc: Global,
        addresses: &[SocketAddr],
        own: NodeId,
    ) -> Result<NetworkSocket, OpenFault>
        ensures addresses { IfOk result (λ one. one.addresses.items ≡ addresses.now) }
        ensures no_address { length addresses.now ≤ own.0 → result ≡ Err NoAddress }
        ensures address { result ≡ Err NoAddress → length addresses.now ≤ own.0 }
    {
        let Some(address) = addresses.get(own.0) else {
            return Err(OpenFault::NoAddress);
        };
        let Ok(socket) = net.bind_udp(*address) else {
            return Err(OpenFault::NoSocket);
        };
        let Ok(()) = socket.set_nonblocking(true) else {
            return Err(OpenFault::NoSocket);
        };
        let addresses = Vec::from_slice(alloc, addresses)?;
        Ok(NetworkSocket { socket, addresses })
    }

    /// The next datagram, if there is one, as one that came over this network. A longer one is cut. Only a call that would have to wait
    /// has found none.
    #[tactic(auto, using(crate::proofs::Senders::from_node))]
    pub(crate) fn next_datagram(&self, over: Network) -> NextDatagram
        ensures { IsFromNode self.now.addresses.items over (datagram_heard result) }
    {
        let mut buffer = [0u8; LONGEST_DATAGRAM];
        match self.socket.recv_from(&mut buffer) {
            Ok((count, sender)) => {
                let (bytes, _) = buffer.as_slice().split_at(count);
                let from = node_of(&self.addresses, &sender);
                arrived(Origin { from, over }, bytes)
            }
            Err(error) if error.kind() == ErrorKind::WouldBlock => NextDatagram::Empty,
            Err(_) => NextDatagram::Failed,
        }
    }

    /// Throws away datagrams that wait, until none waits, or as many as are thrown away in one go. It gives up where a call fails.
    pub(crate) fn throw_away(&self) -> ThrownAway
        ensures { result.count ≤ 4096 }
    {
        for count in 0..MOST_THROWN_AWAY {
            match self.socket.recv_from(&mut [0u8; 1]) {
                Ok(_) => (),
                Err(error) => {
                    let found_empty = error.kind() == ErrorKind::WouldBlock;
                    return ThrownAway { count, found_empty };
                }
            }
        }
        ThrownAway {
            count: MOST_THROWN_AWAY,
            found_empty: false,
        }
    }

    /// Sends bytes to a node. Where that fails they are lost.
    pub(crate) fn send(&self, to: NodeId, bytes: &[u8]) {
        if let Some(address) = self.addresses.as_slice().get(to.0) {
            // A datagram that isn't sent is one that is lost.
            let _ = self.socket.send_to(bytes, *address);
        }
    }
}

/// A datagram that came from the address of a node, or from another.
pub(crate) fn arrived(origin: Origin, bytes: &[u8]) -> NextDatagram
    requires { length bytes.now ≤ LONGEST_DATAGRAM }
    ensures { datagram_heard result ≡ Came (origin, bytes.now) }
{
    let Ok(bytes) = Received::try_from(bytes) else {
        return NextDatagram::Failed;
    };
    NextDatagram::Came(Arrived { origin, bytes })
}

/// The node that has an address, if one has.
fn node_of(addresses: &[SocketAddr], address: &SocketAddr) -> Option<NodeId>
    ensures { IsNodeOf addresses.now address.now result }
{
    for place in 0..addresses.len() {
        if is_same(&addresses[place], address) {
            return Some(NodeId(place));
        }
    }
    None
}

fn is_same(one: &SocketAddr, other: &SocketAddr) -> bool
    ensures { Decides result (one.now ≡ other.now) }
{
    one == other
}
