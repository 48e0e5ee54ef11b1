//! A node's end of the network.

ghost use Rattle.std.specs.Prelude.{◌≡◌, ◌≢◌, IfErr, IfOk, length, take};
ghost use Rattle.std.specs.Io.{ReadsAtMost};
ghost use Rattle.std.specs.IoError.{error_kind};
ghost use Rattle.std.specs.declared.io.ErrorKind.TheVariants.{WouldBlock};
ghost use Rattle.station_drive.specs.Told.{Datagram, Failed, Nothing, heard_of};

use crate::{NetFault, Received};
use mio::net::UdpSocket;
use replay_lines::LONGEST_DATAGRAM;
use std::io;
use std::io::ErrorKind;
use std::net::{IpAddr, Ipv4Addr, Net, SocketAddr};

/// The socket of a node. What is sent to the node goes over it, and it is connected to itself: the system lets in nothing that
/// came from elsewhere.
#[derive(Drop)]
pub(crate) struct Port {
    socket: UdpSocket,
}

impl Port {
    /// Opens a socket on the loopback interface, at a port that the system gives.
    pub(crate) fn open(net: &impl Net) -> io::Result<Port> {
        let anywhere = SocketAddr::new(IpAddr::V4(Ipv4Addr::LOCALHOST), 0);
        let socket = UdpSocket::bind(net, anywhere)?;
        socket.connect(socket.local_addr()?)?;
        Ok(Port { socket })
    }

    /// Sends bytes to the node.
    pub(crate) fn send(&self, bytes: &[u8]) -> Result<(), NetFault> {
        match self.socket.send(bytes) {
            Ok(count) if count == bytes.len() => Ok(()),
            _ => Err(NetFault::Failed),
        }
    }

    /// A datagram that has come to the node, if there is one. A longer one is cut.
    pub(crate) fn receive(&self) -> Result<Option<Received>, NetFault> {
        let mut buffer = [0u8; LONGEST_DATAGRAM];
        let received = self.socket.recv(&mut buffer);
        heard(received, &buffer)
    }
}

/// What was heard, where so many bytes were received into a buffer, or that failed.
fn heard(
    received: io::Result<usize>,
    buffer: &[u8; LONGEST_DATAGRAM],
) -> Result<Option<Received>, NetFault>
    requires { ReadsAtMost received buffer.now }
    ensures datagram { IfOk received (λ count. heard_of (λ bytes. bytes.items) result ≡ Datagram (take count buffer.now)) }
    ensures nothing { IfErr received (λ error. error_kind error ≡ WouldBlock → heard_of (λ bytes. bytes.items) result ≡ Nothing) }
    ensures failed { IfErr received (λ error. error_kind error ≢ WouldBlock → heard_of (λ bytes. bytes.items) result ≡ Failed) }
{
    match received {
        Ok(count) => {
            let (bytes, _) = buffer.as_slice().split_at(count);
            match Received::try_from(bytes) {
                Ok(bytes) => Ok(Some(bytes)),
                Err(_) => Err(NetFault::Failed),
            }
        }
        Err(error) if error.kind() == ErrorKind::WouldBlock => Ok(None),
        Err(_) => Err(NetFault::Failed),
    }
}
