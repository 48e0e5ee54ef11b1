//! Where connections come from.

use mio::net::{TcpListener, TcpStream};
use std::io;
use std::io::{Read, Write};
use std::net::{Ipv4Addr, Net, SocketAddr};

/// Where connections come from.
pub trait Listens {
    /// A connection, whose calls don't wait.
    type Stream: Read + Write + Drop;

    /// A connection that has come, if there is one. It doesn't wait.
    fn accept(&mut self) -> Option<Self::Stream>;
}

/// A listener on the loopback interface.
#[derive(Drop)]
pub struct Loopback {
    listener: TcpListener,
}

impl Loopback {
    /// Listens at a port, any that is free where it is 0.
    pub fn open(net: &impl Net, port: u16) -> io::Result<Loopback> {
        let address = SocketAddr::from((Ipv4Addr::LOCALHOST, port));
        Ok(Loopback {
            listener: TcpListener::bind(net, address)?,
        })
    }

    /// The address at which it listens.
    pub fn address(&self) -> io::Result<SocketAddr> {
        self.listener.local_addr()
    }
}

impl Listens for Loopback {
    type Stream = TcpStream;

    fn accept(&mut self) -> Option<TcpStream> {
        match self.listener.accept() {
            Ok((stream, _)) => Some(stream),
            Err(_) => None,
        }
    }
}

/// Tells where the page is that is served at a port.
pub fn tell_address<O: Write>(port: u16, out: &mut O) -> io::Result<()> {
    out.writeln(format_args!("http://127.0.0.1:{port}/"))?;
    out.flush()
}
