//! One connection.

ghost use Rattle.panel_connections.specs.Served.{Serves};

use http_server::{Config, Connection, Service};
use std::alloc::Global;
use std::hash::RandomState;
use std::io::{ErrorKind, Read, Write};

/// For how many milliseconds a connection may be without a whole request.
const PATIENCE: u64 = 5000;

/// One connection.
#[derive(Drop)]
pub(crate) struct Peer<S> {
    stream: S,
    connection: Connection,
    /// When a whole request came last, or when it began.
    since: u64,
    is_alive: bool,
}

impl<S: Read + Write + Drop> Peer<S> {
    /// A connection that begins. A body has at most so many bytes.
    pub(crate) fn new(
        alloc: Global,
        keys: RandomState,
        stream: S,
        longest: usize,
        now: u64,
    ) -> Peer<S> {
        let mut config = Config::default();
        config.max_body_len = longest;
        Peer {
            stream,
            connection: Connection::new(alloc, keys, config),
            since: now,
            is_alive: true,
        }
    }

    /// Whether it isn't to be closed.
    pub(crate) fn is_alive(&self) -> bool {
        self.is_alive
    }

    /// What has come is answered by a service, and what waits is sent.
    pub(crate) fn serve<V: Service>(&mut self, service: &mut V, now: u64)
        ensures { Serves V.answers service.old service.new }
    {
        self.receive();
        self.connection.advance(service);
        if self.connection.wants_write() {
            self.since = now;
            self.send();
        }
        let is_late = now.saturating_sub(self.since) > PATIENCE;
        self.is_alive = self.is_alive && !is_late && !self.connection.is_done();
    }

    /// Reads once what has come.
    fn receive(&mut self) {
        if !self.connection.wants_read() {
            return;
        }
        if let Err(error) = self.connection.read_from(&mut self.stream) {
            self.is_alive = self.is_alive && error.kind() == ErrorKind::WouldBlock;
        }
    }

    /// Sends once what waits.
    fn send(&mut self) {
        match self.connection.write_to(&mut self.stream) {
            Ok(count) => self.is_alive = self.is_alive && count > 0,
            Err(error) => {
                self.is_alive = self.is_alive && error.kind() == ErrorKind::WouldBlock;
            }
        }
    }
}
