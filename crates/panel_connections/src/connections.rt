//! All connections.

ghost use Rattle.std.specs.Prelude.{◌≡◌, ◌≤◌, [], length};
ghost use Rattle.panel_connections.specs.Served.{Serves};

use crate::listener::Listens;
use crate::peer::Peer;
use http_server::Service;
use std::alloc::Global;
use std::hash::RandomState;
use std::io::{Read, Write};
use std::random::RandomSource;

/// The most connections at once.
const MOST: usize = 200;

/// The most bytes of a body, where it isn't said: those of a command.
const LONGEST_BODY: usize = 512;

/// All connections.
pub struct Connections<S> {
    peers: Vec<Peer<S>>,
    /// The most bytes of a body.
    longest: usize,
    ghost few: { length peers.items ≤ 200 },
}

// Written by hand, so that it is proved and compiled here alone.
impl<S: Drop> Drop for Connections<S> {
    fn drop(self) {
        let Self {
            peers: _,
            longest: _,
        } = self;
    }
}

impl<S: Read + Write + Drop> Connections<S> {
    /// No connection. The bodies of requests are commands.
    pub fn new(alloc: Global) -> Connections<S> {
        Connections::with_bodies(alloc, LONGEST_BODY)
    }

    /// No connection. The bodies of requests have at most so many bytes.
    pub fn with_bodies(alloc: Global, longest: usize) -> Connections<S> {
        Connections {
            peers: Vec::new(alloc),
            longest,
        }
    }

    /// A round of all connections at a clock reading in milliseconds: those that have come are taken while there are few, each
    /// whole request that has come is answered by the service, and what waits is sent.
    pub fn serve<R: RandomSource, L: Listens<Stream = S>, V: Service>(
        &mut self,
        rt: &R,
        alloc: Global,
        listener: &mut L,
        service: &mut V,
        now: u64,
    )
        ensures { Serves V.answers service.old service.new }
    {
        self.take(rt, alloc, listener, now);
        for peer in self.peers.iter_mut() {
            peer.serve(service, now);
        }
        self.peers.retain(|peer| peer.is_alive());
    }

    /// Takes connections that have come, while there are few. Where memory is lacking the others wait.
    fn take<R: RandomSource, L: Listens<Stream = S>>(
        &mut self,
        rt: &R,
        alloc: Global,
        listener: &mut L,
        now: u64,
    ) {
        for _ in 0..MOST {
            if !self.take_one(rt, alloc, listener, now) {
                return;
            }
        }
    }

    /// Takes a connection that has come, while there are few. It answers whether it did.
    fn take_one<R: RandomSource, L: Listens<Stream = S>>(
        &mut self,
        rt: &R,
        alloc: Global,
        listener: &mut L,
        now: u64,
    ) -> bool {
        if self.peers.len() >= MOST {
            return false;
        }
        let Some(stream) = listener.accept() else {
            return false;
        };
        let Ok(keys) = RandomState::new(rt) else {
            return false;
        };
        let peer = Peer::new(alloc, keys, stream, self.longest, now);
        self.peers.push(peer).is_ok()
    }
}
