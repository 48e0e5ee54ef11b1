//! What is seen of both networks at all partners.

ghost use Rattle.std.specs.Prelude.{◌≡◌, IfOk, length, map, replicate, slice_get};
ghost use Rattle.network_watch.specs.Links.{came_over, ended, new_link, path_in, sends, told_of};
ghost use Rattle.network_watch.specs.Watches.{noted, told_at};

use crate::link_watch::LinkWatch;
use crate::path_seen::{News, PathSeen};
use datagram_hold::Network;
use std::alloc::{AllocError, Global};
use std::marker::Model;

/// What is told of a network.
#[derive(Clone, Copy, Debug)]
pub enum Telling {
    /// What changed at the end of the last round.
    Changes,
    /// That it is lost, where it is.
    Standing,
}

/// What a node sees of both networks at its partners, each by its place among the nodes. Clauses see it as the list of its links.
#[derive(Drop)]
pub struct NetworkWatch {
    links: Vec<LinkWatch>,
}

impl Model for NetworkWatch {
    ghost use Rattle.std.specs.Prelude.{List};
    ghost use Rattle.network_watch.specs.declared.link_watch.LinkWatch.{LinkWatch as Link};

    ghost Value = { List Link };

    ghost view = { λ w. w.links.items };
}

impl NetworkWatch {
    /// Of so many nodes nothing was seen.
    pub fn new(alloc: Global, nodes: usize) -> Result<NetworkWatch, AllocError>
        ensures { IfOk result (λ watch. watch ≡ replicate nodes new_link) }
    {
        let mut links = Vec::new(alloc);
        for _ in 0..nodes {
            links.push(LinkWatch::new())?;
        }
        Ok(NetworkWatch { links })
    }

    /// How many nodes there are.
    pub fn nodes(&self) -> usize
        ensures { result ≡ length self.now }
    {
        self.links.len()
    }

    /// Something was sent to a node.
    pub fn note_sent(&mut self, node: usize)
        ensures { self.new ≡ noted sends node self.old (slice_get self.old node) }
    {
        if node < self.links.len() {
            self.links[node].note_sent();
        }
    }

    /// Something came from a node over a network.
    pub fn note_came(&mut self, node: usize, over: Network)
        ensures { self.new ≡ noted (came_over over) node self.old (slice_get self.old node) }
    {
        if node < self.links.len() {
            self.links[node].note_came(over);
        }
    }

    /// A round ends at a reading.
    pub fn end_round(&mut self, reading: u64)
        ensures { self.new ≡ map (ended reading) self.old }
    {
        end_all(&mut self.links, reading);
    }

    /// What is to be told of a network at a node, if anything is.
    pub fn told(&self, telling: Telling, node: usize, over: Network) -> Option<News>
        ensures { result ≡ told_at telling over (slice_get self.now node) }
    {
        match self.links.as_slice().get(node) {
            Some(link) => told_of(telling, path_in(over, link)),
            None => None,
        }
    }
}

/// A round ends at a reading, at each link.
fn end_all(links: &mut [LinkWatch], reading: u64)
    ensures { links.new ≡ map (ended reading) links.old }
{
    for link in links.iter_mut() {
        link.end_round(reading);
    }
}

/// What is seen of a network.
fn path_in(over: Network, link: &LinkWatch) -> PathSeen
    ensures { result ≡ path_in over link.now }
{
    match over {
        Network::First => link.first,
        Network::Second => link.second,
    }
}

/// What is told of a network of which this is seen.
fn told_of(telling: Telling, path: PathSeen) -> Option<News>
    ensures { result ≡ told_of telling path }
{
    match telling {
        Telling::Changes => path.news,
        Telling::Standing if path.is_lost => Some(News::Lost),
        Telling::Standing => None,
    }
}
