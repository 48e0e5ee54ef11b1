//! Datagrams that wait for their receivers.

use crate::Received;
use crate::simulator_event::NodeId;
use replay_lines::LONGEST_DATAGRAM;
use std::alloc::{AllocError, Global};

/// Datagrams with their receivers, oldest first.
#[derive(Drop)]
pub(crate) struct Waiting {
    pub(crate) datagrams: Vec<(NodeId, Vec<u8>)>,
    pub(crate) alloc: Global,
}

impl Waiting {
    /// A datagram waits.
    pub(crate) fn add(&mut self, to: NodeId, bytes: &[u8]) -> Result<(), AllocError> {
        let bytes = Vec::from_slice(self.alloc, bytes)?;
        self.datagrams.push((to, bytes))?;
        Ok(())
    }

    /// The place of the oldest datagram of a node.
    fn oldest_of(&self, node: NodeId) -> Option<usize> {
        self.datagrams.iter().position(|one| one.0.0 == node.0)
    }

    /// The oldest datagram of a node, which waits no longer. One that is too long is cut.
    pub(crate) fn take(&mut self, node: NodeId) -> Option<Received> {
        let place = self.oldest_of(node)?;
        if place >= self.datagrams.len() {
            return None;
        }
        let (_, bytes) = self.datagrams.remove(place);
        let (front, _) = bytes.split_at(bytes.len().min(LONGEST_DATAGRAM));
        Received::try_from(front).ok()
    }
}
