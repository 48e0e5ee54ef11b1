//! A node that is driven for a round at a time.

ghost use Rattle.std.specs.Prelude.{◌≡◌, ◌≤◌};

use crate::node_stories::desk::{Desk, Nobody};
use node_kinds::node_drive::{Course, NodeFault, NodeMachine, drive};
use station_node::node_network::{MemoryOutside, NodeSocket};
use std::alloc::Global;
use std::marker::Model;

/// A node that was never stepped at a later reading than its clock was read at. Where its process has ended, there is none any more.
#[derive(Drop)]
pub(crate) struct Driven<N: NodeMachine> {
    node: Option<N>,
    latest: u64,
    /// The reading of its last tick.
    ticked: u64,
}

impl<N: NodeMachine> Model for Driven<N> {
    ghost use Rattle.std.specs.Prelude.{◌≡◌, ◌≤◌, Some};

    ghost Value = { Unit {0} };

    ghost view = { λ d. tt };

    ghost invariant = { λ d. (node : N) → d.node ≡ Some node → (N.node node).reached ≤ d.latest };
}

impl<N: NodeMachine + Drop> Driven<N> {
    /// A node that was made at this reading.
    pub(crate) fn begun(node: N, now: u64) -> Driven<N>
        requires { (N.node node).reached ≤ now }
    {
        Driven {
            node: Some(node),
            latest: now,
            ticked: now,
        }
    }

    /// A round, if there is a node. Where it ends in that, there is none any more.
    pub(crate) fn round(
        &mut self,
        alloc: Global,
        course: &mut Course,
        memory: &mut MemoryOutside,
        wire: &mut Option<NodeSocket>,
    ) -> Result<(), NodeFault> {
        let Some(node) = &mut self.node else {
            return Ok(());
        };
        let mut desk = Desk {
            latest: self.latest,
            memory,
            wire,
            others: &mut Nobody,
        };
        let ticked = drive(alloc, node, course, &mut desk, self.ticked, 0);
        self.latest = desk.latest;
        match ticked {
            Ok(ticked) => {
                self.ticked = ticked;
                Ok(())
            }
            Err(fault) => {
                put(&mut self.node, None);
                Err(fault)
            }
        }
    }
}

/// Puts a value in the place of another one.
pub(crate) fn put<T: Drop>(place: &mut T, value: T)
    ensures { place.new ≡ value }
{
    *place = value;
}
