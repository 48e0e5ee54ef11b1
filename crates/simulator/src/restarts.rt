//! Nodes that are made anew.

ghost use Rattle.std.specs.Prelude.{◌≡◌, ◌≤◌, ◌*◌, OnErr, OnOk, Some};
ghost use Rattle.simulator_spec.specs.Happens.{made_anew};
ghost use Rattle.simulator_spec.specs.Nodes.{Interlocking, node_at};
ghost use Rattle.simulator_spec.specs.Refusals.{clock_limit};
ghost use Rattle.simulator.specs.inside.Parts.{IsWhole, Restarts, site_of, table_of};

use crate::parts::Parts;
use simulator_spec::{Millis, Node, NodeId};
use std::alloc::AllocError;

impl Parts {
    /// The interlocking is made anew. What was held stands for its locks in its hold.
    #[tactic(auto, unfolding(crate::proofs::Below::world_of))]
    fn restart_interlocking(&mut self, clock: Millis, first: u32) -> Result<(), AllocError>
        requires whole { IsWhole self.old }
        requires fits { clock * 1000 ≤ clock_limit }
        ensures made { OnOk result (Restarts (made_anew (site_of self.old) (table_of self.old) (record { clock = clock; first = first }) (Some Interlocking)) self.old self.new) }
        ensures same { OnErr result (self.new ≡ self.old) }
    {
        let held = self.held();
        self.interlocking.restart(self.alloc, clock, first)?;
        self.frozen = held;
        Ok(())
    }

    /// A node is made anew, with its clock in milliseconds and the number of its first PDU.
    pub(crate) fn restart(
        &mut self,
        node: NodeId,
        clock: Millis,
        first: u32,
    ) -> Result<(), AllocError>
        requires whole { IsWhole self.old }
        requires fits { clock * 1000 ≤ clock_limit }
        ensures made { OnOk result (Restarts (made_anew (site_of self.old) (table_of self.old) (record { clock = clock; first = first }) (node_at (site_of self.old) node.0)) self.old self.new) }
        ensures same { OnErr result (self.new ≡ self.old) }
    {
        let alloc = self.alloc;
        let table = self.interlocking.table().checked();
        let field = &mut self.field;
        match table.layout().node(node) {
            Some(Node::Interlocking) => self.restart_interlocking(clock, first),
            Some(Node::Signal(signal)) => {
                field.restart_signal(alloc, table, signal.0, clock, first)
            }
            Some(Node::Point(point)) => field.restart_point(alloc, table, point.0, clock, first),
            Some(Node::Detector(detector)) => {
                field.restart_detector(alloc, table, detector.0, clock, first)
            }
            None => Ok(()),
        }
    }
}
