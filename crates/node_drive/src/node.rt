//! The node that runs as a process of its own.

use crate::outside::ToKeep;
use node_lines::{Datagram, Fault, NodeId, Order};
use std::alloc::{AllocError, Global};

/// A datagram that a node hands out, and the node to which it goes.
#[derive(Drop)]
pub struct Outgoing {
    pub to: NodeId,
    pub datagram: Datagram,
}

/// What a line tells a node.
#[derive(Clone, Copy)]
pub enum LineMeaning {
    /// The order of this number is in force.
    InForce(u64),
    /// It comes to the node, with an answer or none, and with inputs that the node keeps until they are asked for.
    Comes,
    /// It is faulty.
    Faulty(Fault),
}

/// A node with what its last step left: the datagrams that it hands out, what is to be kept before a line of it is told, the lines
/// that it tells, and the inputs of a line that have to come.
pub trait NodeMachine {
    ghost use Rattle.std.specs.Prelude.{◌≡◌, ◌≤◌, drop, slice_get, IfOk, OnOk, string_bytes};
    ghost use Rattle.std.specs.Option.{option_map};
    ghost use Rattle.node_drive.specs.Inside.{StepsOn};
    ghost use Rattle.node_drive.specs.Kinds.{Kind, NodeState, meaning_of, node_after, node_kept};

    /// What its answers depend on.
    ghost State: { Type 0 };

    /// What comes to it.
    ghost Input: { Type 0 };

    /// How it behaves.
    ghost does: { Kind State Input };

    /// How it is now.
    ghost node: { Self → NodeState State Input };

    /// Whether it has a link with a node.
    fn is_partner(&self, other: NodeId) -> bool
        ensures { result ≡ does.is_partner other };

    /// Bytes come at a reading of its clock.
    fn hear(&mut self, alloc: Global, reading: u64, bytes: &[u8]) -> Result<(), AllocError>
        requires { (node self.old).reached ≤ reading }
        ensures { OnOk result (node self.new ≡ node_after does reading (does.datagram bytes.now) (node self.old)) };

    /// Its clock goes on.
    fn tick(&mut self, alloc: Global, reading: u64) -> Result<(), AllocError>
        requires { (node self.old).reached ≤ reading }
        ensures { OnOk result (node self.new ≡ node_after does reading does.tick (node self.old)) };

    /// What a line tells at a reading. Its answer is to be told then, and its inputs are to come.
    fn take_line(
        &mut self,
        alloc: Global,
        reading: u64,
        text: &str,
    ) -> Result<LineMeaning, AllocError>
        ensures meaning { IfOk result (λ meaning. meaning_of meaning (node self.new) ≡ does.meaning reading text.now (node self.old).state) }
        ensures rest { OnOk result (node self.new ≡ record (node self.old) { said = (node self.new).said; left = (node self.new).left }) };

    /// The next input of the last line comes, if there is one.
    fn step_on(&mut self, alloc: Global, reading: u64) -> Result<bool, AllocError>
        requires { (node self.old).reached ≤ reading }
        ensures { IfOk result (λ went. StepsOn does reading went (node self.old) (node self.new)) };

    /// What its equipment has to do now, if it has any that does something.
    fn order(&self) -> Option<Order>
        ensures { result ≡ does.order (node self.now).state };

    /// Whether it has nothing more to do once its last order is in force.
    fn is_done(&self) -> bool
        ensures { result ≡ does.is_done (node self.now).state };

    /// What its last step asks to be kept, as long as that isn't answered.
    fn to_keep(&self) -> Option<ToKeep>
        ensures { result ≡ option_map (λ asked. asked.all) (node self.now).keeps };

    /// It is answered whether that is kept.
    fn note_kept(&mut self, kept: bool) -> Result<(), AllocError>
        ensures { OnOk result (node self.new ≡ node_kept kept (node self.old)) };

    /// Takes the oldest of the datagrams.
    fn take_datagram(&mut self) -> Option<Outgoing>
        ensures value { option_map (λ d. (d.to, d.datagram.items)) result ≡ slice_get (node self.old).handed 0 }
        ensures rest { node self.new ≡ record (node self.old) { handed = drop 1 (node self.old).handed } };

    /// Takes the first of the lines.
    fn take_saying(&mut self) -> Option<String>
        ensures value { option_map string_bytes result ≡ slice_get (node self.old).said 0 }
        ensures rest { node self.new ≡ record (node self.old) { said = drop 1 (node self.old).said } };

    /// All that stands is to be told.
    fn tell_all(&mut self, alloc: Global, reading: u64) -> Result<(), AllocError>
        ensures { OnOk result (node self.new ≡ record (node self.old) { said = does.stands reading (node self.old).state }) };
}
