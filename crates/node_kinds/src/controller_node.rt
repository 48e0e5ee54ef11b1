//! The controller of a signal, a point or a detector as a node.

use crate::contacts::Contacts;
use crate::controller_steps::{INTERLOCKING, SteppedHost};
use node_drive::node_lines::read_report;
use node_drive::{LineMeaning, NodeMachine, Order, Outgoing, ToKeep};
use simulator_spec::object_host::{Input, Sense};
use simulator_spec::{Layout, NodeId};
use std::alloc::{AllocError, Global};

/// The controller of a field object, in a station of this layout.
pub struct ControllerNode<'a, C: Contacts> {
    pub(crate) layout: &'a Layout,
    pub(crate) stepped: SteppedHost<C::Object>,
    pub(crate) contacts: C,
    /// What a contact told that has to come.
    pub(crate) left: Option<Sense>,
}

// Written by hand, so that it is proved and compiled here alone.
impl<C: Contacts> Drop for ControllerNode<'_, C> {
    fn drop(self) {
        let Self {
            layout: _,
            stepped: _,
            contacts: _,
            left: _,
        } = self;
    }
}

impl<'a, C: Contacts> NodeMachine for ControllerNode<'a, C> {
    ghost use Rattle.simulator_spec.specs.object_host.declared.input.Input.{Input as HostInput};
    ghost use Rattle.node_drive.specs.replay_words.Cut.{words};
    ghost use Rattle.node_drive.specs.node_lines.Reports.{report_said};
    ghost use Rattle.node_kinds.specs.Controllers.{Controller, controller};
    ghost use Rattle.node_kinds.specs.inside.ControllerNodes.{controller_now};

    ghost State = { Controller C.Object C.Kept };

    ghost Input = { HostInput };

    ghost does = { controller C.Object.behaviour C.order (λ site text kept. C.meaning kept (report_said site (words text))) C.after };

    ghost node = { controller_now C.kept };

    fn is_partner(&self, other: NodeId) -> bool {
        other.0 == INTERLOCKING.0
    }

    fn hear(&mut self, _alloc: Global, reading: u64, bytes: &[u8]) -> Result<(), AllocError> {
        self.stepped.hear(reading, bytes);
        Ok(())
    }

    fn tick(&mut self, _alloc: Global, reading: u64) -> Result<(), AllocError> {
        self.stepped.step(reading, Input::Tick);
        Ok(())
    }

    #[tactic(auto, using(crate::proofs::ReportLines::unanswered_is))]
    fn take_line(
        &mut self,
        _alloc: Global,
        _reading: u64,
        text: &str,
    ) -> Result<LineMeaning, AllocError> {
        let (meaning, left) = self.contacts.told(read_report(self.layout, text));
        self.left = left;
        Ok(meaning)
    }

    fn step_on(&mut self, _alloc: Global, reading: u64) -> Result<bool, AllocError> {
        let Some(sense) = self.left else {
            return Ok(false);
        };
        self.left = None;
        self.contacts.note(sense);
        self.stepped.step(reading, Input::Sense(sense));
        Ok(true)
    }

    fn order(&self) -> Option<Order> {
        self.contacts.order_of(self.stepped.object())
    }

    fn is_done(&self) -> bool {
        false
    }

    fn to_keep(&self) -> Option<ToKeep> {
        None
    }

    fn note_kept(&mut self, _kept: bool) -> Result<(), AllocError> {
        Ok(())
    }

    fn take_datagram(&mut self) -> Option<Outgoing> {
        self.stepped.take_first()
    }

    fn take_saying(&mut self) -> Option<String> {
        None
    }

    fn tell_all(&mut self, _alloc: Global, _reading: u64) -> Result<(), AllocError> {
        Ok(())
    }
}
