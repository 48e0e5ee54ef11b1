//! A controller's host, with the reading of its last step.

ghost use Rattle.std.specs.Prelude.{◌≡◌, ◌≤◌, [], drop, slice_get, IfOk};
ghost use Rattle.std.specs.Option.{option_map};
ghost use Rattle.simulator_spec.specs.First.{host_of};
ghost use Rattle.simulator_spec.specs.Happens.{coming};
ghost use Rattle.node_kinds.specs.inside.ControllerSteps.{stepped_at};

use node_drive::Outgoing;
use simulator_spec::ixl_spec::key_of;
use simulator_spec::object_host::{Controller, Hosted, Input, Parties};
use simulator_spec::{Checked, Millis, Name, NodeId, Start};
use std::alloc::{AllocError, Global};
use std::marker::Model;

/// The node of the interlocking.
pub(crate) const INTERLOCKING: NodeId = NodeId(0);

/// A controller's host, with the reading of its last step. Contracts see it as a `SteppedState`.
#[derive(Drop)]
pub(crate) struct SteppedHost<C: Controller> {
    hosted: Hosted<C>,
    reached: Millis,
}

impl<C: Controller> Model for SteppedHost<C> {
    ghost use Rattle.simulator_spec.specs.rasta_core.Calls.{MayStep};
    ghost use Rattle.node_kinds.specs.inside.ControllerSteps.{SteppedState};
    ghost use Rattle.node_kinds.specs.Controllers.{to_interlocking};

    ghost Value = { SteppedState C };

    ghost view = { λ s. record { host = s.hosted.host; reached = s.reached; handed = to_interlocking s.hosted.outbox.datagrams } };

    ghost invariant = { λ s. MayStep s.reached s.hosted.host.link };
}

impl<C: Controller> SteppedHost<C> {
    /// The host of an object under a name and an identity, which begins so.
    #[tactic(auto, unfolding(crate::proofs::HostsBelow::new_host, crate::proofs::HostsBelow::keeping, crate::proofs::HostsBelow::created))]
    pub(crate) fn new(
        alloc: Global,
        table: &Checked,
        own_name: Name,
        own: u32,
        object: C,
        start: Start,
    ) -> Result<SteppedHost<C>, AllocError>
        ensures { IfOk result (λ stepped. stepped ≡ record { host = host_of C.behaviour table.now (record { clock = start.now; first = start.first_sequence_number }) own_name own object; reached = start.now; handed = [] }) }
    {
        let layout = table.layout();
        let station = layout.station();
        let parties = Parties {
            own,
            partner: station.id,
            own_name,
            peer_name: station.name,
            key: key_of(layout),
        };
        let hosted = Hosted::new(alloc, parties, start, object, table.version())?;
        Ok(SteppedHost {
            hosted,
            reached: start.now,
        })
    }

    /// The field object.
    pub(crate) fn object(&self) -> &C
        ensures { result.now ≡ self.now.host.object }
    {
        self.hosted.object()
    }

    /// A step at a reading of its clock.
    #[tactic(auto, unfolding(crate::proofs::HostsBelow::posted))]
    pub(crate) fn step(&mut self, reading: Millis, input: Input<'_>)
        requires { self.old.reached ≤ reading }
        ensures { self.new ≡ stepped_at C.behaviour reading input.entry self.old }
    {
        self.hosted.step(reading, input);
        self.reached = reading;
    }

    /// Bytes come.
    pub(crate) fn hear(&mut self, reading: Millis, bytes: &[u8])
        requires { self.old.reached ≤ reading }
        ensures { self.new ≡ stepped_at C.behaviour reading (coming bytes.now) self.old }
    {
        self.step(reading, Input::Datagram(bytes));
    }

    /// Takes the oldest of the datagrams.
    pub(crate) fn take_first(&mut self) -> Option<Outgoing>
        ensures value { option_map (λ d. (d.to, d.datagram.items)) result ≡ slice_get self.old.handed 0 }
        ensures rest { self.new ≡ record self.old { handed = drop 1 self.old.handed } }
    {
        let datagram = self.hosted.take_first()?;
        Some(Outgoing {
            to: INTERLOCKING,
            datagram,
        })
    }
}
