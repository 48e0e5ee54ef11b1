//! A link, the initialisation and one field object.

ghost use Rattle.std.specs.Prelude.{◌≡◌, ◌≤◌, ◌↔◌, ℕ, true, false, [], drop, length, slice_get, IsTrue, IfOk};
ghost use Rattle.std.specs.Option.{option_map};
ghost use Rattle.rasta_core.specs.Calls.{IsAt, MayStep};
ghost use Rattle.rasta_core.specs.Clock.{alive_until};
ghost use Rattle.rasta_core.specs.Outbox.{posted};
ghost use Rattle.rasta_core.specs.identity.Role.TheVariants.{Server};

use crate::controller::Controller;
use crate::host::Host;
use crate::input::Input;
use crate::parties::Parties;
use crate::stage::Stage;
use rasta_core::{Link, Millis, Outbox, Start};
use rasta_pdu::Datagram;
use std::alloc::{AllocError, Global};
use std::marker::Model;

/// An object controller: the server of a link, the initialisation after each opening, and one field object. The
/// object is restrictive at and past the moment at which the link dies, and as long as the initialisation of a
/// connection isn't completed, whatever its own program does.
pub struct Hosted<C: Controller> {
    host: Host<C>,
    outbox: Outbox,
}

// Written by hand, so that it is proved and compiled here alone.
impl<C: Controller> Drop for Hosted<C> {
    fn drop(self) {
        let Self { host: _, outbox: _ } = self;
    }
}

impl<C: Controller> Model for Hosted<C> {
    ghost use Rattle.std.specs.Prelude.{◌≡◌};
    ghost use Rattle.object_host.specs.Hosted.{HostedState, IsHosted};

    ghost Value = { HostedState C };

    ghost view = { λ h. record { host = h.host; outbox = h.outbox } };

    ghost invariant = { λ h. IsHosted C.behaviour h.host × (h.outbox.capacity ≡ 47) };
}

/// Takes out all datagrams.
fn empty(outbox: &mut Outbox)
    ensures { outbox.new ≡ record outbox.old { datagrams = [] } }
{
    while let Some(_datagram) = outbox.take_first() {}
}

impl<C: Controller> Hosted<C> {
    ghost use Rattle.std.specs.Borrow.{sem};
    ghost use Rattle.object_host.specs.Host.{is_completed};
    ghost use Rattle.object_host.specs.Made.{AreItems};
    ghost use Rattle.object_host.specs.Refused.{LeavesRefused};
    ghost use Rattle.object_host.specs.Step.{host_step};
    ghost use Rattle.object_host.specs.Stepped.{EndsStepped};
    ghost use Rattle.object_host.specs.Hosted.{empty_outbox, most_in_step, new_host};

    /// A controller of these names and identities, with a link that isn't in a connection and begins so. The object is as
    /// after a loss. `version` is the version of the telegrams: version 2 has the aspect slow, version 1 doesn't.
    #[tactic(auto, unfolding(crate::specs::Hosted::new_host, crate::specs::Host::keeping))]
    pub fn new(
        alloc: Global,
        parties: Parties,
        start: Start,
        object: C,
        version: u8,
    ) -> Result<Hosted<C>, AllocError>
        ensures { IfOk result (λ hosted. hosted ≡ record { host = new_host C.behaviour (record { role = Server; own = parties.own; partner = parties.partner; key = parties.key }) parties.own_name parties.peer_name start.first_sequence_number start.now object version; outbox = empty_outbox }) }
    {
        let Parties {
            own,
            partner,
            key,
            ..
        } = parties;
        let Start {
            first_sequence_number,
            now,
        } = start;
        let link = Link::server(alloc, own, partner, key, first_sequence_number, now)?;
        let outbox = Outbox::for_datagrams(alloc, DATAGRAMS)?;
        let mut object = object;
        object.lost();
        object.keep(link.alive_until());
        let host = Host {
            link,
            stage: Stage::Outside,
            object,
            own_name: parties.own_name,
            peer_name: parties.peer_name,
            version,
        };
        Ok(Hosted { host, outbox })
    }

    /// Whether a step at this clock reading may be made: the clock hasn't fallen.
    pub fn may_step(&self, now: Millis) -> bool
        ensures { IsTrue result ↔ MayStep now self.now.host.link }
    {
        self.host.link.may_step(now)
    }

    /// The field object. At and past the moment at which the link dies it is restrictive, stepped or not, and as
    /// long as the initialisation isn't completed at every clock reading.
    pub fn object(&self) -> &C
        ensures object { result.now ≡ self.now.host.object }
        ensures dies { (now : ℕ) → alive_until self.now.host.link ≤ now → C.behaviour.is_restrictive now self.now.host.object ≡ true }
        ensures uninitialised { (now : ℕ) → is_completed self.now.host.stage ≡ false → C.behaviour.is_restrictive now self.now.host.object ≡ true }
    {
        &self.host.object
    }

    /// The link, to be read.
    pub fn link(&self) -> &Link
        ensures { result.now ≡ self.now.host.link }
    {
        &self.host.link
    }

    /// A step at a clock reading: the clock with the object's tick, the input, the owed reports, and on a tick the
    /// link's. It answers the outbox, which has the datagrams of this step alone.
    #[tactic(auto, using(crate::proofs::OutboxPosts::posting, crate::proofs::RefusedDatagrams::leaves_refused))]
    pub fn step(&mut self, now: Millis, input: Input) -> &Outbox
        requires { MayStep now self.old.host.link }
        ensures* after { sem 𝓛 (EndsStepped C.row (record { behaviour = C.behaviour }) self.entry now input.entry) }
        ensures value { result.now ≡ posted self.old.host.link.identity.key (host_step C.behaviour now input.entry self.old.host).pdus empty_outbox }
        // The items of a window, a retransmission's two ends, and the close.
        ensures few { length (host_step C.behaviour now input.entry self.old.host).pdus ≤ most_in_step }
        // What it sends are items, so each call of the link is one that may be made.
        ensures items { AreItems (host_step C.behaviour now input.entry self.old.host).calls }
        // A datagram that the link refuses leaves what a step with that refusal in its place leaves.
        ensures refused { LeavesRefused C.behaviour now input.entry self.old.host (host_step C.behaviour now input.entry self.old.host) }
    {
        empty(&mut self.outbox);
        self.host.step(now, &input, &mut self.outbox);
        self.outbox()
    }

    /// The datagrams that the last step handed out and that weren't taken out since.
    pub fn outbox(&self) -> &Outbox
        ensures { result.now ≡ self.now.outbox }
    {
        &self.outbox
    }

    /// Takes the oldest of them out.
    pub fn take_first(&mut self) -> Option<Datagram>
        ensures value { option_map (λ d. d.items) result ≡ slice_get self.old.outbox.datagrams 0 }
        ensures host { self.new.host ≡ self.old.host }
        ensures rest { self.new.outbox ≡ record self.old.outbox { datagrams = drop 1 self.old.outbox.datagrams } }
    {
        self.outbox.take_first()
    }
}

/// For how many datagrams the outbox has room: a step hands out at most 23, and each call of the link asks for room for 24.
const DATAGRAMS: usize = 47;
