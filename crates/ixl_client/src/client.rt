//! The client's end of the link to one controller.

ghost use Rattle.std.specs.Prelude.{◌≡◌, ◌≤◌, ◌↔◌, true, false, [], List, IsTrue, IfOk};
ghost use Rattle.rasta_core.specs.Calls.{MayStep, IsAt, receiving};
ghost use Rattle.rasta_core.specs.Outbox.{HasRoomFor};
ghost use Rattle.rasta_core.specs.State.{is_up};
ghost use Rattle.rasta_core.specs.identity.Role.TheVariants as role;
ghost use Rattle.ixl_client.specs.ClientSoFar.{Seen};
ghost use Rattle.ixl_client.specs.Step.{clocked, commanding, hearing, ticking};
ghost use Rattle.ixl_client.specs.Way.{Goes};
ghost use Rattle.ixl_client.specs.declared.indication.Indication.{Indication};

use crate::command::Command;
use crate::end::End;
use crate::indication::Indications;
use crate::peer::Peer;
use crate::stage::Stage;
use rasta_core::{Inbox, Link, Millis, Outbox, Start, Verdict};
use rasta_pdu::Key;
use std::alloc::{AllocError, Global};
use std::marker::Model;

/// The client of one controller. It opens the link, leads the initialisation of each connection, hands up what the
/// controller tells of its objects, and sends commands. What comes out of order closes the link with its reason.
#[derive(Debug)]
pub struct Client {
    end: End,
}

// Written by hand, so that it is proved and compiled here alone.
impl Drop for Client {
    fn drop(self) {
        let Self { end: _ } = self;
    }
}

impl Model for Client {
    ghost use Rattle.ixl_client.specs.Client.{ClientState, IsClient};

    ghost Value = { ClientState };

    ghost view = { λ c. c.end };

    ghost invariant = { λ c. IsClient c.end };
}

impl Client {
    ghost use Rattle.ixl_client.specs.Client.{IsClient, is_available, is_ready, new_client};

    /// The client `own` of the controller `partner`, with a link that isn't in a connection and begins so.
    #[tactic(auto, unfolding(crate::specs::Client::new_client))]
    pub fn new(
        alloc: Global,
        own: u32,
        partner: u32,
        key: Key,
        peer: Peer,
        start: Start,
    ) -> Result<Client, AllocError>
        ensures { IfOk result (λ client. client ≡ new_client (record { role = role.Client; own = own; partner = partner; key = key }) peer start.first_sequence_number start.now) }
    {
        let Start {
            first_sequence_number,
            now,
        } = start;
        let link = Link::client(alloc, own, partner, key, first_sequence_number, now)?;
        let stage = Stage::Outside;
        Ok(Client {
            end: End { link, stage, peer },
        })
    }

    /// Whether a step at this clock reading may be made: the clock hasn't fallen.
    pub fn may_step(&self, now: Millis) -> bool
        ensures { IsTrue result ↔ MayStep now self.now.link }
    {
        self.end.link.may_step(now)
    }

    /// The link, to be read.
    pub fn link(&self) -> &Link
        ensures link { result.now ≡ self.now.link }
        ensures client { IsClient self.now }
    {
        &self.end.link
    }

    /// Whether the initialisation was completed in the present connection, as of the last step. The link is up then.
    pub fn is_ready(&self) -> bool
        ensures value { result ≡ is_ready self.now.stage }
        ensures up { IsTrue result → is_up self.now.link.phase ≡ true }
    {
        self.end.stage.is_ready()
    }

    /// Whether it was, and every move is answered.
    pub fn is_available(&self) -> bool
        ensures value { result ≡ is_available self.now.stage }
        ensures ready { IsTrue result → IsTrue (is_ready self.now.stage) }
    {
        self.end.stage.is_available()
    }

    /// The clock acts: how each step of the client begins.
    pub fn settle(&mut self, now: Millis)
        requires { MayStep now self.old.link }
        ensures client { self.new ≡ clocked now self.old }
        ensures kept { IsAt now self.old.link self.new.link }
    {
        self.end.settle(now);
    }

    /// A datagram has come. What its items tell of the controller's objects is heard, up to one that closes the link.
    pub fn receive(
        &mut self,
        now: Millis,
        datagram: &[u8],
        outbox: &mut Outbox,
        heard: &mut Indications,
    ) -> Verdict
        requires clock { self.old.link.clock ≡ now }
        requires room { HasRoomFor 56 outbox.old }
        ensures goes { Goes now 30 (hearing now datagram.now) (record { client = self.old; outbox = outbox.old; heard = [] }) (record { client = self.new; outbox = outbox.new; heard = heard.new.items }) }
        ensures verdict { result ≡ (receiving now datagram.now self.old.link).verdict }
    {
        heard.clear();
        let mut inbox = Inbox::new();
        let verdict = self.end.receive(now, datagram, outbox, &mut inbox);
        self.end.rise(now, outbox);
        self.end.act_all(now, inbox.as_slice(), outbox, heard);
        self.end.fall();
        verdict
    }

    /// A command goes to the controller. Where the window refuses it, the link closes with reason 5.
    pub fn command(&mut self, now: Millis, command: Command, outbox: &mut Outbox)
        requires clock { self.old.link.clock ≡ now }
        requires room { HasRoomFor 26 outbox.old }
        ensures { (heard : List Indication) → Goes now 2 (commanding now command) (record { client = self.old; outbox = outbox.old; heard = heard }) (record { client = self.new; outbox = outbox.new; heard = heard }) }
    {
        let next = self.end.stage_after_command(command);
        self.end.post(now, command.message(), outbox);
        self.end.come_to(next);
        self.end.fall();
    }

    /// A tick: the heartbeat that is due, and a link that is down is opened.
    pub fn tick(&mut self, now: Millis, outbox: &mut Outbox)
        requires clock { self.old.link.clock ≡ now }
        requires room { HasRoomFor 26 outbox.old }
        ensures { (heard : List Indication) → Goes now 2 (ticking now) (record { client = self.old; outbox = outbox.old; heard = heard }) (record { client = self.new; outbox = outbox.new; heard = heard }) }
    {
        self.end.beat(now, outbox);
        self.end.open(now, outbox);
        self.end.fall();
    }
}
