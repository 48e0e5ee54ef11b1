//! The parts of a pair, and what a call of an end does to them.

ghost use Rattle.std.specs.Prelude.{◌≡◌, ◌≤◌};
ghost use Rattle.simulator_pair.specs.Pair.{stepped};
ghost use Rattle.simulator_pair.specs.inside.CallsMade.{meant};
ghost use Rattle.rasta_core.specs.Run.{end_of};
ghost use Rattle.rasta_core.specs.identity.Role.TheVariants.{Client, Server};

use crate::node::{Call, Node};
use crate::{bag, lamp};
use place_index::PlaceIndex;
use rasta_core::{Inbox, Outbox, Role, SendFault, Sent};
use signal_ctl::Lamp;
use std::alloc::Global;

/// All that a pair consists of.
#[derive(Debug, Drop)]
pub(crate) struct Parts {
    /// True time, in microseconds.
    pub(crate) time: u64,
    pub(crate) client: Node,
    pub(crate) server: Node,
    /// Every datagram sent, oldest first; those not lost are the bag.
    pub(crate) sent: Vec<Sent>,
    /// By which those in the bag are found.
    pub(crate) index: PlaceIndex,
    pub(crate) lamp: Lamp,
    /// What the present call hands out, and the items that it took; both empty between calls.
    pub(crate) outbox: Outbox,
    pub(crate) inbox: Inbox,
    /// How many events have their memory already.
    pub(crate) room: usize,
    pub(crate) alloc: Global,
}

impl Parts {
    ghost use Rattle.simulator_pair.specs.inside.Seen.{seen_end};
    ghost use Rattle.simulator_pair.specs.inside.CallsMade.{answer_of};
    ghost use Rattle.simulator_pair.specs.inside.Parts.{seen, AreSound, HaveRoom, KeepRoom};

    /// A call of the client's link.
    fn call_client(&mut self, call: Call<'_>) -> Result<(), SendFault>
        requires sound { AreSound self.old }
        requires room { HaveRoom 1 self.old }
        ensures step { seen self.new ≡ stepped Client (meant call.entry) (seen self.old) }
        ensures answer { result ≡ answer_of (meant call.entry) (seen_end self.old.client) }
        ensures sound { AreSound self.new }
        ensures room { KeepRoom 1 self.old self.new }
    {
        let moment = self.sent.len();
        let answer = self
            .client
            .call(call, moment, &mut self.outbox, &mut self.inbox);
        self.inbox.clear();
        let connection = self.client.connection;
        bag::send_all(
            &mut self.sent,
            &mut self.index,
            &mut self.outbox,
            self.time,
            Role::Client,
            connection,
        );
        answer
    }

    /// A call of the server's link. Its lamp is told of a loss since the last one before anything else, then of
    /// what was taken, and then of a loss in the call.
    fn call_server(&mut self, call: Call<'_>) -> Result<(), SendFault>
        requires sound { AreSound self.old }
        requires room { HaveRoom 1 self.old }
        ensures step { seen self.new ≡ stepped Server (meant call.entry) (seen self.old) }
        ensures answer { result ≡ answer_of (meant call.entry) (seen_end self.old.server) }
        ensures sound { AreSound self.new }
        ensures room { KeepRoom 1 self.old self.new }
    {
        let moment = self.sent.len();
        lamp::lose_if_closed(&mut self.lamp, &self.server.link);
        let answer = self
            .server
            .call(call, moment, &mut self.outbox, &mut self.inbox);
        lamp::indicate_all(&mut self.lamp, self.inbox.as_slice());
        self.inbox.clear();
        lamp::lose_if_closed(&mut self.lamp, &self.server.link);
        self.lamp.keep(self.server.link.alive_until());
        let connection = self.server.connection;
        bag::send_all(
            &mut self.sent,
            &mut self.index,
            &mut self.outbox,
            self.time,
            Role::Server,
            connection,
        );
        answer
    }

    /// A call of the link of an end.
    #[tactic(auto, unfolding(crate::specs::inside::Parts::seen, crate::specs::inside::Parts::seen_ends))]
    pub(crate) fn call(&mut self, who: Role, call: Call<'_>) -> Result<(), SendFault>
        requires sound { AreSound self.old }
        requires room { HaveRoom 1 self.old }
        ensures step { seen self.new ≡ stepped who (meant call.entry) (seen self.old) }
        ensures answer { result ≡ answer_of (meant call.entry) (end_of who (seen self.old).ends) }
        ensures sound { AreSound self.new }
        ensures room { KeepRoom 1 self.old self.new }
    {
        match who {
            Role::Client => self.call_client(call),
            Role::Server => self.call_server(call),
        }
    }
}
