//! The socket of a node: one in each of its networks, and the hold behind them.

ghost use Rattle.std.specs.Prelude.{◌≡◌, ◌≤◌, ◌⊎◌, [], Err, IfOk, IsSomeAnd, Some, length, map, replicate, true};
ghost use Rattle.std.specs.Option.{option_map};
ghost use Rattle.std.specs.declared.net.socket_addr.SocketAddr.{SocketAddr as Address};
ghost use Rattle.datagram_hold.specs.Intake.{new_hold};
ghost use Rattle.node_drive.specs.Calls.{datagram_heard};
ghost use Rattle.node_network.specs.Intakes.{Answers, AnswersIfAny, IsClear, IsFrom, IsOrigin, IsSender, Takes, heard_of, over_in};
ghost use Rattle.node_network.specs.Sockets.{places_of};
ghost use Rattle.node_network.specs.declared.fault.OpenFault.TheVariants.{NoAddress};

use crate::fault::OpenFault;
use crate::network_socket::NetworkSocket;
use crate::shares::Shares;
use datagram_hold::{Incoming, Intake, Network as Which};
use node_drive::{
    Arrived, LONGEST_UNSEEN, Network, NextDatagram, NodeId, Origin, Received, ThrownAway,
};
use std::alloc::Global;
use std::net::{Net, SocketAddr};

/// For how many milliseconds a datagram may wait at most for those before it. What is left of the time in which it may be unseen is that
/// of a round.
pub const LONGEST_HOLD: u64 = 80;

/// How long a network may not have been found empty, in milliseconds, before what waits there is thrown away.
const LONGEST_FLOOD: u64 = 60;

/// How many datagrams are asked for in a round at most, with the questions that find none.
const MOST_ASKED: usize = 64;

/// The socket of a node: one in each of its networks, at the node's own address there alone, and the hold behind them.
#[derive(Drop)]
pub struct NodeSocket {
    first: NetworkSocket,
    /// That in the second network, where there are two.
    second: Option<NetworkSocket>,
    intake: Intake,
    shares: Shares,
}

impl NodeSocket {
    /// Opens the socket of a node in its network, or in both. A datagram waits for those before it for `hold` milliseconds at most. It
    /// fails where another process has an address.
    pub fn open(
        net: &impl Net,
        alloc: Global,
        first: &[SocketAddr],
        second: Option<&[SocketAddr]>,
        own: NodeId,
        hold: u64,
    ) -> Result<NodeSocket, OpenFault>
        requires { hold ≤ LONGEST_HOLD }
        ensures places { IfOk result (λ node. places_of node ≡ record { first = first.now; second = option_map (λ addresses. addresses.now) second.entry }) }
        ensures intake { IfOk result (λ node. node.intake ≡ record { latest = 0; first = 0; second = 0; holds = replicate (length first.now) (new_hold hold) }) }
        ensures no_address { length first.now ≤ own.0 → result ≡ Err NoAddress }
        ensures address { result ≡ Err NoAddress → (length first.now ≤ own.0) ⊎ IsSomeAnd second.entry (λ addresses. length addresses.now ≤ own.0) }
    {
        let senders = first.len();
        let first = NetworkSocket::open(net, alloc, first, own)?;
        let second = open_second(net, alloc, second, own)?;
        let shares = Shares::whole(second.is_some());
        Ok(NodeSocket {
            first,
            second,
            intake: Intake::new(alloc, senders, hold)?,
            shares,
        })
    }

    /// A round begins.
    pub fn begin_round(&mut self)
        ensures intake { self.new.intake ≡ self.old.intake }
        ensures places { places_of self.new ≡ places_of self.old }
    {
        self.shares = Shares::whole(self.second.is_some());
    }

    /// The clock was read.
    pub fn note_reading(&mut self, reading: u64)
        ensures intake { self.new.intake ≡ record self.old.intake { latest = reading } }
        ensures places { places_of self.new ≡ places_of self.old }
    {
        self.intake.note_reading(reading);
    }

    /// The next datagram, if there is one: of those that wait here the one whose turn it is, then what comes over the networks, each in
    /// its turn, and then what has waited here for long enough.
    pub fn next_datagram(&mut self) -> NextDatagram
        ensures answers { Answers (places_of self.old) self.old.intake self.new.intake (datagram_heard result) }
        ensures places { places_of self.new ≡ places_of self.old }
    {
        match self.next_if_any() {
            Some(next) => next,
            None => self.end_round(),
        }
    }

    /// Throws away all that waits, here and in each network, or as much as is thrown away in one go.
    pub fn throw_away(&mut self) -> ThrownAway
        ensures takes { Takes (places_of self.old) self.old.intake self.new.intake [] }
        ensures empty { result.found_empty ≡ true → IsClear self.new.intake }
        ensures places { places_of self.new ≡ places_of self.old }
    {
        let here = self.intake.forget();
        let first = self.empty(Which::First);
        let second = self.empty(Which::Second);
        ThrownAway {
            count: here.saturating_add(first).saturating_add(second),
            found_empty: self.is_clear(),
        }
    }

    /// Sends bytes to a node, over each network. Where that fails they are lost.
    pub fn send(&self, to: NodeId, bytes: &[u8]) {
        self.first.send(to, bytes);
        if let Some(second) = &self.second {
            second.send(to, bytes);
        }
    }

    /// The next datagram, if one is handed out in this round.
    fn next_if_any(&mut self) -> Option<NextDatagram>
        ensures answers { AnswersIfAny (places_of self.old) self.old.intake self.new.intake result }
        ensures places { places_of self.new ≡ places_of self.old }
    {
        match self.hand_out(0) {
            Some(next) => Some(next),
            None => self.next_brought(),
        }
    }

    /// The next datagram that comes over the networks, or that has waited here for long enough, if there is one.
    fn next_brought(&mut self) -> Option<NextDatagram>
        ensures answers { AnswersIfAny (places_of self.old) self.old.intake self.new.intake result }
        ensures places { places_of self.new ≡ places_of self.old }
    {
        match self.ask_all() {
            Some(next) => Some(next),
            None => {
                let latest = self.intake.latest();
                self.hand_out(latest)
            }
        }
    }

    /// What of those that wait here is handed out at a reading.
    fn hand_out(&mut self, now: u64) -> Option<NextDatagram>
        ensures answers { AnswersIfAny (places_of self.old) self.old.intake self.new.intake result }
        ensures places { places_of self.new ≡ places_of self.old }
    {
        match self.intake.next(now) {
            Some((_, incoming)) => Some(self.handed(incoming)),
            None => None,
        }
    }

    /// Asks the networks for a datagram that is handed out at once, as long as each may bring one in this round.
    fn ask_all(&mut self) -> Option<NextDatagram>
        ensures answers { AnswersIfAny (places_of self.old) self.old.intake self.new.intake result }
        ensures places { places_of self.new ≡ places_of self.old }
    {
        for _ in 0..MOST_ASKED {
            let Some(network) = self.shares.next() else {
                return None;
            };
            match self.ask(network) {
                Some(next) => return Some(next),
                None => (),
            }
        }
        None
    }

    /// Asks a network for a datagram that is handed out at once.
    fn ask(&mut self, network: Which) -> Option<NextDatagram>
        ensures answers { AnswersIfAny (places_of self.old) self.old.intake self.new.intake result }
        ensures places { places_of self.new ≡ places_of self.old }
    {
        match self.receive(network) {
            NextDatagram::Came(arrived) => {
                self.shares.use_one(network);
                self.take(network, arrived)
            }
            NextDatagram::Empty => {
                self.shares.end(network);
                self.note_empty(network);
                None
            }
            NextDatagram::Failed => {
                self.shares.end(network);
                None
            }
        }
    }

    /// What a network brings. One that isn't there brings nothing.
    fn receive(&self, network: Which) -> NextDatagram
        ensures { IsFrom (places_of self.now) network (datagram_heard result) }
    {
        let over = self.over(network);
        match network {
            Which::First => self.first.next_datagram(over),
            Which::Second => match &self.second {
                Some(second) => second.next_datagram(over),
                None => NextDatagram::Empty,
            },
        }
    }

    /// A datagram came over a network. It answers what is handed out at once: what came from the address of no node waits for nothing.
    fn take(&mut self, network: Which, arrived: Arrived) -> Option<NextDatagram>
        requires { IsOrigin (places_of self.old) network arrived.origin }
        ensures answers { AnswersIfAny (places_of self.old) self.old.intake self.new.intake result }
        ensures places { places_of self.new ≡ places_of self.old }
    {
        match arrived.origin.from {
            Some(from) => self.take_from(network, from, arrived.bytes),
            None => Some(NextDatagram::Came(arrived)),
        }
    }

    /// A datagram came over a network from the address of a node. It answers what is handed out at once.
    fn take_from(&mut self, network: Which, from: NodeId, bytes: Received) -> Option<NextDatagram>
        requires { (sender : Address) × IsSender (places_of self.old) network sender (Some from) }
        ensures answers { AnswersIfAny (places_of self.old) self.old.intake self.new.intake result }
        ensures places { places_of self.new ≡ places_of self.old }
    {
        match self.intake.take(network, from.0, bytes) {
            Some(incoming) => Some(self.handed(incoming)),
            None => None,
        }
    }

    /// One that is handed out.
    fn handed(&self, incoming: Incoming) -> NextDatagram
        ensures { datagram_heard result ≡ heard_of (places_of self.now) incoming }
    {
        let from = Some(NodeId(incoming.sender()));
        let over = self.over(incoming.over());
        NextDatagram::Came(Arrived {
            origin: Origin { from, over },
            bytes: incoming.into_bytes(),
        })
    }

    /// A network as the process hears of it.
    fn over(&self, network: Which) -> Network
        ensures { result ≡ over_in (places_of self.now) network }
    {
        match network {
            Which::First if self.second.is_some() => Network::First,
            Which::First => Network::Alone,
            Which::Second => Network::Second,
        }
    }

    /// No network has anything left for this round. Where one wasn't found empty for too long, what waits there is thrown away, so that a
    /// flood over it silences nothing that comes over the other.
    fn end_round(&mut self) -> NextDatagram
        ensures answers { Answers (places_of self.old) self.old.intake self.new.intake (datagram_heard result) }
        ensures places { places_of self.new ≡ places_of self.old }
    {
        self.end_flood(Which::First);
        self.end_flood(Which::Second);
        if self.is_clear() {
            NextDatagram::Empty
        } else {
            NextDatagram::Failed
        }
    }

    /// Throws away what waits in a network that wasn't found empty for too long.
    fn end_flood(&mut self, network: Which)
        ensures takes { Takes (places_of self.old) self.old.intake self.new.intake [] }
        ensures places { places_of self.new ≡ places_of self.old }
    {
        if !self.intake.is_fresh_in(network, LONGEST_FLOOD) {
            self.empty(network);
        }
    }

    /// Throws away what waits in a network, or as much as is thrown away in one go. It answers how many.
    fn empty(&mut self, network: Which) -> u64
        ensures takes { Takes (places_of self.old) self.old.intake self.new.intake [] }
        ensures places { places_of self.new ≡ places_of self.old }
    {
        let thrown = match (network, &self.second) {
            (Which::First, _) => self.first.throw_away(),
            (Which::Second, Some(second)) => second.throw_away(),
            (Which::Second, None) => ThrownAway {
                count: 0,
                found_empty: true,
            },
        };
        if thrown.found_empty {
            self.note_empty(network);
        }
        thrown.count
    }

    /// A network was found empty. One that isn't there is found so with the first.
    fn note_empty(&mut self, network: Which)
        ensures takes { Takes (places_of self.old) self.old.intake self.new.intake [] }
        ensures places { places_of self.new ≡ places_of self.old }
    {
        self.intake.note_empty(network);
        if self.second.is_none() {
            self.intake.note_empty(Which::Second);
        }
    }

    /// Whether nothing is left to be handed out, and each network was found empty a short time ago.
    fn is_clear(&self) -> bool
        ensures { result ≡ true → IsClear self.now.intake }
    {
        self.intake.has_none(self.intake.latest()) && self.intake.is_fresh(LONGEST_UNSEEN)
    }
}

/// Opens the socket of a node in the second network, where there are two.
fn open_second(
    net: &impl Net,
    alloc: Global,
    addresses: Option<&[SocketAddr]>,
    own: NodeId,
) -> Result<Option<NetworkSocket>, OpenFault>
    ensures addresses { IfOk result (λ second. option_map (λ one. one.addresses.items) second ≡ option_map (λ addresses. addresses.now) addresses.entry) }
    ensures address { result ≡ Err NoAddress → IsSomeAnd addresses.entry (λ addresses. length addresses.now ≤ own.0) }
{
    match addresses {
        Some(addresses) => Ok(Some(NetworkSocket::open(net, alloc, addresses, own)?)),
        None => Ok(None),
    }
}
