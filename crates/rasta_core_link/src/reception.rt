//! What an end does with a PDU that could be read: the tests in their order, and what is taken.

ghost use Rattle.std.specs.Prelude.{◌≡◌, ◌<◌, ◌+◌, ◌-◌, [], IsTrue};
ghost use Rattle.rasta_core_link.specs.Outbox.{HasRoomFor, posted};
ghost use Rattle.rasta_core_link.specs.Parameters.{connection_limit};
ghost use Rattle.rasta_core_link.specs.Sequence.{distance};

use crate::admission::Admission;
use crate::link::{Link, Millis};
use crate::outbox::Outbox;
use crate::parameters::SEQUENCE_RANGE;
use crate::phase::{Phase, State};
use crate::reason::Reason;
use crate::transmission::stamp;
use crate::verdict::Verdict;
use crate::window;
use arrayvec::ArrayVec;
use rasta_pdu::{Body, Item, Items, Pdu};

/// The items that a datagram brought, oldest first.
pub type Inbox = ArrayVec<Item, 3>;

/// How many steps lead from one sequence number up to another.
fn distance(from: u32, to: u32) -> u32
    ensures { result ≡ distance from to }
{
    to.wrapping_sub(from)
}

/// Puts items into an empty inbox.
fn put_items(items: &Items, inbox: &mut Inbox)
    requires { inbox.old.items ≡ [] }
    ensures { inbox.new.items ≡ items.now }
{
    for item in items.as_slice() {
        let _ = inbox.try_push(item.copy());
    }
}

impl Link {
    ghost use Rattle.rasta_core_link.specs.State.{is_open};
    ghost use Rattle.rasta_core_link.specs.PdusHandedOut.{closed};
    ghost use Rattle.rasta_core_link.specs.Clock.{state_at};
    ghost use Rattle.rasta_core_link.specs.inside.PduHeard.{IsDone, IsReady, IsTested};
    ghost use Rattle.rasta_core_link.specs.Receipt.{age, ahead, behind, is_stale, confirms, taking, answering, missing, handing, bringing, in_turn, violating, admission, admitting, testing, is_opening_again, connected, answers_request, asking, resting, by_state, hearing};

    /// How far a PDU is ahead of the expected one.
    #[tactic(auto, unfolding(crate::specs::Receipt::ahead))]
    fn ahead(&self, pdu: &Pdu) -> u32
        ensures { result ≡ ahead pdu.now self.now }
    {
        let expected = self.partner_first.wrapping_add(self.expected);
        distance(expected, pdu.sequence_number)
    }

    /// How far the own PDU that it confirms is behind the last one.
    #[tactic(auto, unfolding(crate::specs::Receipt::behind))]
    fn behind(&self, pdu: &Pdu) -> u32
        ensures { result ≡ behind pdu.now self.now }
    {
        let last = self.own_first.wrapping_add(self.sent.wrapping_sub(1));
        distance(pdu.confirmed_sequence_number, last)
    }

    /// How old the own stamp is that it returns.
    #[tactic(auto, unfolding(crate::specs::Receipt::age))]
    fn age(&self, pdu: &Pdu) -> u32
        ensures { result ≡ age pdu.now self.now }
    {
        distance(pdu.confirmed_time_stamp, stamp(self.clock))
    }

    /// The own clock reading whose stamp it returns.
    fn returned(&self, pdu: &Pdu) -> Millis
        ensures { result ≡ self.now.clock - age pdu.now self.now }
    {
        self.clock.saturating_sub(u64::from(self.age(pdu)))
    }

    /// The own stamp that it returns is older than the last one returned.
    fn is_stale(&self, pdu: &Pdu) -> bool
        ensures { result ≡ is_stale pdu.now self.now }
    {
        u64::from(self.age(pdu)) > self.clock.saturating_sub(self.own_stamp)
    }

    /// It confirms an own PDU, none before the one confirmed last.
    fn confirms(&self, pdu: &Pdu) -> bool
        ensures { result ≡ confirms pdu.now self.now }
    {
        u64::from(self.behind(pdu)) + u64::from(self.confirmed) < u64::from(self.sent)
    }

    /// A PDU is taken: what it returns and confirms is kept.
    #[tactic(auto, using(crate::proofs::UnconfirmedItems::dropping), unfolding(crate::specs::Receipt::taking))]
    fn take(&mut self, pdu: &Pdu)
        requires { IsTested pdu.now self.old }
        ensures { self.new ≡ taking pdu.now self.old }
    {
        let confirmed = self.sent - 1 - self.behind(pdu);
        let returned = self.returned(pdu);
        self.expected = self.expected.wrapping_add(self.ahead(pdu) + 1);
        self.partner_stamp = pdu.time_stamp;
        self.own_stamp = returned;
        self.confirmed = confirmed;
        window::drop_confirmed(&mut self.waiting, confirmed);
    }

    /// A retransmission request is answered: the response, the items again, a heartbeat.
    #[tactic(auto, using(crate::proofs::UnconfirmedItems::repeating), unfolding(crate::specs::Receipt::answering, crate::specs::Receipt::repeating, crate::specs::PdusHandedOut::sending))]
    fn answer(&mut self, outbox: &mut Outbox)
        requires below { self.old.sent < connection_limit }
        requires room { HasRoomFor 22 outbox.old }
        ensures link { self.new ≡ (answering self.old).link }
        ensures posted { outbox.new ≡ posted self.old.identity.key (answering self.old).pdus outbox.old }
    {
        self.dispatch(Body::RetransmissionResponse, outbox);
        self.repeat(outbox);
        self.dispatch(Body::Heartbeat, outbox);
    }

    /// A PDU is missing: the link asks for it.
    #[tactic(auto, unfolding(crate::specs::Receipt::missing, crate::specs::PdusHandedOut::sending))]
    fn ask(&mut self, outbox: &mut Outbox) -> Verdict
        requires below { self.old.sent < connection_limit }
        requires room { HasRoomFor 1 outbox.old }
        ensures { IsDone (missing self.old) self.old self.new outbox.old outbox.new [] result }
    {
        self.dispatch(Body::RetransmissionRequest, outbox);
        self.phase = Phase::RetransmissionRequested;
        Verdict::Asked
    }

    /// Items go to the user.
    #[tactic(auto, unfolding(crate::specs::Receipt::handing))]
    fn hand(&mut self, items: &Items, inbox: &mut Inbox) -> Verdict
        requires empty { inbox.old.items ≡ [] }
        ensures link { self.new ≡ (handing items.now self.old).link }
        ensures items { inbox.new.items ≡ (handing items.now self.old).items }
        ensures verdict { result ≡ (handing items.now self.old).verdict }
    {
        put_items(items, inbox);
        self.taken = self.taken.saturating_add(items.as_slice().len() as u64);
        Verdict::Taken
    }

    /// What the expected PDU brings, once it is taken.
    #[tactic(auto, using(crate::proofs::OutboxPosts::posting), unfolding(crate::specs::Receipt::bringing, crate::specs::Receipt::handing))]
    fn bring(&mut self, body: &Body, outbox: &mut Outbox, inbox: &mut Inbox) -> Verdict
        requires below { self.old.sent < connection_limit }
        requires room { HasRoomFor 22 outbox.old }
        requires empty { inbox.old.items ≡ [] }
        ensures { IsDone (bringing body.now self.old) self.old self.new outbox.old outbox.new inbox.new.items result }
    {
        match body {
            Body::Data(items) => {
                self.phase = Phase::Up;
                self.hand(items, inbox)
            }
            Body::RetransmittedData(items) => self.hand(items, inbox),
            Body::RetransmissionRequest => {
                self.answer(outbox);
                Verdict::Taken
            }
            _ => {
                self.phase = Phase::Up;
                Verdict::Taken
            }
        }
    }

    /// The PDU at the expected number is taken, and a later one shows that one is missing.
    #[tactic(auto, using(crate::proofs::OutboxPosts::posting), unfolding(crate::specs::Receipt::in_turn, crate::specs::Receipt::taking))]
    fn follow(&mut self, pdu: &Pdu, outbox: &mut Outbox, inbox: &mut Inbox) -> Verdict
        requires ready { IsReady self.old outbox.old inbox.old.items }
        requires tested { IsTested pdu.now self.old }
        ensures { IsDone (in_turn pdu.now self.old) self.old self.new outbox.old outbox.new inbox.new.items result }
    {
        if self.ahead(pdu) != 0 {
            return self.ask(outbox);
        }
        self.take(pdu);
        self.bring(&pdu.body, outbox, inbox)
    }

    /// A PDU that the state doesn't allow closes the connection.
    fn violate(&mut self, outbox: &mut Outbox) -> Verdict
        requires open { IsTrue (is_open self.old.phase) }
        requires room { HasRoomFor 1 outbox.old }
        ensures { IsDone (violating self.old) self.old self.new outbox.old outbox.new [] result }
    {
        self.tell(Reason::State, outbox);
        Verdict::WrongState
    }

    /// What becomes of a PDU by its type and the phase, once its numbers and stamps were tested.
    #[tactic(auto, using(crate::proofs::OutboxPosts::posting), unfolding(crate::specs::Receipt::admitting, crate::specs::Receipt::taking))]
    fn admit(&mut self, pdu: &Pdu, outbox: &mut Outbox, inbox: &mut Inbox) -> Verdict
        requires ready { IsReady self.old outbox.old inbox.old.items }
        requires tested { IsTested pdu.now self.old }
        ensures { IsDone (admitting (admission pdu.now.body self.old.phase) pdu.now self.old) self.old self.new outbox.old outbox.new inbox.new.items result }
    {
        match Admission::of(&pdu.body, self.phase) {
            Admission::Violates => self.violate(outbox),
            Admission::Discards => Verdict::Discarded,
            Admission::Closes => {
                self.take(pdu);
                self.close_silently();
                Verdict::Taken
            }
            Admission::Resumes => {
                self.take(pdu);
                self.phase = Phase::RetransmissionRunning;
                Verdict::Taken
            }
            Admission::InTurn => self.follow(pdu, outbox, inbox),
        }
    }

    /// The tests of numbers and stamps in a connection, in their order.
    #[tactic(auto, using(crate::proofs::OutboxPosts::posting), unfolding(crate::specs::Receipt::testing))]
    fn test(&mut self, pdu: &Pdu, outbox: &mut Outbox, inbox: &mut Inbox) -> Verdict
        requires ready { IsReady self.old outbox.old inbox.old.items }
        ensures { IsDone (testing pdu.now self.old) self.old self.new outbox.old outbox.new inbox.new.items result }
    {
        if self.ahead(pdu) > SEQUENCE_RANGE {
            return Verdict::OutOfRange;
        }
        if self.is_stale(pdu) {
            return Verdict::Stale;
        }
        if !self.confirms(pdu) {
            return Verdict::BadConfirm;
        }
        self.admit(pdu, outbox, inbox)
    }

    /// A copy of the request that opened this server.
    fn is_opening_again(&self, pdu: &Pdu) -> bool
        ensures { result ≡ is_opening_again pdu.now self.now }
    {
        !self.identity.role.is_client()
            && pdu.sequence_number == self.partner_first
            && pdu.time_stamp == self.opening_stamp
    }

    /// In a connection.
    #[tactic(auto, using(crate::proofs::OutboxPosts::posting), unfolding(crate::specs::Receipt::connected))]
    fn receive_connected(&mut self, pdu: &Pdu, outbox: &mut Outbox, inbox: &mut Inbox) -> Verdict
        requires ready { IsReady self.old outbox.old inbox.old.items }
        ensures { IsDone (connected pdu.now.body pdu.now self.old) self.old self.new outbox.old outbox.new inbox.new.items result }
    {
        match &pdu.body {
            Body::ConnectionRequest(_) if self.is_opening_again(pdu) => Verdict::Discarded,
            Body::ConnectionRequest(_) => self.violate(outbox),
            _ => self.test(pdu, outbox, inbox),
        }
    }

    /// It returns the number and the stamp of the own request.
    fn answers_request(&self, pdu: &Pdu) -> bool
        ensures { result ≡ answers_request pdu.now self.now }
    {
        pdu.confirmed_sequence_number == self.own_first
            && pdu.confirmed_time_stamp == stamp(self.own_stamp)
    }

    /// At a client that asked for a connection.
    #[tactic(auto, using(crate::proofs::OutboxPosts::posting), unfolding(crate::specs::Receipt::asking))]
    fn receive_asking(&mut self, pdu: &Pdu, outbox: &mut Outbox) -> Verdict
        requires open { IsTrue (is_open self.old.phase) }
        requires below { self.old.sent < connection_limit }
        requires room { HasRoomFor 1 outbox.old }
        ensures { IsDone (asking pdu.now.body pdu.now self.old) self.old self.new outbox.old outbox.new [] result }
    {
        match &pdu.body {
            Body::ConnectionResponse(_) | Body::DisconnectionRequest { .. }
                if !self.answers_request(pdu) => { Verdict::BadConfirm }
            Body::ConnectionResponse(opening) => {
                self.join(pdu, opening, outbox);
                Verdict::Taken
            }
            Body::DisconnectionRequest { .. } => {
                self.close_silently();
                Verdict::Taken
            }
            _ => self.violate(outbox),
        }
    }

    /// At an end that is down: only a server takes something, a request.
    #[tactic(auto, using(crate::proofs::OutboxPosts::posting), unfolding(crate::specs::Receipt::resting))]
    fn receive_resting(&mut self, pdu: &Pdu, outbox: &mut Outbox) -> Verdict
        requires room { HasRoomFor 1 outbox.old }
        ensures { IsDone (resting pdu.now.body pdu.now self.old) self.old self.new outbox.old outbox.new [] result }
    {
        match &pdu.body {
            Body::ConnectionRequest(opening) if !self.identity.role.is_client() => {
                self.grant(pdu, opening, outbox);
                Verdict::Taken
            }
            _ => Verdict::WrongState,
        }
    }

    /// What the state makes of it.
    #[tactic(auto, using(crate::proofs::OutboxPosts::posting), unfolding(crate::specs::Receipt::by_state, crate::specs::Clock::state_at))]
    fn receive_by_state(&mut self, pdu: &Pdu, outbox: &mut Outbox, inbox: &mut Inbox) -> Verdict
        requires below { IsTrue (is_open self.old.phase) → self.old.sent < connection_limit }
        requires room { HasRoomFor 22 outbox.old }
        requires empty { inbox.old.items ≡ [] }
        ensures { IsDone (by_state (state_at self.old.clock self.old) pdu.now self.old) self.old self.new outbox.old outbox.new inbox.new.items result }
    {
        match self.state(self.clock) {
            State::Quiet => Verdict::Quiet,
            State::Down => self.receive_resting(pdu, outbox),
            State::Start if self.identity.role.is_client() => self.receive_asking(pdu, outbox),
            _ => self.receive_connected(pdu, outbox, inbox),
        }
    }

    /// Who it is for and from, and then the state.
    #[tactic(auto, using(crate::proofs::OutboxPosts::posting), unfolding(crate::specs::Receipt::hearing))]
    pub(crate) fn hear(&mut self, pdu: &Pdu, outbox: &mut Outbox, inbox: &mut Inbox) -> Verdict
        requires below { IsTrue (is_open self.old.phase) → self.old.sent < connection_limit }
        requires room { HasRoomFor 22 outbox.old }
        requires empty { inbox.old.items ≡ [] }
        ensures { IsDone (hearing pdu.now self.old) self.old self.new outbox.old outbox.new inbox.new.items result }
    {
        if pdu.receiver != self.identity.own {
            return Verdict::NotForMe;
        }
        if pdu.sender != self.identity.partner {
            return Verdict::WrongSender;
        }
        self.receive_by_state(pdu, outbox, inbox)
    }
}
