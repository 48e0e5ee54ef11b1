//! How a connection opens.

ghost use Rattle.std.specs.Prelude.{◌≡◌, ◌<◌, IsTrue};
ghost use Rattle.rasta_core_link.specs.Parameters.{connection_limit};
ghost use Rattle.rasta_core_link.specs.Outbox.{HasRoomFor, posted};
ghost use Rattle.rasta_core_link.specs.Establishment.{own_opening};

use crate::identity::Role;
use crate::link::Link;
use crate::outbox::Outbox;
use crate::parameters::{OWN_VERSION, OWN_WINDOW};
use crate::phase::{Phase, State};
use crate::reason::Reason;
use rasta_pdu::{Body, Opening, Pdu};

/// What an end writes into a request or a response.
fn own_opening() -> Opening
    ensures { result ≡ own_opening }
{
    Opening {
        version: OWN_VERSION,
        window: OWN_WINDOW,
        reserved: [0; 8],
    }
}

impl Link {
    ghost use Rattle.rasta_core_link.specs.Establishment.{may_open, beginning, requesting, meeting, judging, granting, joining};
    ghost use Rattle.rasta_core_link.specs.PdusHandedOut.{sending};
    ghost use Rattle.rasta_core_link.specs.State.{is_open};
    ghost use Rattle.rasta_pdu.specs.declared.body.Body.TheVariants.{ConnectionRequest, ConnectionResponse, Heartbeat};

    /// A client may open where it is down.
    pub(crate) fn may_open(&self) -> bool
        ensures { result ≡ may_open self.now }
    {
        match (self.identity.role, self.state(self.clock)) {
            (Role::Client, State::Down) => true,
            _ => false,
        }
    }

    /// A connection begins: its counts start anew, and the own sequence numbers go on.
    #[tactic(auto, unfolding(crate::specs::Establishment::beginning))]
    fn begin(&mut self)
        ensures { self.new ≡ beginning self.old }
    {
        self.phase = Phase::Start;
        self.own_stamp = self.clock;
        self.own_first = self.own_first.wrapping_add(self.sent);
        self.sent = 0;
        self.confirmed = 0;
        self.partner_first = 0;
        self.opening_stamp = 0;
        self.expected = 0;
        self.partner_stamp = 0;
        self.waiting.clear();
        self.given = 0;
        self.taken = 0;
    }

    /// A client asks for a connection.
    #[tactic(auto, unfolding(crate::specs::Establishment::requesting, crate::specs::Establishment::beginning))]
    pub(crate) fn request(&mut self, outbox: &mut Outbox)
        requires room { HasRoomFor 1 outbox.old }
        ensures link { self.new ≡ (requesting self.old).link }
        ensures posted { outbox.new ≡ posted self.old.identity.key (requesting self.old).pdus outbox.old }
    {
        self.begin();
        self.dispatch(Body::ConnectionRequest(own_opening()), outbox);
    }

    /// The partner's first PDU of the connection is taken.
    #[tactic(auto, unfolding(crate::specs::Establishment::meeting))]
    fn meet(&mut self, pdu: &Pdu)
        ensures { self.new ≡ meeting pdu.now self.old }
    {
        self.partner_first = pdu.sequence_number;
        self.opening_stamp = pdu.time_stamp;
        self.expected = 1;
        self.partner_stamp = pdu.time_stamp;
    }

    /// An opening of another version, or of another window, closes; otherwise this PDU goes out.
    #[tactic(auto, unfolding(crate::specs::Establishment::judging))]
    fn judge(&mut self, opening: &Opening, agreed: Body, outbox: &mut Outbox)
        requires open { IsTrue (is_open self.old.phase) }
        requires below { self.old.sent < connection_limit }
        requires room { HasRoomFor 1 outbox.old }
        ensures link { self.new ≡ (judging opening.now (sending agreed) self.old).link }
        ensures posted { outbox.new ≡ posted self.old.identity.key (judging opening.now (sending agreed) self.old).pdus outbox.old }
    {
        if opening.version != OWN_VERSION {
            self.tell(Reason::Version, outbox);
        } else if opening.window != OWN_WINDOW {
            self.tell(Reason::Window, outbox);
        } else {
            self.dispatch(agreed, outbox);
        }
    }

    /// A server takes a request.
    #[tactic(auto, unfolding(crate::specs::Establishment::granting, crate::specs::Establishment::beginning, crate::specs::Establishment::meeting))]
    pub(crate) fn grant(&mut self, pdu: &Pdu, opening: &Opening, outbox: &mut Outbox)
        requires room { HasRoomFor 1 outbox.old }
        ensures link { self.new ≡ (granting pdu.now opening.now self.old).link }
        ensures posted { outbox.new ≡ posted self.old.identity.key (granting pdu.now opening.now self.old).pdus outbox.old }
    {
        self.begin();
        self.meet(pdu);
        self.judge(opening, Body::ConnectionResponse(own_opening()), outbox);
    }

    /// A client takes the response, and sends a heartbeat at once.
    #[tactic(auto, unfolding(crate::specs::Establishment::joining, crate::specs::Establishment::meeting))]
    pub(crate) fn join(&mut self, pdu: &Pdu, opening: &Opening, outbox: &mut Outbox)
        requires open { IsTrue (is_open self.old.phase) }
        requires below { self.old.sent < connection_limit }
        requires room { HasRoomFor 1 outbox.old }
        ensures link { self.new ≡ (joining pdu.now opening.now self.old).link }
        ensures posted { outbox.new ≡ posted self.old.identity.key (joining pdu.now opening.now self.old).pdus outbox.old }
    {
        self.meet(pdu);
        self.phase = Phase::Up;
        self.judge(opening, Body::Heartbeat, outbox);
    }
}
