//! One end of a link.

ghost use Rattle.std.specs.Prelude.{◌≡◌, ◌≤◌, ◌↔◌, IsTrue, IfOk};

use crate::identity::{Identity, Role};
use crate::parameters::WINDOW_SIZE;
use crate::phase::Phase;
use crate::window::Unconfirmed;
use circular_buffer::HeapCircularBuffer;
use rasta_pdu::Key;
use std::alloc::{AllocError, Global};
use std::marker::Model;

/// A clock reading, or a length of time, in milliseconds of one end's clock.
pub type Millis = u64;

/// One end of a link. It counts PDUs from 0 in each connection; only in PDUs they are sequence numbers,
/// modulo 2^32. Closing changes the phase and the moment of closing alone: what was counted in a connection
/// can be read until the next one begins.
#[derive(Debug, Drop)]
pub struct Link {
    pub(crate) identity: Identity,
    pub(crate) phase: Phase,
    /// The last clock reading.
    pub(crate) clock: Millis,
    /// When it last closed, or was created.
    pub(crate) closed_at: Millis,
    /// The own stamp that the partner returned last, as a whole clock reading.
    pub(crate) own_stamp: Millis,
    /// The sequence number of its first PDU in the connection.
    pub(crate) own_first: u32,
    /// How many PDUs it sent in the connection, and when the last.
    pub(crate) sent: u32,
    pub(crate) sent_at: Millis,
    /// The last of them that the partner confirmed, counted from 0.
    pub(crate) confirmed: u32,
    /// The sequence number of the partner's first PDU in the connection.
    pub(crate) partner_first: u32,
    /// The time stamp of the PDU with which the partner entered the connection.
    pub(crate) opening_stamp: u32,
    /// Which of the partner's PDUs it expects, counted from 0, modulo 2^32.
    pub(crate) expected: u32,
    /// The partner's time stamp that it took last.
    pub(crate) partner_stamp: u32,
    /// The items that the partner hasn't confirmed, oldest first: at most 20.
    pub(crate) waiting: HeapCircularBuffer<Unconfirmed>,
    /// How many items it accepted in the connection.
    pub(crate) given: u64,
    /// How many of the partner's items it handed out in the connection.
    pub(crate) taken: u64,
}

impl Model for Link {
    ghost use Rattle.std.specs.Prelude.{length};
    ghost use Rattle.rasta_core_link.specs.State.{LinkState, IsLink};

    ghost Value = { LinkState };

    ghost view = { λ l. record {
      identity = l.identity;
      phase = l.phase;
      clock = l.clock;
      closed_at = l.closed_at;
      own_stamp = l.own_stamp;
      own_first = l.own_first;
      sent = l.sent;
      sent_at = l.sent_at;
      confirmed = l.confirmed;
      partner_first = l.partner_first;
      opening_stamp = l.opening_stamp;
      expected = l.expected;
      partner_stamp = l.partner_stamp;
      waiting = l.waiting.items;
      given = l.given;
      taken = l.taken;
    } };

    ghost invariant = { λ l. IsLink l.phase l.sent l.waiting.capacity (length l.waiting.items) };
}

impl Link {
    ghost use Rattle.std.specs.Prelude.{nat_le, length};
    ghost use Rattle.rasta_core_link.specs.State.{confirmed_items};
    ghost use Rattle.rasta_core_link.specs.Calls.{MayStep, created};
    ghost use Rattle.rasta_core_link.specs.declared.identity.Role.TheVariants.{Client, Server};

    /// The end that opens, of this identity, for a partner; both hold the key. Its PDUs are numbered from
    /// `first_sequence_number` on, and `now` is its clock.
    pub fn client(
        alloc: Global,
        own: u32,
        partner: u32,
        key: Key,
        first_sequence_number: u32,
        now: Millis,
    ) -> Result<Link, AllocError>
        ensures { IfOk result (λ link. link ≡ created (record { role = Client; own = own; partner = partner; key = key }) first_sequence_number now) }
    {
        let role = Role::Client;
        Link::new(
            alloc,
            Identity {
                role,
                own,
                partner,
                key,
            },
            first_sequence_number,
            now,
        )
    }

    /// The end that waits to be opened; otherwise as `client`.
    pub fn server(
        alloc: Global,
        own: u32,
        partner: u32,
        key: Key,
        first_sequence_number: u32,
        now: Millis,
    ) -> Result<Link, AllocError>
        ensures { IfOk result (λ link. link ≡ created (record { role = Server; own = own; partner = partner; key = key }) first_sequence_number now) }
    {
        let role = Role::Server;
        Link::new(
            alloc,
            Identity {
                role,
                own,
                partner,
                key,
            },
            first_sequence_number,
            now,
        )
    }

    /// The same end made anew, as after a restart: nothing but the identity is kept.
    pub fn anew(
        &self,
        alloc: Global,
        first_sequence_number: u32,
        now: Millis,
    ) -> Result<Link, AllocError>
        ensures { IfOk result (λ link. link ≡ created self.now.identity first_sequence_number now) }
    {
        Link::new(alloc, self.identity, first_sequence_number, now)
    }

    #[tactic(auto, unfolding(crate::specs::Calls::created))]
    fn new(
        alloc: Global,
        identity: Identity,
        first_sequence_number: u32,
        now: Millis,
    ) -> Result<Link, AllocError>
        ensures { IfOk result (λ link. link ≡ created identity first_sequence_number now) }
    {
        Ok(Link {
            identity,
            phase: Phase::Closed,
            clock: now,
            closed_at: now,
            own_stamp: 0,
            own_first: first_sequence_number,
            sent: 0,
            sent_at: 0,
            confirmed: 0,
            partner_first: 0,
            opening_stamp: 0,
            expected: 0,
            partner_stamp: 0,
            waiting: HeapCircularBuffer::with_capacity(alloc, WINDOW_SIZE)?,
            given: 0,
            taken: 0,
        })
    }

    /// Whether a call at this clock reading may be made: the clock hasn't fallen.
    pub fn may_step(&self, now: Millis) -> bool
        ensures { IsTrue result ↔ MayStep now self.now }
    {
        self.clock <= now
    }

    /// Who the link and its partner are, and the key of their network.
    pub fn identity(&self) -> Identity
        ensures { result ≡ self.now.identity }
    {
        self.identity
    }

    /// How many items `send` accepted in the last connection.
    pub fn given(&self) -> u64
        ensures { result ≡ self.now.given }
    {
        self.given
    }

    /// How many items `receive` handed out in the last connection.
    pub fn taken(&self) -> u64
        ensures { result ≡ self.now.taken }
    {
        self.taken
    }

    /// How many of the given items the partner is known to have taken.
    pub fn confirmed(&self) -> u64
        ensures { result ≡ confirmed_items self.now }
    {
        self.given.saturating_sub(self.waiting.len() as u64)
    }
}
