//! A pair of ends and the network between them.

ghost use Rattle.std.specs.Prelude.{◌≡◌, ◌≤◌, ◌<◌, ◌+◌, ◌⊎◌, [], None, Some, Err, IfOk, IfErr, OnOk, OnErr, IsTrue};
ghost use Rattle.rasta_core.specs.Run.{end_of};
ghost use Rattle.simulator_pair.specs.inside.Seen.{seen_end, HasLists};
ghost use Rattle.simulator_pair.specs.inside.Parts.{GivesItem};
ghost use Rattle.simulator_pair.specs.Events.{new_pair};
ghost use Rattle.simulator_pair.specs.inside.Parts.{seen, IsPair};
ghost use Rattle.md4.specs.declared.message.TheConstants.{STANDARD};

use crate::bag::Bag;
use crate::event::{PairEvent, PairReply};
use crate::node::Node;
use crate::parts::Parts;
use place_index::PlaceIndex;
use rasta_core::{
    Inbox, Link, Outbox, Role, Sent, every_event_keeps_order, every_event_keeps_time,
    items_are_fresh, opening_is_new, order_is_safe, outside_until_it_enters, own_connection,
    starts_in_time,
};
use rasta_pdu::{Item, Key, intact_is_tested, read_was_written};
use signal_ctl::{Aspect, Lamp};
use simulator_refused::Refused;
use std::alloc::{AllocError, Global};
use std::marker::Model;

/// The identities of the two ends.
const CLIENT: u32 = 1;

const SERVER: u32 = 2;

/// A client and a server, their clocks, the network between them, and the lamp that the server keeps. Events happen
/// to it one after the other, and each is tested first: the network delivers only what was sent and is at most
/// 2000 ms old, or damaged bytes; clocks keep within 1 in 1000 of true time.
#[derive(Debug)]
pub struct Pair {
    parts: Parts,
}

// Written by hand, so that it is proved and compiled here alone.
impl Drop for Pair {
    fn drop(self) {
        let Self { parts: _ } = self;
    }
}

impl Model for Pair {
    ghost use Rattle.simulator_pair.specs.Pair.{PairView};

    ghost Value = { PairView };

    ghost use Rattle.simulator_pair.specs.inside.Parts.{seen, IsLinkedPair};

    ghost view = { λ p. record { run = seen p.parts; room = p.parts.room } };

    ghost invariant = { λ p. IsLinkedPair p.parts };
}

/// An end as it is made: with its clock at 0, in no connection.
#[tactic(auto, unfolding(crate::specs::inside::Seen::seen_end))]
fn new_node(alloc: Global, link: Link) -> Node
    ensures end { seen_end result ≡ record { link = link; clock = 0; connection = None; left = 0; given = []; taken = [] } }
    ensures link { result.link ≡ link }
    ensures clock { result.clock ≡ 0 }
    ensures lists { HasLists 0 result }
{
    Node {
        link,
        clock: 0,
        connection: None,
        left: 0,
        given: Vec::new(alloc),
        taken: Vec::new(alloc),
    }
}

/// The parts of a new pair.
#[tactic(auto, unfolding(crate::specs::inside::Parts::seen, crate::specs::inside::Parts::seen_ends, crate::specs::inside::Seen::seen_end, crate::proofs::Below::created, crate::proofs::Below::deadline, crate::proofs::Below::alive_until))]
fn new_parts(alloc: Global) -> Result<Parts, AllocError>
    ensures state { IfOk result (λ parts. seen parts ≡ new_pair (record { 0 = STANDARD })) }
    ensures whole { IfOk result IsPair }
{
    let key = Key(md4::STANDARD);
    let client = Link::client(alloc, CLIENT, SERVER, key, 0, 0)?;
    let server = Link::server(alloc, SERVER, CLIENT, key, 0, 0)?;
    let outbox = Outbox::for_links(alloc, 1)?;
    Ok(Parts {
        time: 0,
        client: new_node(alloc, client),
        server: new_node(alloc, server),
        sent: Vec::new(alloc),
        index: PlaceIndex::new(alloc),
        lamp: Lamp::new(),
        outbox,
        inbox: Inbox::new(),
        room: 0,
        alloc,
    })
}

/// An item that is given has 1 to 61 bytes.
fn gives_item(event: &PairEvent)
    ensures { GivesItem event.now }
{
    if let PairEvent::Give(_, item) = event {
        let _ = item.bytes();
    }
}

impl Pair {
    ghost use Rattle.rasta_core.specs.Safe.{AreSafe};
    ghost use Rattle.simulator_pair.specs.Theorem.{HappensRightly};
    ghost use Rattle.rasta_core.specs.State.{is_up, confirmed_items};
    ghost use Rattle.rasta_core.specs.Clock.{alive_until};
    ghost use Rattle.simulator_pair.specs.Pair.{shown};
    ghost use Rattle.simulator_pair.specs.Lamp.{StopHolds, aspect_due};
    ghost use Rattle.simulator_pair.specs.Events.{refusal, happens, reply_to, is_restart};
    ghost use Rattle.simulator_pair.specs.Bag.{in_bag, not_lost};
    ghost use Rattle.simulator_pair.specs.Runs.{Runs};
    ghost use Rattle.simulator_refused.specs.declared.refused.Refused.TheVariants.{OutOfMemory};

    /// A new pair: the client has identity 1, the server 2; their key is the standard start of MD4, their clocks
    /// and first sequence numbers are 0.
    pub fn new(alloc: Global) -> Result<Pair, AllocError>
        ensures { IfOk result (λ pair. pair.run ≡ new_pair (record { 0 = STANDARD })) }
    {
        starts_in_time();
        every_event_keeps_order();
        let parts = new_parts(alloc)?;
        Ok(Pair { parts })
    }

    /// Applies an event and tells of it, or says why it can't happen; then nothing has changed but that the
    /// room may have grown. Where there is room for an event, only a restart can lack memory.
    #[tactic(auto, unfolding(crate::specs::inside::Parts::seen, crate::specs::inside::Parts::seen_ends, crate::specs::inside::Seen::seen_end))]
    pub fn apply(&mut self, event: &PairEvent) -> Result<PairReply, Refused>
        ensures step { OnOk result (self.new.run ≡ happens event.now self.old.run) }
        ensures reply { IfOk result (λ reply. reply ≡ reply_to event.now self.old.run) }
        ensures allowed { OnOk result (refusal event.now self.old.run.ends ≡ None) }
        ensures refused { IfErr result (λ why. (refusal event.now self.old.run.ends ≡ Some why) ⊎ ((why ≡ OutOfMemory) × (refusal event.now self.old.run.ends ≡ None))) }
        ensures memory { result ≡ Err OutOfMemory → 0 < self.old.room → IsTrue (is_restart event.now) }
        ensures same { OnErr result (self.new.run ≡ self.old.run) }
        ensures room { self.old.room ≤ self.new.room + 1 }
        ensures kept { OnErr result (self.old.room ≤ self.new.room) }
        // In a connection that is the last of both ends, each took a beginning of what the other gave, and what the
        // other holds for confirmed was taken.
        ensures safe { AreSafe self.new.run.ends }
        // What a delivery brings is fresh, and of the connection of the end that takes it; nothing is taken of damaged bytes.
        ensures rightly { HappensRightly event.now self.old.run.ends }
        // The lamp shows the last aspect that the server took since its link was lost last, while the link's time lasts.
        ensures lamp { shown self.new.run ≡ aspect_due self.new.run.ends.server }
        ensures until { self.new.run.lamp.until ≡ alive_until self.new.run.ends.server.link }
        // Where the client counts a stop as confirmed, the lamp shows proceed only if a later proceed was taken.
        ensures stop { StopHolds self.new.run }
    {
        every_event_keeps_time();
        every_event_keeps_order();
        intact_is_tested();
        read_was_written();
        order_is_safe();
        items_are_fresh();
        own_connection();
        opening_is_new();
        outside_until_it_enters();
        gives_item(event);
        self.parts.apply(event)
    }

    /// Makes memory for at least so many events; nothing else changes.
    pub fn reserve(&mut self, events: usize) -> Result<(), AllocError>
        ensures room { OnOk result (events ≤ self.new.room) }
        ensures more { self.old.room ≤ self.new.room }
        ensures same { self.new.run ≡ self.old.run }
    {
        self.parts.reserve(events)
    }

    /// How many events have their memory already.
    pub fn room(&self) -> usize
        ensures { result ≡ self.now.room }
    {
        self.parts.room
    }

    /// Applies events one after the other, goes on after those that are refused, and answers how many were accepted.
    pub fn run(&mut self, events: &[PairEvent]) -> usize
        ensures run { Runs events.now self.old result self.new }
        ensures safe { AreSafe self.new.run.ends }
        ensures lamp { shown self.new.run ≡ aspect_due self.new.run.ends.server }
        ensures stop { StopHolds self.new.run }
    {
        let mut accepted = 0;
        for event in events {
            if self.apply(event).is_ok() {
                accepted += 1;
            }
        }
        order_is_safe();
        let _ = &self.parts.time;
        accepted
    }

    /// True time, in microseconds.
    #[tactic(auto, unfolding(crate::specs::inside::Parts::seen, crate::specs::inside::Parts::seen_ends, crate::specs::inside::Seen::seen_end))]
    pub fn time(&self) -> u64
        ensures { result ≡ self.now.run.ends.time }
    {
        self.parts.time
    }

    /// What the lamp shows at the server's clock.
    #[tactic(auto, unfolding(crate::specs::inside::Parts::seen, crate::specs::inside::Parts::seen_ends, crate::specs::inside::Seen::seen_end))]
    pub fn shown(&self) -> Aspect
        ensures value { result ≡ shown self.now.run }
        ensures due { result ≡ aspect_due self.now.run.ends.server }
    {
        self.parts.lamp.shown(self.parts.server.now())
    }

    /// Whether an end is up at its clock.
    #[tactic(auto, unfolding(crate::specs::inside::Parts::seen, crate::specs::inside::Parts::seen_ends, crate::specs::inside::Seen::seen_end))]
    pub fn is_up(&self, end: Role) -> bool
        ensures { result ≡ is_up (end_of end self.now.run.ends).link.phase }
    {
        self.parts.end(end).link.is_up_now()
    }

    /// The items that an end accepted in its last connection, oldest first.
    #[tactic(auto, unfolding(crate::specs::inside::Parts::seen, crate::specs::inside::Parts::seen_ends, crate::specs::inside::Seen::seen_end))]
    pub fn given(&self, end: Role) -> &[Item]
        ensures { result.now ≡ (end_of end self.now.run.ends).given }
    {
        self.parts.end(end).given.as_slice()
    }

    /// The items that an end handed out in its last connection, oldest first.
    #[tactic(auto, unfolding(crate::specs::inside::Parts::seen, crate::specs::inside::Parts::seen_ends, crate::specs::inside::Seen::seen_end))]
    pub fn taken(&self, end: Role) -> &[Item]
        ensures { result.now ≡ (end_of end self.now.run.ends).taken }
    {
        self.parts.end(end).taken.as_slice()
    }

    /// How many items an end accepted in its last connection are known to be taken by its partner.
    #[tactic(auto, unfolding(crate::specs::inside::Parts::seen, crate::specs::inside::Parts::seen_ends, crate::specs::inside::Seen::seen_end))]
    pub fn confirmed(&self, end: Role) -> u64
        ensures { result ≡ confirmed_items (end_of end self.now.run.ends).link }
    {
        self.parts.end(end).link.confirmed()
    }

    /// The datagrams that the network still has, oldest first.
    #[tactic(auto, unfolding(crate::specs::inside::Parts::seen, crate::specs::inside::Parts::seen_ends, crate::specs::inside::Seen::seen_end))]
    pub fn bag(&self) -> Bag<'_>
        ensures { in_bag result ≡ not_lost self.now.run.ends.sent }
    {
        Bag {
            sent: &self.parts.sent,
        }
    }

    /// Every datagram that was sent, oldest first, also those that are lost.
    #[tactic(auto, unfolding(crate::specs::inside::Parts::seen, crate::specs::inside::Parts::seen_ends, crate::specs::inside::Seen::seen_end))]
    pub fn sent(&self) -> &[Sent]
        ensures { result.now ≡ self.now.run.ends.sent }
    {
        self.parts.sent.as_slice()
    }
}
