//! One end of a pair, with what its link doesn't know.

ghost use Rattle.std.specs.Prelude.{◌≡◌, OnOk, ◌∷◌, Ok, is_ok, ◌+◌, ◌*◌, ◌≤◌, ◌<◌, ◌^◌, ◌++◌, Some, None, [], length, if◌then◌else◌};
ghost use Rattle.std.specs.Vec.{vec_len, vec_capacity};
ghost use Rattle.rasta_core.specs.Outbox.{HasRoomFor, posted};
ghost use Rattle.rasta_core.specs.Calls.{MayStep, IsAt, opening, opens, sending_item, answer_to_send, receiving};
ghost use Rattle.rasta_core.specs.Ends.{outcome, end_after, end_later, entered_by, reading_of};
ghost use Rattle.arrayvec.specs.ArrayVec.{array_vec_len};
ghost use Rattle.simulator_pair.specs.inside.CallsMade.{HasStepped, meant};

use crate::event::Bytes;
use arrayvec::ArrayVec;
use rasta_core::{Inbox, Link, MICROS, Millis, Outbox, Reason, SendFault, Verdict};
use rasta_pdu::Item;
use std::alloc::AllocError;

/// One end, with its exact clock and the lists of its last connection.
#[derive(Debug, Drop)]
pub(crate) struct Node {
    pub(crate) link: Link,
    /// In microseconds.
    pub(crate) clock: u64,
    /// The last connection that it entered.
    pub(crate) connection: Option<usize>,
    /// How many datagrams were sent when it last left a connection or was made anew.
    pub(crate) left: usize,
    pub(crate) given: Vec<Item>,
    pub(crate) taken: Vec<Item>,
}

/// A call of a link: with a datagram comes the connection that it was sent in.
#[derive(Clone, Copy, Debug)]
pub(crate) enum Call<'a> {
    Ticks,
    Opens,
    Closes(Reason),
    Sends(&'a Item),
    Receives(&'a Bytes, usize),
}

impl Node {
    ghost use Rattle.simulator_pair.specs.inside.Seen.{seen_end, IsAtClock, HasLists, KeepsLists, noted, concluded};
    ghost use Rattle.simulator_pair.specs.inside.CallsMade.{IsHandedOut, IsMade, IsReady, Performs};

    /// What the end reads of its clock.
    pub(crate) fn now(&self) -> Millis
        ensures { result ≡ reading_of self.now.clock }
    {
        self.clock / MICROS
    }

    /// Notes the connection that it has entered in a step, if any, and the moment if it has left one.
    #[tactic(auto, unfolding(crate::specs::inside::Seen::seen_end, crate::specs::inside::Seen::noted))]
    fn note(&mut self, was_open: bool, enters: Option<usize>, moment: usize)
        ensures end { seen_end self.new ≡ noted was_open enters moment (seen_end self.old) }
        ensures link { self.new.link ≡ self.old.link }
        ensures clock { self.new.clock ≡ self.old.clock }
        ensures lists { KeepsLists 0 self.old self.new }
    {
        let was_in = was_open || enters.is_some();
        if let Some(connection) = enters {
            self.connection = Some(connection);
            self.given.clear();
            self.taken.clear();
        }
        if was_in && !self.link.is_open() {
            self.left = moment;
        }
    }

    /// The link's part of a call.
    #[tactic(auto, using(crate::proofs::Steps::stepping), unfolding(crate::proofs::Below::outcome, crate::specs::inside::Seen::seen_end))]
    fn call_link(
        &mut self,
        call: Call<'_>,
        moment: usize,
        outbox: &mut Outbox,
        inbox: &mut Inbox,
    ) -> Made
        requires { IsReady moment self.old outbox.old inbox.old.items }
        ensures link { self.new ≡ record self.old { link = (outcome (meant call.entry) moment (seen_end self.old)).link } }
        ensures handed { IsHandedOut (outcome (meant call.entry) moment (seen_end self.old)) (seen_end self.old) outbox.old outbox.new inbox.new.items }
        ensures made { IsMade (meant call.entry) (outcome (meant call.entry) moment (seen_end self.old)) (seen_end self.old) result }
        ensures clock { self.new.link.clock ≡ reading_of self.old.clock }
    {
        let now = self.now();
        match call {
            Call::Ticks => {
                self.link.tick(now, outbox);
                nothing_given(None)
            }
            Call::Opens => nothing_given(open(&mut self.link, now, moment, outbox)),
            Call::Closes(why) => {
                self.link.close(now, why, outbox);
                nothing_given(None)
            }
            Call::Sends(item) => send(&mut self.link, now, item, outbox),
            Call::Receives(bytes, connection) => {
                nothing_given(receive(&mut self.link, now, bytes, connection, outbox, inbox))
            }
        }
    }

    /// What a step makes of the connection and its lists, once the link has done its part.
    #[tactic(auto, unfolding(crate::specs::inside::Seen::concluded, crate::specs::inside::Seen::noted, crate::specs::inside::Seen::seen_end))]
    fn conclude(&mut self, was_open: bool, made: &Made, taken: &[Item], moment: usize)
        requires lists { HasLists 3 self.old }
        requires given { array_vec_len made.now.given ≤ 1 }
        requires taken { length taken.now ≤ 3 }
        ensures end { seen_end self.new ≡ concluded was_open made.now.enters made.now.given.items taken.now moment (seen_end self.old) }
        ensures link { self.new.link ≡ self.old.link }
        ensures clock { self.new.clock ≡ self.old.clock }
        ensures lists { KeepsLists 3 self.old self.new }
    {
        self.note(was_open, made.enters, moment);
        append(&mut self.given, made.given.as_slice());
        append(&mut self.taken, taken);
    }

    /// A call of the link, and what it makes of the connection and its lists.
    #[tactic(auto, using(crate::proofs::Steps::stepping), unfolding(crate::specs::inside::Seen::seen_end, crate::specs::inside::Seen::noted, crate::specs::inside::Seen::concluded, crate::proofs::Below::end_after))]
    pub(crate) fn call(
        &mut self,
        call: Call<'_>,
        moment: usize,
        outbox: &mut Outbox,
        inbox: &mut Inbox,
    ) -> Result<(), SendFault>
        requires { IsReady moment self.old outbox.old inbox.old.items }
        ensures { Performs (meant call.entry) moment self.old self.new outbox.old outbox.new inbox.new.items result }
    {
        let was_open = self.link.is_open();
        let made = self.call_link(call, moment, outbox, inbox);
        self.conclude(was_open, &made, inbox.as_slice(), moment + outbox.len());
        made.answer
    }

    /// The end is made anew, with this link and this clock in milliseconds.
    #[tactic(auto, unfolding(crate::specs::inside::Seen::seen_end, crate::proofs::Below::end_restarted))]
    pub(crate) fn restart(&mut self, link: Link, clock: Millis, moment: usize)
        requires fits { clock * 1000 < 2 ^ 64 }
        ensures end { seen_end self.new ≡ record (seen_end self.old) { link = link; clock = clock * 1000; left = moment } }
        ensures link { self.new.link ≡ link }
        ensures clock { self.new.clock ≡ clock * 1000 }
        ensures lists { KeepsLists 0 self.old self.new }
    {
        self.link = link;
        self.clock = clock * MICROS;
        self.left = moment;
    }

    /// Makes room for so many more items in each list.
    #[tactic(auto, unfolding(crate::specs::inside::Seen::seen_end))]
    pub(crate) fn reserve(&mut self, items: usize) -> Result<(), AllocError>
        ensures room { OnOk result (HasLists items self.new) }
        ensures same { seen_end self.new ≡ seen_end self.old }
        ensures link { self.new.link ≡ self.old.link }
        ensures clock { self.new.clock ≡ self.old.clock }
        ensures lists { KeepsLists 0 self.old self.new }
    {
        self.given.reserve(items)?;
        self.taken.reserve(items)
    }

    /// The clock goes on by so many microseconds.
    #[tactic(auto, using(crate::proofs::Steps::stepping), unfolding(crate::specs::inside::Seen::seen_end, crate::specs::inside::Seen::noted, crate::proofs::Below::end_later))]
    pub(crate) fn pass(&mut self, elapsed: u64, moment: usize)
        requires clock { IsAtClock self.old }
        requires fits { self.old.clock + elapsed < 2 ^ 64 }
        ensures end { seen_end self.new ≡ end_later elapsed moment (seen_end self.old) }
        ensures clock { IsAtClock self.new }
        ensures lists { KeepsLists 0 self.old self.new }
    {
        let was_open = self.link.is_open();
        self.clock += elapsed;
        let now = self.now();
        self.link.settle(now);
        self.note(was_open, None, moment);
    }
}

/// What a call made beside datagrams and items taken: the answer, the connection entered and the item accepted.
#[derive(Debug, Drop)]
struct Made {
    answer: Result<(), SendFault>,
    enters: Option<usize>,
    given: ArrayVec<Item, 1>,
}

/// What a call made that gives nothing.
fn nothing_given(enters: Option<usize>) -> Made
    ensures answer { result.answer ≡ Ok tt }
    ensures enters { result.enters ≡ enters }
    ensures given { result.given.items ≡ [] }
    ensures one { array_vec_len result.given ≤ 1 }
{
    Made {
        answer: Ok(()),
        enters,
        given: ArrayVec::new(),
    }
}

/// Gives an item to a link.
fn send(link: &mut Link, now: Millis, item: &Item, outbox: &mut Outbox) -> Made
    requires clock { MayStep now link.old }
    requires room { HasRoomFor 24 outbox.old }
    ensures step { HasStepped now (sending_item now item.now link.old).link (sending_item now item.now link.old).pdus link.old link.new outbox.old outbox.new }
    ensures answer { result.answer ≡ answer_to_send now link.old }
    ensures enters { result.enters ≡ None }
    ensures given { result.given.items ≡ (if is_ok (answer_to_send now link.old) then item.now ∷ [] else []) }
    ensures one { array_vec_len result.given ≤ 1 }
{
    let answer = link.send(now, item, outbox);
    let mut given = ArrayVec::new();
    if answer.is_ok() {
        given.push(item.copy());
    }
    Made {
        answer,
        enters: None,
        given,
    }
}

/// Opens a link, and answers the connection that it begins.
fn open(link: &mut Link, now: Millis, moment: usize, outbox: &mut Outbox) -> Option<usize>
    requires clock { MayStep now link.old }
    requires room { HasRoomFor 24 outbox.old }
    ensures step { HasStepped now (opening now link.old).link (opening now link.old).pdus link.old link.new outbox.old outbox.new }
    ensures enters { result ≡ (if opens now link.old then Some moment else None) }
{
    if link.open(now, outbox) {
        Some(moment)
    } else {
        None
    }
}

/// Delivers bytes to a link, and answers the connection that it enters by them.
fn receive(
    link: &mut Link,
    now: Millis,
    bytes: &[u8],
    connection: usize,
    outbox: &mut Outbox,
    inbox: &mut Inbox,
) -> Option<usize>
    requires clock { MayStep now link.old }
    requires room { HasRoomFor 24 outbox.old }
    ensures step { HasStepped now (receiving now bytes.now link.old).link (receiving now bytes.now link.old).pdus link.old link.new outbox.old outbox.new }
    ensures items { inbox.new.items ≡ (receiving now bytes.now link.old).items }
    ensures enters { result ≡ entered_by link.old (receiving now bytes.now link.old).verdict connection }
{
    let was_open = link.is_open();
    match link.receive(now, bytes, outbox, inbox) {
        Verdict::Taken if !was_open => Some(connection),
        _ => None,
    }
}

/// Appends items for which there is room.
fn append(list: &mut Vec<Item>, items: &[Item])
    requires { vec_len list.old + length items.now ≤ vec_capacity list.old }
    ensures items { list.new.items ≡ list.old.items ++ items.now }
    ensures len { vec_len list.new ≡ vec_len list.old + length items.now }
    ensures capacity { vec_capacity list.new ≡ vec_capacity list.old }
{
    for item in items {
        list.push_reserved(item.copy());
    }
}
