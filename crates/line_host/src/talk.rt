//! What an end tells its partner, and hears from it.

ghost use Rattle.std.specs.Prelude.{◌≡◌, ◌+◌, ◌≤◌, ◌&&◌, [], drop, length, slice_get};
ghost use Rattle.std.specs.Option.{option_map};
ghost use Rattle.rasta_core.specs.Calls.{MayStep, answer_to_send, receiving};
ghost use Rattle.rasta_core.specs.Clock.{settled};
ghost use Rattle.rasta_core.specs.Outbox.{HasRoomFor};
ghost use Rattle.rasta_core.specs.State.{is_open, is_up};
ghost use Rattle.arrayvec.specs.ArrayVec.{array_vec_len};
ghost use Rattle.line_telegram.specs.LineMessages.{reading};
ghost use Rattle.line_telegram.specs.declared.message.LineMessage.TheVariants.{Line};
ghost use Rattle.line_host.specs.Talk.{Stays, acting, acting_all, beating, closing, following, giving_all, hearing_datagram, is_agreed, is_joined, meeting, opened, receives, said, saying, sending, understood, with_item};

use arrayvec::ArrayVec;
use line_laws::Item;
use line_telegram::{Greeting, Heard, LineMessage};
use rasta_core::{Inbox, Link, Millis, Outbox, Reason, SendFault};
use rasta_pdu::{Datagram, Item as LinkItem};
use sci_telegram::Name;
use std::marker::Model;

/// The link of an end, the greeting of its connection, and the datagrams of a step.
#[derive(Drop)]
pub(crate) struct Talk {
    pub(crate) link: Link,
    pub(crate) greeting: Greeting,
    pub(crate) own_name: Name,
    pub(crate) peer_name: Name,
    pub(crate) outbox: Outbox,
}

impl Model for Talk {
    ghost use Rattle.line_host.specs.Talk.{TalkState};

    ghost Value = { TalkState };

    ghost view = { λ t. record { link = t.link; greeting = t.greeting; own_name = t.own_name; peer_name = t.peer_name; outbox = t.outbox } };
}

/// What a datagram tells the end of the line.
pub(crate) type Taken = ArrayVec<Item, 3>;

/// What is for the end of the line is put behind what was.
fn put_item(taken: &mut Taken, told: Option<Item>)
    requires { array_vec_len taken.old ≤ 2 }
    ensures { taken.new.items ≡ with_item told taken.old.items }
{
    if let Some(item) = told {
        taken.push(item);
    }
}

/// Takes out all datagrams.
fn empty(outbox: &mut Outbox)
    ensures { outbox.new ≡ record outbox.old { datagrams = [] } }
{
    while let Some(_datagram) = outbox.take_first() {}
}

impl Talk {
    /// Whether the link is in a connection.
    fn is_open(&self) -> bool
        ensures { result ≡ is_open self.now.link.phase }
    {
        self.link.is_open()
    }

    /// Whether the link is up.
    fn is_up(&self) -> bool
        ensures { result ≡ is_up self.now.link.phase }
    {
        self.link.is_up_now()
    }

    /// Whether what is told is for the end of the line: the link is up, and both ends have one version.
    pub(crate) fn is_joined(&self) -> bool
        ensures { result ≡ is_joined self.now }
    {
        self.link.is_up_now() && self.greeting.is_agreed()
    }

    /// Takes out all datagrams.
    pub(crate) fn empty(&mut self)
        ensures { self.new ≡ record self.old { outbox = record self.old.outbox { datagrams = [] } } }
    {
        empty(&mut self.outbox);
    }

    /// The clock acts.
    pub(crate) fn settle(&mut self, now: Millis)
        requires { MayStep now self.old.link }
        ensures talk { self.new ≡ record self.old { link = settled now self.old.link } }
        ensures stays { Stays now 0 self.old self.new }
    {
        self.link.settle(now);
    }

    /// The link closes for this reason.
    #[tactic(auto, using(crate::proofs::Staying::called_stays), unfolding(crate::specs::Talk::closing))]
    fn close(&mut self, now: Millis, why: Reason)
        requires clock { self.old.link.clock ≡ now }
        requires room { HasRoomFor 24 self.old.outbox }
        ensures talk { self.new ≡ closing now why self.old }
        ensures stays { Stays now 1 self.old self.new }
    {
        self.link.close(now, why, &mut self.outbox);
    }

    /// A telegram goes to the partner, where the link accepts it.
    #[tactic(auto, using(crate::proofs::Staying::called_stays), unfolding(crate::specs::Talk::sending))]
    fn send(&mut self, now: Millis, message: LineMessage) -> Result<(), SendFault>
        requires clock { self.old.link.clock ≡ now }
        requires room { HasRoomFor 24 self.old.outbox }
        ensures talk { self.new ≡ sending now message self.old }
        ensures answer { result ≡ answer_to_send now self.old.link }
        ensures stays { Stays now 1 self.old self.new }
    {
        let item = line_telegram::write(&self.own_name, &self.peer_name, message);
        self.link.send(now, &item, &mut self.outbox)
    }

    /// A telegram goes to the partner. Where the link refuses it, the link closes.
    #[tactic(auto, using(crate::proofs::Staying::then_stays, crate::proofs::Staying::more_stays, crate::proofs::Staying::at_once), unfolding(crate::specs::Talk::saying))]
    fn say(&mut self, now: Millis, message: LineMessage)
        requires clock { self.old.link.clock ≡ now }
        requires room { HasRoomFor 26 self.old.outbox }
        ensures talk { self.new ≡ saying now message self.old }
        ensures stays { Stays now 2 self.old self.new }
    {
        if self.send(now, message).is_err() {
            self.close(now, Reason::Window);
        }
    }

    /// The link is up or isn't: where it came up, the first end tells its version.
    #[tactic(auto, using(crate::proofs::Staying::then_stays, crate::proofs::Staying::more_stays, crate::proofs::Staying::at_once), unfolding(crate::specs::Talk::meeting))]
    pub(crate) fn meet(&mut self, now: Millis)
        requires clock { self.old.link.clock ≡ now }
        requires room { HasRoomFor 26 self.old.outbox }
        ensures talk { self.new ≡ meeting now self.old }
        ensures stays { Stays now 2 self.old self.new }
    {
        let up = self.is_up();
        let says = self.greeting.link(up);
        if let Some(message) = says {
            self.say(now, message);
        }
    }

    /// What was heard is acted on. It answers what is for the end of the line.
    #[tactic(auto, using(crate::proofs::Staying::then_stays, crate::proofs::Staying::more_stays, crate::proofs::Staying::at_once), unfolding(crate::specs::Talk::following))]
    fn follow(&mut self, now: Millis, heard: Heard) -> Option<Item>
        requires clock { self.old.link.clock ≡ now }
        requires room { HasRoomFor 26 self.old.outbox }
        ensures talk { self.new ≡ (following now heard self.old).talk }
        ensures item { result ≡ (following now heard self.old).item }
        ensures stays { Stays now 2 self.old self.new }
    {
        match heard {
            Heard::Taken(item) => return Some(item),
            Heard::Answered(message) => self.say(now, message),
            Heard::Matched => {}
            Heard::Differed => self.close(now, Reason::Version),
            Heard::Violated => self.close(now, Reason::State),
        }
        None
    }

    /// A telegram of the partner, or what is none.
    #[tactic(auto, using(crate::proofs::Staying::then_stays, crate::proofs::Staying::more_stays, crate::proofs::Staying::at_once), unfolding(crate::specs::Talk::understood))]
    fn understand(&mut self, now: Millis, message: Option<LineMessage>) -> Option<Item>
        requires clock { self.old.link.clock ≡ now }
        requires room { HasRoomFor 26 self.old.outbox }
        ensures talk { self.new ≡ (understood now message self.old).talk }
        ensures item { result ≡ (understood now message self.old).item }
        ensures stays { Stays now 2 self.old self.new }
    {
        match message {
            None => {
                self.close(now, Reason::State);
                None
            }
            Some(message) => {
                let heard = self.greeting.hear(message);
                self.follow(now, heard)
            }
        }
    }

    /// An item that was taken.
    #[tactic(auto, using(crate::proofs::Staying::then_stays, crate::proofs::Staying::more_stays, crate::proofs::Staying::at_once), unfolding(crate::specs::Talk::acting))]
    fn act(&mut self, now: Millis, item: &LinkItem) -> Option<Item>
        requires clock { self.old.link.clock ≡ now }
        requires room { HasRoomFor 26 self.old.outbox }
        ensures talk { self.new ≡ (acting now item.now self.old).talk }
        ensures item { result ≡ (acting now item.now self.old).item }
        ensures stays { Stays now 2 self.old self.new }
    {
        let message = line_telegram::read(&self.peer_name, &self.own_name, item.bytes());
        self.understand(now, message)
    }

    /// The items of a datagram. Those after one that closed the link are dropped.
    fn act_all(&mut self, now: Millis, items: &[LinkItem]) -> Taken
        requires clock { self.old.link.clock ≡ now }
        requires room { HasRoomFor 32 self.old.outbox }
        requires few { length items.now ≤ 3 }
        ensures all { record { talk = self.new; taken = result.items } ≡ acting_all now items.now (record { talk = self.old; taken = [] }) }
        ensures stays { Stays now 6 self.old self.new }
    {
        let mut taken = ArrayVec::new();
        for item in items {
            if !self.is_open() {
                return taken;
            }
            let told = self.act(now, item);
            put_item(&mut taken, told);
        }
        taken
    }

    /// A datagram has come.
    #[tactic(auto, using(crate::proofs::Staying::called_stays), unfolding(crate::specs::Talk::receives))]
    fn receive(&mut self, now: Millis, datagram: &[u8]) -> Inbox
        requires clock { self.old.link.clock ≡ now }
        requires room { HasRoomFor 24 self.old.outbox }
        ensures talk { self.new ≡ receives now datagram.now self.old }
        ensures items { result.items ≡ (receiving now datagram.now self.old.link).items }
        ensures stays { Stays now 22 self.old self.new }
    {
        let mut inbox = Inbox::new();
        self.link
            .receive(now, datagram, &mut self.outbox, &mut inbox);
        inbox
    }

    /// A datagram is heard. It answers what it tells the end of the line.
    #[tactic(auto, using(crate::proofs::Staying::then_stays, crate::proofs::Staying::more_stays, crate::proofs::Staying::at_once), unfolding(crate::specs::Talk::hearing_datagram))]
    pub(crate) fn hear(&mut self, now: Millis, datagram: &[u8]) -> Taken
        requires clock { self.old.link.clock ≡ now }
        requires room { HasRoomFor 56 self.old.outbox }
        ensures all { record { talk = self.new; taken = result.items } ≡ hearing_datagram now datagram.now self.old }
        ensures stays { Stays now 30 self.old self.new }
    {
        let inbox = self.receive(now, datagram);
        self.meet(now);
        self.act_all(now, inbox.as_slice())
    }

    /// An item of the end of the line goes to the partner.
    fn give(&mut self, now: Millis, item: &Item)
        requires clock { self.old.link.clock ≡ now }
        requires room { HasRoomFor 26 self.old.outbox }
        ensures talk { self.new ≡ saying now (Line item.now) self.old }
        ensures stays { Stays now 2 self.old self.new }
    {
        self.say(now, LineMessage::Line(*item));
    }

    /// The items of the end of the line go to the partner, up to one that the link refuses.
    pub(crate) fn give_all(&mut self, now: Millis, items: &[Item])
        requires clock { self.old.link.clock ≡ now }
        requires room { HasRoomFor 34 self.old.outbox }
        requires few { length items.now ≤ 5 }
        ensures talk { self.new ≡ giving_all now items.now self.old }
        ensures stays { Stays now 10 self.old self.new }
    {
        for item in items {
            if !self.is_up() {
                return;
            }
            self.give(now, item);
        }
    }

    /// A heartbeat, where it is due.
    #[tactic(auto, using(crate::proofs::Staying::called_stays), unfolding(crate::specs::Talk::beating))]
    pub(crate) fn beat(&mut self, now: Millis)
        requires clock { self.old.link.clock ≡ now }
        requires room { HasRoomFor 24 self.old.outbox }
        ensures talk { self.new ≡ beating now self.old }
        ensures stays { Stays now 1 self.old self.new }
    {
        self.link.tick(now, &mut self.outbox);
    }

    /// The first end opens a link that is down.
    #[tactic(auto, using(crate::proofs::Staying::called_stays), unfolding(crate::specs::Talk::opened))]
    pub(crate) fn open(&mut self, now: Millis)
        requires clock { self.old.link.clock ≡ now }
        requires room { HasRoomFor 24 self.old.outbox }
        ensures talk { self.new ≡ opened now self.old }
        ensures stays { Stays now 1 self.old self.new }
    {
        self.link.open(now, &mut self.outbox);
    }

    /// Takes the oldest datagram out.
    pub(crate) fn take_first(&mut self) -> Option<Datagram>
        ensures value { option_map (λ d. d.items) result ≡ slice_get self.old.outbox.datagrams 0 }
        ensures rest { self.new ≡ record self.old { outbox = record self.old.outbox { datagrams = drop 1 self.old.outbox.datagrams } } }
    {
        self.outbox.take_first()
    }
}
