//! What becomes of the items that the link hands out.

ghost use Rattle.std.specs.Prelude.{◌≡◌, ◌+◌, ℕ, List};
ghost use Rattle.rasta_core.specs.Calls.{MayStep};
ghost use Rattle.rasta_core.specs.Outbox.{HasRoomFor};
ghost use Rattle.object_host.specs.Meaning.{meaning};
ghost use Rattle.object_host.specs.Step.{acting, acting_all, commanding, following, is_admitted, is_from_peer, is_in_version, posting};
ghost use Rattle.object_host.specs.inside.Performed.{IsPerformed, may_send};
ghost use Rattle.sci_telegram.specs.TelegramRead.{reading};

use crate::controller::Controller;
use crate::host::Host;
use crate::meaning::Meaning;
use rasta_core::{Millis, Outbox};
use rasta_pdu::Item;
use sci_telegram::{Aspect, Message, SLOW_SINCE, SignalMessage, Telegram};

impl<C: Controller> Host<C> {
    /// The object is told a telegram. One that doesn't fit closes the link.
    #[tactic(auto, using(crate::proofs::OutboxPosts::posting, crate::proofs::UnderWay::items_joined), unfolding(crate::specs::Step::commanding))]
    fn command(&mut self, now: Millis, telegram: &Telegram, outbox: &mut Outbox)
        requires clock { MayStep now self.old.link }
        requires at { self.old.link.clock ≡ now }
        requires room { HasRoomFor 24 outbox.old }
        ensures { IsPerformed (may_send self.old.link) now (commanding C.behaviour now telegram.now self.old) self.old self.new outbox.old outbox.new }
    {
        if !self.object.take(now, telegram) {
            self.violate(now, outbox);
        }
    }

    /// A telegram of the peer, in its order.
    #[tactic(auto, unfolding(crate::specs::Step::following))]
    fn follow(&mut self, now: Millis, telegram: &Telegram, outbox: &mut Outbox)
        requires at { self.old.link.clock ≡ now }
        requires room { HasRoomFor (may_send self.old.link + 24) outbox.old }
        ensures { (item : List ℕ) → IsPerformed (may_send self.old.link) now (following C.behaviour now item telegram.now (meaning telegram.now.message self.old.stage) self.old) self.old self.new outbox.old outbox.new }
    {
        match Meaning::of(&telegram.message, self.stage) {
            Meaning::Checks(version) => self.answer(now, version, outbox),
            Meaning::Initialises => self.initialise(now, outbox),
            Meaning::Commands => self.command(now, telegram, outbox),
            Meaning::Violates => self.violate(now, outbox),
        }
    }

    /// Whether a telegram is in the object's protocol, of the peer, and for this controller.
    fn is_from_peer(&self, telegram: &Telegram) -> bool
        ensures { result ≡ is_from_peer C.behaviour telegram.now self.now }
    {
        telegram.message.protocol() == self.object.protocol()
            && telegram.sender.bytes() == self.peer_name.bytes()
            && telegram.receiver.bytes() == self.own_name.bytes()
    }

    /// Whether a telegram is looked at further: from the peer, and one that the version has.
    fn admits(&self, telegram: &Telegram) -> bool
        ensures { result ≡ is_admitted C.behaviour telegram.now self.now }
    {
        self.is_from_peer(telegram) && is_in_version(self.version, &telegram.message)
    }

    /// An item that was taken.
    #[tactic(auto, unfolding(crate::specs::Step::acting))]
    fn act(&mut self, now: Millis, item: &Item, outbox: &mut Outbox)
        requires at { self.old.link.clock ≡ now }
        requires room { HasRoomFor (may_send self.old.link + 24) outbox.old }
        ensures { IsPerformed (may_send self.old.link) now (acting C.behaviour now item.now (reading item.now) self.old) self.old self.new outbox.old outbox.new }
    {
        match sci_telegram::read(item.bytes()) {
            Ok(telegram) if self.admits(&telegram) => self.follow(now, &telegram, outbox),
            _ => self.violate(now, outbox),
        }
    }

    /// The items of a datagram. Those after one that closed the link are dropped.
    #[tactic(auto, using(crate::proofs::OutboxPosts::posting, crate::proofs::UnderWay::items_joined))]
    pub(crate) fn act_all(&mut self, now: Millis, items: &[Item], outbox: &mut Outbox)
        requires at { self.old.link.clock ≡ now }
        requires room { HasRoomFor (may_send self.old.link + 24) outbox.old }
        ensures { IsPerformed (may_send self.old.link) now (acting_all C.behaviour now items.now self.old) self.old self.new outbox.old outbox.new }
    {
        for item in items {
            if !self.link.is_open() {
                return;
            }
            self.act(now, item, outbox);
        }
    }
}

/// Whether a version has this message: the aspect slow came with `SLOW_SINCE`.
fn is_in_version(version: u8, message: &Message) -> bool
    ensures { result ≡ is_in_version version message.now }
{
    match message {
        Message::Signal(
            SignalMessage::IndicateAspect(Aspect::Slow)
            | SignalMessage::IndicatedAspect(Aspect::Slow),
        ) => SLOW_SINCE <= version,
        _ => true,
    }
}
