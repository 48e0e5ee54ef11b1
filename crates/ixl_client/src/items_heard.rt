//! What becomes of a datagram, and of the items that it brings.

ghost use Rattle.std.specs.Prelude.{◌≡◌, ◌≤◌, ◌<◌, ◌+◌, ◌&&◌, List, [], ℕ, length};
ghost use Rattle.rasta_core.specs.Calls.{MayStep, receiving};
ghost use Rattle.rasta_core.specs.Outbox.{HasRoomFor};
ghost use Rattle.sci_telegram.specs.TelegramRead.{reading};
ghost use Rattle.rasta_core.specs.State.{is_up};
ghost use Rattle.ixl_client.specs.Client.{is_outside};
ghost use Rattle.ixl_client.specs.ClientSoFar.{Receives, calling};
ghost use Rattle.ixl_client.specs.Step.{acting, acting_all, meaning_of_item, following, rising, stage_after_report};
ghost use Rattle.ixl_client.specs.Way.{Goes};
ghost use Rattle.ixl_client.specs.declared.indication.Indication.{Indication};

use crate::end::End;
use crate::indication::{Indication, Indications};
use crate::meaning::Meaning;
use crate::stage::Stage;
use rasta_core::{Inbox, Millis, Outbox, Reason, Verdict};
use rasta_pdu::Item;
use sci_telegram::Initialisation;

impl End {
    /// Whether the link has come up and the connection has not begun yet.
    fn has_come_up(&self) -> bool
        ensures { result ≡ (is_outside self.now.stage && is_up self.now.link.phase) }
    {
        self.stage.is_outside() && self.link.is_up_now()
    }

    /// The version that the client tells.
    fn version(&self) -> u8
        ensures { result ≡ self.now.peer.version }
    {
        self.peer.version
    }

    /// How many objects the controller tells of.
    fn objects(&self) -> usize
        ensures { result ≡ length self.now.peer.objects }
    {
        self.peer.objects.len()
    }

    /// How far the connection has come once an object's state was told.
    fn stage_after_report(&self) -> Stage
        ensures { result ≡ stage_after_report self.now.stage }
    {
        match self.stage {
            Stage::AwaitsStatus(left) => Stage::AwaitsStatus(left.saturating_sub(1)),
            _ => Stage::Completed,
        }
    }

    /// A connection that came up begins with the version check.
    pub(crate) fn rise(&mut self, now: Millis, outbox: &mut Outbox)
        requires clock { self.old.link.clock ≡ now }
        requires room { HasRoomFor 26 outbox.old }
        ensures { (heard : List Indication) → Goes now 2 (rising now) (record { client = self.old; outbox = outbox.old; heard = heard }) (record { client = self.new; outbox = outbox.new; heard = heard }) }
    {
        if self.has_come_up() {
            let version = self.version();
            self.say(now, Initialisation::VersionCheck { version }, outbox);
            self.come_to(Stage::AwaitsAnswer);
        }
    }

    /// A datagram is received.
    pub(crate) fn receive(
        &mut self,
        now: Millis,
        datagram: &[u8],
        outbox: &mut Outbox,
        inbox: &mut Inbox,
    ) -> Verdict
        requires clock { MayStep now self.old.link }
        requires room { HasRoomFor 24 outbox.old }
        ensures goes { (heard : List Indication) → Goes now 22 (calling now (Receives datagram.now)) (record { client = self.old; outbox = outbox.old; heard = heard }) (record { client = self.new; outbox = outbox.new; heard = heard }) }
        ensures items { inbox.new.items ≡ (receiving now datagram.now self.old.link).items }
        ensures verdict { result ≡ (receiving now datagram.now self.old.link).verdict }
    {
        self.link.receive(now, datagram, outbox, inbox)
    }

    /// An item is acted on, or it closes the link.
    fn follow(
        &mut self,
        now: Millis,
        meaning: Meaning,
        outbox: &mut Outbox,
        heard: &mut Indications,
    )
        requires clock { self.old.link.clock ≡ now }
        requires room { HasRoomFor 26 outbox.old }
        requires heard { length heard.old.items < 3 }
        ensures goes { (item : List ℕ) → Goes now 2 (following now item meaning) (record { client = self.old; outbox = outbox.old; heard = heard.old.items }) (record { client = self.new; outbox = outbox.new; heard = heard.new.items }) }
        ensures one { length heard.new.items ≤ length heard.old.items + 1 }
    {
        match meaning {
            Meaning::Agrees => {
                self.say(now, Initialisation::InitialisationRequest, outbox);
                self.come_to(Stage::AwaitsStart);
            }
            Meaning::Starts => {
                let left = self.objects();
                self.come_to(Stage::AwaitsStatus(left));
            }
            Meaning::Indicates(indication) => {
                heard.push(indication);
                let next = self.stage_after_report();
                self.come_to(next);
            }
            Meaning::Completes => self.come_to(Stage::Completed),
            Meaning::Differs => self.close(now, Reason::Version, outbox),
            Meaning::Violates => self.close(now, Reason::State, outbox),
        }
    }

    /// What an item is to the connection.
    fn meaning_of(&self, item: &Item) -> Meaning
        ensures { result ≡ meaning_of_item self.now.peer self.now.stage (reading item.now) }
    {
        match sci_telegram::read(item.bytes()) {
            Ok(telegram) => Meaning::of(&self.peer, &telegram, self.stage),
            Err(_) => Meaning::Violates,
        }
    }

    /// An item that was taken.
    fn act(&mut self, now: Millis, item: &Item, outbox: &mut Outbox, heard: &mut Indications)
        requires clock { self.old.link.clock ≡ now }
        requires room { HasRoomFor 26 outbox.old }
        requires heard { length heard.old.items < 3 }
        ensures goes { Goes now 2 (acting now item.now) (record { client = self.old; outbox = outbox.old; heard = heard.old.items }) (record { client = self.new; outbox = outbox.new; heard = heard.new.items }) }
        ensures one { length heard.new.items ≤ length heard.old.items + 1 }
    {
        let meaning = self.meaning_of(item);
        self.follow(now, meaning, outbox, heard);
    }

    /// The items of a datagram. Those after one that closed the link are dropped.
    pub(crate) fn act_all(
        &mut self,
        now: Millis,
        items: &[Item],
        outbox: &mut Outbox,
        heard: &mut Indications,
    )
        requires clock { self.old.link.clock ≡ now }
        requires room { HasRoomFor 32 outbox.old }
        requires items { length items.now ≤ 3 }
        requires heard { heard.old.items ≡ [] }
        ensures { Goes now 6 (acting_all now items.now) (record { client = self.old; outbox = outbox.old; heard = heard.old.items }) (record { client = self.new; outbox = outbox.new; heard = heard.new.items }) }
    {
        for item in items {
            if !self.link.is_open() {
                return;
            }
            self.act(now, item, outbox, heard);
        }
    }
}
