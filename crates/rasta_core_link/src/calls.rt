//! The calls of a link that take a clock reading. Each asks that the clock hasn't fallen since the last call,
//! and that the outbox has room for 24 datagrams.

ghost use Rattle.std.specs.Prelude.{◌≡◌, ◌≤◌, true, [], length};
ghost use Rattle.rasta_core_link.specs.Outbox.{HasRoomFor, posted};
ghost use Rattle.rasta_core_link.specs.PdusHandedOut.{entered};
ghost use Rattle.rasta_core_link.specs.Verdicts.{IsVerdict, is_refusal, refused};
ghost use Rattle.rasta_pdu.specs.PduRead.{reading};

use crate::fault::SendFault;
use crate::link::{Link, Millis};
use crate::outbox::Outbox;
use crate::parameters::WINDOW_SIZE;
use crate::reason::Reason;
use crate::reception::Inbox;
use crate::verdict::Verdict;
use rasta_pdu::Item;

impl Link {
    ghost use Rattle.rasta_core_link.specs.Calls.{MayStep, IsAt, opens, opening, ticking, closing_by, acceptance, answer_to_send, sending_item, receiving};

    /// A client that is down asks for a connection, and answers true; otherwise false.
    #[tactic(auto, using(crate::proofs::Few::calls, crate::proofs::LinkIdentity::kept), unfolding(crate::specs::Calls::opening, crate::specs::Calls::opens))]
    pub fn open(&mut self, now: Millis, outbox: &mut Outbox) -> bool
        requires clock { MayStep now self.old }
        requires room { HasRoomFor 24 outbox.old }
        ensures link { self.new ≡ (opening now self.old).link }
        ensures kept { IsAt now self.old (opening now self.old).link }
        ensures posted { outbox.new ≡ posted self.old.identity.key (opening now self.old).pdus outbox.old }
        ensures answer { result ≡ opens now self.old }
        ensures few { length (opening now self.old).pdus ≤ 1 }
    {
        self.enter(now, outbox);
        if !self.may_open() {
            return false;
        }
        self.request(outbox);
        true
    }

    /// A heartbeat, where it is up and has sent nothing for 300 ms.
    #[tactic(auto, using(crate::proofs::Few::calls, crate::proofs::LinkIdentity::kept), unfolding(crate::specs::Calls::ticking))]
    pub fn tick(&mut self, now: Millis, outbox: &mut Outbox)
        requires clock { MayStep now self.old }
        requires room { HasRoomFor 24 outbox.old }
        ensures link { self.new ≡ (ticking now self.old).link }
        ensures kept { IsAt now self.old (ticking now self.old).link }
        ensures posted { outbox.new ≡ posted self.old.identity.key (ticking now self.old).pdus outbox.old }
        ensures few { length (ticking now self.old).pdus ≤ 1 }
    {
        self.enter(now, outbox);
        self.beat(outbox);
    }

    /// Closes for this reason, where it is in a connection; otherwise nothing but what the clock does.
    #[tactic(auto, using(crate::proofs::Few::calls, crate::proofs::LinkIdentity::kept), unfolding(crate::specs::Calls::closing_by))]
    pub fn close(&mut self, now: Millis, why: Reason, outbox: &mut Outbox)
        requires clock { MayStep now self.old }
        requires room { HasRoomFor 24 outbox.old }
        ensures link { self.new ≡ (closing_by now why self.old).link }
        ensures kept { IsAt now self.old (closing_by now why self.old).link }
        ensures posted { outbox.new ≡ posted self.old.identity.key (closing_by now why self.old).pdus outbox.old }
        ensures few { length (closing_by now why self.old).pdus ≤ 1 }
    {
        self.enter(now, outbox);
        if self.phase.is_open() {
            self.shut(why, outbox);
        }
    }

    /// Whether an item can be sent.
    #[tactic(auto, unfolding(crate::specs::Calls::acceptance))]
    fn acceptance(&self) -> Result<(), SendFault>
        ensures { result ≡ acceptance self.now }
    {
        if !self.phase.is_up() {
            return Err(SendFault::NotUp);
        }
        if self.waiting.len() >= WINDOW_SIZE {
            return Err(SendFault::WindowFull);
        }
        Ok(())
    }

    /// Sends an item, which waits until the partner confirms it. Refused where the link isn't up or 20 items wait.
    #[tactic(auto, using(crate::proofs::Few::calls, crate::proofs::LinkIdentity::kept), unfolding(crate::specs::Calls::sending_item, crate::specs::Calls::answer_to_send, crate::specs::Calls::acceptance))]
    pub fn send(&mut self, now: Millis, item: &Item, outbox: &mut Outbox) -> Result<(), SendFault>
        requires clock { MayStep now self.old }
        requires room { HasRoomFor 24 outbox.old }
        ensures link { self.new ≡ (sending_item now item.now self.old).link }
        ensures kept { IsAt now self.old (sending_item now item.now self.old).link }
        ensures posted { outbox.new ≡ posted self.old.identity.key (sending_item now item.now self.old).pdus outbox.old }
        ensures answer { result ≡ answer_to_send now self.old }
        ensures few { length (sending_item now item.now self.old).pdus ≤ 1 }
    {
        self.enter(now, outbox);
        self.acceptance()?;
        self.give(item, outbox);
        Ok(())
    }

    /// A datagram has come. The inbox is emptied first, and then has the items that it brought.
    #[tactic(auto, using(crate::proofs::Few::calls, crate::proofs::LinkIdentity::kept, crate::proofs::Verdicts::verdicts, crate::proofs::Refusals::refusals), unfolding(crate::specs::Calls::receiving, crate::specs::Calls::hearing_bytes))]
    pub fn receive(
        &mut self,
        now: Millis,
        datagram: &[u8],
        outbox: &mut Outbox,
        inbox: &mut Inbox,
    ) -> Verdict
        requires clock { MayStep now self.old }
        requires room { HasRoomFor 24 outbox.old }
        ensures link { self.new ≡ (receiving now datagram.now self.old).link }
        ensures kept { IsAt now self.old (receiving now datagram.now self.old).link }
        ensures posted { outbox.new ≡ posted self.old.identity.key (receiving now datagram.now self.old).pdus outbox.old }
        ensures items { inbox.new.items ≡ (receiving now datagram.now self.old).items }
        ensures verdict { result ≡ (receiving now datagram.now self.old).verdict }
        // It is the first in the order of the tests.
        ensures table { IsVerdict result (reading self.old.identity.key datagram.now) (entered now self.old).link }
        // A refusal changes nothing but what the clock rules change; in a connection WrongState closes.
        ensures refused { is_refusal result ≡ true → receiving now datagram.now self.old ≡ refused result (entered now self.old) }
        // A call that brings items hands out nothing.
        ensures few { length (receiving now datagram.now self.old).pdus ≤ 22 }
        ensures items_alone { 1 ≤ length inbox.new.items → (receiving now datagram.now self.old).pdus ≡ [] }
    {
        inbox.clear();
        self.enter(now, outbox);
        match rasta_pdu::read(&self.identity.key, datagram) {
            Ok(pdu) => self.hear(&pdu, outbox, inbox),
            Err(fault) => Verdict::Unreadable(fault),
        }
    }
}
