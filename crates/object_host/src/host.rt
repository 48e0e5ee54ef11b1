//! A host without its outbox, and what it says.

ghost use Rattle.std.specs.Prelude.{◌≡◌};
ghost use Rattle.rasta_core.specs.Calls.{MayStep, answer_to_send};
ghost use Rattle.rasta_core.specs.Outbox.{HasRoomFor};
ghost use Rattle.object_host.specs.Host.{said, telegram_of};
ghost use Rattle.object_host.specs.Step.{posting, violating};
ghost use Rattle.object_host.specs.inside.Performed.{IsPerformed, may_send};

use crate::controller::Controller;
use crate::report::Report;
use crate::stage::Stage;
use rasta_core::{Link, Millis, Outbox, Reason, SendFault};
use sci_telegram::{Initialisation, Message, Name, Telegram};
use std::marker::Model;

/// The link of an object controller, the stage of its connection, and its object.
#[derive(Drop)]
pub(crate) struct Host<C: Controller> {
    pub(crate) link: Link,
    pub(crate) stage: Stage,
    pub(crate) object: C,
    pub(crate) own_name: Name,
    pub(crate) peer_name: Name,
    pub(crate) version: u8,
}

impl<C: Controller> Model for Host<C> {
    ghost use Rattle.object_host.specs.Host.{HostState};

    ghost Value = { HostState C };

    ghost view = { λ h. record { link = h.link; stage = h.stage; object = h.object; own_name = h.own_name; peer_name = h.peer_name; version = h.version } };
}

impl<C: Controller> Host<C> {
    fn telegram(&self, report: &Report) -> Telegram
        ensures { result ≡ telegram_of report.now self.now }
    {
        Telegram {
            sender: report.section.unwrap_or(self.own_name),
            receiver: self.peer_name,
            message: report.message,
        }
    }

    /// A report goes to the peer, where the link accepts it.
    #[tactic(auto, using(crate::proofs::FewSent::sending_few), unfolding(crate::specs::Step::posting))]
    pub(crate) fn post(
        &mut self,
        now: Millis,
        report: &Report,
        outbox: &mut Outbox,
    ) -> Result<(), SendFault>
        requires clock { MayStep now self.old.link }
        requires room { HasRoomFor 24 outbox.old }
        ensures answer { result ≡ answer_to_send now self.old.link }
        ensures performed { IsPerformed (may_send self.old.link) now (posting now report.now self.old) self.old self.new outbox.old outbox.new }
    {
        let item = sci_telegram::write(&self.telegram(report));
        self.link.send(now, &item, outbox)
    }

    /// What isn't a telegram, isn't the peer's or comes out of the order closes the link.
    #[tactic(auto, using(crate::proofs::FewSent::closing_few), unfolding(crate::specs::Step::violating))]
    pub(crate) fn violate(&mut self, now: Millis, outbox: &mut Outbox)
        requires clock { MayStep now self.old.link }
        requires room { HasRoomFor 24 outbox.old }
        ensures { IsPerformed (may_send self.old.link) now (violating now self.old) self.old self.new outbox.old outbox.new }
    {
        self.link.close(now, Reason::State, outbox);
    }

    /// What it says itself, in the protocol of its object.
    pub(crate) fn say(&self, what: Initialisation) -> Report
        ensures { result ≡ said C.behaviour what }
    {
        Report {
            section: None,
            message: Message::Initialisation(self.object.protocol(), what),
        }
    }
}
