//! A client in the course of a step, and what it sends.

ghost use Rattle.std.specs.Prelude.{◌≡◌, ◌≤◌, ◌+◌, List, length};
ghost use Rattle.rasta_core.specs.Calls.{MayStep, answer_to_send};
ghost use Rattle.rasta_core.specs.Outbox.{HasRoomFor};
ghost use Rattle.sci_telegram.specs.Telegrams.{writing};
ghost use Rattle.ixl_client.specs.ClientSoFar.{Closes, Sends, calling};
ghost use Rattle.ixl_client.specs.Step.{fallen, is_refused_by_window, posting, saying, telegram_to};
ghost use Rattle.ixl_client.specs.Way.{Goes};
ghost use Rattle.ixl_client.specs.declared.indication.Indication.{Indication};

use crate::peer::Peer;
use crate::stage::Stage;
use rasta_core::{Link, Millis, Outbox, Reason, SendFault};
use sci_telegram::{Initialisation, Message};
use std::marker::Model;

/// The link to a controller, the stage of its connection, and whom it is with.
#[derive(Debug, Drop)]
pub(crate) struct End {
    pub(crate) link: Link,
    pub(crate) stage: Stage,
    pub(crate) peer: Peer,
}

impl Model for End {
    ghost use Rattle.ixl_client.specs.Client.{ClientState};

    ghost Value = { ClientState };

    ghost view = { λ e. record { link = e.link; stage = e.stage; peer = e.peer } };
}

fn is_refused_by_window(answer: Result<(), SendFault>) -> bool
    ensures { result ≡ is_refused_by_window answer }
{
    matches!(answer, Err(SendFault::WindowFull))
}

impl End {
    /// Where the link isn't up, the client is outside.
    #[tactic(auto, unfolding(crate::specs::Step::fallen))]
    pub(crate) fn fall(&mut self)
        ensures { self.new ≡ fallen self.old }
    {
        if !self.link.is_up_now() {
            self.stage = Stage::Outside;
        }
    }

    /// The connection has come so far.
    pub(crate) fn come_to(&mut self, stage: Stage)
        ensures { self.new ≡ record self.old { stage = stage } }
    {
        self.stage = stage;
    }

    /// The link closes for this reason.
    pub(crate) fn close(&mut self, now: Millis, why: Reason, outbox: &mut Outbox)
        requires clock { MayStep now self.old.link }
        requires room { HasRoomFor 24 outbox.old }
        ensures { (heard : List Indication) → Goes now 1 (calling now (Closes why)) (record { client = self.old; outbox = outbox.old; heard = heard }) (record { client = self.new; outbox = outbox.new; heard = heard }) }
    {
        self.link.close(now, why, outbox);
    }

    /// A telegram is sent to the controller, where the link accepts it.
    fn send(&mut self, now: Millis, message: Message, outbox: &mut Outbox) -> Result<(), SendFault>
        requires clock { MayStep now self.old.link }
        requires room { HasRoomFor 24 outbox.old }
        ensures goes { (heard : List Indication) → Goes now 1 (calling now (Sends (writing (telegram_to self.old.peer message)))) (record { client = self.old; outbox = outbox.old; heard = heard }) (record { client = self.new; outbox = outbox.new; heard = heard }) }
        ensures answer { result ≡ answer_to_send now self.old.link }
    {
        let item = sci_telegram::write(&self.peer.telegram(message));
        self.link.send(now, &item, outbox)
    }

    /// A telegram goes to the controller. Where the window refuses it, the link closes.
    pub(crate) fn post(&mut self, now: Millis, message: Message, outbox: &mut Outbox)
        requires clock { MayStep now self.old.link }
        requires room { HasRoomFor 26 outbox.old }
        ensures { (heard : List Indication) → Goes now 2 (posting now message) (record { client = self.old; outbox = outbox.old; heard = heard }) (record { client = self.new; outbox = outbox.new; heard = heard }) }
    {
        if is_refused_by_window(self.send(now, message, outbox)) {
            self.close(now, Reason::Window, outbox);
        }
    }

    /// A telegram of the initialisation goes to the controller.
    pub(crate) fn say(&mut self, now: Millis, initialisation: Initialisation, outbox: &mut Outbox)
        requires clock { MayStep now self.old.link }
        requires room { HasRoomFor 26 outbox.old }
        ensures { (heard : List Indication) → Goes now 2 (saying now initialisation) (record { client = self.old; outbox = outbox.old; heard = heard }) (record { client = self.new; outbox = outbox.new; heard = heard }) }
    {
        let message = self.peer.message(initialisation);
        self.post(now, message, outbox);
    }
}
