//! The telegrams that begin a connection.

ghost use Rattle.std.specs.Prelude.{◌≡◌, ◌+◌};
ghost use Rattle.rasta_core.specs.Calls.{MayStep};
ghost use Rattle.rasta_core.specs.Outbox.{HasRoomFor};
ghost use Rattle.object_host.specs.Step.{answering, initialising, posting, telling_status};
ghost use Rattle.object_host.specs.inside.Performed.{IsPerformed, may_send};

use crate::controller::Controller;
use crate::host::Host;
use crate::stage::Stage;
use rasta_core::{Millis, Outbox};
use sci_telegram::{Agreement, Initialisation};

/// How many objects a controller has at most.
const MOST_OBJECTS: usize = 16;

impl<C: Controller> Host<C> {
    /// The peer's version is answered. After another version nothing more is taken.
    #[tactic(auto, unfolding(crate::specs::Step::answering))]
    pub(crate) fn answer(&mut self, now: Millis, version: u8, outbox: &mut Outbox)
        requires clock { MayStep now self.old.link }
        requires room { HasRoomFor 24 outbox.old }
        ensures { IsPerformed (may_send self.old.link) now (answering C.behaviour now version self.old) self.old self.new outbox.old outbox.new }
    {
        let (agreement, stage) = if version == self.version {
            (Agreement::Match, Stage::AwaitsRequest)
        } else {
            (Agreement::NoMatch, Stage::Refused)
        };
        let answer = self.say(Initialisation::VersionAnswer {
            agreement,
            version: self.version,
        });
        let _ = self.post(now, &answer, outbox);
        self.stage = stage;
    }

    /// The initial status: the report of each object, in the controller's order.
    #[tactic(auto, using(crate::proofs::OutboxPosts::posting, crate::proofs::UnderWay::items_joined))]
    fn post_status(&mut self, now: Millis, outbox: &mut Outbox)
        requires at { self.old.link.clock ≡ now }
        requires room { HasRoomFor (may_send self.old.link + 24) outbox.old }
        ensures { IsPerformed (may_send self.old.link) now (telling_status C.behaviour now self.old) self.old self.new outbox.old outbox.new }
    {
        for place in 0..MOST_OBJECTS {
            match self.object.status(place) {
                Some(report) => {
                    let _ = self.post(now, &report, outbox);
                }
                None => return,
            }
        }
    }

    /// The initialisation: start, the state of each object, completed.
    #[tactic(auto, using(crate::proofs::OutboxPosts::posting, crate::proofs::UnderWay::items_joined), unfolding(crate::specs::Step::initialising))]
    pub(crate) fn initialise(&mut self, now: Millis, outbox: &mut Outbox)
        requires at { self.old.link.clock ≡ now }
        requires room { HasRoomFor (may_send self.old.link + 24) outbox.old }
        ensures { IsPerformed (may_send self.old.link) now (initialising C.behaviour now self.old) self.old self.new outbox.old outbox.new }
    {
        let start = self.say(Initialisation::StartInitialisation);
        let _ = self.post(now, &start, outbox);
        self.post_status(now, outbox);
        let completed = self.say(Initialisation::InitialisationCompleted);
        let _ = self.post(now, &completed, outbox);
        self.stage = Stage::Completed;
    }
}
