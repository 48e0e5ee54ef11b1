//! The reports that the object owes.

ghost use Rattle.std.specs.Prelude.{◌≡◌, ◌+◌};
ghost use Rattle.rasta_core.specs.Outbox.{HasRoomFor};
ghost use Rattle.object_host.specs.Step.{goes_on, most_owed, paying, paying_first, posting};
ghost use Rattle.object_host.specs.inside.Performed.{IsPerformed, may_send};

use crate::controller::Controller;
use crate::host::Host;
use rasta_core::{Millis, Outbox};

/// How many owed reports a step sends at most: the window of a link.
const MOST_OWED: usize = 20;

impl<C: Controller> Host<C> {
    /// The first owed report is sent, once the initialisation was completed. Before, nothing is owed. Answers whether
    /// there was one that is owed no longer.
    #[tactic(auto, using(crate::proofs::OutboxPosts::posting, crate::proofs::UnderWay::items_joined))]
    fn pay_first(&mut self, now: Millis, outbox: &mut Outbox) -> bool
        requires at { self.old.link.clock ≡ now }
        requires room { HasRoomFor 24 outbox.old }
        ensures performed { IsPerformed (may_send self.old.link) now (paying_first C.behaviour now (C.behaviour.owed self.old.object) self.old) self.old self.new outbox.old outbox.new }
        ensures answer { result ≡ goes_on now (C.behaviour.owed self.old.object) self.old }
    {
        let Some(report) = self.object.owed() else {
            return false;
        };
        if self.stage.is_completed() && self.post(now, &report, outbox).is_err() {
            return false;
        }
        self.object.paid();
        true
    }

    /// The owed reports, as far as the link accepts them.
    #[tactic(auto, using(crate::proofs::OutboxPosts::posting, crate::proofs::UnderWay::items_joined))]
    pub(crate) fn pay(&mut self, now: Millis, outbox: &mut Outbox)
        requires at { self.old.link.clock ≡ now }
        requires room { HasRoomFor (may_send self.old.link + 24) outbox.old }
        ensures { IsPerformed (may_send self.old.link) now (paying C.behaviour now most_owed self.old) self.old self.new outbox.old outbox.new }
    {
        for _round in 0..MOST_OWED {
            if !self.pay_first(now, outbox) {
                return;
            }
        }
    }
}
