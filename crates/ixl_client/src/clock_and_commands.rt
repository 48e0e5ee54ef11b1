//! The clock, and what a command and a tick do one after another.

ghost use Rattle.std.specs.Prelude.{◌≡◌, List};
ghost use Rattle.rasta_core.specs.Calls.{MayStep, IsAt};
ghost use Rattle.rasta_core.specs.Outbox.{HasRoomFor};
ghost use Rattle.ixl_client.specs.ClientSoFar.{Opens, Ticks, calling};
ghost use Rattle.ixl_client.specs.Step.{clocked, stage_after_command};
ghost use Rattle.ixl_client.specs.Way.{Goes};
ghost use Rattle.ixl_client.specs.declared.indication.Indication.{Indication};

use crate::command::Command;
use crate::end::End;
use crate::stage::Stage;
use rasta_core::{Millis, Outbox};

impl End {
    /// The clock acts.
    #[tactic(auto, unfolding(crate::specs::Step::clocked, crate::specs::Step::fallen))]
    pub(crate) fn settle(&mut self, now: Millis)
        requires { MayStep now self.old.link }
        ensures client { self.new ≡ clocked now self.old }
        ensures kept { IsAt now self.old.link self.new.link }
    {
        self.link.settle(now);
        self.fall();
    }

    /// How far the connection has come once a command was sent.
    pub(crate) fn stage_after_command(&self, command: Command) -> Stage
        ensures { result ≡ stage_after_command command self.now.stage }
    {
        match (command, self.stage) {
            (Command::Move(_), Stage::Completed) => Stage::AwaitsReport,
            (_, stage) => stage,
        }
    }

    /// The heartbeat that is due.
    pub(crate) fn beat(&mut self, now: Millis, outbox: &mut Outbox)
        requires clock { MayStep now self.old.link }
        requires room { HasRoomFor 24 outbox.old }
        ensures { (heard : List Indication) → Goes now 1 (calling now Ticks) (record { client = self.old; outbox = outbox.old; heard = heard }) (record { client = self.new; outbox = outbox.new; heard = heard }) }
    {
        self.link.tick(now, outbox);
    }

    /// A link that is down is opened.
    pub(crate) fn open(&mut self, now: Millis, outbox: &mut Outbox)
        requires clock { MayStep now self.old.link }
        requires room { HasRoomFor 24 outbox.old }
        ensures { (heard : List Indication) → Goes now 1 (calling now Opens) (record { client = self.old; outbox = outbox.old; heard = heard }) (record { client = self.new; outbox = outbox.new; heard = heard }) }
    {
        let _ = self.link.open(now, outbox);
    }
}
