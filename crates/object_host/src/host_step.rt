//! A step of a host, in its order.

ghost use Rattle.std.specs.Prelude.{◌≡◌, ◌+◌, true};
ghost use Rattle.rasta_core.specs.Calls.{MayStep, IsAt};
ghost use Rattle.rasta_core.specs.Outbox.{HasRoomFor};
ghost use Rattle.rasta_core.specs.Calls.{receiving};
ghost use Rattle.rasta_core.specs.Clock.{settled};
ghost use Rattle.rasta_core.specs.PdusHandedOut.{entered};
ghost use Rattle.rasta_core.specs.Verdicts.{is_refusal, refused};
ghost use Rattle.object_host.specs.Host.{fallen, risen};
ghost use Rattle.object_host.specs.Hosted.{most_in_step};
ghost use Rattle.object_host.specs.Refused.{RefusesRightly};
ghost use Rattle.object_host.specs.Step.{beating, beginning, ending, given, hearing, host_step, posting};
ghost use Rattle.object_host.specs.inside.Performed.{IsPerformed, before_tick, by_tick, may_send};
ghost use Rattle.sci_telegram.specs.TelegramRead.{reading};

use crate::controller::Controller;
use crate::host::Host;
use crate::input::Input;
use crate::stage::Stage;
use rasta_core::{Inbox, Millis, Outbox};

impl<C: Controller> Host<C> {
    /// A connection that has opened begins with the version check.
    #[tactic(auto, unfolding(crate::specs::Host::risen))]
    fn rise(&mut self)
        ensures host { self.new ≡ risen self.old }
        ensures link { self.new.link ≡ self.old.link }
    {
        if self.stage.is_outside() && self.link.is_open() {
            self.stage = Stage::AwaitsCheck;
        }
    }

    /// Where the link has closed, the object is told of the loss.
    #[tactic(auto, unfolding(crate::specs::Host::fallen))]
    fn fall(&mut self)
        ensures host { self.new ≡ fallen C.behaviour self.old }
        ensures link { self.new.link ≡ self.old.link }
    {
        if !self.stage.is_outside() && !self.link.is_open() {
            self.stage = Stage::Outside;
            self.object.lost();
        }
    }

    /// A datagram has come.
    #[tactic(auto, using(crate::proofs::OutboxPosts::posting, crate::proofs::UnderWay::items_joined, crate::proofs::FewSent::receiving_few), unfolding(crate::specs::Step::hearing, crate::specs::Step::received))]
    fn hear(&mut self, now: Millis, datagram: &[u8], outbox: &mut Outbox)
        requires at { self.old.link.clock ≡ now }
        requires room { HasRoomFor 47 outbox.old }
        ensures performed { IsPerformed most_in_step now (hearing C.behaviour now datagram.now self.old) self.old self.new outbox.old outbox.new }
        ensures rightly { is_refusal (receiving now datagram.now self.old.link).verdict ≡ true → receiving now datagram.now self.old.link ≡ refused (receiving now datagram.now self.old.link).verdict (entered now self.old.link) }
    {
        let mut inbox = Inbox::new();
        self.link.receive(now, datagram, outbox, &mut inbox);
        self.rise();
        self.act_all(now, inbox.as_slice(), outbox);
    }

    /// How a step begins: the clock rules of the link, a loss that they bring, and the object's tick.
    #[tactic(auto, unfolding(crate::specs::Step::beginning))]
    fn begin(&mut self, now: Millis)
        requires { MayStep now self.old.link }
        ensures host { self.new ≡ beginning C.behaviour now self.old }
        ensures kept { IsAt now self.old.link (beginning C.behaviour now self.old).link }
    {
        self.link.settle(now);
        self.fall();
        self.object.tick(now);
    }

    /// What the step is made for.
    #[tactic(auto, using(crate::proofs::OutboxPosts::posting, crate::proofs::UnderWay::items_joined, crate::proofs::FewSent::at_most_a_window), unfolding(crate::specs::Step::given))]
    fn give(&mut self, now: Millis, input: &Input, outbox: &mut Outbox)
        requires at { self.old.link.clock ≡ now }
        requires room { HasRoomFor 47 outbox.old }
        ensures performed { IsPerformed (before_tick input.now) now (given C.behaviour now input.now self.old) self.old self.new outbox.old outbox.new }
        ensures rightly { RefusesRightly now input.now self.old.link }
    {
        match input {
            Input::Tick => {}
            Input::Datagram(datagram) => self.hear(now, datagram, outbox),
            Input::Sense(sense) => self.object.sense(now, *sense),
        }
    }

    /// A tick is the link's too.
    #[tactic(auto, using(crate::proofs::OutboxPosts::posting, crate::proofs::UnderWay::items_joined, crate::proofs::FewSent::ticking_few), unfolding(crate::specs::Step::beating))]
    fn beat(&mut self, now: Millis, input: &Input, outbox: &mut Outbox)
        requires at { self.old.link.clock ≡ now }
        requires room { HasRoomFor 24 outbox.old }
        ensures { IsPerformed (may_send self.old.link + by_tick input.now) now (beating now input.now self.old) self.old self.new outbox.old outbox.new }
    {
        if matches!(input, Input::Tick) {
            self.link.tick(now, outbox);
        }
    }

    /// How a step ends: a loss in the step itself, and the moment at which the link dies.
    #[tactic(auto, unfolding(crate::specs::Host::keeping))]
    fn end(&mut self)
        ensures host { self.new ≡ ending C.behaviour self.old }
        ensures link { self.new.link ≡ self.old.link }
    {
        self.fall();
        self.object.keep(self.link.alive_until());
    }

    /// A step at a clock reading that hasn't fallen, with an empty outbox.
    #[tactic(auto, using(crate::proofs::OutboxPosts::posting, crate::proofs::UnderWay::items_joined), unfolding(crate::specs::Step::host_step))]
    pub(crate) fn step(&mut self, now: Millis, input: &Input, outbox: &mut Outbox)
        requires clock { MayStep now self.old.link }
        requires room { HasRoomFor 47 outbox.old }
        ensures performed { IsPerformed most_in_step now (host_step C.behaviour now input.now self.old) self.old self.new outbox.old outbox.new }
        ensures rightly { RefusesRightly now input.now (settled now self.old.link) }
    {
        self.begin(now);
        self.give(now, input, outbox);
        self.pay(now, outbox);
        self.beat(now, input, outbox);
        self.end();
    }
}
