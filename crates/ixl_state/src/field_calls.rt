//! The clock, what is given to the controllers, and what is heard of them: each link's.

ghost use Rattle.std.specs.Prelude.{◌≡◌, ◌↔◌, ◌+◌, ◌<◌, length, slice_get, IfSome, IsTrue};
ghost use Rattle.ixl_spec.specs.rasta_core.Calls.{receiving};
ghost use Rattle.ixl_spec.specs.rasta_core.Outbox.{HasRoomFor};
ghost use Rattle.ixl_spec.specs.StepSoFar.{giving_aspect, giving_move};
ghost use Rattle.ixl_spec.specs.Step.{Tick, all_clocked, known_signal_hearing, known_point_hearing, ticked};
ghost use Rattle.ixl_known.specs.Nodes.{AreHeardBy};
ghost use Rattle.ixl_known.specs.Field.{detector_hearing_alone};
ghost use Rattle.ixl_state.specs.State.{AllAt, Goes, MayStepAll};

use crate::state::State;
use ixl_spec::ixl_client::Indications;
use ixl_spec::{Aspect, Millis, Outbox, Side, Verdict};

impl State {
    /// Whether a step at this clock reading may be made: the clock of no link has fallen.
    pub fn may_step(&self, now: Millis) -> bool
        ensures { IsTrue result ↔ MayStepAll now self.now }
    {
        self.field.may_step(now)
    }

    /// The clock acts on every link.
    pub fn settle(&mut self, now: Millis)
        requires { MayStepAll now self.old }
        ensures state { self.new ≡ record self.old { ixl = all_clocked now self.old.ixl } }
        ensures clock { AllAt now self.new }
    {
        self.field.settle(now);
    }

    /// A tick of every link: signals, points, detectors.
    pub fn tick(&mut self, now: Millis, outbox: &mut Outbox)
        requires clock { AllAt now self.old }
        requires room { HasRoomFor (24 + 160) outbox.old }
        ensures { Goes now 160 (ticked now Tick) self.old outbox.old self.new outbox.new }
    {
        self.table.names_what_is_there();
        self.field.tick(now, outbox);
    }

    /// A signal is given an aspect.
    pub fn give_aspect(&mut self, now: Millis, signal: usize, aspect: Aspect, outbox: &mut Outbox)
        requires clock { AllAt now self.old }
        requires room { HasRoomFor 26 outbox.old }
        ensures { Goes now 2 (giving_aspect now signal aspect) self.old outbox.old self.new outbox.new }
    {
        self.field.give_aspect(now, signal, aspect, outbox);
    }

    /// A point is given a move, which counts for all routes.
    pub fn give_move(&mut self, now: Millis, point: usize, side: Side, outbox: &mut Outbox)
        requires clock { AllAt now self.old }
        requires room { HasRoomFor 26 outbox.old }
        ensures { Goes now 2 (giving_move now point side) self.old outbox.old self.new outbox.new }
    {
        self.table.is_of_its_site();
        self.table.names_what_is_there();
        self.field
            .give_move(now, point, side, self.routes.len(), outbox);
    }

    /// A datagram has come from a signal.
    pub(crate) fn hear_signal(
        &mut self,
        now: Millis,
        place: usize,
        datagram: &[u8],
        outbox: &mut Outbox,
    ) -> Verdict
        requires there { place < length self.old.ixl.known_signals }
        requires clock { AllAt now self.old }
        requires room { HasRoomFor 56 outbox.old }
        ensures goes { Goes now 30 (known_signal_hearing now datagram.now place) self.old outbox.old self.new outbox.new }
        ensures verdict { IfSome (slice_get self.old.ixl.known_signals place) (λ known_signal. result ≡ (receiving now datagram.now known_signal.client.link).verdict) }
    {
        self.field.hear_signal(now, place, datagram, outbox)
    }

    /// A datagram has come from a point.
    pub(crate) fn hear_point(
        &mut self,
        now: Millis,
        place: usize,
        datagram: &[u8],
        outbox: &mut Outbox,
    ) -> Verdict
        requires there { place < length self.old.ixl.known_points }
        requires clock { AllAt now self.old }
        requires room { HasRoomFor 56 outbox.old }
        ensures goes { Goes now 30 (known_point_hearing now datagram.now place) self.old outbox.old self.new outbox.new }
        ensures verdict { IfSome (slice_get self.old.ixl.known_points place) (λ known_point. result ≡ (receiving now datagram.now known_point.client.link).verdict) }
    {
        self.field.hear_point(now, place, datagram, outbox)
    }

    /// A datagram has come from a detector: what it tells of its sections is heard, and not yet looked at.
    pub(crate) fn hear_detector_alone(
        &mut self,
        now: Millis,
        place: usize,
        datagram: &[u8],
        outbox: &mut Outbox,
        heard: &mut Indications,
    ) -> Verdict
        requires there { place < length self.old.ixl.detectors }
        requires clock { AllAt now self.old }
        requires room { HasRoomFor 56 outbox.old }
        ensures goes { Goes now 30 (detector_hearing_alone now datagram.now place) self.old outbox.old self.new outbox.new }
        ensures heard { IfSome (slice_get self.old.ixl.detectors place) (λ detector. AreHeardBy now datagram.now detector outbox.old heard.new.items) }
        ensures verdict { IfSome (slice_get self.old.ixl.detectors place) (λ detector. result ≡ (receiving now datagram.now detector.client.link).verdict) }
    {
        self.field
            .hear_detector(now, place, datagram, outbox, heard)
    }
}
