//! What becomes of a datagram at the node of its sender.

ghost use Rattle.std.specs.Prelude.{◌≡◌, ◌<◌, length, slice_get, IfSome};
ghost use Rattle.ixl_spec.specs.rasta_core.Calls.{receiving};
ghost use Rattle.ixl_spec.specs.rasta_core.Outbox.{HasRoomFor};
ghost use Rattle.ixl_spec.specs.Step.{known_signal_hearing, known_point_hearing};
ghost use Rattle.ixl_known.specs.Nodes.{AreHeardBy};
ghost use Rattle.ixl_known.specs.Field.{AllAt, FieldGoes, Rest, detector_hearing_alone};

use crate::field::Field;
use crate::rows::PointRows;
use ixl_spec::ixl_client::Indications;
use ixl_spec::{Millis, Outbox, Verdict};

impl Field {
    /// A datagram has come from a signal.
    pub fn hear_signal(
        &mut self,
        now: Millis,
        place: usize,
        datagram: &[u8],
        outbox: &mut Outbox,
    ) -> Verdict
        requires there { place < length self.old.known_signals }
        requires clock { AllAt now self.old }
        requires room { HasRoomFor 56 outbox.old }
        ensures goes { (rest : Rest) → FieldGoes now 30 (known_signal_hearing now datagram.now place) rest self.old outbox.old self.new outbox.new }
        ensures verdict { IfSome (slice_get self.old.known_signals place) (λ known_signal. result ≡ (receiving now datagram.now known_signal.client.link).verdict) }
    {
        self.known_signals[place].hear(now, datagram, outbox)
    }

    /// A datagram has come from a point.
    pub fn hear_point(
        &mut self,
        now: Millis,
        place: usize,
        datagram: &[u8],
        outbox: &mut Outbox,
    ) -> Verdict
        requires there { place < length self.old.known_points }
        requires clock { AllAt now self.old }
        requires room { HasRoomFor 56 outbox.old }
        ensures goes { (rest : Rest) → FieldGoes now 30 (known_point_hearing now datagram.now place) rest self.old outbox.old self.new outbox.new }
        ensures verdict { IfSome (slice_get self.old.known_points place) (λ known_point. result ≡ (receiving now datagram.now known_point.client.link).verdict) }
    {
        let verdict = self.known_points[place].hear(now, datagram, outbox);
        self.points = PointRows::of(&self.known_points);
        verdict
    }

    /// A datagram has come from a detector: what it tells of its sections is heard.
    pub fn hear_detector(
        &mut self,
        now: Millis,
        place: usize,
        datagram: &[u8],
        outbox: &mut Outbox,
        heard: &mut Indications,
    ) -> Verdict
        requires there { place < length self.old.detectors }
        requires clock { AllAt now self.old }
        requires room { HasRoomFor 56 outbox.old }
        ensures goes { (rest : Rest) → FieldGoes now 30 (detector_hearing_alone now datagram.now place) rest self.old outbox.old self.new outbox.new }
        ensures heard { IfSome (slice_get self.old.detectors place) (λ detector. AreHeardBy now datagram.now detector outbox.old heard.new.items) }
        ensures verdict { IfSome (slice_get self.old.detectors place) (λ detector. result ≡ (receiving now datagram.now detector.client.link).verdict) }
    {
        let verdict = self.detectors[place].hear(now, datagram, outbox, heard);
        self.sections = self
            .sections
            .renewed(place, &self.detectors[place], &self.reporters);
        verdict
    }
}
