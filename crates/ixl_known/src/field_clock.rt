//! The clock and ticks, which are each link's. The rows of what is known are made anew only where something of it changed:
//! in most steps nothing has.

ghost use Rattle.std.specs.Prelude.{◌≡◌, ◌↔◌, ◌+◌, ◌*◌, ◌≤◌, ℕ, length, map, IsTrue};
ghost use Rattle.std.specs.List.{All};
ghost use Rattle.ixl_spec.specs.rasta_core.Calls.{MayStep};
ghost use Rattle.ixl_spec.specs.rasta_core.Outbox.{HasRoomFor};
ghost use Rattle.ixl_spec.specs.State.{KnownDetectorState as DetectorAt, KnownSignalState as KnownSignalAt, KnownPointState as KnownPointAt};
ghost use Rattle.ixl_spec.specs.Step.{Tick, clocked_detector, clocked_known_signal, clocked_known_point, detector_ticking, known_signal_ticking, known_point_ticking, ticked};
ghost use Rattle.ixl_known.specs.Field.{AllAt, FieldGoes, MayStepAll, Rest, field_clocked};
ghost use Rattle.ixl_known.specs.Nodes.{DetectorGoes, KnownPointGoes, detector_ticked, known_point_ticked};
ghost use Rattle.ixl_known.specs.inside.Alike.{AreKnownAlike, IsKnownAlike, TellTheSame, TellsTheSame};
ghost use Rattle.ixl_known.specs.inside.Turns.{DetectorsTurned, KnownSignalsTurned, KnownPointsTurned};

use crate::field::Field;
use crate::{KnownDetector, KnownPoint, KnownSignal};
use ixl_spec::{Millis, Outbox};

/// The clock acts on all signals.
fn settle_known_signals(known_signals: &mut [KnownSignal], now: Millis)
    requires { All (λ (known_signal : KnownSignalAt). MayStep now known_signal.client.link) known_signals.old }
    ensures { known_signals.new ≡ map (clocked_known_signal now) known_signals.old }
{
    for known_signal in known_signals.iter_mut() {
        known_signal.settle(now);
    }
}

/// The clock acts on a point. Answers whether it is as available as before; its side is then known as before, since the
/// clock forgets it only where the link goes down.
fn settle_known_point(known_point: &mut KnownPoint, now: Millis) -> bool
    requires { MayStep now known_point.old.client.link }
    ensures known_point { known_point.new ≡ clocked_known_point now known_point.old }
    ensures alike { IsTrue result → IsKnownAlike known_point.old known_point.new }
{
    let was_available = known_point.is_available();
    known_point.settle(now);
    known_point.is_available() == was_available
}

/// The clock acts on all points. Answers whether all are known as before.
fn settle_known_points(known_points: &mut [KnownPoint], now: Millis) -> bool
    requires { All (λ (known_point : KnownPointAt). MayStep now known_point.client.link) known_points.old }
    ensures known_points { known_points.new ≡ map (clocked_known_point now) known_points.old }
    ensures alike { IsTrue result → AreKnownAlike known_points.old known_points.new }
{
    let mut alike = true;
    for known_point in known_points.iter_mut() {
        alike = settle_known_point(known_point, now) && alike;
    }
    alike
}

/// The clock acts on a detector. Answers whether it is as ready as before; it then tells the same, since the clock forgets
/// what it told only where the link goes down.
fn settle_detector(detector: &mut KnownDetector, now: Millis) -> bool
    requires { MayStep now detector.old.client.link }
    ensures detector { detector.new ≡ clocked_detector now detector.old }
    ensures alike { IsTrue result → TellsTheSame detector.old detector.new }
{
    let was_ready = detector.is_ready();
    detector.settle(now);
    detector.is_ready() == was_ready
}

/// The clock acts on all detectors. Answers whether all tell the same as before.
fn settle_detectors(detectors: &mut [KnownDetector], now: Millis) -> bool
    requires { All (λ (detector : DetectorAt). MayStep now detector.client.link) detectors.old }
    ensures detectors { detectors.new ≡ map (clocked_detector now) detectors.old }
    ensures alike { IsTrue result → TellTheSame detectors.old detectors.new }
{
    let mut alike = true;
    for detector in detectors.iter_mut() {
        alike = settle_detector(detector, now) && alike;
    }
    alike
}

/// A tick of all signals.
fn tick_known_signals(known_signals: &mut [KnownSignal], now: Millis, outbox: &mut Outbox)
    requires clock { All (λ (known_signal : KnownSignalAt). known_signal.client.link.clock ≡ now) known_signals.old }
    requires room { HasRoomFor (24 + 2 * length known_signals.old) outbox.old }
    ensures { KnownSignalsTurned now 2 (known_signal_ticking now) (length known_signals.old) known_signals.old outbox.old known_signals.new outbox.new }
{
    for signal in 0..known_signals.len() {
        known_signals[signal].tick(now, outbox);
    }
}

/// A tick of a point. Answers whether it is as available as before; its side is then known as before, as when the clock
/// acts.
fn tick_known_point(known_point: &mut KnownPoint, now: Millis, outbox: &mut Outbox) -> bool
    requires clock { known_point.old.client.link.clock ≡ now }
    requires room { HasRoomFor 26 outbox.old }
    ensures goes { KnownPointGoes now 2 (known_point_ticked now) known_point.old outbox.old known_point.new outbox.new }
    ensures alike { IsTrue result → IsKnownAlike known_point.old known_point.new }
{
    let was_available = known_point.is_available();
    known_point.tick(now, outbox);
    known_point.is_available() == was_available
}

/// A tick of all points. Answers whether all are known as before.
fn tick_known_points(known_points: &mut [KnownPoint], now: Millis, outbox: &mut Outbox) -> bool
    requires clock { All (λ (known_point : KnownPointAt). known_point.client.link.clock ≡ now) known_points.old }
    requires room { HasRoomFor (24 + 2 * length known_points.old) outbox.old }
    ensures turned { KnownPointsTurned now 2 (known_point_ticking now) (length known_points.old) known_points.old outbox.old known_points.new outbox.new }
    ensures alike { IsTrue result → AreKnownAlike known_points.old known_points.new }
{
    let mut alike = true;
    for point in 0..known_points.len() {
        alike = tick_known_point(&mut known_points[point], now, outbox) && alike;
    }
    alike
}

/// A tick of a detector. Answers whether it is as ready as before; it then tells the same, as when the clock acts.
fn tick_detector(detector: &mut KnownDetector, now: Millis, outbox: &mut Outbox) -> bool
    requires clock { detector.old.client.link.clock ≡ now }
    requires room { HasRoomFor 26 outbox.old }
    ensures goes { DetectorGoes now 2 (detector_ticked now) detector.old outbox.old detector.new outbox.new }
    ensures alike { IsTrue result → TellsTheSame detector.old detector.new }
{
    let was_ready = detector.is_ready();
    detector.tick(now, outbox);
    detector.is_ready() == was_ready
}

/// A tick of all detectors. Answers whether all tell the same as before.
fn tick_detectors(detectors: &mut [KnownDetector], now: Millis, outbox: &mut Outbox) -> bool
    requires clock { All (λ (detector : DetectorAt). detector.client.link.clock ≡ now) detectors.old }
    requires room { HasRoomFor (24 + 2 * length detectors.old) outbox.old }
    ensures turned { DetectorsTurned now 2 (detector_ticking now) (length detectors.old) detectors.old outbox.old detectors.new outbox.new }
    ensures alike { IsTrue result → TellTheSame detectors.old detectors.new }
{
    let mut alike = true;
    for place in 0..detectors.len() {
        alike = tick_detector(&mut detectors[place], now, outbox) && alike;
    }
    alike
}

impl Field {
    /// Whether a step at this clock reading may be made: the clock of no link has fallen.
    pub fn may_step(&self, now: Millis) -> bool
        ensures { IsTrue result ↔ MayStepAll now self.now }
    {
        self.known_signals
            .iter()
            .all(|known_signal| known_signal.client().may_step(now))
            && self
                .known_points
                .iter()
                .all(|known_point| known_point.client().may_step(now))
            && self
                .detectors
                .iter()
                .all(|detector| detector.client().may_step(now))
    }

    /// The clock acts on every link.
    pub fn settle(&mut self, now: Millis)
        requires { MayStepAll now self.old }
        ensures field { self.new ≡ field_clocked now self.old }
        ensures clock { AllAt now self.new }
    {
        settle_known_signals(&mut self.known_signals, now);
        let known_alike = settle_known_points(&mut self.known_points, now);
        let told_alike = settle_detectors(&mut self.detectors, now);
        self.sections = self
            .sections
            .kept_or_made(told_alike, &self.reporters, &self.detectors);
        self.points = self.points.kept_or_made(known_alike, &self.known_points);
    }

    /// A tick of every link, in the order of the nodes: signals, points, detectors.
    pub fn tick(&mut self, now: Millis, outbox: &mut Outbox)
        requires clock { AllAt now self.old }
        requires room { HasRoomFor (24 + 2 * (length self.old.known_signals + length self.old.known_points + length self.old.detectors)) outbox.old }
        ensures { (rest : Rest) → FieldGoes now (2 * (length self.old.known_signals + length self.old.known_points + length self.old.detectors)) (ticked now Tick) rest self.old outbox.old self.new outbox.new }
    {
        tick_known_signals(&mut self.known_signals, now, outbox);
        let known_alike = tick_known_points(&mut self.known_points, now, outbox);
        let told_alike = tick_detectors(&mut self.detectors, now, outbox);
        self.sections = self
            .sections
            .kept_or_made(told_alike, &self.reporters, &self.detectors);
        self.points = self.points.kept_or_made(known_alike, &self.known_points);
    }
}
