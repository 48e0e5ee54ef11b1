//! What is known of the objects of the field.

ghost use Rattle.std.specs.Prelude.{◌≡◌, ◌<◌, ℕ, length, slice_get, IfSome, Some};
ghost use Rattle.std.specs.FinSet.{contains};
ghost use Rattle.std.specs.List.{position};
ghost use Rattle.std.specs.Option.{option_map};
ghost use Rattle.ixl_spec.specs.State.{KnownDetectorState as DetectorAt, KnownSignalState as KnownSignalAt, KnownPointState as KnownPointAt};
ghost use Rattle.ixl_spec.specs.Step.{client_at, node_of, partner_at};
ghost use Rattle.ixl_spec.specs.sci_telegram.declared.message.Side.TheVariants as side;
ghost use Rattle.ixl_spec.specs.ixl_client.Client.{is_ready};
ghost use Rattle.ixl_spec.specs.View.{indicated, is_at_known_stop, is_clear, is_detector_up, is_known, is_occupied, is_point_available, is_point_ready, is_point_up, is_signal_ready, is_signal_up};
ghost use Rattle.ixl_spec.specs.Rules.{is_unmoved};
ghost use Rattle.ixl_spec.specs.Table.{Table};
ghost use Rattle.ixl_known.specs.Field.{IsThere, Rest, kept, node_at};

use crate::field::Field;
use crate::node::Node;
use ixl_spec::ixl_client::Client;
use ixl_spec::{Aspect, BitRow, Millis, Side};

/// Whether a client's controller has this identity.
fn is_partner(client: &Client, id: u32) -> bool
    ensures { result ≡ partner_at id client.now }
{
    client.link().identity().partner == id
}

impl Field {
    /// Whether the detector of a section is ready, and last told it as clear.
    pub fn is_clear(&self, section: usize) -> bool
        ensures { (table : Table) (rest : Rest) → table.reporters ≡ self.now.reporters → result ≡ is_clear table (kept self.now rest) section }
    {
        self.sections.clear.contains(section)
    }

    /// Whether the detector of a section is ready, and last told it as occupied.
    pub fn is_occupied(&self, section: usize) -> bool
        ensures { (table : Table) (rest : Rest) → table.reporters ≡ self.now.reporters → result ≡ is_occupied table (kept self.now rest) section }
    {
        self.sections.occupied.contains(section)
    }

    /// The sections that are clear.
    pub fn clear(&self) -> BitRow
        ensures { (table : Table) (rest : Rest) → table.reporters ≡ self.now.reporters → (section : ℕ) → contains result section ≡ is_clear table (kept self.now rest) section }
    {
        self.sections.clear
    }

    /// Whether a point's link is ready, and every move given in the present connection is answered.
    pub fn is_point_available(&self, point: usize) -> bool
        ensures { (rest : Rest) → result ≡ is_point_available (kept self.now rest) point }
    {
        self.points.available.contains(point)
    }

    /// Whether the initialisation of a point was completed in its present connection.
    pub fn is_point_ready(&self, point: usize) -> bool
        ensures { (rest : Rest) → result ≡ is_point_ready (kept self.now rest) point }
    {
        point < self.known_points.len() && self.known_points[point].is_ready()
    }

    /// Whether a point's link is up, as of the last step.
    pub fn is_point_up(&self, point: usize) -> bool
        ensures { (rest : Rest) → result ≡ is_point_up (kept self.now rest) point }
    {
        point < self.known_points.len() && self.known_points[point].is_up()
    }

    /// Whether a point is available, and its last report in the present connection told this side.
    pub fn is_known(&self, point: usize, side: Side) -> bool
        ensures { (rest : Rest) → result ≡ is_known (kept self.now rest) point side }
    {
        match side {
            Side::Right => self.points.right.contains(point),
            Side::Left => self.points.left.contains(point),
        }
    }

    /// The points that are known right.
    pub fn known_right(&self) -> BitRow
        ensures { (rest : Rest) (point : ℕ) → contains result point ≡ is_known (kept self.now rest) point side.Right }
    {
        self.points.right
    }

    /// The points that are known left.
    pub fn known_left(&self) -> BitRow
        ensures { (rest : Rest) (point : ℕ) → contains result point ≡ is_known (kept self.now rest) point side.Left }
    {
        self.points.left
    }

    /// Whether no move was given to a point in its present connection since a route was set.
    pub fn is_unmoved(&self, point: usize, route: usize) -> bool
        ensures { (rest : Rest) → result ≡ is_unmoved (kept self.now rest) point route }
    {
        point < self.known_points.len() && !self.known_points[point].is_moved_for(route)
    }

    /// Whether the initialisation of a signal was completed in its present connection.
    pub fn is_signal_ready(&self, signal: usize) -> bool
        ensures { (rest : Rest) → result ≡ is_signal_ready (kept self.now rest) signal }
    {
        signal < self.known_signals.len() && self.known_signals[signal].is_ready()
    }

    /// Whether a signal's link is up, as of the last step.
    pub fn is_signal_up(&self, signal: usize) -> bool
        ensures { (rest : Rest) → result ≡ is_signal_up (kept self.now rest) signal }
    {
        signal < self.known_signals.len() && self.known_signals[signal].is_up()
    }

    /// Whether a signal is at known stop.
    pub fn is_at_known_stop(&self, now: Millis, signal: usize) -> bool
        ensures { (rest : Rest) → result ≡ is_at_known_stop now (kept self.now rest) signal }
    {
        signal < self.known_signals.len() && self.known_signals[signal].is_at_stop(now)
    }

    /// The aspect that a signal's controller last indicated in the present connection.
    pub fn indicated(&self, signal: usize) -> Option<Aspect>
        ensures { (rest : Rest) → result ≡ indicated (kept self.now rest) signal }
    {
        if signal < self.known_signals.len() {
            self.known_signals[signal].indicated()
        } else {
            None
        }
    }

    /// How many signals there are.
    pub fn signals(&self) -> usize
        ensures { result ≡ length self.now.known_signals }
    {
        self.known_signals.len()
    }

    /// How many points there are.
    pub fn points(&self) -> usize
        ensures { result ≡ length self.now.known_points }
    {
        self.known_points.len()
    }

    /// How many detectors there are.
    pub fn detectors(&self) -> usize
        ensures { result ≡ length self.now.detectors }
    {
        self.detectors.len()
    }

    /// Whether a detector is ready.
    pub fn is_detector_ready(&self, place: usize) -> bool
        requires { place < length self.now.detectors }
        ensures { IfSome (slice_get self.now.detectors place) (λ detector. result ≡ is_ready detector.client.stage) }
    {
        self.detectors[place].is_ready()
    }

    /// Whether a detector's link is up, as of the last step.
    pub fn is_detector_up(&self, place: usize) -> bool
        ensures { (rest : Rest) → result ≡ is_detector_up (kept self.now rest) place }
    {
        place < self.detectors.len() && self.detectors[place].is_up()
    }

    /// The sections that a detector last told as occupied, by their places in its order.
    pub fn occupied_at(&self, place: usize) -> BitRow
        requires { place < length self.now.detectors }
        ensures { IfSome (slice_get self.now.detectors place) (λ detector. result ≡ detector.occupied) }
    {
        self.detectors[place].occupied()
    }

    /// The client of a controller.
    pub fn client_at(&self, node: Node) -> &Client
        requires { IsThere self.now node }
        ensures { (rest : Rest) → client_at (node_at node) (kept self.now rest) ≡ Some result.now }
    {
        match node {
            Node::Signal(place) => self.known_signals[place].client(),
            Node::Point(place) => self.known_points[place].client(),
            Node::Detector(place) => self.detectors[place].client(),
        }
    }

    /// The signal whose controller has this identity.
    fn signal_of(&self, id: u32) -> Option<usize>
        ensures { result ≡ position (λ (known_signal : KnownSignalAt). partner_at id known_signal.client) self.now.known_signals }
    {
        self.known_signals
            .iter()
            .position(|known_signal| is_partner(known_signal.client(), id))
    }

    /// The point whose controller has this identity.
    fn point_of(&self, id: u32) -> Option<usize>
        ensures { result ≡ position (λ (known_point : KnownPointAt). partner_at id known_point.client) self.now.known_points }
    {
        self.known_points
            .iter()
            .position(|known_point| is_partner(known_point.client(), id))
    }

    /// The detector whose controller has this identity.
    fn detector_of(&self, id: u32) -> Option<usize>
        ensures { result ≡ position (λ (detector : DetectorAt). partner_at id detector.client) self.now.detectors }
    {
        self.detectors
            .iter()
            .position(|detector| is_partner(detector.client(), id))
    }

    /// The controller with this identity: the first of the signals, else of the points, else of the detectors.
    pub fn node_of(&self, id: u32) -> Option<Node>
        ensures node { (rest : Rest) → option_map node_at result ≡ node_of id (kept self.now rest) }
        ensures there { IfSome result (IsThere self.now) }
    {
        if let Some(place) = self.signal_of(id) {
            return Some(Node::Signal(place));
        }
        if let Some(place) = self.point_of(id) {
            return Some(Node::Point(place));
        }
        if let Some(place) = self.detector_of(id) {
            return Some(Node::Detector(place));
        }
        None
    }
}
