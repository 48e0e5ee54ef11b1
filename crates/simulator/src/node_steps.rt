//! Steps of nodes.

ghost use Rattle.std.specs.Prelude.{◌≡◌, ◌≤◌, ◌<◌, length, slice_get, slice_set};
ghost use Rattle.ixl.specs.Interlocking.{meant, told};
ghost use Rattle.ixl_state.specs.ixl_spec.Step.{Commands};
ghost use Rattle.simulator_spec.specs.object_host.declared.input.Input.TheVariants as inputs;
ghost use Rattle.simulator_spec.specs.object_host.declared.sense.Sense.TheVariants as sense;
ghost use Rattle.simulator_spec.specs.Happens.{answered_by, delivered_to, detector_stepped, interlocking_stepped, point_stepped, sensed_by, signal_stepped, ticked_at};
ghost use Rattle.simulator_spec.specs.Nodes.{node_at};
ghost use Rattle.simulator_spec.specs.State.{WorldState};
ghost use Rattle.simulator_spec.specs.Interlocking.{interlocking_reply};
ghost use Rattle.simulator.specs.inside.Parts.{Goes, IsWhole, site_of, room_of, table_of};

use crate::parts::Parts;
use ixl::{Command, Input as InterlockingInput, Reply as InterlockingReply};
use simulator_spec::object_host::{Input, Sense};
use simulator_spec::{
    Answer, DetectorId, Node, NodeId, Occupancy, PointId, Position, SectionId, SignalId,
};

/// What the interlocking answers.
fn answered_by(reply: InterlockingReply) -> Answer
    ensures { result ≡ answered_by (told reply) }
{
    match reply {
        InterlockingReply::Refused(refusal) => Answer::Refused(refusal),
        _ => Answer::Accepted,
    }
}

impl Parts {
    /// The interlocking makes a step.
    fn step_interlocking(&mut self, input: InterlockingInput<'_>) -> InterlockingReply
        requires whole { IsWhole self.old }
        requires room { 5120 ≤ room_of self.old }
        ensures goes { Goes (interlocking_stepped (site_of self.old) (table_of self.old) (meant input.entry)) self.old self.new }
        ensures answer { told result ≡ interlocking_reply (site_of self.old) (table_of self.old) (meant input.entry) self.old.interlocking.interlocking }
    {
        self.interlocking.step(input, &mut self.field.network)
    }

    /// A signal makes a step.
    fn step_signal(&mut self, signal: SignalId, input: Input<'_>, connection: usize)
        requires whole { IsWhole self.old }
        requires room { 5120 ≤ room_of self.old }
        requires there { signal.0 < length self.old.field.signals.items }
        ensures { Goes (signal_stepped (site_of self.old) input.entry connection signal.0) self.old self.new }
    {
        self.field.step_signal(signal.0, input, connection);
    }

    /// A point makes a step.
    fn step_point(&mut self, point: PointId, input: Input<'_>, connection: usize)
        requires whole { IsWhole self.old }
        requires room { 5120 ≤ room_of self.old }
        requires there { point.0 < length self.old.field.points.items }
        ensures { Goes (point_stepped (site_of self.old) input.entry connection point.0) self.old self.new }
    {
        let link = self.layout().node_id(Node::Point(point)).0 - 1;
        self.field.step_point(point.0, link, input, connection);
    }

    /// A detector makes a step.
    fn step_detector(&mut self, detector: DetectorId, input: Input<'_>, connection: usize)
        requires whole { IsWhole self.old }
        requires room { 5120 ≤ room_of self.old }
        requires there { detector.0 < length self.old.field.detectors.items }
        ensures { Goes (detector_stepped (site_of self.old) input.entry connection detector.0) self.old self.new }
    {
        let link = self.layout().node_id(Node::Detector(detector)).0 - 1;
        self.field
            .step_detector(detector.0, link, input, connection);
    }

    /// The interlocking is commanded.
    pub(crate) fn request(&mut self, command: Command) -> Answer
        requires whole { IsWhole self.old }
        requires room { 5120 ≤ room_of self.old }
        ensures goes { Goes (interlocking_stepped (site_of self.old) (table_of self.old) (Commands command)) self.old self.new }
        ensures answer { result ≡ answered_by (interlocking_reply (site_of self.old) (table_of self.old) (Commands command) self.old.interlocking.interlocking) }
    {
        answered_by(self.step_interlocking(InterlockingInput::Command(command)))
    }

    /// A node is called by its timer.
    pub(crate) fn tick(&mut self, node: NodeId)
        requires whole { IsWhole self.old }
        requires room { 5120 ≤ room_of self.old }
        ensures { Goes (ticked_at (site_of self.old) (table_of self.old) (node_at (site_of self.old) node.0)) self.old self.new }
    {
        match self.layout().node(node) {
            Some(Node::Interlocking) => {
                self.step_interlocking(InterlockingInput::Tick);
            }
            Some(Node::Signal(signal)) => self.step_signal(signal, Input::Tick, 0),
            Some(Node::Point(point)) => self.step_point(point, Input::Tick, 0),
            Some(Node::Detector(detector)) => self.step_detector(detector, Input::Tick, 0),
            None => {}
        }
    }

    /// Bytes come to a node, which were sent in this connection.
    pub(crate) fn deliver_in(&mut self, node: NodeId, bytes: &[u8], connection: usize)
        requires whole { IsWhole self.old }
        requires room { 5120 ≤ room_of self.old }
        ensures { Goes (delivered_to (site_of self.old) (table_of self.old) bytes.now connection (node_at (site_of self.old) node.0)) self.old self.new }
    {
        let input = Input::Datagram(bytes);
        match self.layout().node(node) {
            Some(Node::Interlocking) => {
                self.step_interlocking(InterlockingInput::Datagram(bytes));
            }
            Some(Node::Signal(signal)) => self.step_signal(signal, input, connection),
            Some(Node::Point(point)) => self.step_point(point, input, connection),
            Some(Node::Detector(detector)) => self.step_detector(detector, input, connection),
            None => {}
        }
    }

    /// A section is occupied or cleared, and the detector that reports it is told.
    pub(crate) fn occupy(&mut self, section: SectionId, occupancy: Occupancy)
        requires whole { IsWhole self.old }
        requires room { 5120 ≤ room_of self.old }
        requires there { section.0 < length (site_of self.old).sections }
        ensures { Goes (λ (world : WorldState). sensed_by (site_of self.old) occupancy (slice_get (table_of self.old).reporters section.0) (record world { occupancies = slice_set world.occupancies section.0 occupancy })) self.old self.new }
    {
        let table = self.interlocking.table();
        table.checked();
        let (detector, place) = table.reporters()[section.0];
        self.field.occupy(section.0, occupancy);
        let input = Input::Sense(Sense::Section(place, occupancy));
        self.step_detector(DetectorId(detector), input, 0);
    }

    /// A point comes to lie somewhere, and its controller is told.
    pub(crate) fn reach(&mut self, point: PointId, position: Position)
        requires whole { IsWhole self.old }
        requires room { 5120 ≤ room_of self.old }
        requires there { point.0 < length (site_of self.old).points }
        ensures { Goes (λ (world : WorldState). point_stepped (site_of self.old) (inputs.Sense (sense.Position position)) 0 point.0 (record world { positions = slice_set world.positions point.0 position })) self.old self.new }
    {
        self.field.lay(point.0, position);
        let input = Input::Sense(Sense::Position(position));
        self.step_point(point, input, 0);
    }
}
