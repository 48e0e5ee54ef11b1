//! What becomes of a datagram, and of what a detector tells in it.

ghost use Rattle.std.specs.Prelude.{◌≡◌, ◌<◌, ◌∷◌, [], length, IfSome, slice_get};
ghost use Rattle.ixl_spec.specs.rasta_core.Calls.{receiving};
ghost use Rattle.ixl_spec.specs.rasta_core.Outbox.{HasRoomFor};
ghost use Rattle.ixl_spec.specs.StepSoFar.{along};
ghost use Rattle.ixl_spec.specs.Step.{client_at, client_of, detector_hearing, looking, looking_by, node_hearing, node_of, told_before, told_now, verdict_at};
ghost use Rattle.ixl_known.specs.Field.{IsThere, node_at};
ghost use Rattle.ixl_state.specs.State.{AllAt, Goes, field_of, heard_from};
ghost use Rattle.ixl_state.specs.inside.DetectorHeard.{Passes, told_since};

use crate::state::State;
use ixl_known::{Node, is_told_occupied};
use ixl_spec::ixl_client::{Indication, Indications};
use ixl_spec::{BitRow, Millis, Outbox, Verdict};

/// A route looks at a section.
fn look_by(state: &mut State, now: Millis, number: usize, section: usize, occupied: bool)
    requires there { number < length state.old.sited.table.rows }
    requires clock { AllAt now state.old }
    ensures { Passes now (looking_by section occupied state.old.sited.table number) state.old state.new }
{
    state.keeps_route(number);
    if state.route(number).was_authorised() {
        state.look(number, section, occupied);
    }
}

/// All routes look at a section.
fn look(state: &mut State, now: Millis, section: usize, occupied: bool)
    requires { AllAt now state.old }
    ensures { Passes now (looking state.old.sited.table (section, occupied)) state.old state.new }
{
    for number in 0..state.table().rows().len() {
        look_by(state, now, number, section, occupied);
    }
}

/// All routes look at the sections of a detector, as it told them before.
fn look_before(state: &mut State, now: Millis, place: usize, occupied: BitRow)
    requires there { place < length state.old.sited.table.detectors }
    requires clock { AllAt now state.old }
    ensures { IfSome (slice_get state.old.sited.table.detectors place) (λ sections. Passes now (along (looking state.old.sited.table) (told_before occupied 0 sections)) state.old state.new) }
{
    for own in 0..state.table().reported_by(place).len() {
        let section = state.table().reported_by(place)[own];
        look(state, now, section, occupied.contains(own));
    }
}

/// All routes look at what a detector tells of one of its sections.
fn look_at(state: &mut State, now: Millis, place: usize, told: Indication)
    requires there { place < length state.old.sited.table.detectors }
    requires clock { AllAt now state.old }
    ensures { IfSome (slice_get state.old.sited.table.detectors place) (λ sections. Passes now (along (looking state.old.sited.table) (told_now sections (told ∷ []))) state.old state.new) }
{
    let sections = state.table().reported_by(place);
    if told.place < sections.len() {
        let section = sections[told.place];
        look(state, now, section, is_told_occupied(told.state));
    }
}

/// All routes look at what a detector tells now.
fn look_now(state: &mut State, now: Millis, place: usize, heard: &[Indication])
    requires there { place < length state.old.sited.table.detectors }
    requires clock { AllAt now state.old }
    ensures { IfSome (slice_get state.old.sited.table.detectors place) (λ sections. Passes now (along (looking state.old.sited.table) (told_now sections heard.now)) state.old state.new) }
{
    for told in heard {
        look_at(state, now, place, *told);
    }
}

/// All routes look at what a detector tells that is ready now. Where it wasn't before, at what it told in the
/// initialisation too.
fn look_told(
    state: &mut State,
    now: Millis,
    place: usize,
    was_ready: bool,
    occupied: BitRow,
    heard: &[Indication],
)
    requires there { place < length state.old.sited.table.detectors }
    requires clock { AllAt now state.old }
    ensures { IfSome (slice_get state.old.sited.table.detectors place) (λ sections. Passes now (along (looking state.old.sited.table) (told_since was_ready occupied sections heard.now)) state.old state.new) }
{
    if was_ready {
        look_now(state, now, place, heard);
    } else {
        look_before(state, now, place, occupied);
        look_now(state, now, place, heard);
    }
}

/// A datagram has come from a detector: what it tells is looked at by all routes, once its link is ready.
fn hear_detector(
    state: &mut State,
    now: Millis,
    place: usize,
    datagram: &[u8],
    outbox: &mut Outbox,
) -> Verdict
    requires there { place < length state.old.ixl.detectors }
    requires clock { AllAt now state.old }
    requires room { HasRoomFor 56 outbox.old }
    ensures goes { Goes now 30 (detector_hearing now state.old.sited.table datagram.now place) state.old outbox.old state.new outbox.new }
    ensures verdict { IfSome (slice_get state.old.ixl.detectors place) (λ detector. result ≡ (receiving now datagram.now detector.client.link).verdict) }
{
    state.keeps_each_detector();
    let was_ready = state.field().is_detector_ready(place);
    let occupied = state.field().occupied_at(place);
    let mut heard = Indications::new();
    let verdict = state.hear_detector_alone(now, place, datagram, outbox, &mut heard);
    if state.field().is_detector_ready(place) {
        look_told(state, now, place, was_ready, occupied, heard.as_slice());
    }
    verdict
}

impl State {
    /// A datagram has come from a controller. What a detector tells is looked at by all routes, once its link is ready.
    pub fn hear_at(
        &mut self,
        now: Millis,
        node: Node,
        datagram: &[u8],
        outbox: &mut Outbox,
    ) -> Verdict
        requires there { IsThere (field_of self.old) node }
        requires clock { AllAt now self.old }
        requires room { HasRoomFor 56 outbox.old }
        ensures goes { Goes now 30 (node_hearing now self.old.sited.table datagram.now (node_at node)) self.old outbox.old self.new outbox.new }
        ensures verdict { result ≡ verdict_at now datagram.now (client_at (node_at node) self.old.ixl) }
    {
        match node {
            Node::Signal(place) => self.hear_signal(now, place, datagram, outbox),
            Node::Point(place) => self.hear_point(now, place, datagram, outbox),
            Node::Detector(place) => hear_detector(self, now, place, datagram, outbox),
        }
    }

    /// A datagram has come from the controller with this identity. Of another sender nothing is heard.
    pub fn hear_from(
        &mut self,
        now: Millis,
        id: u32,
        datagram: &[u8],
        outbox: &mut Outbox,
    ) -> Verdict
        requires clock { AllAt now self.old }
        requires room { HasRoomFor 56 outbox.old }
        ensures goes { Goes now 30 (heard_from now self.old.sited.table datagram.now id) self.old outbox.old self.new outbox.new }
        ensures verdict { result ≡ verdict_at now datagram.now (client_of (node_of id self.old.ixl) self.old.ixl) }
    {
        match self.field().node_of(id) {
            Some(node) => self.hear_at(now, node, datagram, outbox),
            None => Verdict::WrongSender,
        }
    }
}
