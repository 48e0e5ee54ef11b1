//! A detector, as the interlocking knows it.

ghost use Rattle.std.specs.Prelude.{◌≡◌, ◌<◌, ◌≤◌, List, length};
ghost use Rattle.std.specs.FinSet.{contains, empty};
ghost use Rattle.std.specs.List.{All};
ghost use Rattle.ixl_spec.specs.rasta_core.Calls.{MayStep, IsAt, receiving};
ghost use Rattle.ixl_spec.specs.rasta_core.Outbox.{HasRoomFor};
ghost use Rattle.ixl_spec.specs.rasta_core.State.{is_up};
ghost use Rattle.ixl_spec.specs.ixl_client.Client.{is_ready};
ghost use Rattle.ixl_spec.specs.ixl_client.declared.indication.Indication.{Indication as Told};
ghost use Rattle.ixl_spec.specs.StepSoFar.{detector_after};
ghost use Rattle.ixl_spec.specs.Step.{clocked_detector, is_told_occupied, occupied_heard};
ghost use Rattle.ixl_known.specs.Nodes.{DetectorGoes, AreHeardBy, detector_heard, detector_ticked};

use ixl_spec::ixl_client::{
    Client, Indication, Indications, ObjectState, step_hears_what_was_taken, step_keeps_the_peer,
};
use ixl_spec::{BitRow, Millis, Occupancy, Outbox, Verdict};
use std::marker::Model;

/// A detector: its client, and the sections last told as occupied in the present connection, by their places in its own
/// order.
#[derive(Debug, Drop)]
pub struct KnownDetector {
    client: Client,
    occupied: BitRow,
}

impl Model for KnownDetector {
    ghost use Rattle.std.specs.Prelude.{◌≤◌, length};
    ghost use Rattle.std.specs.Coded.{codes};
    ghost use Rattle.ixl_spec.specs.bit_row.Places.{places_code};
    ghost use Rattle.ixl_spec.specs.State.{KnownDetectorState};

    ghost Value = { KnownDetectorState };

    ghost coded = { Prim.hlevel (codes, places_code) };

    ghost view = { λ d. record { client = d.client; occupied = d.occupied } };

    ghost invariant = { λ d. length d.client.peer.objects ≤ 64 };
}

/// Whether an object is told to be an occupied section.
pub fn is_told_occupied(state: ObjectState) -> bool
    ensures { result ≡ is_told_occupied state }
{
    matches!(state, ObjectState::Occupancy(Occupancy::Occupied))
}

/// The occupied sections once these reports were heard.
fn occupied_heard(heard: &[Indication], occupied: BitRow) -> BitRow
    requires { All (λ (told : Told). told.place < 64) heard.now }
    ensures { result ≡ occupied_heard heard.now occupied }
{
    let mut row = occupied;
    for indication in heard {
        row = if is_told_occupied(indication.state) {
            row.with(indication.place)
        } else {
            row.without(indication.place)
        };
    }
    row
}

impl KnownDetector {
    /// The detector of this client, of whose sections nothing was heard.
    pub fn new(client: Client) -> KnownDetector
        requires { length client.peer.objects ≤ 64 }
        ensures { result ≡ record { client = client; occupied = empty } }
    {
        KnownDetector {
            client,
            occupied: BitRow::empty(),
        }
    }

    /// Its client, to be read.
    pub fn client(&self) -> &Client
        ensures { result.now ≡ self.now.client }
    {
        &self.client
    }

    /// Whether the initialisation was completed in the present connection.
    pub fn is_ready(&self) -> bool
        ensures { result ≡ is_ready self.now.client.stage }
    {
        self.client.is_ready()
    }

    /// Whether its link is up, as of the last step.
    pub fn is_up(&self) -> bool
        ensures { result ≡ is_up self.now.client.link.phase }
    {
        self.client.link().is_up_now()
    }

    /// The sections last told as occupied.
    pub fn occupied(&self) -> BitRow
        ensures { result ≡ self.now.occupied }
    {
        self.occupied
    }

    /// Outside of a connection nothing was heard.
    #[tactic(auto, unfolding(ixl_spec::specs::StepSoFar::detector_after))]
    fn fall(&mut self)
        ensures { self.new ≡ detector_after self.old.occupied self.old.client }
    {
        if !self.client.link().is_up_now() {
            self.occupied = BitRow::empty();
        }
    }

    /// The clock acts.
    pub fn settle(&mut self, now: Millis)
        requires { MayStep now self.old.client.link }
        ensures detector { self.new ≡ clocked_detector now self.old }
        ensures kept { IsAt now self.old.client.link self.new.client.link }
    {
        step_keeps_the_peer();
        self.client.settle(now);
        self.fall();
    }

    /// A datagram has come: the last report of each section stands.
    pub fn hear(
        &mut self,
        now: Millis,
        datagram: &[u8],
        outbox: &mut Outbox,
        heard: &mut Indications,
    ) -> Verdict
        requires clock { self.old.client.link.clock ≡ now }
        requires room { HasRoomFor 56 outbox.old }
        ensures goes { DetectorGoes now 30 (detector_heard now datagram.now) self.old outbox.old self.new outbox.new }
        ensures heard { AreHeardBy now datagram.now self.old outbox.old heard.new.items }
        ensures verdict { result ≡ (receiving now datagram.now self.old.client.link).verdict }
    {
        step_keeps_the_peer();
        step_hears_what_was_taken();
        let verdict = self.client.receive(now, datagram, outbox, heard);
        self.occupied = occupied_heard(heard.as_slice(), self.occupied);
        self.fall();
        verdict
    }

    /// A tick: the heartbeat that is due, and a link that is down is opened.
    pub fn tick(&mut self, now: Millis, outbox: &mut Outbox)
        requires clock { self.old.client.link.clock ≡ now }
        requires room { HasRoomFor 26 outbox.old }
        ensures { DetectorGoes now 2 (detector_ticked now) self.old outbox.old self.new outbox.new }
    {
        step_keeps_the_peer();
        self.client.tick(now, outbox);
        self.fall();
    }
}
