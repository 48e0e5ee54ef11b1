//! A point, as the interlocking knows it.

ghost use Rattle.std.specs.Prelude.{◌≡◌, ◌<◌, ◌≤◌, ◌&&◌, None, IsTrue};
ghost use Rattle.std.specs.FinSet.{contains, empty};
ghost use Rattle.ixl_spec.specs.rasta_core.Calls.{MayStep, IsAt, receiving};
ghost use Rattle.ixl_spec.specs.rasta_core.Outbox.{HasRoomFor};
ghost use Rattle.ixl_spec.specs.rasta_core.State.{is_up};
ghost use Rattle.ixl_spec.specs.ixl_client.Client.{is_available, is_ready};
ghost use Rattle.ixl_spec.specs.ixl_client.declared.indication.Indication.{Indication as Told};
ghost use Rattle.ixl_spec.specs.StepSoFar.{all_below, known_point_after};
ghost use Rattle.ixl_spec.specs.Commands.{unmoved_for};
ghost use Rattle.ixl_spec.specs.Step.{clocked_known_point, side_heard, side_of};
ghost use Rattle.ixl_spec.specs.View.{is_side};
ghost use Rattle.ixl_known.specs.Nodes.{KnownPointGoes, known_point_given, known_point_heard, known_point_ticked};

use ixl_spec::ixl_client::{Client, Command, Indication, Indications, ObjectState};
use ixl_spec::{BitRow, Millis, Outbox, Position, Side, Verdict};
use std::marker::Model;

/// A point: its client, the side that the last report of the present connection told, and the routes since whose
/// setting it was given a move there.
#[derive(Debug, Drop)]
pub struct KnownPoint {
    client: Client,
    side: Option<Side>,
    moved: BitRow,
}

impl Model for KnownPoint {
    ghost use Rattle.std.specs.Coded.{codes};
    ghost use Rattle.ixl_spec.specs.bit_row.Places.{places_code};
    ghost use Rattle.ixl_spec.specs.State.{KnownPointState};

    ghost Value = { KnownPointState };

    ghost coded = { Prim.hlevel (codes, places_code) };

    ghost view = { λ s. record { client = s.client; side = s.side; moved = s.moved } };
}

/// The side that a point's report tells.
fn side_of(state: ObjectState) -> Option<Side>
    ensures { result ≡ side_of state }
{
    match state {
        ObjectState::Position(Position::Right) => Some(Side::Right),
        ObjectState::Position(Position::Left) => Some(Side::Left),
        _ => None,
    }
}

/// The side that is known once these reports were heard: the last stands.
fn side_heard(heard: &[Indication], side: Option<Side>) -> Option<Side>
    ensures { result ≡ side_heard heard.now side }
{
    let mut last = side;
    for indication in heard {
        last = side_of(indication.state);
    }
    last
}

/// The row of all places below a number.
fn all_below(count: usize) -> BitRow
    requires { count ≤ 64 }
    ensures { result ≡ all_below count }
{
    let mut row = BitRow::empty();
    for place in 0..count {
        row = row.with(place);
    }
    row
}

impl KnownPoint {
    /// The point of this client, of which nothing was heard.
    pub fn new(client: Client) -> KnownPoint
        ensures { result ≡ record { client = client; side = None; moved = empty } }
    {
        KnownPoint {
            client,
            side: None,
            moved: BitRow::empty(),
        }
    }

    /// Its client, to be read.
    pub fn client(&self) -> &Client
        ensures { result.now ≡ self.now.client }
    {
        &self.client
    }

    /// Whether the initialisation was completed in the present connection.
    pub fn is_ready(&self) -> bool
        ensures { result ≡ is_ready self.now.client.stage }
    {
        self.client.is_ready()
    }

    /// Whether its link is up, as of the last step.
    pub fn is_up(&self) -> bool
        ensures { result ≡ is_up self.now.client.link.phase }
    {
        self.client.link().is_up_now()
    }

    /// Whether its link is ready, and every move given in the present connection is answered.
    pub fn is_available(&self) -> bool
        ensures { result ≡ is_available self.now.client.stage }
    {
        self.client.is_available()
    }

    /// Whether the last report told this side.
    fn is_at(&self, side: Side) -> bool
        ensures { result ≡ is_side side self.now.side }
    {
        match (side, self.side) {
            (Side::Right, Some(Side::Right)) | (Side::Left, Some(Side::Left)) => true,
            _ => false,
        }
    }

    /// Whether it is available, and its last report in the present connection told this side.
    pub fn is_known(&self, side: Side) -> bool
        ensures { result ≡ (is_available self.now.client.stage && is_side side self.now.side) }
    {
        self.is_available() && self.is_at(side)
    }

    /// Whether it was given a move in the present connection since this route was set.
    pub fn is_moved_for(&self, route: usize) -> bool
        ensures { result ≡ contains self.now.moved route }
    {
        self.moved.contains(route)
    }

    /// From here on it counts as unmoved for this route.
    pub fn unmove(&mut self, route: usize)
        requires { route < 64 }
        ensures { self.new ≡ unmoved_for route self.old }
    {
        self.moved = self.moved.without(route);
    }

    /// Outside of a connection nothing was heard or given.
    #[tactic(auto, unfolding(ixl_spec::specs::StepSoFar::known_point_after))]
    fn fall(&mut self)
        ensures { self.new ≡ known_point_after self.old.side self.old.moved self.old.client }
    {
        if !self.client.link().is_up_now() {
            self.side = None;
            self.moved = BitRow::empty();
        }
    }

    /// The clock acts.
    pub fn settle(&mut self, now: Millis)
        requires { MayStep now self.old.client.link }
        ensures known_point { self.new ≡ clocked_known_point now self.old }
        ensures kept { IsAt now self.old.client.link self.new.client.link }
    {
        self.client.settle(now);
        self.fall();
    }

    /// A datagram has come: the last report stands.
    pub fn hear(&mut self, now: Millis, datagram: &[u8], outbox: &mut Outbox) -> Verdict
        requires clock { self.old.client.link.clock ≡ now }
        requires room { HasRoomFor 56 outbox.old }
        ensures goes { KnownPointGoes now 30 (known_point_heard now datagram.now) self.old outbox.old self.new outbox.new }
        ensures verdict { result ≡ (receiving now datagram.now self.old.client.link).verdict }
    {
        let mut heard = Indications::new();
        let verdict = self.client.receive(now, datagram, outbox, &mut heard);
        self.side = side_heard(heard.as_slice(), self.side);
        self.fall();
        verdict
    }

    /// It is given a move, which counts for each of so many routes.
    pub fn give(&mut self, now: Millis, side: Side, routes: usize, outbox: &mut Outbox)
        requires clock { self.old.client.link.clock ≡ now }
        requires routes { routes ≤ 64 }
        requires room { HasRoomFor 26 outbox.old }
        ensures { KnownPointGoes now 2 (known_point_given now side routes) self.old outbox.old self.new outbox.new }
    {
        self.client.command(now, Command::Move(side), outbox);
        self.moved = all_below(routes);
        self.fall();
    }

    /// A tick: the heartbeat that is due, and a link that is down is opened.
    pub fn tick(&mut self, now: Millis, outbox: &mut Outbox)
        requires clock { self.old.client.link.clock ≡ now }
        requires room { HasRoomFor 26 outbox.old }
        ensures { KnownPointGoes now 2 (known_point_ticked now) self.old outbox.old self.new outbox.new }
    {
        self.client.tick(now, outbox);
        self.fall();
    }
}
