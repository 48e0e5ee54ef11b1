//! A signal, as the interlocking knows it.

ghost use Rattle.std.specs.Prelude.{◌≡◌, None};
ghost use Rattle.ixl_spec.specs.rasta_core.Calls.{MayStep, IsAt, receiving};
ghost use Rattle.ixl_spec.specs.rasta_core.Outbox.{HasRoomFor};
ghost use Rattle.ixl_spec.specs.ixl_client.Client.{is_ready};
ghost use Rattle.ixl_spec.specs.StepSoFar.{known_signal_after};
ghost use Rattle.ixl_spec.specs.Step.{aspect_of, clocked_known_signal, indicated_heard};
ghost use Rattle.ixl_spec.specs.rasta_core.State.{confirmed_items, is_up};
ghost use Rattle.ixl_spec.specs.View.{has_taken_stop, is_known_signal_at_stop};
ghost use Rattle.ixl_known.specs.Nodes.{KnownSignalGoes, known_signal_given, known_signal_heard, known_signal_ticked};

use ixl_spec::ixl_client::{Client, Command, Indication, Indications, ObjectState};
use ixl_spec::{Aspect, Millis, Outbox, Verdict};
use std::marker::Model;

/// A signal: its client, the last aspect given in the present connection, how many items were given there with it, and the
/// aspect that the last report of the connection told.
#[derive(Debug, Drop)]
pub struct KnownSignal {
    client: Client,
    aspect: Option<Aspect>,
    number: u64,
    indicated: Option<Aspect>,
}

impl Model for KnownSignal {
    ghost use Rattle.ixl_spec.specs.State.{KnownSignalState};

    ghost Value = { KnownSignalState };

    ghost view = { λ l. record { client = l.client; aspect = l.aspect; number = l.number; indicated = l.indicated } };
}

/// The aspect that a signal's report tells.
fn aspect_of(state: ObjectState) -> Option<Aspect>
    ensures { result ≡ aspect_of state }
{
    match state {
        ObjectState::Aspect(aspect) => Some(aspect),
        _ => None,
    }
}

/// The aspect that is indicated once these reports were heard: the last stands.
fn indicated_heard(heard: &[Indication], indicated: Option<Aspect>) -> Option<Aspect>
    ensures { result ≡ indicated_heard heard.now indicated }
{
    let mut last = indicated;
    for indication in heard {
        last = aspect_of(indication.state);
    }
    last
}

impl KnownSignal {
    /// The signal of this client, to which nothing was given and of which nothing was heard.
    pub fn new(client: Client) -> KnownSignal
        ensures { result ≡ record { client = client; aspect = None; number = 0; indicated = None } }
    {
        KnownSignal {
            client,
            aspect: None,
            number: 0,
            indicated: None,
        }
    }

    /// Its client, to be read.
    pub fn client(&self) -> &Client
        ensures { result.now ≡ self.now.client }
    {
        &self.client
    }

    /// Whether the initialisation was completed in the present connection.
    pub fn is_ready(&self) -> bool
        ensures { result ≡ is_ready self.now.client.stage }
    {
        self.client.is_ready()
    }

    /// Whether its link is up, as of the last step.
    pub fn is_up(&self) -> bool
        ensures { result ≡ is_up self.now.client.link.phase }
    {
        self.client.link().is_up_now()
    }

    /// The aspect that its controller last indicated in the present connection.
    pub fn indicated(&self) -> Option<Aspect>
        ensures { result ≡ self.now.indicated }
    {
        self.indicated
    }

    /// Whether the controller is known to have taken stop as the last aspect given, or none was given.
    fn has_taken_stop(&self) -> bool
        ensures { result ≡ has_taken_stop self.now.aspect self.now.number (confirmed_items self.now.client.link) }
    {
        match self.aspect {
            None => true,
            Some(Aspect::Stop) => self.number <= self.client.link().confirmed(),
            Some(_) => false,
        }
    }

    /// Whether it is at known stop: by what its controller has taken in the present connection, or since the link has
    /// been in none for its quiet time.
    pub fn is_at_stop(&self, now: Millis) -> bool
        ensures { result ≡ is_known_signal_at_stop now self.now }
    {
        if self.client.link().is_up_now() {
            self.has_taken_stop()
        } else {
            self.client.link().quiet_until() <= now
        }
    }

    /// Outside of a connection nothing was given or heard.
    #[tactic(auto, unfolding(ixl_spec::specs::StepSoFar::known_signal_after))]
    fn fall(&mut self)
        ensures { self.new ≡ known_signal_after self.old.aspect self.old.number self.old.indicated self.old.client }
    {
        if !self.client.link().is_up_now() {
            self.aspect = None;
            self.number = 0;
            self.indicated = None;
        }
    }

    /// The clock acts.
    pub fn settle(&mut self, now: Millis)
        requires { MayStep now self.old.client.link }
        ensures known_signal { self.new ≡ clocked_known_signal now self.old }
        ensures kept { IsAt now self.old.client.link self.new.client.link }
    {
        self.client.settle(now);
        self.fall();
    }

    /// A datagram has come: the last report stands.
    pub fn hear(&mut self, now: Millis, datagram: &[u8], outbox: &mut Outbox) -> Verdict
        requires clock { self.old.client.link.clock ≡ now }
        requires room { HasRoomFor 56 outbox.old }
        ensures goes { KnownSignalGoes now 30 (known_signal_heard now datagram.now) self.old outbox.old self.new outbox.new }
        ensures verdict { result ≡ (receiving now datagram.now self.old.client.link).verdict }
    {
        let mut heard = Indications::new();
        let verdict = self.client.receive(now, datagram, outbox, &mut heard);
        self.indicated = indicated_heard(heard.as_slice(), self.indicated);
        self.fall();
        verdict
    }

    /// It is given an aspect.
    pub fn give(&mut self, now: Millis, aspect: Aspect, outbox: &mut Outbox)
        requires clock { self.old.client.link.clock ≡ now }
        requires room { HasRoomFor 26 outbox.old }
        ensures { KnownSignalGoes now 2 (known_signal_given now aspect) self.old outbox.old self.new outbox.new }
    {
        self.client.command(now, Command::Indicate(aspect), outbox);
        self.aspect = Some(aspect);
        self.number = self.client.link().given();
        self.fall();
    }

    /// A tick: the heartbeat that is due, and a link that is down is opened.
    pub fn tick(&mut self, now: Millis, outbox: &mut Outbox)
        requires clock { self.old.client.link.clock ≡ now }
        requires room { HasRoomFor 26 outbox.old }
        ensures { KnownSignalGoes now 2 (known_signal_ticked now) self.old outbox.old self.new outbox.new }
    {
        self.client.tick(now, outbox);
        self.fall();
    }
}
