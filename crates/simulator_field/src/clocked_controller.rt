//! An object controller with its exact clock.

ghost use Rattle.std.specs.Prelude.{◌≡◌, ◌≢◌, ◌+◌, ◌*◌, ◌^◌, ◌<◌, ◌≤◌, ◌++◌, None, length};
ghost use Rattle.simulator_spec.specs.rasta_core.Calls.{MayStep};
ghost use Rattle.simulator_spec.specs.rasta_core.Ends.{reading_of};
ghost use Rattle.simulator_spec.specs.Controllers.{controller_after, controller_anew, controller_later, is_inside_at, sent_by_controller, step_of};

use crate::Network;
use crate::datagrams_sent::send_all;
use crate::stay::Stay;
use simulator_spec::object_host::{Controller, Hosted, Input};
use simulator_spec::{MICROS, Millis};
use std::marker::Model;

/// How many datagrams a step of a controller sends at most.
pub const MOST_SENT: usize = 23;

/// An object controller, the server of its link to the interlocking. Contracts see it as a `ClockedControllerState`.
#[derive(Drop)]
pub struct ClockedController<C: Controller> {
    hosted: Hosted<C>,
    /// Its exact clock, in microseconds.
    clock: u64,
    stay: Stay,
}

impl<C: Controller> Model for ClockedController<C> {
    ghost use Rattle.simulator_spec.specs.rasta_core.Calls.{MayStep};
    ghost use Rattle.simulator_spec.specs.rasta_core.Ends.{reading_of};
    ghost use Rattle.simulator_spec.specs.State.{ClockedControllerState};

    ghost Value = { ClockedControllerState C };

    ghost view = { λ s. record { host = s.hosted.host; clock = s.clock; connection = s.stay.connection; left = s.stay.left } };

    ghost invariant = { λ s. MayStep (reading_of s.clock) s.hosted.host.link };
}

impl<C: Controller> ClockedController<C> {
    /// A controller that was just made, with its clock in milliseconds. It was in no connection yet.
    pub fn new(hosted: Hosted<C>, clock: Millis) -> ClockedController<C>
        requires clock { MayStep clock hosted.host.link }
        requires fits { clock * 1000 < 2 ^ 64 }
        ensures { result ≡ record { host = hosted.host; clock = clock * 1000; connection = None; left = 0 } }
    {
        ClockedController {
            hosted,
            clock: clock * MICROS,
            stay: Stay {
                connection: None,
                left: 0,
            },
        }
    }

    /// It is made anew, with its clock in milliseconds, when this many datagrams were sent.
    #[tactic(auto, unfolding(crate::proofs::Below::controller_anew))]
    pub fn restart(&mut self, hosted: Hosted<C>, clock: Millis, moment: usize)
        requires clock { MayStep clock hosted.host.link }
        requires fits { clock * 1000 < 2 ^ 64 }
        ensures { self.new ≡ controller_anew hosted.host clock moment self.old }
    {
        self.hosted = hosted;
        self.clock = clock * MICROS;
        self.stay.left = moment;
    }

    /// Its exact clock, in microseconds.
    pub fn clock(&self) -> u64
        ensures { result ≡ self.now.clock }
    {
        self.clock
    }

    /// What it reads of its clock.
    pub fn now(&self) -> Millis
        ensures { result ≡ reading_of self.now.clock }
    {
        self.clock / MICROS
    }

    /// Its field object.
    pub fn object(&self) -> &C
        ensures { result.now ≡ self.now.host.object }
    {
        self.hosted.object()
    }

    /// Whether its link is in a connection when its clock has come to this, in microseconds.
    fn is_inside_at(&self, clock: u64) -> bool
        ensures { result ≡ is_inside_at clock self.now.host.link }
    {
        let link = self.hosted.link();
        link.is_open() && clock / MICROS < link.alive_until()
    }

    /// Its clock goes on, in microseconds, when this many datagrams were sent. Its link may close by time.
    #[tactic(auto, unfolding(crate::proofs::Below::controller_later))]
    pub fn pass(&mut self, elapsed: u64, moment: usize)
        requires { self.old.clock + elapsed < 2 ^ 64 }
        ensures { self.new ≡ controller_later elapsed moment self.old }
    {
        let clock = self.clock + elapsed;
        if self.is_inside_at(self.clock) && !self.is_inside_at(clock) {
            self.stay.left = moment;
        }
        self.clock = clock;
    }

    /// A step at its clock, which sends on this link. A datagram that comes was sent in this connection.
    #[tactic(auto, unfolding(crate::proofs::Below::controller_after, crate::proofs::Below::sent_by_controller))]
    pub fn step(&mut self, input: Input<'_>, connection: usize, link: usize, network: &mut Network)
        requires { 23 ≤ network.old.room }
        ensures server { self.new ≡ controller_after (step_of C.behaviour input.entry self.old) connection (length network.old.sent) self.old }
        ensures sent { network.new.sent ≡ network.old.sent ++ sent_by_controller (step_of C.behaviour input.entry self.old) network.old.time link self.old self.new }
        ensures time { network.new.time ≡ network.old.time }
        ensures room { network.old.room ≤ network.new.room + 23 }
    {
        let was_inside = self.is_inside_at(self.clock);
        let now = self.now();
        let sends = self.hosted.step(now, input).len();
        let is_open = self.hosted.link().is_open();
        self.stay
            .note(was_inside, sends, is_open, connection, network.len());
        send_all(&mut self.hosted, link, self.stay.connection, network);
    }
}
