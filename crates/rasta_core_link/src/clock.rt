//! The rules by the clock.

ghost use Rattle.std.specs.Prelude.{◌≡◌, ◌&&◌, nat_le};

use crate::link::{Link, Millis};
use crate::parameters::{QUIET_TIME, TIME_LIMIT};
use crate::phase::{Phase, State};

impl Link {
    ghost use Rattle.rasta_core_link.specs.Clock.{deadline, alive_until, quiet_until, settled, state_at, is_up_at};
    ghost use Rattle.rasta_core_link.specs.Calls.{MayStep, IsAt};
    ghost use Rattle.rasta_core_link.specs.State.{is_open, is_up};

    /// The moment at which this link closes by time, or at which it closed, or was created.
    #[tactic(auto, unfolding(crate::specs::Clock::alive_until, crate::specs::Clock::deadline))]
    pub fn alive_until(&self) -> Millis
        ensures { result ≡ alive_until self.now }
    {
        let (since, limit) = if self.phase.is_open() {
            (self.own_stamp, TIME_LIMIT)
        } else {
            (self.closed_at, 0)
        };
        since.saturating_add(limit)
    }

    /// The moment from which it may open again, once it has closed: 6000 ms later.
    #[tactic(auto, unfolding(crate::specs::Clock::quiet_until))]
    pub fn quiet_until(&self) -> Millis
        ensures { result ≡ quiet_until self.now }
    {
        self.alive_until().saturating_add(QUIET_TIME)
    }

    /// Whether its time is over, where it is in a connection.
    #[tactic(auto, unfolding(crate::specs::Clock::deadline))]
    fn is_over(&self, now: Millis) -> bool
        ensures { result ≡ (is_open self.now.phase && nat_le (deadline self.now) now) }
    {
        now.saturating_sub(self.own_stamp) >= TIME_LIMIT && self.is_open()
    }

    /// The state at a clock reading not before that of the last call. Nothing changes.
    #[tactic(auto, unfolding(crate::specs::Clock::state_at, crate::specs::Clock::deadline, crate::specs::Clock::alive_until))]
    pub fn state(&self, now: Millis) -> State
        ensures { result ≡ state_at now self.now }
    {
        if self.phase.is_open() && !self.is_over(now) {
            self.phase.state()
        } else if now.saturating_sub(self.alive_until()) < QUIET_TIME {
            State::Quiet
        } else {
            State::Down
        }
    }

    /// Whether it is up at a clock reading: both ends have entered its connection. Nothing changes.
    #[tactic(auto, unfolding(crate::specs::Clock::is_up_at))]
    pub fn is_up(&self, now: Millis) -> bool
        ensures { result ≡ is_up_at now self.now }
    {
        self.phase.is_up() && !self.is_over(now)
    }

    /// Whether it is in a connection as of the last call.
    pub fn is_open(&self) -> bool
        ensures { result ≡ is_open self.now.phase }
    {
        self.phase.is_open()
    }

    /// Whether it is up as of the last call.
    pub fn is_up_now(&self) -> bool
        ensures { result ≡ is_up self.now.phase }
    {
        self.phase.is_up()
    }

    /// Applies the clock rules alone: a link whose time has come has closed at that moment, however late the
    /// reading. Every other call does this first.
    #[tactic(auto, using(crate::proofs::LinkIdentity::kept), unfolding(crate::specs::Clock::settled))]
    pub fn settle(&mut self, now: Millis)
        requires { MayStep now self.old }
        ensures link { self.new ≡ settled now self.old }
        ensures kept { IsAt now self.old (settled now self.old) }
    {
        self.apply_clock(now);
    }

    /// As `settle`, at any reading.
    #[tactic(auto, unfolding(crate::specs::Clock::settled, crate::specs::Clock::deadline))]
    pub(crate) fn apply_clock(&mut self, now: Millis)
        ensures { self.new ≡ settled now self.old }
    {
        if self.is_over(now) {
            self.phase = Phase::Closed;
            self.closed_at = self.own_stamp + TIME_LIMIT;
        }
        self.clock = now;
    }
}
