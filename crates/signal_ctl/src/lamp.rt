//! The lamp of a signal, which falls to stop by the clock alone.

ghost use Rattle.std.specs.Prelude.{◌≡◌};

use sci_telegram::Aspect;
use std::marker::Model;

/// A lamp: the aspect last indicated since the last loss of its link, and the moment until which that
/// aspect stands.
#[derive(Clone, Debug, Drop, PartialEq, Eq)]
pub struct Lamp {
    indicated: Aspect,
    until: u64,
}

impl Model for Lamp {
    ghost use Rattle.signal_ctl.specs.Lamp as spec;

    ghost Value = { spec.Lamp };

    ghost view = { λ s. record { indicated = s.indicated; until = s.until } };

    ghost inverse = { λ l. record { indicated = l.indicated; until = l.until } };
}

impl Lamp {
    ghost use Rattle.signal_ctl.specs.Lamp.{aspect_shown};

    /// A lamp that was told nothing yet: it shows stop at every clock.
    pub fn new() -> Lamp
        ensures { result ≡ record { indicated = Aspect.Stop; until = 0 } }
    {
        Lamp {
            indicated: Aspect::Stop,
            until: 0,
        }
    }

    /// Takes the aspect that is to be shown from now on.
    pub fn indicate(&mut self, aspect: Aspect)
        ensures { self.new ≡ record self.old { indicated = aspect } }
    {
        self.indicated = aspect;
    }

    /// Takes the moment, in ms of the controller's own clock, from which only stop is shown.
    pub fn keep(&mut self, until: u64)
        ensures { self.new ≡ record self.old { until = until } }
    {
        self.until = until;
    }

    /// The link was lost: what was indicated before counts no more.
    pub fn lost(&mut self)
        ensures { self.new ≡ record self.old { indicated = Aspect.Stop } }
    {
        self.indicated = Aspect::Stop;
    }

    /// What the lamp shows at a reading of its own clock, in ms. It asks for no call in between:
    /// the lamp is stop as soon as the clock reaches the moment last kept.
    pub fn shown(&self, now: u64) -> Aspect
        ensures { result ≡ aspect_shown self.now now }
    {
        if now < self.until {
            self.indicated
        } else {
            Aspect::Stop
        }
    }

    /// The aspect last indicated since the last loss, stop where there is none.
    pub fn indicated(&self) -> Aspect
        ensures { result ≡ self.now.indicated }
    {
        self.indicated
    }

    /// The moment last kept, in ms of the controller's own clock: from then on only stop is shown.
    pub fn until(&self) -> u64
        ensures { result ≡ self.now.until }
    {
        self.until
    }
}
