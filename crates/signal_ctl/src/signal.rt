//! A signal as the object of a host.

ghost use Rattle.std.specs.Prelude.{◌≡◌, ◌<◌, ◌≤◌, ℕ, false};

use crate::lamp::Lamp;
use object_host::{Controller, Report, Sense};
use rasta_core::Millis;
use sci_telegram::{Aspect, Message, Protocol, SignalMessage, Telegram};
use std::marker::Model;

/// A signal: its lamp, and whether it owes a report of the aspect indicated. Restrictive means stop.
#[derive(Clone, Debug, Drop, PartialEq, Eq)]
pub struct Signal {
    lamp: Lamp,
    owes: bool,
}

impl Model for Signal {
    ghost use Rattle.signal_ctl.specs.Signal.{SignalState};

    ghost Value = { SignalState };

    ghost view = { λ s. record { lamp = s.lamp; owes = s.owes } };

    ghost inverse = { λ s. record { lamp = s.lamp; owes = s.owes } };
}

impl Signal {
    ghost use Rattle.signal_ctl.specs.Lamp.{aspect_shown, new_lamp};
    ghost use Rattle.signal_ctl.specs.Signal.{indicated_report};

    /// A signal that was told nothing yet: it shows stop at every clock.
    pub fn new() -> Signal
        ensures { result ≡ record { lamp = new_lamp; owes = false } }
    {
        Signal {
            lamp: Lamp::new(),
            owes: false,
        }
    }

    /// What the signal shows at a reading of its own clock, in ms.
    pub fn shown(&self, now: Millis) -> Aspect
        ensures { result ≡ aspect_shown self.now.lamp now }
    {
        self.lamp.shown(now)
    }

    /// The aspect last indicated since the last loss, stop where there is none.
    pub fn indicated(&self) -> Aspect
        ensures { result ≡ self.now.lamp.indicated }
    {
        self.lamp.indicated()
    }

    /// The moment last kept, in ms of its own clock: from then on it shows only stop, with no call in between.
    pub fn until(&self) -> Millis
        ensures until { result ≡ self.now.lamp.until }
        ensures dark { (now : ℕ) → result ≤ now → aspect_shown self.now.lamp now ≡ Aspect.Stop }
        ensures standing { (now : ℕ) → now < result → aspect_shown self.now.lamp now ≡ self.now.lamp.indicated }
    {
        self.lamp.until()
    }

    /// The report of the aspect indicated.
    fn report(&self) -> Report
        ensures { result ≡ indicated_report self.now }
    {
        let aspect = self.lamp.indicated();
        Report {
            section: None,
            message: Message::Signal(SignalMessage::IndicatedAspect(aspect)),
        }
    }
}

impl Controller for Signal {
    ghost use Rattle.signal_ctl.specs.inside.Law.{signal_is_lawful};
    ghost use Rattle.signal_ctl.specs.Signal.{signal_behaviour};

    ghost behaviour = { signal_behaviour };

    fn protocol(&self) -> Protocol {
        Protocol::LightSignal
    }

    /// It takes an aspect to indicate, and nothing else.
    fn take(&mut self, _now: Millis, telegram: &Telegram) -> bool {
        match telegram.message {
            Message::Signal(SignalMessage::IndicateAspect(aspect)) => {
                self.lamp.indicate(aspect);
                self.owes = true;
                true
            }
            _ => false,
        }
    }

    fn tick(&mut self, _now: Millis) {}

    fn sense(&mut self, _now: Millis, _sense: Sense) {}

    fn keep(&mut self, until: Millis) {
        self.lamp.keep(until);
    }

    fn owed(&self) -> Option<Report> {
        if self.owes { Some(self.report()) } else { None }
    }

    fn paid(&mut self) {
        self.owes = false;
    }

    fn status(&self, place: usize) -> Option<Report> {
        if place == 0 {
            Some(self.report())
        } else {
            None
        }
    }

    fn lost(&mut self) {
        self.lamp.lost();
        self.paid();
    }

    fn restrictive(&self, now: Millis) -> bool {
        matches!(self.lamp.shown(now), Aspect::Stop)
    }

    ghost lawful = { signal_is_lawful };
}
