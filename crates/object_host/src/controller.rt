//! What a field object is told and answers, and its law.

ghost use Rattle.std.specs.Prelude.{◌≡◌};
ghost use Rattle.object_host.specs.Behaviour.{Behaviour};
ghost use Rattle.object_host.specs.Lawful.{IsLawful};

use crate::report::Report;
use crate::sense::Sense;
use rasta_core::Millis;
use sci_telegram::{Protocol, Telegram};

/// A field object, as its host knows it: what it is told, what it answers, and whether its output is
/// restrictive. Clock readings are those of its own clock, in ms.
pub trait Controller: Drop {
    /// The exact meaning of each call, of the object as it was before the call.
    ghost behaviour: { Behaviour Self };

    /// The protocol of its telegrams.
    fn protocol(&self) -> Protocol
        ensures { result ≡ behaviour.protocol };

    /// Takes a telegram that is no part of the initialisation, and answers whether it fits.
    fn take(&mut self, now: Millis, telegram: &Telegram) -> bool
        ensures answer { result ≡ behaviour.accepts now telegram.now self.old }
        ensures object { self.new ≡ behaviour.after_take now telegram.now self.old };

    /// The clock has this reading.
    fn tick(&mut self, now: Millis)
        ensures { self.new ≡ behaviour.after_tick now self.old };

    /// A contact has changed.
    fn sense(&mut self, now: Millis, sense: Sense)
        ensures { self.new ≡ behaviour.after_sense now sense self.old };

    /// Takes the moment from which it has to be restrictive: that at which its link dies.
    fn keep(&mut self, until: Millis)
        ensures { self.new ≡ behaviour.after_keep until self.old };

    /// The first report that it owes, none where it owes none.
    fn owed(&self) -> Option<Report>
        ensures { result ≡ behaviour.owed self.now };

    /// The first report that it owes was sent.
    fn paid(&mut self)
        ensures { self.new ≡ behaviour.after_paid self.old };

    /// The report at this place of its initial status, counted from 0, and none beyond the last.
    fn status(&self, place: usize) -> Option<Report>
        ensures { result ≡ behaviour.status place self.now };

    /// The link was lost, or a new connection begins: what it was told and what it owes counts no more.
    fn lost(&mut self)
        ensures { self.new ≡ behaviour.after_loss self.old };

    /// Whether its output is restrictive at a clock reading.
    fn restrictive(&self, now: Millis) -> bool
        ensures { result ≡ behaviour.is_restrictive now self.now };

    /// The law: after a loss, and at any clock at or past the moment last kept, it is restrictive.
    ghost lawful: { IsLawful behaviour };
}
