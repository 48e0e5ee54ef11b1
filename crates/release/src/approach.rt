//! The approach to the signal of a route.

ghost use Rattle.std.specs.Prelude.{◌≡◌, ◌↔◌, List, Bool, [], ◌∷◌, ◌||◌, IsTrue};
ghost use Rattle.release.specs.Approach.{IsDue, approach_after, is_due};

use std::marker::Model;

/// How long a route stays locked whose approach wasn't clear, in ms of the clock, from the end of its
/// authority. It is this project's own.
pub const APPROACH_TIME: u64 = 120_000;

/// Whether an approach section was occupied or unknown since the authority was given.
///
/// It is of fixed size. Clauses see it as `approach_after` of what it was told.
#[derive(Clone, Copy, Debug)]
pub struct Approach {
    occupied: bool,
}

impl Model for Approach {
    ghost use Rattle.std.specs.Prelude.{Bool};

    ghost Value = { Bool };

    ghost view = { λ a. a.occupied };

    ghost inverse = { λ b. record { occupied = b } };
}

#[tactic(auto, unfolding(crate::specs::Approach::approach_after), using(crate::proofs::Steps::lets_go))]
impl Approach {
    /// An approach of which nothing was told.
    pub fn new() -> Approach
        ensures { result ≡ approach_after [] }
    {
        Approach { occupied: false }
    }

    /// Begins anew: nothing was told.
    pub fn begin(&mut self)
        ensures { self.new ≡ approach_after [] }
    {
        self.occupied = false;
    }

    /// Is told whether an approach section is occupied or unknown in this step.
    pub fn see(&mut self, occupied_or_unknown: bool)
        ensures state { self.new ≡ (self.old || occupied_or_unknown) }
        ensures told { (steps : List Bool) → self.old ≡ approach_after steps → self.new ≡ approach_after (occupied_or_unknown ∷ steps) }
    {
        self.occupied |= occupied_or_unknown;
    }

    /// Whether a route whose authority ended at this clock may be let go now: the approach was clear in
    /// every step, or the approach time is over. The sum stops at the greatest clock reading.
    pub fn due(&self, ended_at: u64, now: u64) -> bool
        ensures value { result ≡ is_due self.now ended_at now }
        ensures told { (steps : List Bool) → self.now ≡ approach_after steps → IsTrue result ↔ IsDue steps ended_at now }
    {
        !self.occupied || now >= ended_at.saturating_add(APPROACH_TIME)
    }
}
