//! One route, and how far it is.

ghost use Rattle.std.specs.Prelude.{◌≡◌, ℕ, ◌<◌, ◌≤◌, ◌||◌, not, true, false, [], IfSome, None};
ghost use Rattle.release.specs.Passage.{passage_after};
ghost use Rattle.ixl_spec.specs.Commands.{is_ended, released_at, set_anew};
ghost use Rattle.ixl_spec.specs.Rules.{come_to, freed};
ghost use Rattle.ixl_spec.specs.Step.{route_looks};
ghost use Rattle.ixl_spec.specs.Table.{Row};
ghost use Rattle.ixl_spec.specs.View.{freed_sections, has_authority, is_set, place_in, was_authorised};
ghost use Rattle.ixl_spec.specs.declared.phase.Phase.TheVariants as phase;

use ixl_spec::{Millis, Phase};
use release::{Approach, Passage};
use std::marker::Model;

/// How far a route is, and what was seen of it since it was given authority.
#[derive(Clone, Copy, Debug)]
pub struct Route {
    phase: Phase,
    cancelled: bool,
    passage: Passage,
    approach: Approach,
    /// The clock reading at which it was released in its last setting.
    released: Option<Millis>,
}

impl Model for Route {
    ghost use Rattle.std.specs.Coded.{codes};
    ghost use Rattle.ixl_spec.specs.bit_row.Places.{places_code};
    ghost use Rattle.ixl_spec.specs.State.{RouteState};

    ghost Value = { RouteState };

    ghost coded = { Prim.hlevel (codes, places_code) };

    ghost view = { λ r. record { phase = r.phase; cancelled = r.cancelled; passage = r.passage; approached = r.approach; released = r.released } };

    ghost inverse = { λ s. record { phase = s.phase; cancelled = s.cancelled; passage = s.passage; approach = s.approached; released = s.released } };
}

impl Route {
    /// A route over so many sections that isn't set.
    #[tactic(auto, unfolding(release::specs::Approach::approach_after))]
    pub(crate) fn new(sections: usize) -> Route
        requires some { 1 ≤ sections }
        requires within { sections ≤ 64 }
        ensures { result ≡ record { phase = phase.Free; cancelled = false; passage = passage_after sections []; approached = false; released = None } }
    {
        Route {
            phase: Phase::Free,
            cancelled: false,
            passage: Passage::new(sections),
            approach: Approach::new(),
            released: None,
        }
    }

    /// How far it is.
    pub fn phase(self) -> Phase
        ensures { result ≡ self.phase }
    {
        self.phase
    }

    /// Whether it is set.
    pub fn is_set(self) -> bool
        ensures { result ≡ is_set self.phase }
    {
        !matches!(self.phase, Phase::Free)
    }

    /// Whether it was given authority in its present setting.
    pub fn was_authorised(self) -> bool
        ensures { result ≡ was_authorised self.phase }
    {
        !matches!(self.phase, Phase::Free | Phase::Waiting)
    }

    /// Whether it has authority: it was given, and isn't ended.
    pub fn has_authority(self) -> bool
        ensures { result ≡ has_authority self.phase }
    {
        matches!(self.phase, Phase::Proceeding | Phase::Withdrawn)
    }

    /// Whether it was cancelled.
    pub fn is_cancelled(self) -> bool
        ensures { result ≡ self.cancelled }
    {
        self.cancelled
    }

    /// Whether its authority was given in its present setting, and is ended.
    pub fn is_ended(self) -> bool
        ensures { result ≡ is_ended self.phase }
    {
        matches!(self.phase, Phase::Ended { .. })
    }

    /// How many of its sections are freed.
    pub fn freed_sections(self) -> usize
        ensures { result ≡ freed_sections self.phase }
    {
        match self.phase {
            Phase::Ended { freed, .. } => freed,
            _ => 0,
        }
    }

    /// The clock reading at which it was released in its last setting, if it was.
    pub fn released(self) -> Option<Millis>
        ensures { result ≡ self.released }
    {
        self.released
    }

    /// What was seen of its sections since it was given authority.
    pub fn passage(self) -> Passage
        ensures { result ≡ self.passage }
    {
        self.passage
    }

    /// Whether its approach was clear since it was given authority.
    pub fn approach(self) -> Approach
        ensures { result ≡ self.approached }
    {
        self.approach
    }

    /// It has come so far.
    pub(crate) fn come_to(self, phase: Phase) -> Route
        ensures { result ≡ come_to phase self }
    {
        Route { phase, ..self }
    }

    /// It is no longer set.
    pub(crate) fn freed(self) -> Route
        ensures { result ≡ freed self }
    {
        Route {
            phase: Phase::Free,
            cancelled: false,
            ..self
        }
    }

    /// It is set.
    pub(crate) fn set_anew(self) -> Route
        ensures { result ≡ set_anew self }
    {
        Route {
            phase: Phase::Waiting,
            cancelled: false,
            released: None,
            ..self
        }
    }

    /// It is cancelled.
    pub(crate) fn cancelled(self) -> Route
        ensures { result ≡ record self { cancelled = true } }
    {
        Route {
            cancelled: true,
            ..self
        }
    }

    /// It is released at this clock, unless it was released before.
    pub(crate) fn released_at(self, now: Millis) -> Route
        ensures { result ≡ released_at now self }
    {
        Route {
            released: self.released.or(Some(now)),
            ..self
        }
    }

    /// It is given authority: its passage and its approach are watched from here on.
    #[tactic(auto, unfolding(release::specs::Approach::approach_after))]
    pub(crate) fn authorised(self, is_approach_clear: bool) -> Route
        ensures { result ≡ record self { phase = phase.Proceeding; passage = passage_after self.passage.sections []; approached = not is_approach_clear } }
    {
        let mut passage = self.passage;
        passage.begin();
        let mut approach = Approach::new();
        approach.see(!is_approach_clear);
        Route {
            phase: Phase::Proceeding,
            cancelled: self.cancelled,
            passage,
            approach,
            released: self.released,
        }
    }

    /// A section is looked at, which stands at this place of its path, or isn't on it.
    pub(crate) fn looks(self, place: Option<usize>, occupied: bool) -> Route
        requires { IfSome place (λ k. k < self.passage.sections) }
        ensures { (section : ℕ) (row : Row) → place ≡ place_in section row.sections → result ≡ route_looks section occupied row self }
    {
        let Some(k) = place else {
            return self;
        };
        let mut passage = self.passage;
        passage.see(k, occupied);
        Route { passage, ..self }
    }

    /// It watches its approach.
    pub(crate) fn watches(self, is_approach_clear: bool) -> Route
        ensures { result ≡ record self { approached = self.approached || not is_approach_clear } }
    {
        let mut approach = self.approach;
        approach.see(!is_approach_clear);
        Route { approach, ..self }
    }
}
