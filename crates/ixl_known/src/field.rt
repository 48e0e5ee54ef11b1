//! The controllers of a station.

ghost use Rattle.std.specs.Prelude.{◌≡◌, ◌≤◌, ◌↔◌, length, IsTrue};
ghost use Rattle.ixl_known.specs.Field.{MayStepAll};

use crate::rows::{PointRows, SectionRows};
use crate::{KnownDetector, KnownPoint, KnownSignal};
use std::marker::Model;

/// The nodes of a station's controllers, and where each of its sections is reported: by which detector, at which place of
/// its order. Beside them stand rows of what is known of sections and points, which follow from these.
#[derive(Debug)]
pub struct Field {
    pub(crate) known_signals: Vec<KnownSignal>,
    pub(crate) known_points: Vec<KnownPoint>,
    pub(crate) detectors: Vec<KnownDetector>,
    pub(crate) reporters: Vec<(usize, usize)>,
    pub(crate) sections: SectionRows,
    pub(crate) points: PointRows,
}

// Written by hand, so that it is proved and compiled here alone.
impl Drop for Field {
    fn drop(self) {
        let Self {
            known_signals: _,
            known_points: _,
            detectors: _,
            reporters: _,
            sections: _,
            points: _,
        } = self;
    }
}

impl Model for Field {
    ghost use Rattle.std.specs.Coded.{codes};
    ghost use Rattle.ixl_spec.specs.bit_row.Places.{places_code};
    ghost use Rattle.ixl_known.specs.Field.{FieldState};
    ghost use Rattle.ixl_known.specs.inside.Rows.{IsField};

    ghost Value = { FieldState };

    ghost coded = { Prim.hlevel (codes, places_code) };

    ghost view = { λ f. record { known_signals = f.known_signals.items; known_points = f.known_points.items; detectors = f.detectors.items; reporters = f.reporters.items } };

    ghost invariant = { λ f. IsField (record { known_signals = f.known_signals.items; known_points = f.known_points.items; detectors = f.detectors.items; reporters = f.reporters.items }) f.sections f.points };
}

impl Field {
    /// The field of these nodes.
    pub fn new(
        known_signals: Vec<KnownSignal>,
        known_points: Vec<KnownPoint>,
        detectors: Vec<KnownDetector>,
        reporters: Vec<(usize, usize)>,
    ) -> Field
        requires sections { length reporters.items ≤ 64 }
        requires points { length known_points.items ≤ 64 }
        ensures { result ≡ record { known_signals = known_signals.items; known_points = known_points.items; detectors = detectors.items; reporters = reporters.items } }
    {
        let sections = SectionRows::of(&reporters, &detectors);
        let points = PointRows::of(&known_points);
        Field {
            known_signals,
            known_points,
            detectors,
            reporters,
            sections,
            points,
        }
    }
}
