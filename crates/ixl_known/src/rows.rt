//! What is known of sections and points, as rows of bits.

ghost use Rattle.std.specs.Prelude.{◌≡◌, ◌==◌, ◌&&◌, ◌||◌, ◌<◌, ◌≤◌, ℕ, length, slice_get, not, IsTrue, List, Some, if◌then◌else◌};
ghost use Rattle.std.specs.FinSet.{contains};
ghost use Rattle.ixl_spec.specs.State.{KnownDetectorState};
ghost use Rattle.ixl_known.specs.inside.Rows.{ArePointRows, AreRowsSoFar, AreSectionRows, told_as};

use crate::{KnownDetector, KnownPoint};
use ixl_spec::{BitRow, Side};

/// The sections that are clear, and those that are occupied. The others are unknown.
#[derive(Clone, Copy, Debug)]
pub(crate) struct SectionRows {
    pub(crate) clear: BitRow,
    pub(crate) occupied: BitRow,
}

/// The points that are available, and those that are known at a side.
#[derive(Clone, Copy, Debug)]
pub(crate) struct PointRows {
    pub(crate) available: BitRow,
    pub(crate) right: BitRow,
    pub(crate) left: BitRow,
}

/// Whether the section that a detector reports at this place was last told as occupied; nothing where the detector isn't
/// ready.
fn told(detectors: &[KnownDetector], reporter: (usize, usize)) -> Option<bool>
    ensures { result ≡ told_as detectors.now reporter }
{
    if reporter.0 >= detectors.len() || !detectors[reporter.0].is_ready() {
        return None;
    }
    Some(detectors[reporter.0].occupied().contains(reporter.1))
}

/// A row that has a place exactly where a test of it passes, and else is as it was.
fn exactly_where(row: BitRow, place: usize, passes: bool) -> BitRow
    requires { place < 64 }
    ensures { (other : ℕ) → contains result other ≡ (if other == place then passes else contains row other) }
{
    if passes {
        row.with(place)
    } else {
        row.without(place)
    }
}

impl SectionRows {
    /// What the detectors tell of the sections.
    pub(crate) fn of(reporters: &[(usize, usize)], detectors: &[KnownDetector]) -> SectionRows
        requires { length reporters.now ≤ 64 }
        ensures { AreSectionRows reporters.now detectors.now result }
    {
        let mut clear = BitRow::empty();
        let mut occupied = BitRow::empty();
        for (section, reporter) in reporters.iter().enumerate() {
            match told(detectors, *reporter) {
                Some(true) => occupied = occupied.with(section),
                Some(false) => clear = clear.with(section),
                None => {}
            }
        }
        SectionRows { clear, occupied }
    }

    /// The rows where a section's detector is ready or isn't, and tells it as occupied or not.
    fn with_told(self, section: usize, is_ready: bool, is_occupied: bool) -> SectionRows
        requires { section < 64 }
        ensures clear { (other : ℕ) → contains result.clear other ≡ (if other == section then (is_ready && not is_occupied) else contains self.clear other) }
        ensures occupied { (other : ℕ) → contains result.occupied other ≡ (if other == section then (is_ready && is_occupied) else contains self.occupied other) }
    {
        SectionRows {
            clear: exactly_where(self.clear, section, is_ready && !is_occupied),
            occupied: exactly_where(self.occupied, section, is_ready && is_occupied),
        }
    }

    /// The rows once one detector may tell something else than before: those of its own sections are made anew.
    pub(crate) fn renewed(
        self,
        place: usize,
        detector: &KnownDetector,
        reporters: &[(usize, usize)],
    ) -> SectionRows
        requires { length reporters.now ≤ 64 }
        ensures { (detectors : List KnownDetectorState) → slice_get detectors place ≡ Some detector.now → AreRowsSoFar place 0 reporters.now detectors self → AreSectionRows reporters.now detectors result }
    {
        let is_ready = detector.is_ready();
        let told = detector.occupied();
        let mut rows = self;
        for (section, reporter) in reporters.iter().enumerate() {
            if reporter.0 == place {
                rows = rows.with_told(section, is_ready, told.contains(reporter.1));
            }
        }
        rows
    }

    /// The rows as they are where the detectors tell the same as before, else made anew.
    pub(crate) fn kept_or_made(
        self,
        alike: bool,
        reporters: &[(usize, usize)],
        detectors: &[KnownDetector],
    ) -> SectionRows
        requires few { length reporters.now ≤ 64 }
        requires kept { IsTrue alike → AreSectionRows reporters.now detectors.now self }
        ensures { AreSectionRows reporters.now detectors.now result }
    {
        if alike {
            self
        } else {
            SectionRows::of(reporters, detectors)
        }
    }
}

/// A row that also has a place, where a test of it passes.
fn with_where(row: BitRow, place: usize, passes: bool) -> BitRow
    requires { place < 64 }
    ensures { (other : ℕ) → contains result other ≡ (passes && other == place || contains row other) }
{
    if passes { row.with(place) } else { row }
}

impl PointRows {
    /// What is known of the points.
    pub(crate) fn of(known_points: &[KnownPoint]) -> PointRows
        requires { length known_points.now ≤ 64 }
        ensures { ArePointRows known_points.now result }
    {
        let mut available = BitRow::empty();
        let mut right = BitRow::empty();
        let mut left = BitRow::empty();
        for (point, known_point) in known_points.iter().enumerate() {
            available = with_where(available, point, known_point.is_available());
            right = with_where(right, point, known_point.is_known(Side::Right));
            left = with_where(left, point, known_point.is_known(Side::Left));
        }
        PointRows {
            available,
            right,
            left,
        }
    }

    /// The rows as they are where all points are known as before, else made anew.
    pub(crate) fn kept_or_made(self, alike: bool, known_points: &[KnownPoint]) -> PointRows
        requires few { length known_points.now ≤ 64 }
        requires kept { IsTrue alike → ArePointRows known_points.now self }
        ensures { ArePointRows known_points.now result }
    {
        if alike {
            self
        } else {
            PointRows::of(known_points)
        }
    }
}
