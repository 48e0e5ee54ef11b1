//! Which part of true time is drawn, and where.

ghost use Rattle.std.specs.Prelude.{◌≡◌, ◌≤◌, ◌-◌};
ghost use Rattle.lane_chart.specs.Spans.{is_within, unit_of, units_of};
ghost use Rattle.lane_chart.specs.Strokes.{on_paper, place_of};

/// Where the bands begin.
pub(crate) const LEFT: i32 = 190;
/// How many units the drawn time has.
pub(crate) const WIDTH: u64 = 1380;
/// Where the bands end.
pub(crate) const RIGHT: i32 = 1570;

/// The part of true time that is drawn, in microseconds.
#[derive(Clone, Copy)]
pub struct Window {
    /// Where it begins.
    pub from: u64,
    /// Where it ends.
    pub to: u64,
}

impl Window {
    /// Whether a time lies in it.
    pub(crate) fn has(self, time: u64) -> bool
        ensures { result ≡ is_within self time }
    {
        self.from <= time && time <= self.to
    }

    /// How many units a length of time has; none where no time is drawn.
    pub(crate) fn units(self, length: u64) -> u64
        ensures { result ≡ units_of self length }
    {
        let all = self.to.saturating_sub(self.from);
        if all == 0 {
            return 0;
        }
        length.saturating_mul(WIDTH) / all
    }

    /// In which unit a time lies. What is earlier lies in the first one.
    pub(crate) fn unit(self, time: u64) -> u64
        ensures { result ≡ unit_of self time }
    {
        self.units(time.saturating_sub(self.from))
    }

    /// Where a time lies on the paper.
    pub(crate) fn place(self, time: u64) -> i32
        ensures { result ≡ place_of (unit_of self time) }
    {
        place_of(self.unit(time))
    }
}

/// Where a unit lies on the paper. What lies after the last one lies there.
pub(crate) fn place_of(unit: u64) -> i32
    ensures { result ≡ place_of unit }
{
    on_paper(unit.min(WIDTH))
}

/// Where something lies on the paper, so many units after where the bands begin.
pub(crate) fn on_paper(units: u64) -> i32
    requires { units ≤ 1381 }
    ensures { result ≡ on_paper units }
{
    match i32::try_from(units) {
        Ok(units) => LEFT.saturating_add(units),
        Err(_) => LEFT,
    }
}
