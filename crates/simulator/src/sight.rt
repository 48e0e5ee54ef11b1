//! The snapshot of a world.

ghost use Rattle.std.specs.Prelude.{◌≡◌, map};
ghost use Rattle.simulator_spec.specs.Refusals.{driven_by};
ghost use Rattle.simulator_spec.specs.Seen.{IsSnapshotOf, as_shown, as_stands};
ghost use Rattle.simulator.specs.inside.Parts.{IsWhole, seen, table_of};

use crate::parts::Parts;
use arrayvec::ArrayVec;
use simulator_spec::{PointId, Shown, Side, SignalId, Snapshot, Stands};

impl Parts {
    /// What each signal shows.
    fn shows(&self) -> ArrayVec<Shown, 32>
        requires { IsWhole self.now }
        ensures { result.items ≡ map as_shown self.now.field.signals.items }
    {
        let mut shows = ArrayVec::new();
        for place in 0..self.layout().signals().len() {
            shows.push(Shown(self.shown(SignalId(place))));
        }
        shows
    }

    /// Where each point stands.
    fn stands(&self) -> ArrayVec<Stands, 32>
        requires { IsWhole self.now }
        ensures { result.items ≡ map as_stands self.now.field.positions.items }
    {
        let mut stands = ArrayVec::new();
        for place in 0..self.layout().points().len() {
            stands.push(Stands(self.field.positions[place]));
        }
        stands
    }

    /// The side to which each point is driven.
    fn drives(&self) -> ArrayVec<Option<Side>, 32>
        requires { IsWhole self.now }
        ensures { result.items ≡ map driven_by self.now.field.points.items }
    {
        let mut drives = ArrayVec::new();
        for place in 0..self.layout().points().len() {
            drives.push(self.driven(PointId(place)));
        }
        drives
    }

    /// What is seen of the station at the clocks of this moment.
    pub(crate) fn snapshot(&self) -> Snapshot
        requires { IsWhole self.now }
        ensures { IsSnapshotOf (table_of self.now) (seen self.now) result }
    {
        Snapshot {
            shows: self.shows(),
            held: self.held(),
            position: self.stands(),
            driven: self.drives(),
        }
    }
}
