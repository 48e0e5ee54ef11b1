//! How the station of a file lies when it is started.

ghost use Rattle.std.specs.Prelude.{◌≡◌, IfOk, slice_set};
ghost use Rattle.simulator.specs.simulator_spec.First.{IsOutsetOf, at_rest};
ghost use Rattle.replay.specs.Outset.{begun_in, line_in, outset_of};
ghost use Rattle.replay.specs.inside.Outsets.{outset_in};

use replay_lines::{Begun, SimLine};
use simulator::{Layout, Occupancy, PointId, Position, SectionId};
use std::alloc::{AllocError, Global};

/// Where each point stands when a station is started, and which sections are occupied.
#[derive(Drop)]
pub(crate) struct Outset {
    pub(crate) positions: Vec<Position>,
    pub(crate) occupancies: Vec<Occupancy>,
}

impl Outset {
    /// As lines say: where they say nothing, a point stands left, and a section is clear.
    pub(crate) fn of(
        alloc: Global,
        layout: &Layout,
        lines: &[SimLine],
    ) -> Result<Outset, AllocError>
        ensures said { IfOk result (λ outset. outset_in outset ≡ outset_of layout.now lines.now) }
        ensures fits { IfOk result (λ outset. IsOutsetOf layout.now (outset_in outset)) }
    {
        let mut outset = Outset::at_rest(alloc, layout)?;
        for line in lines {
            outset.begin(line);
        }
        Ok(outset)
    }

    /// Every point stands left, and every section is clear.
    fn at_rest(alloc: Global, layout: &Layout) -> Result<Outset, AllocError>
        ensures { IfOk result (λ outset. outset_in outset ≡ at_rest layout.now) }
    {
        let positions = vec![in alloc; Position::Left; layout.points().len()]?;
        let occupancies = vec![in alloc; Occupancy::Clear; layout.sections().len()]?;
        Ok(Outset {
            positions,
            occupancies,
        })
    }

    /// What a line names begins as it says.
    fn begin(&mut self, line: &SimLine)
        ensures { outset_in self.new ≡ line_in (outset_in self.old) line.now }
    {
        if let SimLine::Begins(begun) = line {
            self.lay(*begun);
        }
    }

    /// A point or a section lies so.
    fn lay(&mut self, begun: Begun)
        ensures { outset_in self.new ≡ begun_in (outset_in self.old) begun }
    {
        match begun {
            Begun::Point { point, position } => self.stand(point, position),
            Begun::Section { section, occupancy } => self.occupy(section, occupancy),
        }
    }

    /// A point of the layout stands so.
    fn stand(&mut self, point: PointId, position: Position)
        ensures { outset_in self.new ≡ record (outset_in self.old) { positions = slice_set self.old.positions.items point.0 position } }
    {
        if let Some(stands) = self.positions.get_mut(point.0) {
            *stands = position;
        }
    }

    /// A section of the layout is so.
    fn occupy(&mut self, section: SectionId, occupancy: Occupancy)
        ensures { outset_in self.new ≡ record (outset_in self.old) { occupancies = slice_set self.old.occupancies.items section.0 occupancy } }
    {
        if let Some(lies) = self.occupancies.get_mut(section.0) {
            *lies = occupancy;
        }
    }
}
