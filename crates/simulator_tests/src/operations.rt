//! Commands that operate a station through failures, as a hostile world would have them.

use crate::events::Hostile;
use simulator::simulator_spec::ixl_spec::{Named, Thing};
use simulator::{Checked, Command, Layout, PointId, RouteId, SectionId, Side, SignalId};

impl Hostile {
    /// A release, a move, a close or an open; the place after the last stands for what isn't there. Most are to open, so that most
    /// things are open.
    pub(crate) fn operation(&mut self, table: &Checked) -> Command {
        let layout = table.layout();
        match self.chance.below(10) {
            0..=2 => Command::Release(RouteId(self.place(layout.routes().len()))),
            3 => Command::Move(self.point(layout), self.side()),
            4 => Command::Close(self.named(layout)),
            _ => Command::Open(self.named(layout)),
        }
    }

    fn point(&mut self, layout: &Layout) -> PointId {
        PointId(self.place(layout.points().len().saturating_add(1)))
    }

    fn side(&mut self) -> Side {
        if self.chance.once_in(2) {
            Side::Left
        } else {
            Side::Right
        }
    }

    /// What is closed or opened.
    fn named(&mut self, layout: &Layout) -> Named {
        match self.chance.below(5) {
            0 => Named::BothSides(self.point(layout)),
            1 => Named::One(Thing::Point(self.point(layout), self.side())),
            2 => Named::One(Thing::Section(SectionId(self.place(
                layout.sections().len().saturating_add(1),
            )))),
            3 => Named::One(Thing::Signal(SignalId(self.place(
                layout.signals().len().saturating_add(1),
            )))),
            _ => Named::One(Thing::Route(RouteId(self.place(
                layout.routes().len().saturating_add(1),
            )))),
        }
    }
}
