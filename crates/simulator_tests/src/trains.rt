//! Trains that run on routes.

use simulator::{Checked, Occupancy, RouteId, SectionId};

/// A train on a route: how many of its moves it has made.
#[derive(Clone, Copy)]
pub(crate) struct Train {
    pub(crate) route: RouteId,
    pub(crate) moves: usize,
}

/// A section of a train's way by its place: first that on which it comes to the signal, then those of the route.
fn section_at(table: &Checked, route: RouteId, place: usize) -> Option<SectionId> {
    let entry = table.layout().routes().get(route.0)?;
    match place.checked_sub(1) {
        None => entry.approach().first().copied(),
        Some(place) => table.sections(route).get(place).copied(),
    }
}

/// How many moves a train makes on a route: each section is occupied and then cleared.
pub(crate) fn moves_on(table: &Checked, route: RouteId) -> usize {
    match table.layout().routes().get(route.0) {
        Some(_) => table
            .sections(route)
            .len()
            .saturating_mul(2)
            .saturating_add(4),
        None => 0,
    }
}

impl Train {
    /// A train that comes to the signal of a route.
    pub(crate) fn to(route: RouteId) -> Train {
        Train { route, moves: 0 }
    }

    /// Whether it has left its route.
    pub(crate) fn has_left(&self, table: &Checked) -> bool {
        self.moves >= moves_on(table, self.route)
    }

    /// Its next move: it occupies each section before it clears the one after. Where there is no such section it does
    /// nothing.
    pub(crate) fn proceed(&mut self, table: &Checked) -> Option<(SectionId, Occupancy)> {
        let done = self.moves;
        self.moves = done.saturating_add(1);
        let (place, occupancy) = match done {
            0 => (0, Occupancy::Occupied),
            done if done % 2 == 0 => ((done / 2).saturating_sub(1), Occupancy::Clear),
            done => ((done / 2).saturating_add(1), Occupancy::Occupied),
        };
        let section = section_at(table, self.route, place)?;
        Some((section, occupancy))
    }
}
