//! Which chain lies on which row. Spots are counted in half rows from above: one of an even number is a new row above the row
//! of half that number, one of an odd number is a row that is there.

use crate::links::Link;
use crate::lists::put;
use crate::sketch::Sketch;
use crate::strands::Strand;
use crate::yard::Place;

/// What it costs to lie on the row of what a chain hangs at.
const SAME_ROW: usize = 4000;
/// What it costs to lie at the side to which the leg doesn't lead.
const WRONG_SIDE: usize = 1000;
/// What each line costs that is crossed.
const CROSSING: usize = 100;
/// What each half row between costs.
const HALF_ROW: usize = 4;
/// What a new row costs.
const NEW_ROW: usize = 10;

/// The spot of a row that is there.
fn spot_of(row: usize) -> usize {
    row.saturating_mul(2).saturating_add(1)
}

/// Whether a spot is a new row.
fn is_new(spot: usize) -> bool {
    spot % 2 == 0
}

impl Sketch {
    /// Places all chains, piece by piece: first the longest chain, and then always the longest that hangs at what is placed,
    /// where it costs least. A piece lies below all that is placed before, but for a line that hangs at nothing, which may
    /// share a row with others.
    pub(crate) fn lay_rows(&mut self) {
        let mut lines = None;
        for piece in 0..self.pieces {
            let mut base = self.row_count;
            if self.is_line(piece) {
                base = lines.unwrap_or(base);
                lines = Some(base);
            }
            self.fill(piece, base);
        }
    }

    /// Places all chains of a piece, at a first row or below.
    fn fill(&mut self, piece: usize, base: usize) {
        for _ in 0..self.strands.len() {
            match self.next_chain(piece) {
                Some(chain) => self.place_chain(chain, base),
                None => return,
            }
        }
    }

    /// The row of an element, if its chain is placed.
    fn row_of(&self, element: usize) -> Option<usize> {
        match self.facts(element).chain {
            Some(chain) => self.strand(chain).row,
            None => None,
        }
    }

    /// The row of an element.
    pub(crate) fn row(&self, element: usize) -> usize {
        self.row_of(element).unwrap_or(0)
    }

    /// The row of its own of a link within one chain.
    pub(crate) fn link_row(&self, link: Link) -> Option<usize> {
        match link.chain {
            Some(chain) => self.strand(chain).row,
            None => None,
        }
    }

    /// The chain that is placed next.
    fn next_chain(&self, piece: usize) -> Option<usize> {
        let mut best = None;
        let mut most = 0;
        for chain in 0..self.strands.len() {
            let strand = self.strand(chain);
            if strand.piece == piece && strand.row.is_none() {
                let claim = self.claim(chain);
                if most < claim {
                    best = Some(chain);
                    most = claim;
                }
            }
        }
        best
    }

    /// How much a chain claims to be placed next: more than any other where it hangs at one that is placed.
    fn claim(&self, chain: usize) -> usize {
        let length = self.strand(chain).length.saturating_add(1);
        if self.hangs(chain) {
            length.saturating_add(self.elements.len()).saturating_add(1)
        } else {
            length
        }
    }

    /// Whether a chain hangs at one that is placed: by a link that joins it, or that is the chain itself.
    fn hangs(&self, chain: usize) -> bool {
        for link in &self.links {
            let from = link.from.element;
            let to = link.to.element;
            let is_part = link.chain == Some(chain)
                || self.facts(from).chain == Some(chain)
                || self.facts(to).chain == Some(chain);
            if is_part && (self.row_of(from).is_some() || self.row_of(to).is_some()) {
                return true;
            }
        }
        false
    }

    /// Places a chain where it costs least, on a row or on a new one.
    fn place_chain(&mut self, chain: usize, base: usize) {
        let first = base.saturating_mul(2);
        let mut best = first;
        let mut least = usize::MAX;
        for spot in first..spot_of(self.row_count) {
            let cost = self.cost(chain, spot);
            if cost < least {
                best = spot;
                least = cost;
            }
        }
        if is_new(best) {
            self.make_room(best / 2);
        }
        let mut strand = self.strand(chain);
        strand.row = Some(best / 2);
        put(&mut self.strands, chain, strand);
    }

    /// Makes a new row: what lies there or below it lies one lower.
    fn make_room(&mut self, row: usize) {
        for chain in 0..self.strands.len() {
            let mut strand = self.strand(chain);
            if let Some(own) = strand.row {
                strand.row = Some(if row <= own {
                    own.saturating_add(1)
                } else {
                    own
                });
                put(&mut self.strands, chain, strand);
            }
        }
        self.row_count = self.row_count.saturating_add(1);
    }

    /// What it costs a chain to lie at a spot.
    fn cost(&self, chain: usize, spot: usize) -> usize {
        let mine = self.strand(chain);
        if !is_new(spot) && !self.is_free(mine, spot / 2) {
            return usize::MAX;
        }
        let mut cost = if is_new(spot) { NEW_ROW } else { 0 };
        for link in &self.links {
            cost = cost
                .saturating_add(self.cost_at(chain, *link, link.from, link.to, spot))
                .saturating_add(self.cost_at(chain, *link, link.to, link.from, spot))
                .saturating_add(self.cost_over(mine, *link, spot));
        }
        cost
    }

    /// Whether no chain of a row reaches as far as this one, and all may lie beside it: they are of one piece, or all of lines
    /// that hang at nothing.
    fn is_free(&self, mine: Strand, row: usize) -> bool {
        for strand in &self.strands {
            let may_share = strand.piece == mine.piece
                || (self.is_line(strand.piece) && self.is_line(mine.piece));
            let is_in_the_way = strand.touches(mine.low, mine.high) || !may_share;
            if strand.row == Some(row) && is_in_the_way {
                return false;
            }
        }
        true
    }

    /// What a link costs that a chain would cross: both its ends are placed, one above and one below.
    fn cost_over(&self, mine: Strand, link: Link, spot: usize) -> usize {
        let Some(from) = self.row_of(link.from.element) else {
            return 0;
        };
        let Some(to) = self.row_of(link.to.element) else {
            return 0;
        };
        let is_between = spot_of(from.min(to)) < spot && spot < spot_of(from.max(to));
        if is_between && self.passes(link, mine) {
            CROSSING
        } else {
            0
        }
    }

    /// What one end of a link costs, if it is placed and a chain hangs at it.
    fn cost_at(&self, chain: usize, link: Link, other: Place, own: Place, spot: usize) -> usize {
        let Some(row) = self.row_of(other.element) else {
            return 0;
        };
        let is_own_row = link.chain == Some(chain);
        let hangs = self.facts(own.element).chain == Some(chain)
            && self.facts(other.element).chain != Some(chain);
        if !is_own_row && !hangs {
            return 0;
        }
        let mut cost: usize = 0;
        if !self.is_level(other) {
            cost = self.pulled(link, row, self.leads_up(other), spot);
        }
        if hangs && !self.is_level(own) {
            cost = cost.saturating_add(self.pulled(link, row, !self.leads_up(own), spot));
        }
        cost
    }

    /// What it costs to lie at a spot where a chain should lie above or below the row at which it hangs by a link.
    fn pulled(&self, link: Link, row: usize, up: bool, spot: usize) -> usize {
        let theirs = spot_of(row);
        if spot == theirs {
            return SAME_ROW;
        }
        let side = if (spot < theirs) == up { 0 } else { WRONG_SIDE };
        let above = spot.min(theirs);
        let below = spot.max(theirs);
        side.saturating_add(below.saturating_sub(above).saturating_mul(HALF_ROW))
            .saturating_add(self.crossed(link, above, below).saturating_mul(CROSSING))
    }

    /// How many chains lie between two spots where a link passes.
    fn crossed(&self, link: Link, above: usize, below: usize) -> usize {
        let mut count: usize = 0;
        for strand in &self.strands {
            if let Some(row) = strand.row {
                let is_between = above < spot_of(row) && spot_of(row) < below;
                if is_between && self.passes(link, *strand) {
                    count = count.saturating_add(1);
                }
            }
        }
        count
    }

    /// Whether a link passes where a chain reaches, by their ranks.
    fn passes(&self, link: Link, strand: Strand) -> bool {
        let from = self.facts(link.from.element).rank;
        let to = self.facts(link.to.element).rank;
        strand.touches(from.min(to), from.max(to))
    }
}
