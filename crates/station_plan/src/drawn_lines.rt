//! Where a layout is drawn by hand: along lines on a grid.

use crate::sketch::{Sketch, spot};
use crate::subjects::element_name;
use crate::units::Units;
use crate::yard::{Place, port_number};
use control_table::Layout;
use control_table::layout::{Element, End, Joint};
use drawing::Spot;
use std::alloc::{AllocError, Global};

/// How long a step of the grid is at most, and at least.
const LONGEST_STEP: i64 = 34;

const SHORTEST_STEP: i64 = 28;

/// How wide a drawing is to be.
const WIDTH: i64 = 1500;

/// The farthest places of the grid.
const FARTHEST: u64 = 4000;

/// A line of a drawing: the name of a track, of a port of a point as `W1.tip`, or of a border, and its ends and bends, of
/// each how far right and how far down it lies on the grid: of a track from `a` to `b`, of a port from the point outward.
#[derive(Debug, Drop)]
pub struct DrawnLine {
    pub name: String,
    pub numbers: Vec<i64>,
}

/// Which way a line leads: to the right or the left, and down or up.
#[derive(Clone, Copy, PartialEq, Eq)]
pub(crate) struct Heading {
    pub(crate) side: i32,
    pub(crate) slope: i32,
}

impl Heading {
    /// Whether it leads neither up nor down, nor straight up or down.
    pub(crate) fn is_slanted(self) -> bool {
        self.side != 0 && self.slope != 0
    }

    /// A spot so far along it from another.
    pub(crate) fn along(self, from: Spot, length: i32) -> Spot {
        Spot {
            x: from.x.saturating_add(self.side.saturating_mul(length)),
            y: from.y.saturating_add(self.slope.saturating_mul(length)),
        }
    }

    /// The way to its right.
    pub(crate) fn right(self) -> Heading {
        Heading {
            side: self.slope.saturating_neg(),
            slope: self.side,
        }
    }
}

/// The way from a spot to another: to the right where they are the same.
fn heading_of(from: Spot, to: Spot) -> Heading {
    let side = to.x.saturating_sub(from.x).signum();
    let slope = to.y.saturating_sub(from.y).signum();
    if side == 0 && slope == 0 {
        return Heading { side: 1, slope: 0 };
    }
    Heading { side, slope }
}

/// Whether a line leads level, straight down, or by 45 degrees.
fn is_straight(from: Spot, to: Spot) -> bool {
    let wide = Units(from.x).distance(Units(to.x));
    let high = Units(from.y).distance(Units(to.y));
    let is_somewhere = wide.0 != 0 || high.0 != 0;
    is_somewhere && (wide.0 == 0 || high.0 == 0 || wide.0 == high.0)
}

/// How far to the left and to the right the places of a line reach, with what was reached before.
fn reached(before: (i64, i64), numbers: &[i64]) -> (i64, i64) {
    let (mut left, mut right) = before;
    for (place, number) in numbers.iter().enumerate() {
        if place % 2 == 0 {
            left = left.min(*number);
            right = right.max(*number);
        }
    }
    (left, right)
}

/// How long a step of the grid is: an even length, by which a drawing that isn't too wide is as wide as it may be.
fn step_of(lines: &[DrawnLine]) -> i32 {
    let mut reach = (i64::MAX, i64::MIN);
    for line in lines {
        reach = reached(reach, &line.numbers);
    }
    let steps = reach.1.saturating_sub(reach.0).max(1);
    let step = WIDTH.checked_div(steps).unwrap_or(SHORTEST_STEP);
    let even = step.saturating_div(2).saturating_mul(2);
    i32::try_from(even.max(SHORTEST_STEP).min(LONGEST_STEP)).unwrap_or(34)
}

/// A place of the grid as a spot, if it is near enough.
fn spot_at(step: i32, across: i64, down: i64) -> Option<Spot> {
    if across.unsigned_abs() > FARTHEST || down.unsigned_abs() > FARTHEST {
        return None;
    }
    let across = i32::try_from(across).ok()?;
    let down = i32::try_from(down).ok()?;
    Some(spot(Units(step).times(across), Units(step).times(down)))
}

/// The spots of a line, if they are places of the grid that lines join.
fn spots_of(alloc: Global, step: i32, numbers: &[i64]) -> Result<Option<Vec<Spot>>, AllocError> {
    let mut spots = Vec::new(alloc);
    for pair in numbers.chunks(2) {
        let [across, down] = pair else {
            return Ok(None);
        };
        let Some(next) = spot_at(step, *across, *down) else {
            return Ok(None);
        };
        if !spots.is_empty() && !is_straight(last(&spots), next) {
            return Ok(None);
        }
        spots.push(next)?;
    }
    Ok(Some(spots))
}

/// The spots of a line by its name, if there is one.
fn spots_named(
    alloc: Global,
    lines: &[DrawnLine],
    name: &str,
    port: &str,
) -> Result<Option<Vec<Spot>>, AllocError> {
    let wanted = format!(in alloc; "{name}{port}")?;
    for line in lines {
        if line.name.as_str() == wanted.as_str() {
            return spots_of(alloc, step_of(lines), &line.numbers);
        }
    }
    Ok(None)
}

/// The origin.
const NOWHERE: Spot = Spot { x: 0, y: 0 };

/// The first spot of a line.
fn first(spots: &[Spot]) -> Spot {
    spots.first().copied().unwrap_or(NOWHERE)
}

/// The last spot of a line.
fn last(spots: &[Spot]) -> Spot {
    spots.last().copied().unwrap_or(NOWHERE)
}

/// How long a part of a line is, by the longer of its two lengths.
fn length(from: Spot, to: Spot) -> i32 {
    let wide = Units(from.x).distance(Units(to.x));
    wide.or_more(Units(from.y).distance(Units(to.y))).0
}

/// The place of the longest part of a line.
fn longest_part(spots: &[Spot]) -> usize {
    let mut best = 0;
    let mut most = -1;
    let mut before = first(spots);
    for (place, one) in spots.iter().enumerate().skip(1) {
        let long = length(before, *one);
        if long > most {
            best = place.saturating_sub(1);
            most = long;
        }
        before = *one;
    }
    best
}

/// The two halves of a line, from its beginning and from its end, which meet in the middle of its longest part.
fn halves(alloc: Global, spots: &[Spot]) -> Result<(Vec<Spot>, Vec<Spot>), AllocError> {
    let part = longest_part(spots);
    let before = spots.get(part).copied().unwrap_or(NOWHERE);
    let behind = spots.get(part.saturating_add(1)).copied().unwrap_or(before);
    let middle = spot(
        (Units(before.x) + Units(behind.x)).half(),
        (Units(before.y) + Units(behind.y)).half(),
    );
    let (begun, rest) = spots.split_at(part.saturating_add(1).min(spots.len()));
    let mut front = Vec::from_slice(alloc, begun)?;
    front.push(middle)?;
    let mut back = turned(alloc, rest)?;
    back.push(middle)?;
    Ok((front, back))
}

/// The same line from its end.
fn turned(alloc: Global, spots: &[Spot]) -> Result<Vec<Spot>, AllocError> {
    let mut other = Vec::new(alloc);
    for one in spots.iter().rev() {
        other.push(*one)?;
    }
    Ok(other)
}

/// A line, and another one behind it that begins where it ends.
fn with(mut spots: Vec<Spot>, behind: &[Spot]) -> Result<Vec<Spot>, AllocError> {
    for one in behind.iter().skip(1) {
        spots.push(*one)?;
    }
    Ok(spots)
}

/// The word of a port of a point.
fn port_word(end: End) -> &'static str {
    match end {
        End::Tip => ".tip",
        End::Left => ".left",
        End::Right => ".right",
        End::A | End::B | End::End => "",
    }
}

impl Sketch {
    /// Takes up where a layout is drawn by hand, where these lines say of each element where it lies, and what is joined
    /// meets. It answers whether they do.
    pub(crate) fn draw_by_hand(
        &mut self,
        layout: &Layout,
        lines: &[DrawnLine],
    ) -> Result<bool, AllocError> {
        if lines.is_empty() {
            return Ok(false);
        }
        let whole = self.take_lines(layout, lines)?;
        self.part_runs(layout.joints())?;
        let borders = self.take_borders(layout, lines)?;
        if whole && borders && self.meet(layout.joints()) {
            return Ok(true);
        }
        self.drawn.clear();
        Ok(false)
    }

    /// Takes up the lines of tracks and points. It answers whether each has one.
    fn take_lines(&mut self, layout: &Layout, lines: &[DrawnLine]) -> Result<bool, AllocError> {
        for _ in 0..self.ports.len() {
            self.drawn.push(Vec::new(self.alloc))?;
        }
        for element in 0..self.numbers.border(0) {
            if !self.take_line(layout, lines, element)? {
                return Ok(false);
            }
        }
        Ok(true)
    }

    /// Takes up the line of a track, or the lines of a point.
    fn take_line(
        &mut self,
        layout: &Layout,
        lines: &[DrawnLine],
        element: usize,
    ) -> Result<bool, AllocError> {
        let Some(name) = element_name(layout, self.numbers.element(element)) else {
            return Ok(false);
        };
        if matches!(self.numbers.element(element), Element::Track(_)) {
            let Some(spots) = spots_named(self.alloc, lines, name.as_str(), "")? else {
                return Ok(false);
            };
            return self.take_track(element, &spots);
        }
        for end in self.numbers.ends(element) {
            let word = port_word(*end);
            let Some(spots) = spots_named(self.alloc, lines, name.as_str(), word)? else {
                return Ok(false);
            };
            self.set_line(Place { element, end: *end }, spots);
        }
        Ok(self.is_whole_point(element))
    }

    /// Takes up the line of a track: of each end the half that leads there.
    fn take_track(&mut self, element: usize, spots: &[Spot]) -> Result<bool, AllocError> {
        if spots.len() < 2 {
            return Ok(false);
        }
        let (front, back) = halves(self.alloc, spots)?;
        let front = turned(self.alloc, &front)?;
        let back = turned(self.alloc, &back)?;
        self.set_line(
            Place {
                element,
                end: End::A,
            },
            front,
        );
        self.set_line(
            Place {
                element,
                end: End::B,
            },
            back,
        );
        Ok(true)
    }

    /// Whether the three lines of a point begin at one spot, and each leads away from it.
    fn is_whole_point(&self, element: usize) -> bool {
        let tip = first(self.line_at(Place {
            element,
            end: End::Tip,
        }));
        for end in self.numbers.ends(element) {
            let line = self.line_at(Place { element, end: *end });
            if line.len() < 2 || first(line) != tip {
                return false;
            }
        }
        true
    }

    /// Takes up where borders lie: where what is joined to them ends, or where a line says so.
    fn take_borders(&mut self, layout: &Layout, lines: &[DrawnLine]) -> Result<bool, AllocError> {
        for element in self.numbers.border(0)..self.numbers.all() {
            let place = Place {
                element,
                end: End::End,
            };
            let line = match self.port(place).mate {
                Some(mate) => Some(Vec::from_array(self.alloc, [last(self.line_at(mate))])?),
                None => match element_name(layout, self.numbers.element(element)) {
                    Some(name) => spots_named(self.alloc, lines, name.as_str(), "")?,
                    None => None,
                },
            };
            match line {
                Some(line) if !line.is_empty() => self.set_line(place, line),
                _ => return Ok(false),
            }
        }
        Ok(true)
    }

    /// Where two points are joined rail to rail each line leads to the other point: each takes its half.
    fn part_runs(&mut self, joints: &[Joint]) -> Result<(), AllocError> {
        for joint in joints {
            let one = self.numbers.place(joint.first);
            let other = self.numbers.place(joint.second);
            let (mine, theirs) = (self.line_at(one), self.line_at(other));
            let reaches = last(mine) == first(theirs) && last(theirs) == first(mine);
            if mine.len() > 1 && theirs.len() > 1 && reaches {
                let (front, back) = halves(self.alloc, mine)?;
                self.set_line(one, front);
                self.set_line(other, back);
            }
        }
        Ok(())
    }

    /// Whether all that is joined meets.
    fn meet(&self, joints: &[Joint]) -> bool {
        for joint in joints {
            let one = last(self.line_at(self.numbers.place(joint.first)));
            let other = last(self.line_at(self.numbers.place(joint.second)));
            if one != other {
                return false;
            }
        }
        true
    }

    fn set_line(&mut self, place: Place, spots: Vec<Spot>) {
        let number = port_number(place);
        if number < self.drawn.len() {
            self.drawn[number] = spots;
        }
    }

    /// Whether it is drawn by hand.
    pub(crate) fn is_by_hand(&self) -> bool {
        !self.drawn.is_empty()
    }

    /// The line from an element to a port, as it was drawn by hand.
    pub(crate) fn line_at(&self, place: Place) -> &[Spot] {
        let number = port_number(place);
        if number < self.drawn.len() {
            self.drawn[number].as_slice()
        } else {
            &[]
        }
    }

    /// Where an element lies that was drawn by hand.
    pub(crate) fn hand_spot(&self, element: usize) -> Spot {
        match self.numbers.ends(element).first() {
            Some(end) => first(self.line_at(Place { element, end: *end })),
            None => NOWHERE,
        }
    }

    /// Where a port lies that was drawn by hand.
    pub(crate) fn hand_port(&self, place: Place) -> Spot {
        last(self.line_at(place))
    }

    /// Which way the line leads that was drawn by hand, at a port.
    pub(crate) fn heading(&self, place: Place) -> Heading {
        let line = self.line_at(place);
        let end = last(line);
        let before = line.len().saturating_sub(2);
        heading_of(line.get(before).copied().unwrap_or(end), end)
    }

    /// Which way it leads from its element.
    pub(crate) fn first_heading(&self, place: Place) -> Heading {
        let line = self.line_at(place);
        let begin = first(line);
        heading_of(begin, line.get(1).copied().unwrap_or(begin))
    }

    /// The line of an element from one port to another, as it was drawn by hand.
    pub(crate) fn hand_line(&self, from: Place, to: Place) -> Result<Vec<Spot>, AllocError> {
        with(turned(self.alloc, self.line_at(from))?, self.line_at(to))
    }

    /// Whether a point parts up.
    pub(crate) fn parts_up(&self, element: usize) -> bool {
        if self.is_by_hand() {
            self.has_line_up(element)
        } else {
            self.is_drawn_up(element)
        }
    }

    /// The leg of a point that isn't drawn with its tip.
    pub(crate) fn other_leg(&self, element: usize) -> Place {
        if self.is_by_hand() {
            return Place {
                element,
                end: End::Right,
            };
        }
        self.minor(element)
    }

    /// Whether something leads up from an element.
    fn has_line_up(&self, element: usize) -> bool {
        self.numbers.ends(element).iter().any(|end| self
            .first_heading(Place { element, end: *end })
            .slope
            < 0)
    }
}
