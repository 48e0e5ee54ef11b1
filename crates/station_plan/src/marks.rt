//! Marks of one thing, as they are added.

ghost use Rattle.std.specs.Prelude.{◌≡◌, ◌++◌, ◌∷◌, [], IfSome, OnOk};
ghost use Rattle.station_plan.specs.Strokes.{circle, line, polygon, stroke_of, strokes, text_of, written};

use crate::element_marks::moved;
use crate::labels::{LINE, WRAP};
use control_table::Name;
use drawing::{Anchor, Mark, Shape, Spot};
use std::alloc::{AllocError, Global};

/// Marks, the lowest first.
#[derive(Drop)]
pub(crate) struct Marks {
    pub(crate) alloc: Global,
    /// The marks.
    pub(crate) marks: Vec<Mark>,
}

impl Marks {
    /// No marks.
    pub(crate) fn new(alloc: Global) -> Marks
        ensures { result.marks.items ≡ [] }
    {
        Marks {
            alloc,
            marks: Vec::new(alloc),
        }
    }

    fn add(&mut self, class: &str, shape: Shape) -> Result<(), AllocError>
        ensures drawn { OnOk result (strokes self.new.marks.items ≡ strokes self.old.marks.items ++ stroke_of class.now shape) }
        ensures named { OnOk result (written self.new.marks.items ≡ written self.old.marks.items ++ text_of shape) }
    {
        let class = String::from_str(self.alloc, class)?;
        self.marks.push(Mark { class, shape })?;
        Ok(())
    }

    /// Adds a line.
    pub(crate) fn line(&mut self, class: &str, from: Spot, to: Spot) -> Result<(), AllocError>
        ensures drawn { OnOk result (strokes self.new.marks.items ≡ strokes self.old.marks.items ++ line class.now ∷ []) }
        ensures named { OnOk result (written self.new.marks.items ≡ written self.old.marks.items) }
    {
        self.add(class, Shape::Line { from, to })
    }

    /// Adds lines over three spots, of which neighbours may be equal.
    pub(crate) fn bend(
        &mut self,
        class: &str,
        from: Spot,
        corner: Spot,
        to: Spot,
    ) -> Result<(), AllocError>
        ensures drawn { OnOk result (strokes self.new.marks.items ≡ strokes self.old.marks.items ++ line class.now ∷ []) }
        ensures named { OnOk result (written self.new.marks.items ≡ written self.old.marks.items) }
    {
        if from == corner || corner == to {
            return self.line(class, from, to);
        }
        let spots = Vec::from_array(self.alloc, [from, corner, to])?;
        self.add(class, Shape::Polyline(spots))
    }

    /// Adds lines over spots.
    pub(crate) fn path(&mut self, class: &str, spots: Vec<Spot>) -> Result<(), AllocError>
        ensures drawn { OnOk result (strokes self.new.marks.items ≡ strokes self.old.marks.items ++ line class.now ∷ []) }
        ensures named { OnOk result (written self.new.marks.items ≡ written self.old.marks.items) }
    {
        self.add(class, Shape::Polyline(spots))
    }

    /// Adds a triangle.
    pub(crate) fn triangle(
        &mut self,
        class: &str,
        one: Spot,
        two: Spot,
        three: Spot,
    ) -> Result<(), AllocError>
        ensures drawn { OnOk result (strokes self.new.marks.items ≡ strokes self.old.marks.items ++ polygon class.now ∷ []) }
        ensures named { OnOk result (written self.new.marks.items ≡ written self.old.marks.items) }
    {
        let spots = Vec::from_array(self.alloc, [one, two, three])?;
        self.add(class, Shape::Polygon(spots))
    }

    /// Adds a circle.
    pub(crate) fn circle(
        &mut self,
        class: &str,
        centre: Spot,
        radius: u32,
    ) -> Result<(), AllocError>
        ensures drawn { OnOk result (strokes self.new.marks.items ≡ strokes self.old.marks.items ++ circle class.now ∷ []) }
        ensures named { OnOk result (written self.new.marks.items ≡ written self.old.marks.items) }
    {
        self.add(class, Shape::Circle { centre, radius })
    }

    /// Adds a text.
    pub(crate) fn text(
        &mut self,
        class: &str,
        at: Spot,
        anchor: Anchor,
        words: &str,
    ) -> Result<(), AllocError>
        ensures drawn { OnOk result (strokes self.new.marks.items ≡ strokes self.old.marks.items) }
        ensures named { OnOk result (written self.new.marks.items ≡ written self.old.marks.items ++ words.now) }
    {
        let words = String::from_str(self.alloc, words)?;
        self.add(class, Shape::Text { at, anchor, words })
    }

    /// Adds a number in a ring.
    pub(crate) fn number(&mut self, at: Spot, number: usize) -> Result<(), AllocError> {
        self.circle("ring", at, 8)?;
        let words = format!(in self.alloc; "{number}")?;
        self.text("number", moved(at, 0, 3), Anchor::Middle, words.as_str())
    }

    /// Adds a name, on two lines if it is long: the first of them at a spot, or the last of them where they are to grow
    /// upward.
    pub(crate) fn name(
        &mut self,
        class: &str,
        at: Spot,
        anchor: Anchor,
        name: Name,
        upward: bool,
    ) -> Result<(), AllocError>
        ensures drawn { OnOk result (strokes self.new.marks.items ≡ strokes self.old.marks.items) }
        ensures named { OnOk result (written self.new.marks.items ≡ written self.old.marks.items ++ name) }
    {
        let Some((first, second)) = halves(&name) else {
            return self.text(class, at, anchor, name.as_str());
        };
        let upper = if upward { moved(at, 0, -LINE.0) } else { at };
        self.text(class, upper, anchor, first)?;
        self.text(class, moved(upper, 0, LINE.0), anchor, second)
    }
}

/// The two lines of a long name.
fn halves(name: &Name) -> Option<(&str, &str)>
    ensures { IfSome result (λ halves. halves.0.now ++ halves.1.now ≡ name.now) }
{
    let bytes = name.as_str().as_bytes();
    if bytes.len() <= WRAP {
        return None;
    }
    let (first, second) = bytes.split_at(WRAP);
    let Ok(first) = str::from_utf8(first) else {
        return None;
    };
    let Ok(second) = str::from_utf8(second) else {
        return None;
    };
    Some((first, second))
}
