//! Marks of one group, as they are added.

ghost use Rattle.std.specs.Prelude.{◌≡◌, ◌++◌, ◌∷◌, [], OnOk};
ghost use Rattle.lane_chart.specs.Strokes.{arrow, line, name_if, name_of, named, stroke_of, strokes};

use drawing::{Anchor, Mark, Shape, Spot};
use std::alloc::{AllocError, Global};

/// Marks, the lowest first.
#[derive(Drop)]
pub(crate) struct Marks {
    pub(crate) alloc: Global,
    /// The marks.
    pub(crate) marks: Vec<Mark>,
}

impl Marks {
    /// No marks.
    pub(crate) fn new(alloc: Global) -> Marks
        ensures { result.marks.items ≡ [] }
    {
        Marks {
            alloc,
            marks: Vec::new(alloc),
        }
    }

    fn add(&mut self, class: &str, shape: Shape) -> Result<(), AllocError>
        ensures drawn { OnOk result (strokes self.new.marks.items ≡ strokes self.old.marks.items ++ stroke_of class.now shape) }
        ensures named { OnOk result (named self.new.marks.items ≡ named self.old.marks.items ++ name_of class.now shape) }
    {
        let class = String::from_str(self.alloc, class)?;
        self.marks.push(Mark { class, shape })?;
        Ok(())
    }

    /// Adds a level line at this height.
    pub(crate) fn level_line(
        &mut self,
        class: &str,
        from: i32,
        to: i32,
        height: i32,
    ) -> Result<(), AllocError>
        ensures drawn { OnOk result (strokes self.new.marks.items ≡ strokes self.old.marks.items ++ line class.now from to ∷ []) }
        ensures named { OnOk result (named self.new.marks.items ≡ named self.old.marks.items) }
    {
        let from = Spot { x: from, y: height };
        let to = Spot { x: to, y: height };
        self.add(class, Shape::Line { from, to })
    }

    /// Adds an upright line.
    pub(crate) fn upright_line(
        &mut self,
        class: &str,
        x: i32,
        top: i32,
        bottom: i32,
    ) -> Result<(), AllocError>
        ensures drawn { OnOk result (strokes self.new.marks.items ≡ strokes self.old.marks.items ++ line class.now x x ∷ []) }
        ensures named { OnOk result (named self.new.marks.items ≡ named self.old.marks.items) }
    {
        let from = Spot { x, y: top };
        let to = Spot { x, y: bottom };
        self.add(class, Shape::Line { from, to })
    }

    /// Adds a triangle that points down to a spot.
    pub(crate) fn arrow(&mut self, class: &str, at: Spot) -> Result<(), AllocError>
        ensures drawn { OnOk result (strokes self.new.marks.items ≡ strokes self.old.marks.items ++ arrow class.now at.x ∷ []) }
        ensures named { OnOk result (named self.new.marks.items ≡ named self.old.marks.items) }
    {
        let y = at.y.saturating_sub(8);
        let left = Spot {
            x: at.x.saturating_sub(4),
            y,
        };
        let right = Spot {
            x: at.x.saturating_add(4),
            y,
        };
        let spots = Vec::from_array(self.alloc, [at, left, right])?;
        self.add(class, Shape::Polygon(spots))
    }

    /// Adds a text.
    pub(crate) fn text(
        &mut self,
        class: &str,
        at: Spot,
        anchor: Anchor,
        words: &str,
    ) -> Result<(), AllocError>
        ensures drawn { OnOk result (strokes self.new.marks.items ≡ strokes self.old.marks.items) }
        ensures named { OnOk result (named self.new.marks.items ≡ named self.old.marks.items ++ name_if class.now words.now) }
    {
        let words = String::from_str(self.alloc, words)?;
        self.add(class, Shape::Text { at, anchor, words })
    }
}
