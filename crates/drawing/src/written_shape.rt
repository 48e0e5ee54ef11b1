//! The text of a shape.

ghost use Rattle.std.specs.Prelude.{◌≡◌, ◌++◌, OnOk};
ghost use Rattle.drawing.specs.Svg.{anchored_text, shape_opening, shape_rest, spot_text, spots_text, mark_text, marks_text, points_rest, words_rest, circle_rest, line_rest, rectangle_rest};

use crate::escaped::{push_between, push_escaped, push_text};
use crate::shape::{Anchor, Mark, Shape, Spot};
use std::alloc::{AllocError, Global};

/// Adds where a line leads.
fn push_line(svg: &mut Vec<u8>, alloc: Global, from: Spot, to: Spot) -> Result<(), AllocError>
    ensures { OnOk result (svg.new.items ≡ svg.old.items ++ line_rest from to) }
{
    let text = format!(in alloc;
        "\" x1=\"{}\" y1=\"{}\" x2=\"{}\" y2=\"{}\"/>\n",
        from.x, from.y, to.x, to.y
    );
    push_text(svg, text)
}

/// Adds where a circle lies.
fn push_circle(
    svg: &mut Vec<u8>,
    alloc: Global,
    centre: Spot,
    radius: u32,
) -> Result<(), AllocError>
    ensures { OnOk result (svg.new.items ≡ svg.old.items ++ circle_rest centre radius) }
{
    let text = format!(in alloc;
        "\" cx=\"{}\" cy=\"{}\" r=\"{radius}\"/>\n",
        centre.x, centre.y
    );
    push_text(svg, text)
}

/// Adds where a rectangle lies.
fn push_rectangle(
    svg: &mut Vec<u8>,
    alloc: Global,
    corner: Spot,
    width: u32,
    height: u32,
) -> Result<(), AllocError>
    ensures { OnOk result (svg.new.items ≡ svg.old.items ++ rectangle_rest corner width height) }
{
    let text = format!(in alloc;
        "\" x=\"{}\" y=\"{}\" width=\"{width}\" height=\"{height}\"/>\n",
        corner.x, corner.y
    );
    push_text(svg, text)
}

/// Which part of a text lies where it stands.
#[tactic(auto, unfolding(crate::specs::Svg::anchored_text))]
fn anchored(anchor: Anchor) -> &'static str
    ensures { result.now ≡ anchored_text anchor }
{
    match anchor {
        Anchor::Start => "\" text-anchor=\"start\">",
        Anchor::Middle => "\" text-anchor=\"middle\">",
        Anchor::End => "\" text-anchor=\"end\">",
    }
}

/// How a shape's text begins.
fn opening(shape: &Shape) -> &'static [u8]
    ensures { result.now ≡ shape_opening shape.now }
{
    match shape {
        Shape::Line { .. } => b"<line class=\"",
        Shape::Polyline(_) => b"<polyline class=\"",
        Shape::Polygon(_) => b"<polygon class=\"",
        Shape::Circle { .. } => b"<circle class=\"",
        Shape::Rectangle { .. } => b"<rect class=\"",
        Shape::Text { .. } => b"<text class=\"",
    }
}

/// Adds the spots of a polyline or a polygon.
fn push_points(svg: &mut Vec<u8>, alloc: Global, spots: &[Spot]) -> Result<(), AllocError>
    ensures { OnOk result (svg.new.items ≡ svg.old.items ++ points_rest spots.now) }
{
    svg.extend_from_slice(b"\" points=\"")?;
    for spot in spots {
        let text = format!(in alloc; " {},{}", spot.x, spot.y);
        push_text(svg, text)?;
    }
    svg.extend_from_slice(b"\"/>\n")
}

/// Adds a text where it stands.
#[tactic(auto, unfolding(crate::specs::Svg::text_rest, crate::specs::Svg::standing_text))]
fn push_words(
    svg: &mut Vec<u8>,
    alloc: Global,
    at: Spot,
    anchor: Anchor,
    words: &str,
) -> Result<(), AllocError>
    ensures { OnOk result (svg.new.items ≡ svg.old.items ++ words_rest at anchor words.now) }
{
    let anchored = anchored(anchor);
    let standing = format!(in alloc; "\" x=\"{}\" y=\"{}{anchored}", at.x, at.y)?;
    push_between(svg, standing.as_bytes(), words, b"</text>\n")
}

/// Adds what stands behind the class of a shape.
fn push_rest(svg: &mut Vec<u8>, alloc: Global, shape: &Shape) -> Result<(), AllocError>
    ensures { OnOk result (svg.new.items ≡ svg.old.items ++ shape_rest shape.now) }
{
    match shape {
        Shape::Line { from, to } => push_line(svg, alloc, *from, *to),
        Shape::Polyline(spots) => push_points(svg, alloc, spots.as_slice()),
        Shape::Polygon(spots) => push_points(svg, alloc, spots.as_slice()),
        Shape::Circle { centre, radius } => push_circle(svg, alloc, *centre, *radius),
        Shape::Rectangle {
            corner,
            width,
            height,
        } => push_rectangle(svg, alloc, *corner, *width, *height),
        Shape::Text { at, anchor, words } => push_words(svg, alloc, *at, *anchor, words.as_str()),
    }
}

/// Adds the texts of shapes with their classes, in order.
pub(crate) fn push_marks(svg: &mut Vec<u8>, alloc: Global, marks: &[Mark]) -> Result<(), AllocError>
    ensures { OnOk result (svg.new.items ≡ svg.old.items ++ marks_text marks.now) }
{
    for mark in marks {
        svg.extend_from_slice(opening(&mark.shape))?;
        push_escaped(svg, mark.class.as_str())?;
        push_rest(svg, alloc, &mark.shape)?;
    }
    Ok(())
}
