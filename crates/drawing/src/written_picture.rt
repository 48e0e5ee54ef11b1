//! The text of a picture.

ghost use Rattle.std.specs.Prelude.{◌≡◌, ◌++◌, OnOk, IfOk};
ghost use Rattle.drawing.specs.Svg.{beginning_text, closing_text, ground_text, group_text, groups_text, head_text, opening_text, place_text, sheet_text, size_text, strip_text, strips_text, svg_text, use_text, view_text};

use crate::escaped::{push_between, push_text};
use crate::picture::{Frame, Group, Picture, Strip};
use crate::written_shape::push_marks;
use std::alloc::{AllocError, Global};

/// Adds the text of a group.
#[tactic(auto, unfolding(crate::specs::Svg::identity_text, crate::specs::Svg::class_text, crate::specs::Svg::title_text))]
fn push_group(svg: &mut Vec<u8>, alloc: Global, group: &Group) -> Result<(), AllocError>
    ensures { OnOk result (svg.new.items ≡ svg.old.items ++ group_text group.now) }
{
    push_between(svg, b"<g id=\"", group.id.as_str(), b"\" class=\"")?;
    push_between(svg, b"", group.class.as_str(), b"\"><title>")?;
    push_between(svg, b"", group.title.as_str(), b"</title>\n")?;
    push_marks(svg, alloc, &group.marks)?;
    svg.extend_from_slice(b"</g>\n")
}

/// Adds the texts of groups, in order.
fn push_groups(svg: &mut Vec<u8>, alloc: Global, groups: &[Group]) -> Result<(), AllocError>
    ensures { OnOk result (svg.new.items ≡ svg.old.items ++ groups_text groups.now) }
{
    for group in groups {
        push_group(svg, alloc, group)?;
    }
    Ok(())
}

/// Adds how the text of a picture begins, and its ground.
fn push_sheet(svg: &mut Vec<u8>, alloc: Global, paper: Frame) -> Result<(), AllocError>
    ensures { OnOk result (svg.new.items ≡ svg.old.items ++ (sheet_text paper ++ ground_text paper)) }
{
    let text = format!(in alloc;
        "<svg xmlns=\"http://www.w3.org/2000/svg\" width=\"{}\" height=\"{}\" viewBox=\"{} {} {} {}\">\n<rect x=\"{}\" y=\"{}\" width=\"{}\" height=\"{}\" fill=\"#fff\"/>\n",
        paper.width,
        paper.height,
        paper.left,
        paper.top,
        paper.width,
        paper.height,
        paper.left,
        paper.top,
        paper.width,
        paper.height
    );
    push_text(svg, text)
}

/// Adds all that stands before what is drawn.
#[tactic(auto, unfolding(crate::specs::Svg::named_text, crate::specs::Svg::styled_text))]
fn push_head(svg: &mut Vec<u8>, alloc: Global, picture: &Picture) -> Result<(), AllocError>
    ensures { OnOk result (svg.new.items ≡ svg.old.items ++ head_text picture.now) }
{
    push_sheet(svg, alloc, picture.paper)?;
    push_between(svg, b"<title>", picture.title.as_str(), b"</title>\n")?;
    push_between(svg, b"<style>", picture.style.as_str(), b"</style>\n")
}

/// What stands before the groups, and what stands behind them, where they are shown in strips.
fn round_groups(strips: &[Strip]) -> (&'static [u8], &'static [u8])
    ensures before { result.0.now ≡ opening_text strips.now }
    ensures behind { result.1.now ≡ closing_text strips.now }
{
    match strips {
        [] => (b"", b""),
        _ => (b"<defs><g id=\"drawn\">\n", b"</g></defs>\n"),
    }
}

/// Adds the text of a strip.
fn push_strip(svg: &mut Vec<u8>, alloc: Global, strip: Strip) -> Result<(), AllocError>
    ensures { OnOk result (svg.new.items ≡ svg.old.items ++ strip_text strip) }
{
    let Strip { at, shows } = strip;
    let text = format!(in alloc;
        "<svg x=\"{}\" y=\"{}\" width=\"{}\" height=\"{}\" viewBox=\"{} {} {} {}\"><use href=\"#drawn\"/></svg>\n",
        at.left, at.top, at.width, at.height, shows.left, shows.top, shows.width, shows.height
    );
    push_text(svg, text)
}

/// Adds the texts of strips, in order.
fn push_strips(svg: &mut Vec<u8>, alloc: Global, strips: &[Strip]) -> Result<(), AllocError>
    ensures { OnOk result (svg.new.items ≡ svg.old.items ++ strips_text strips.now) }
{
    for strip in strips {
        push_strip(svg, alloc, *strip)?;
    }
    Ok(())
}

/// The text of a picture as SVG 2: it is valid XML where no two groups have one identity, since each text in it is
/// escaped. The error comes only where memory was refused.
pub fn svg(alloc: Global, picture: &Picture) -> Result<Vec<u8>, AllocError>
    ensures { IfOk result (λ svg. svg.items ≡ svg_text picture.now) }
{
    let (before, behind) = round_groups(&picture.strips);
    let mut svg = Vec::new(alloc);
    push_head(&mut svg, alloc, picture)?;
    svg.extend_from_slice(before)?;
    push_groups(&mut svg, alloc, &picture.groups)?;
    svg.extend_from_slice(behind)?;
    push_strips(&mut svg, alloc, &picture.strips)?;
    svg.extend_from_slice(b"</svg>\n")?;
    Ok(svg)
}
