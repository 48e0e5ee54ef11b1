//! Nodes, sections, points and routes by their names.

ghost use Rattle.std.specs.Prelude.{◌≡◌, true};
ghost use Rattle.replay_words.specs.Words.{is_without};
ghost use Rattle.std.specs.List.{position};
ghost use Rattle.std.specs.Str.{bytes_eq};
ghost use Rattle.replay_lines.specs.Names.{node_named, point_named, point_word, route_named, route_word, section_named, section_word};

use ixl_spec::{Layout, Name, NodeId, Point, PointId, Route, RouteId, SectionId};
use replay_words::Fault;

/// The node that a word names; fault 2 where there is none.
pub fn node_named(layout: &Layout, word: &str) -> Result<NodeId, Fault>
    ensures { result ≡ node_named layout.now word.now }
{
    match layout.node_named(word) {
        Some(node) => Ok(node),
        None => Err(Fault::Name),
    }
}

/// The section that a word names; fault 2 where there is none.
pub fn section_named(layout: &Layout, word: &str) -> Result<SectionId, Fault>
    ensures { result ≡ section_named layout.now word.now }
{
    match section_place(layout.sections(), word) {
        Some(place) => Ok(SectionId(place)),
        None => Err(Fault::Name),
    }
}

/// The point that a word names; fault 2 where there is none.
pub fn point_named(layout: &Layout, word: &str) -> Result<PointId, Fault>
    ensures { result ≡ point_named layout.now word.now }
{
    match point_place(layout.points(), word) {
        Some(place) => Ok(PointId(place)),
        None => Err(Fault::Name),
    }
}

/// The route that a word names. Every word that names none stands for the one after the last.
pub fn route_named(layout: &Layout, word: &str) -> RouteId
    ensures { result ≡ route_named layout.now word.now }
{
    let routes = layout.routes();
    RouteId(route_place(routes, word).unwrap_or(routes.len()))
}

/// The word that stands for a route: its name, or `_` where the table lacks it.
pub fn route_word(layout: &Layout, route: RouteId) -> &str
    ensures value { result.now ≡ route_word layout.now route }
    ensures no_space { is_without 32 (route_word layout.now route) ≡ true }
{
    match layout.routes().get(route.0) {
        Some(route) => name_word(route.name()),
        None => "_",
    }
}

/// The word that stands for a section: its name, or `_` where the layout lacks it.
pub fn section_word(layout: &Layout, section: SectionId) -> &str
    ensures { result.now ≡ section_word layout.now section }
{
    match layout.sections().get(section.0) {
        Some(name) => name.as_str(),
        None => "_",
    }
}

/// The word that stands for a point: its name, or `_` where the layout lacks it.
pub fn point_word(layout: &Layout, point: PointId) -> &str
    ensures { result.now ≡ point_word layout.now point }
{
    match layout.points().get(point.0) {
        Some(point) => point.name.as_str(),
        None => "_",
    }
}

/// A name as a word, which has no space and no equals sign.
#[tactic(auto, using(crate::proofs::Apart::name_without_space, crate::proofs::Apart::name_without_equals))]
pub fn name_word(name: &Name) -> &str
    ensures value { result.now ≡ name.now }
    ensures no_space { is_without 32 name.now ≡ true }
    ensures no_equals { is_without 61 name.now ≡ true }
{
    // Every name has the bytes of a name alone.
    name.bytes();
    name.as_str()
}

/// Whether a word is this name.
#[tactic(auto, using(crate::proofs::Places::tested))]
fn is_called(name: &Name, word: &str) -> bool
    ensures { result ≡ bytes_eq name.now word.now }
{
    name.bytes() == word.as_bytes()
}

fn section_place(sections: &[Name], word: &str) -> Option<usize>
    ensures { result ≡ position (λ name. bytes_eq name word.now) sections.now }
{
    sections.iter().position(|name| is_called(name, word))
}

fn point_place(points: &[Point], word: &str) -> Option<usize>
    ensures { result ≡ position (λ p. bytes_eq p.name word.now) points.now }
{
    points.iter().position(|point| is_called(&point.name, word))
}

fn route_place(routes: &[Route], word: &str) -> Option<usize>
    ensures { result ≡ position (λ r. bytes_eq r.name word.now) routes.now }
{
    routes
        .iter()
        .position(|route| is_called(route.name(), word))
}
