//! The words by which lines name things.

ghost use Rattle.std.specs.Prelude.{◌≡◌, ◌++◌, IfSome, OnOk, string_bytes};
ghost use Rattle.std.specs.List.{position};
ghost use Rattle.std.specs.Str.{bytes_eq};
ghost use Rattle.closings.specs.declared.thing.Named.{Named};
ghost use Rattle.closings.specs.declared.thing.Named.TheVariants.{BothSides, One};
ghost use Rattle.closings.specs.declared.thing.Thing.TheVariants.{Route, Section, Signal};
ghost use Rattle.closings.specs.Things.{HasNamed, IsPlaced};
ghost use Rattle.closings.specs.Words.{name_word, named, named_by, point_place, route_place, section_place, side_of, side_said, side_word, signal_place, thing_side, whole_named, words_of};

use crate::thing::{Named, Thing};
use control_table::layout::{Layout, PointId, RouteId, SectionId, SignalId};
use control_table::sci_telegram::{Name, Side};
use std::alloc::AllocError;

/// The word for a side.
pub fn side_word(side: Side) -> &'static str
    ensures { result.now ≡ side_word side }
{
    match side {
        Side::Left => "left",
        Side::Right => "right",
    }
}

/// The side that a word says, if it says one.
pub fn side_said(word: &str) -> Option<Side>
    ensures { result ≡ side_said word.now }
{
    match word {
        "left" => Some(Side::Left),
        "right" => Some(Side::Right),
        _ => None,
    }
}

/// Whether a word is this name.
fn is_called(name: &Name, word: &str) -> bool
    ensures { result ≡ bytes_eq name.now word.now }
{
    name.bytes() == word.as_bytes()
}

fn section_place(layout: &Layout, word: &str) -> Option<usize>
    ensures { result ≡ section_place layout.now word.now }
{
    layout
        .sections()
        .iter()
        .position(|name| is_called(name, word))
}

fn point_place(layout: &Layout, word: &str) -> Option<usize>
    ensures { result ≡ point_place layout.now word.now }
{
    layout
        .points()
        .iter()
        .position(|point| is_called(&point.name, word))
}

fn signal_place(layout: &Layout, word: &str) -> Option<usize>
    ensures { result ≡ signal_place layout.now word.now }
{
    layout
        .signals()
        .iter()
        .position(|signal| is_called(&signal.name, word))
}

fn route_place(layout: &Layout, word: &str) -> Option<usize>
    ensures { result ≡ route_place layout.now word.now }
{
    layout
        .routes()
        .iter()
        .position(|route| is_called(route.name(), word))
}

/// What a word without a side names.
fn whole_named(layout: &Layout, word: &str) -> Option<Named>
    ensures { result ≡ whole_named layout.now word.now }
{
    if let Some(place) = section_place(layout, word) {
        return Some(Named::One(Thing::Section(SectionId(place))));
    }
    if let Some(place) = point_place(layout, word) {
        return Some(Named::BothSides(PointId(place)));
    }
    if let Some(place) = signal_place(layout, word) {
        return Some(Named::One(Thing::Signal(SignalId(place))));
    }
    let place = route_place(layout, word)?;
    Some(Named::One(Thing::Route(RouteId(place))))
}

/// A section's name, or `_` where the layout lacks it.
fn section_word(layout: &Layout, section: SectionId) -> &str
    ensures { result.now ≡ name_word layout.now (One (Section section)) }
{
    match layout.sections().get(section.0) {
        Some(name) => name.as_str(),
        None => "_",
    }
}

/// A point's name, or `_` where the layout lacks it.
fn point_word(layout: &Layout, point: PointId) -> &str
    ensures { result.now ≡ name_word layout.now (BothSides point) }
{
    match layout.points().get(point.0) {
        Some(point) => point.name.as_str(),
        None => "_",
    }
}

/// A signal's name, or `_` where the layout lacks it.
fn signal_word(layout: &Layout, signal: SignalId) -> &str
    ensures { result.now ≡ name_word layout.now (One (Signal signal)) }
{
    match layout.signals().get(signal.0) {
        Some(signal) => signal.name.as_str(),
        None => "_",
    }
}

/// A route's name, or `_` where the layout lacks it.
fn route_word(layout: &Layout, route: RouteId) -> &str
    ensures { result.now ≡ name_word layout.now (One (Route route)) }
{
    match layout.routes().get(route.0) {
        Some(route) => route.name().as_str(),
        None => "_",
    }
}

impl Thing {
    /// The side of a point.
    fn side(self) -> Option<Side>
        ensures { result ≡ thing_side self }
    {
        match self {
            Thing::Point(_, side) => Some(side),
            _ => None,
        }
    }
}

impl Named {
    /// What a name and perhaps a side name, if the layout has it. A point without a side is meant at both.
    #[tactic(auto, using(crate::proofs::Said::named_there, crate::proofs::Said::there_placed))]
    pub fn of(layout: &Layout, name: &str, side: Option<Side>) -> Option<Named>
        ensures value { result ≡ named layout.now name.now side }
        ensures there { IfSome result (HasNamed layout.now) }
        ensures placed { IfSome result IsPlaced }
    {
        // Every layout is a station, which has few entries.
        layout.joints();
        match side {
            Some(side) => {
                let place = point_place(layout, name)?;
                Some(Named::One(Thing::Point(PointId(place), side)))
            }
            None => whole_named(layout, name),
        }
    }

    /// What words name, which are a name and perhaps a side behind a space, if the layout has it.
    #[tactic(auto, using(crate::proofs::Said::parted_at_space))]
    pub fn read(layout: &Layout, words: &str) -> Option<Named>
        ensures value { result ≡ named_by layout.now words.now }
        ensures there { IfSome result (HasNamed layout.now) }
        ensures placed { IfSome result IsPlaced }
    {
        match words.split_once(' ') {
            Some((name, side)) => Named::of(layout, name, Some(side_said(side)?)),
            None => Named::of(layout, words, None),
        }
    }

    /// The name, or `_` where the layout lacks it.
    pub fn name_word(self, layout: &Layout) -> &str
        ensures { result.now ≡ name_word layout.now self }
    {
        match self {
            Named::One(Thing::Section(section)) => section_word(layout, section),
            Named::One(Thing::Point(point, _)) | Named::BothSides(point) => point_word(
                layout, point,
            ),
            Named::One(Thing::Signal(signal)) => signal_word(layout, signal),
            Named::One(Thing::Route(route)) => route_word(layout, route),
        }
    }

    /// The side, where one is given.
    pub fn side(self) -> Option<Side>
        ensures { result ≡ side_of self }
    {
        match self {
            Named::One(thing) => thing.side(),
            Named::BothSides(_) => None,
        }
    }

    /// Writes the words, of which the first is `_` where the layout lacks the name.
    pub fn write(self, layout: &Layout, text: &mut String) -> Result<(), AllocError>
        ensures { OnOk result (string_bytes text.new ≡ string_bytes text.old ++ words_of layout.now self) }
    {
        text.push_str(self.name_word(layout))?;
        if let Some(side) = self.side() {
            text.push_str(" ")?;
            text.push_str(side_word(side))?;
        }
        Ok(())
    }
}
