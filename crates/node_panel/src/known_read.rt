//! What an interlocking knows, read from the words of a line.

ghost use Rattle.std.specs.Prelude.{◌≡◌, ◌∷◌};
ghost use Rattle.node_panel.specs.Lines.{authority_said, auxiliary_said, closable, closing, counted, holding, indicates, known_route, known_said, link, link_said, one_thing, or_unknown, point, route, route_of, route_said, route_state_said, section, side_named, signal, signal_named, waiting, word_there};

use panel_desk::node_lines::ixl_spec::side_said;
use panel_desk::node_lines::{Authority, Auxiliary, Known, LinkState};
use panel_desk::{
    Aspect, Fault, Layout, Named, Node, Occupancy, RouteId, Side, SignalId, Thing, Words, decimal,
    node_named, point_named, route_named, section_named,
};

/// What an interlocking knows by the words of a line, or their lowest fault.
pub(crate) fn read_known(layout: &Layout, mut words: Words<'_>) -> Result<Known, Fault>
    ensures { result ≡ known_said layout.now words.entry }
{
    match words.next() {
        Some(first) => known_said(layout, first, words),
        None => Err(Fault::Words),
    }
}

/// What it knows by the first word of a line and those after it.
fn known_said(layout: &Layout, first: &str, words: Words<'_>) -> Result<Known, Fault>
    ensures { result ≡ known_said layout.now (first.now ∷ words.entry) }
{
    match first {
        "link" => link(layout, words),
        "section" => section(layout, words),
        "point" => point(layout, words),
        "signal" => signal(layout, words),
        "indicates" => indicates(layout, words),
        "route" => route(layout, words),
        "closed" => closing(layout, true, words),
        "open" => closing(layout, false, words),
        "counted" => counted(words),
        "holding" => holding(words),
        "waiting" => waiting(words),
        _ => Err(Fault::Words),
    }
}

fn link(layout: &Layout, mut words: Words<'_>) -> Result<Known, Fault>
    ensures { result ≡ link layout.now words.entry }
{
    let (Some(name), Some(word), None) = (words.next(), words.next(), words.next()) else {
        return Err(Fault::Words);
    };
    let node = node_named(layout, name)?;
    let state = link_said(word)?;
    Ok(Known::Link { node, state })
}

fn section(layout: &Layout, mut words: Words<'_>) -> Result<Known, Fault>
    ensures { result ≡ section layout.now words.entry }
{
    let (Some(name), Some(word), None) = (words.next(), words.next(), words.next()) else {
        return Err(Fault::Words);
    };
    let section = section_named(layout, name)?;
    let occupancy = or_unknown(word, Occupancy::of_word(word))?;
    Ok(Known::Section { section, occupancy })
}

fn point(layout: &Layout, mut words: Words<'_>) -> Result<Known, Fault>
    ensures { result ≡ point layout.now words.entry }
{
    let (Some(name), Some(word), None) = (words.next(), words.next(), words.next()) else {
        return Err(Fault::Words);
    };
    let point = point_named(layout, name)?;
    let side = or_unknown(word, Side::of_word(word))?;
    Ok(Known::Point { point, side })
}

fn signal(layout: &Layout, mut words: Words<'_>) -> Result<Known, Fault>
    ensures { result ≡ signal layout.now words.entry }
{
    let (Some(name), Some(aspect), Some(route), None) = (
        words.next(),
        words.next(),
        words.next(),
        words.next(),
    ) else {
        return Err(Fault::Words);
    };
    let signal = signal_named(layout, name)?;
    let authority = authority_said(layout, aspect, route)?;
    Ok(Known::Signal { signal, authority })
}

fn indicates(layout: &Layout, mut words: Words<'_>) -> Result<Known, Fault>
    ensures { result ≡ indicates layout.now words.entry }
{
    let (Some(name), Some(word), None) = (words.next(), words.next(), words.next()) else {
        return Err(Fault::Words);
    };
    let signal = signal_named(layout, name)?;
    let aspect = Aspect::of_word(word).ok_or(Fault::Words)?;
    Ok(Known::Indicates { signal, aspect })
}

fn route(layout: &Layout, mut words: Words<'_>) -> Result<Known, Fault>
    ensures { result ≡ route layout.now words.entry }
{
    let (Some(name), Some(word), None) = (words.next(), words.next(), words.next()) else {
        return Err(Fault::Words);
    };
    let route = known_route(layout, name)?;
    route_said(route, word)
}

/// What a word tells of a route.
fn route_said(route: RouteId, word: &str) -> Result<Known, Fault>
    ensures { result ≡ route_said route word.now }
{
    if word == "released" {
        return Ok(Known::Released { route });
    }
    let is_set = route_state_said(word)?;
    Ok(Known::Route { route, is_set })
}

/// What is closed, or isn't: a name, and of a point its side.
fn closing(layout: &Layout, is_closed: bool, mut words: Words<'_>) -> Result<Known, Fault>
    ensures { result ≡ closing layout.now is_closed words.entry }
{
    let (Some(name), side, None) = (words.next(), words.next(), words.next()) else {
        return Err(Fault::Words);
    };
    let thing = closable(layout, name, side)?;
    Ok(Known::Closing { thing, is_closed })
}

/// The thing of a name, a point at the side that a word says.
fn closable(layout: &Layout, name: &str, side: Option<&str>) -> Result<Thing, Fault>
    ensures { result ≡ closable layout.now name.now (word_there side.entry) }
{
    let side = side_named(side)?;
    one_thing(Named::of(layout, name, side))
}

/// What is named is one thing.
fn one_thing(named: Option<Named>) -> Result<Thing, Fault>
    ensures { result ≡ one_thing named }
{
    match named {
        Some(Named::One(thing)) => Ok(thing),
        _ => Err(Fault::Name),
    }
}

/// The side that a word says, if there is a word.
fn side_named(word: Option<&str>) -> Result<Option<Side>, Fault>
    ensures { result ≡ side_named (word_there word.entry) }
{
    let Some(word) = word else {
        return Ok(None);
    };
    match side_said(word) {
        Some(side) => Ok(Some(side)),
        None => Err(Fault::Words),
    }
}

/// How many auxiliary commands of a kind were accepted.
fn counted(mut words: Words<'_>) -> Result<Known, Fault>
    ensures { result ≡ counted words.entry }
{
    let (Some(word), Some(number), None) = (words.next(), words.next(), words.next()) else {
        return Err(Fault::Words);
    };
    let command = auxiliary_said(word)?;
    let count = decimal(number)?;
    Ok(Known::Counted { command, count })
}

fn auxiliary_said(word: &str) -> Result<Auxiliary, Fault>
    ensures { result ≡ auxiliary_said word.now }
{
    match word {
        "release" => Ok(Auxiliary::Release),
        "open" => Ok(Auxiliary::Open),
        _ => Err(Fault::Words),
    }
}

fn holding(mut words: Words<'_>) -> Result<Known, Fault>
    ensures { result ≡ holding words.entry }
{
    match words.next() {
        None => Ok(Known::Holding),
        Some(_) => Err(Fault::Words),
    }
}

fn waiting(mut words: Words<'_>) -> Result<Known, Fault>
    ensures { result ≡ waiting words.entry }
{
    match (words.next(), words.next(), words.next()) {
        (Some("for"), Some("resume"), None) => Ok(Known::WaitingForResume),
        _ => Err(Fault::Words),
    }
}

/// The authority that is told by an aspect and a route.
fn authority_said(layout: &Layout, aspect: &str, route: &str) -> Result<Option<Authority>, Fault>
    ensures { result ≡ authority_said layout.now aspect.now route.now }
{
    if aspect == "stop" {
        return if route == "-" {
            Ok(None)
        } else {
            Err(Fault::Words)
        };
    }
    let aspect = Aspect::of_word(aspect).ok_or(Fault::Words)?;
    let route = known_route(layout, route)?;
    Ok(Some(Authority { aspect, route }))
}

fn signal_named(layout: &Layout, word: &str) -> Result<SignalId, Fault>
    ensures { result ≡ signal_named layout.now word.now }
{
    let node = node_named(layout, word)?;
    match layout.node(node) {
        Some(Node::Signal(signal)) => Ok(signal),
        _ => Err(Fault::Name),
    }
}

fn known_route(layout: &Layout, word: &str) -> Result<RouteId, Fault>
    ensures { result ≡ known_route layout.now word.now }
{
    route_of(layout.routes().len(), route_named(layout, word))
}

fn route_of(routes: usize, route: RouteId) -> Result<RouteId, Fault>
    ensures { result ≡ route_of routes route }
{
    if route.0 < routes {
        Ok(route)
    } else {
        Err(Fault::Name)
    }
}

fn link_said(word: &str) -> Result<LinkState, Fault>
    ensures { result ≡ link_said word.now }
{
    match word {
        "ready" => Ok(LinkState::Ready),
        "lost" => Ok(LinkState::Lost),
        _ => Err(Fault::Words),
    }
}

/// What a word says, if anything is known of it; `unknown` says that nothing is.
fn or_unknown<T: Copy>(word: &str, said: Option<T>) -> Result<Option<T>, Fault>
    ensures { result ≡ or_unknown word.now said }
{
    match said {
        Some(_) => Ok(said),
        None if word == "unknown" => Ok(None),
        None => Err(Fault::Words),
    }
}

fn route_state_said(word: &str) -> Result<bool, Fault>
    ensures { result ≡ route_state_said word.now }
{
    match word {
        "set" => Ok(true),
        "free" => Ok(false),
        _ => Err(Fault::Words),
    }
}
