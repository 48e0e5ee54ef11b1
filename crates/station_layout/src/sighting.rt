//! What a line of a picture says.

ghost use Rattle.std.specs.Prelude.{◌≡◌, [], ◌∷◌, IfSome, None};
ghost use Rattle.station_layout.specs.inside.TwoWords.{two_words};
ghost use Rattle.station_layout.specs.inside.WordTables.{word_said};
ghost use Rattle.station_layout.specs.Sightings.{driven_said, point_sighting, route_sighting, section_sighting, sighting, signal_sighting, time_sighting};

use crate::named_entries::{route_called, signal_called};
use control_table::{
    Aspect, Layout, Occupancy, PointId, Position, RouteId, SectionId, Side, SignalId,
};
use replay_lines::{point_named, section_named};
use replay_words::{Fault, Words, decimal};

/// What a line of a picture says.
#[derive(Clone, Copy)]
pub(crate) enum Sighting {
    /// What a signal shows.
    Signal(SignalId, Aspect),
    /// Where a point lies.
    Point(PointId, Position),
    /// Whether a section is occupied.
    Section(SectionId, Occupancy),
    /// Whether a route is set.
    Route(RouteId, bool),
    /// What no plan shows: the time, whether what is seen is safe, or an answer.
    Other,
}

/// Whether a route is set.
const STATES: &[(&str, bool)] = &[("free", false), ("set", true)];

/// What a word says by a table.
fn word_said<T: Copy>(rows: &[(&str, T)], word: &str) -> Result<T, Fault>
    ensures { result ≡ word_said rows.now word.now }
{
    for (known, value) in rows {
        if word == *known {
            return Ok(*value);
        }
    }
    Err(Fault::Words)
}

/// What a line is about, by its first word.
#[derive(Clone, Copy)]
enum LineKind {
    Signal,
    Point,
    Section,
    Route,
    Time,
    /// Whether what is seen is safe.
    Verdict,
    Answer,
}

/// What a line is about.
const KINDS: &[(&str, LineKind)] = &[
    ("signal", LineKind::Signal),
    ("point", LineKind::Point),
    ("section", LineKind::Section),
    ("route", LineKind::Route),
    ("time", LineKind::Time),
    ("safe", LineKind::Verdict),
    ("unsafe", LineKind::Verdict),
    ("ok", LineKind::Answer),
    ("accepted", LineKind::Answer),
    ("refused", LineKind::Answer),
    ("no", LineKind::Answer),
];

/// What a line of a picture says, or the lowest fault of its words.
pub(crate) fn read_sighting(layout: &Layout, line: &str) -> Result<Sighting, Fault>
    ensures { result ≡ sighting layout.now line.now }
{
    let mut words = Words::of(line);
    let Some(first) = words.next() else {
        return Err(Fault::Words);
    };
    match word_said(KINDS, first)? {
        LineKind::Signal => signal(layout, words),
        LineKind::Point => point(layout, words),
        LineKind::Section => section(layout, words),
        LineKind::Route => route(layout, words),
        LineKind::Time => time(words),
        LineKind::Verdict => match words.next() {
            None => Ok(Sighting::Other),
            Some(_) => Err(Fault::Words),
        },
        LineKind::Answer => Ok(Sighting::Other),
    }
}

/// The words of a line that are left, if they are two.
fn two_words<'a>(mut words: Words<'a>) -> Option<(&'a str, &'a str)>
    ensures some { IfSome result (λ both. words.entry ≡ both.0.now ∷ both.1.now ∷ []) }
    ensures none { result ≡ None → two_words words.entry ≡ None }
{
    match (words.next(), words.next(), words.next()) {
        (Some(one), Some(other), None) => Some((one, other)),
        _ => None,
    }
}

fn time(mut words: Words<'_>) -> Result<Sighting, Fault>
    ensures { result ≡ time_sighting words.entry }
{
    let (Some(millis), None) = (words.next(), words.next()) else {
        return Err(Fault::Words);
    };
    decimal(millis)?;
    Ok(Sighting::Other)
}

fn signal(layout: &Layout, mut words: Words<'_>) -> Result<Sighting, Fault>
    ensures { result ≡ signal_sighting layout.now words.entry }
{
    let Some(name) = words.next() else {
        return Err(Fault::Words);
    };
    let Some((aspect, authority)) = two_words(words) else {
        return Err(Fault::Words);
    };
    let aspect = Aspect::of_word(aspect).ok_or(Fault::Words)?;
    let signal = signal_called(layout, name)?;
    // The route that has authority from the signal, or a hyphen.
    if authority != "-" {
        route_called(layout, authority)?;
    }
    Ok(Sighting::Signal(signal, aspect))
}

fn point(layout: &Layout, mut words: Words<'_>) -> Result<Sighting, Fault>
    ensures { result ≡ point_sighting layout.now words.entry }
{
    let (Some(name), Some(position)) = (words.next(), words.next()) else {
        return Err(Fault::Words);
    };
    driven_said(words)?;
    let position = Position::of_word(position).ok_or(Fault::Words)?;
    let point = point_named(layout, name)?;
    Ok(Sighting::Point(point, position))
}

fn section(layout: &Layout, words: Words<'_>) -> Result<Sighting, Fault>
    ensures { result ≡ section_sighting layout.now words.entry }
{
    let Some((name, occupancy)) = two_words(words) else {
        return Err(Fault::Words);
    };
    let occupancy = Occupancy::of_word(occupancy).ok_or(Fault::Words)?;
    let section = section_named(layout, name)?;
    Ok(Sighting::Section(section, occupancy))
}

fn route(layout: &Layout, words: Words<'_>) -> Result<Sighting, Fault>
    ensures { result ≡ route_sighting layout.now words.entry }
{
    let Some((name, state)) = two_words(words) else {
        return Err(Fault::Words);
    };
    let is_set = word_said(STATES, state)?;
    let route = route_called(layout, name)?;
    Ok(Sighting::Route(route, is_set))
}

/// To which side a point is driven, if it is, which no plan shows.
fn driven_said(mut words: Words<'_>) -> Result<(), Fault>
    ensures { result ≡ driven_said words.entry }
{
    let Some(first) = words.next() else {
        return Ok(());
    };
    let (Some(side), None) = (words.next(), words.next()) else {
        return Err(Fault::Words);
    };
    if first != "driven" {
        return Err(Fault::Words);
    }
    match Side::of_word(side) {
        Some(_) => Ok(()),
        None => Err(Fault::Words),
    }
}
