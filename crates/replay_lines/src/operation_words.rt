//! The commands that operate a station through failures, as the words of a line say them: release, move, close and open.

ghost use Rattle.std.specs.Prelude.{◌≡◌};
ghost use Rattle.replay_lines.specs.Events.{close_named, move_point, named_by, open_named, point_meant, release, side_named, sided_named, whole_named};

use crate::{point_named, route_named};
use ixl_spec::{Command, Layout, Named, PointId, RouteId, Side, Thing, side_said};
use replay_words::{Fault, Words};

/// The side that a word says.
fn side_named(word: &str) -> Result<Side, Fault>
    ensures { result ≡ side_named word.now }
{
    side_said(word).ok_or(Fault::Words)
}

/// The point that a word names. Every word that names none stands for the one after the last.
fn point_meant(layout: &Layout, word: &str) -> PointId
    ensures { result ≡ point_meant layout.now word.now }
{
    match point_named(layout, word) {
        Ok(point) => point,
        Err(_) => PointId(layout.points().len()),
    }
}

/// What a word names. Every word that names nothing stands for the route after the last.
fn whole_named(layout: &Layout, word: &str) -> Named
    ensures { result ≡ whole_named layout.now word.now }
{
    match Named::of(layout, word, None) {
        Some(named) => named,
        None => Named::One(Thing::Route(RouteId(layout.routes().len()))),
    }
}

/// What a word and a side name. Every word that names no point stands for the one after the last.
fn sided_named(layout: &Layout, word: &str, side: Side) -> Named
    ensures { result ≡ sided_named layout.now word.now side }
{
    Named::One(Thing::Point(point_meant(layout, word), side))
}

/// What the words of a close or an open name: a thing, or a point and a side.
fn named_by(layout: &Layout, mut words: Words<'_>) -> Result<Named, Fault>
    ensures { result ≡ named_by layout.now words.entry }
{
    match (words.next(), words.next(), words.next()) {
        (Some(word), None, _) => Ok(whole_named(layout, word)),
        (Some(word), Some(side), None) => Ok(sided_named(layout, word, side_named(side)?)),
        _ => Err(Fault::Words),
    }
}

/// `release ROUTE`.
pub fn release(layout: &Layout, mut words: Words<'_>) -> Result<Command, Fault>
    ensures { result ≡ release layout.now words.entry }
{
    let (Some(route), None) = (words.next(), words.next()) else {
        return Err(Fault::Words);
    };
    Ok(Command::Release(route_named(layout, route)))
}

/// `move POINT left` or `move POINT right`.
pub fn move_point(layout: &Layout, mut words: Words<'_>) -> Result<Command, Fault>
    ensures { result ≡ move_point layout.now words.entry }
{
    let (Some(point), Some(side), None) = (words.next(), words.next(), words.next()) else {
        return Err(Fault::Words);
    };
    let side = side_named(side)?;
    Ok(Command::Move(point_meant(layout, point), side))
}

/// `close THING`, or `close POINT left`.
pub fn close_named(layout: &Layout, words: Words<'_>) -> Result<Command, Fault>
    ensures { result ≡ close_named layout.now words.entry }
{
    Ok(Command::Close(named_by(layout, words)?))
}

/// `open THING`, or `open POINT left`.
pub fn open_named(layout: &Layout, words: Words<'_>) -> Result<Command, Fault>
    ensures { result ≡ open_named layout.now words.entry }
{
    Ok(Command::Open(named_by(layout, words)?))
}
