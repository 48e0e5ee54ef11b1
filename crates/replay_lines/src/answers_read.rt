//! The answer that the words of a line say.

ghost use Rattle.std.specs.Prelude.{◌≡◌};
ghost use Rattle.replay_lines.specs.AnswerRead.{accepted, answer, can_answer, closed_whole, named_refusal, no, ok, refused, route_in_table, said, sided_refusal, unnamed_refusal};

use crate::{point_named, route_named, section_named};
use ixl_spec::{Layout, Named, Refusal, RouteId, Thing, side_said};
use replay_words::{Fault, Words, decimal};
use simulator_event::{Answer, Event, Refused};

/// The answer that words say of an event; fault 5 where they say none that this event can have.
pub fn read_answer(
    layout: &Layout,
    event: &Event,
    words: Words<'_>,
) -> Result<Result<Answer, Refused>, Fault>
    ensures { result ≡ answer layout.now event.now words.entry }
{
    match said(layout, words) {
        Ok(answer) => {
            if can_answer(event, &answer) {
                Ok(answer)
            } else {
                Err(Fault::Answer)
            }
        }
        Err(_) => Err(Fault::Answer),
    }
}

// Whether an event can have this answer: `ok` is no answer to a command, and the answers of an interlocking
// are answers to commands alone.
fn can_answer(event: &Event, answer: &Result<Answer, Refused>) -> bool
    ensures { result ≡ can_answer event.now answer.now }
{
    match (event, answer) {
        (_, Err(_)) => true,
        (Event::Request(_), Ok(Answer::Done)) => false,
        (Event::Request(_), Ok(_)) => true,
        (_, Ok(Answer::Done)) => true,
        (_, Ok(_)) => false,
    }
}

fn said(layout: &Layout, words: Words<'_>) -> Result<Result<Answer, Refused>, Fault>
    ensures { result ≡ said layout.now words.entry }
{
    let mut words = words;
    match words.next() {
        Some("ok") => ok(words),
        Some("accepted") => accepted(words),
        Some("refused") => refused(layout, words),
        Some("no") => no(words),
        _ => Err(Fault::Answer),
    }
}

fn ok(mut words: Words<'_>) -> Result<Result<Answer, Refused>, Fault>
    ensures { result ≡ ok words.entry }
{
    match words.next() {
        None => Ok(Ok(Answer::Done)),
        Some(_) => Err(Fault::Answer),
    }
}

fn accepted(mut words: Words<'_>) -> Result<Result<Answer, Refused>, Fault>
    ensures { result ≡ accepted words.entry }
{
    match words.next() {
        None => Ok(Ok(Answer::Accepted)),
        Some(_) => Err(Fault::Answer),
    }
}

fn refused(layout: &Layout, mut words: Words<'_>) -> Result<Result<Answer, Refused>, Fault>
    ensures { result ≡ refused layout.now words.entry }
{
    let Some(number) = words.next() else {
        return Err(Fault::Answer);
    };
    let number = decimal(number)?;
    let refusal = match (words.next(), words.next(), words.next()) {
        (None, _, _) => unnamed_refusal(number)?,
        (Some(name), None, _) => named_refusal(layout, number, name)?,
        (Some(name), Some(side), None) => sided_refusal(layout, number, name, side)?,
        (Some(_), Some(_), Some(_)) => return Err(Fault::Answer),
    };
    Ok(Ok(Answer::Refused(refusal)))
}

fn no(mut words: Words<'_>) -> Result<Result<Answer, Refused>, Fault>
    ensures { result ≡ no words.entry }
{
    let (Some(number), None) = (words.next(), words.next()) else {
        return Err(Fault::Answer);
    };
    match Refused::numbered(decimal(number)?) {
        Some(refused) => Ok(Err(refused)),
        None => Err(Fault::Answer),
    }
}

// The refusal of a number that is told without a name.
fn unnamed_refusal(number: u64) -> Result<Refusal, Fault>
    ensures { result ≡ unnamed_refusal number }
{
    match number {
        1 => Ok(Refusal::UnknownRoute),
        2 => Ok(Refusal::Holding),
        3 => Ok(Refusal::NotResumed),
        4 => Ok(Refusal::AlreadySet),
        8 => Ok(Refusal::SignalUnavailable),
        9 => Ok(Refusal::NotSet),
        10 => Ok(Refusal::DetectionDown),
        11 => Ok(Refusal::NoSuchThing),
        12 => Ok(Refusal::NotEnded),
        _ => Err(Fault::Answer),
    }
}

// The refusal of a number that is told with a name alone.
fn named_refusal(layout: &Layout, number: u64, name: &str) -> Result<Refusal, Fault>
    ensures { result ≡ named_refusal layout.now number name.now }
{
    match number {
        5 => Ok(Refusal::Conflict(route_in_table(layout, name)?)),
        6 => Ok(Refusal::NotClear(section_named(layout, name)?)),
        7 => Ok(Refusal::PointUnavailable(point_named(layout, name)?)),
        13 => closed_whole(layout, name),
        14 => Ok(Refusal::Held(route_in_table(layout, name)?)),
        _ => Err(Fault::Answer),
    }
}

// The refusal for a closed section, signal or route. A closed point is told with its side.
fn closed_whole(layout: &Layout, name: &str) -> Result<Refusal, Fault>
    ensures { result ≡ closed_whole layout.now name.now }
{
    match Named::of(layout, name, None) {
        Some(Named::One(thing)) => Ok(Refusal::Closed(thing)),
        _ => Err(Fault::Answer),
    }
}

// The refusal of a number that is told with the name of a point and a side.
fn sided_refusal(layout: &Layout, number: u64, name: &str, side: &str) -> Result<Refusal, Fault>
    ensures { result ≡ sided_refusal layout.now number name.now side.now }
{
    if number != 13 {
        return Err(Fault::Answer);
    }
    let side = side_said(side).ok_or(Fault::Answer)?;
    let point = point_named(layout, name)?;
    Ok(Refusal::Closed(Thing::Point(point, side)))
}

// The route that a word names, if the table has it.
fn route_in_table(layout: &Layout, name: &str) -> Result<RouteId, Fault>
    ensures { result ≡ route_in_table layout.now name.now }
{
    let route = route_named(layout, name);
    if route.0 < layout.routes().len() {
        Ok(route)
    } else {
        Err(Fault::Answer)
    }
}
