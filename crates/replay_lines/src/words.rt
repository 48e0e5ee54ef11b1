//! The event that the words of a line say.

ghost use Rattle.std.specs.Prelude.{◌≡◌, ◌∷◌, IfOk, length, replicate};
ghost use Rattle.std.specs.List.{list_any};
ghost use Rattle.replay_lines.specs.Names.{node_names};
ghost use Rattle.replay_lines.specs.Events.{are_formed, cancel, clear, deliver, event, has_name, lose, name_nodes, number_up_to, occupy, position_named, reach, requested, restart, resume, set, steps_set, tick, time};
ghost use Rattle.replay_lines.specs.Given.{Gives};
ghost use Rattle.replay_lines.specs.Scripted.{script_event};

use crate::operation_words::{close_named, move_point, open_named, release};
use crate::{node_named, point_named, route_named, section_named};
use ixl_spec::{Command, LATEST_CLOCK, Layout, Occupancy, Position};
use replay_words::{
    Bytes, Fault, Words, both, decimal, hexadecimal, hexadecimal_or_none, name_and_number,
};
use simulator_event::{ClockSteps, Event, RawDatagram};
use std::alloc::{AllocError, Global};

/// The event that the words of a line say, or the lowest fault of the words. Fault 7 comes only where
/// memory was refused.
pub fn read_event(alloc: Global, layout: &Layout, words: Words<'_>) -> Result<Event, Fault>
    ensures { Gives (λ e. e) (event layout.now words.entry) result }
{
    let mut words = words;
    match words.next() {
        Some(first) => event_with(alloc, layout, first, words),
        None => Err(Fault::Words),
    }
}

/// The same by the first word, and those behind it.
fn event_with(alloc: Global, layout: &Layout, first: &str, words: Words<'_>) -> Result<Event, Fault>
    ensures { Gives (λ e. e) (event layout.now (first.now ∷ words.entry)) result }
{
    match first {
        "set" => set(layout, words),
        "cancel" => cancel(layout, words),
        "resume" => resume(words),
        "release" => requested(release(layout, words)),
        "move" => requested(move_point(layout, words)),
        "close" => requested(close_named(layout, words)),
        "open" => requested(open_named(layout, words)),
        "occupy" => occupy(layout, words),
        "clear" => clear(layout, words),
        "tick" => tick(layout, words),
        "time" => time(alloc, layout, words),
        "deliver" => deliver(alloc, layout, words),
        "lose" => lose(alloc, words),
        "reach" => reach(layout, words),
        "restart" => restart(layout, words),
        _ => Err(Fault::Words),
    }
}

/// The event that words say in a script, which has commands, occupancies and restarts alone, or the lowest
/// fault of the words. It takes no memory.
pub fn read_script_event(layout: &Layout, words: Words<'_>) -> Result<Event, Fault>
    ensures { result ≡ script_event layout.now words.entry }
{
    let mut rest = words;
    match rest.next() {
        Some("set") => set(layout, rest),
        Some("cancel") => cancel(layout, rest),
        Some("resume") => resume(rest),
        Some("release") => requested(release(layout, rest)),
        Some("move") => requested(move_point(layout, rest)),
        Some("close") => requested(close_named(layout, rest)),
        Some("open") => requested(open_named(layout, rest)),
        Some("occupy") => occupy(layout, rest),
        Some("clear") => clear(layout, rest),
        Some("restart") => restart(layout, rest),
        _ => Err(Fault::Words),
    }
}

fn set(layout: &Layout, mut words: Words<'_>) -> Result<Event, Fault>
    ensures { result ≡ set layout.now words.entry }
{
    let (Some(route), None) = (words.next(), words.next()) else {
        return Err(Fault::Words);
    };
    Ok(Event::Request(Command::Request(route_named(layout, route))))
}

fn cancel(layout: &Layout, mut words: Words<'_>) -> Result<Event, Fault>
    ensures { result ≡ cancel layout.now words.entry }
{
    let (Some(route), None) = (words.next(), words.next()) else {
        return Err(Fault::Words);
    };
    Ok(Event::Request(Command::Cancel(route_named(layout, route))))
}

fn resume(mut words: Words<'_>) -> Result<Event, Fault>
    ensures { result ≡ resume words.entry }
{
    match words.next() {
        None => Ok(Event::Request(Command::Resume)),
        Some(_) => Err(Fault::Words),
    }
}

/// The event in which a command comes.
fn requested(command: Result<Command, Fault>) -> Result<Event, Fault>
    ensures { result ≡ requested command }
{
    Ok(Event::Request(command?))
}

fn occupy(layout: &Layout, mut words: Words<'_>) -> Result<Event, Fault>
    ensures { result ≡ occupy layout.now words.entry }
{
    let (Some(section), None) = (words.next(), words.next()) else {
        return Err(Fault::Words);
    };
    Ok(Event::Occupy {
        section: section_named(layout, section)?,
        occupancy: Occupancy::Occupied,
    })
}

fn clear(layout: &Layout, mut words: Words<'_>) -> Result<Event, Fault>
    ensures { result ≡ clear layout.now words.entry }
{
    let (Some(section), None) = (words.next(), words.next()) else {
        return Err(Fault::Words);
    };
    Ok(Event::Occupy {
        section: section_named(layout, section)?,
        occupancy: Occupancy::Clear,
    })
}

fn tick(layout: &Layout, mut words: Words<'_>) -> Result<Event, Fault>
    ensures { result ≡ tick layout.now words.entry }
{
    let (Some(node), None) = (words.next(), words.next()) else {
        return Err(Fault::Words);
    };
    Ok(Event::Tick(node_named(layout, node)?))
}

fn time(alloc: Global, layout: &Layout, mut words: Words<'_>) -> Result<Event, Fault>
    ensures { Gives (λ e. e) (time layout.now words.entry) result }
{
    let Some(elapsed) = words.next() else {
        return Err(Fault::Words);
    };
    check_forms(words.clone().unwrap())?;
    check_names(layout, words.clone().unwrap())?;
    let elapsed = decimal(elapsed)?;
    let steps = steps(alloc, layout, elapsed, words)?;
    Ok(Event::Time {
        elapsed,
        clocks: ClockSteps::of(steps),
    })
}

fn deliver(alloc: Global, layout: &Layout, mut words: Words<'_>) -> Result<Event, Fault>
    ensures { Gives (λ e. e) (deliver layout.now words.entry) result }
{
    let (Some(node), Some(bytes), None) = (words.next(), words.next(), words.next()) else {
        return Err(Fault::Words);
    };
    let (node, bytes) = both(node_named(layout, node), hexadecimal_or_none(bytes))?;
    let bytes = raw(alloc, &bytes)?;
    Ok(Event::Deliver { node, bytes })
}

fn lose(alloc: Global, mut words: Words<'_>) -> Result<Event, Fault>
    ensures { Gives (λ e. e) (lose words.entry) result }
{
    let (Some(bytes), None) = (words.next(), words.next()) else {
        return Err(Fault::Words);
    };
    let bytes = hexadecimal(bytes)?;
    Ok(Event::Lose(raw(alloc, &bytes)?))
}

fn reach(layout: &Layout, mut words: Words<'_>) -> Result<Event, Fault>
    ensures { result ≡ reach layout.now words.entry }
{
    let (Some(point), Some(side), None) = (words.next(), words.next(), words.next()) else {
        return Err(Fault::Words);
    };
    let position = position_named(side)?;
    Ok(Event::Reach {
        point: point_named(layout, point)?,
        position,
    })
}

fn restart(layout: &Layout, mut words: Words<'_>) -> Result<Event, Fault>
    ensures { result ≡ restart layout.now words.entry }
{
    let (Some(node), Some(clock), Some(number), None) = (
        words.next(),
        words.next(),
        words.next(),
        words.next(),
    ) else {
        return Err(Fault::Words);
    };
    let numbers = both(clock_reading(clock), sequence_number(number));
    let (node, (clock, number)) = both(node_named(layout, node), numbers)?;
    Ok(Event::Restart {
        node,
        clock,
        first_sequence_number: number,
    })
}

/// Where a point stands, or comes to lie.
pub(crate) fn position_named(word: &str) -> Result<Position, Fault>
    ensures { result ≡ position_named word.now }
{
    Position::of_word(word).ok_or(Fault::Words)
}

// A clock reading, in milliseconds.
fn clock_reading(word: &str) -> Result<u64, Fault>
    ensures { result ≡ number_up_to LATEST_CLOCK word.now }
{
    let clock = decimal(word)?;
    if clock > LATEST_CLOCK {
        return Err(Fault::Number);
    }
    Ok(clock)
}

// A sequence number.
fn sequence_number(word: &str) -> Result<u32, Fault>
    ensures { result ≡ number_up_to 4294967295 word.now }
{
    u32::try_from(decimal(word)?).map_err(|_| Fault::Number)
}

// Bytes of a line, as the network carries them.
fn raw(alloc: Global, bytes: &Bytes) -> Result<RawDatagram, AllocError>
    ensures { IfOk result (λ raw. raw ≡ bytes.now.items) }
{
    Ok(RawDatagram::of(Vec::from_slice(alloc, bytes.as_slice())?))
}

// Whether each word has the form `NODE=E`.
fn check_forms(words: Words<'_>) -> Result<(), Fault>
    ensures { result ≡ are_formed words.entry }
{
    for word in words {
        name_and_number(word)?;
    }
    Ok(())
}

// Whether each word names a node, and no two name one.
fn check_names(layout: &Layout, words: Words<'_>) -> Result<(), Fault>
    ensures { result ≡ name_nodes layout.now words.entry }
{
    let mut words = words;
    while let Some(word) = words.next() {
        let (name, _) = name_and_number(word)?;
        node_named(layout, name)?;
        if is_named(name, words.clone().unwrap()) {
            return Err(Fault::Name);
        }
    }
    Ok(())
}

// Whether a word names this name.
fn is_named(name: &str, words: Words<'_>) -> bool
    ensures { result ≡ list_any (has_name name.now) words.entry }
{
    for word in words {
        if let Ok((other, _)) = name_and_number(word) {
            if other == name {
                return true;
            }
        }
    }
    false
}

// How far each clock goes on: as far as its node's word says, or as far as true time.
fn steps(alloc: Global, layout: &Layout, elapsed: u64, words: Words<'_>) -> Result<Vec<u64>, Fault>
    ensures { Gives (λ steps. steps.items) (steps_set layout.now words.entry (replicate (length (node_names layout.now)) elapsed)) result }
{
    let mut steps = vec![in alloc; elapsed; layout.nodes()]?;
    for word in words {
        let (name, number) = name_and_number(word)?;
        let node = node_named(layout, name)?;
        let number = decimal(number)?;
        if let Some(step) = steps.get_mut(node.0) {
            *step = number;
        }
    }
    Ok(steps)
}
