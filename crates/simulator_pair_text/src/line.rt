//! What one event line says.

ghost use Rattle.std.specs.Prelude.{◌≡◌, ◌==◌, length, MatchResult, Ok, Err};
ghost use Rattle.std.specs.Option.{option_copied};
ghost use Rattle.simulator_pair_text.specs.Line.{
  clocks,
  close,
  deliver,
  end_named,
  flow,
  give,
  item,
  line,
  lose,
  milliseconds,
  named,
  names,
  number_for,
  number_up_to,
  numbers_for,
  picture,
  reason,
  restart,
  sole,
  tick,
  time,
};

use rasta_core::{LATEST_CLOCK, ROUND};
use replay_words::{
    Fault, Words, both, decimal, hexadecimal, hexadecimal_or_none, name_and_number,
};
use simulator_pair::{Item, PairEvent, Reason, Role};

// The bounds of a flow, in milliseconds.
const SHORTEST_FLOW: u64 = 10;

const LONGEST_FLOW: u64 = 600000;

/// What an event line asks for.
#[derive(Debug, Drop)]
pub enum PairLine {
    /// One event.
    Event(PairEvent),
    /// Rounds of 10 ms each, in which every datagram arrives; in milliseconds.
    Flow(u64),
    /// A print of what can be seen.
    Picture,
}

/// What an event line says, or the lowest fault of its words.
pub fn read_line(text: &str) -> Result<PairLine, Fault>
    ensures { result ≡ line text.now }
{
    let mut words = Words::of(text);
    match words.next() {
        Some("give") => give(words),
        Some("tick") => tick(words),
        Some("time") => time(words),
        Some("deliver") => deliver(words),
        Some("lose") => lose(words),
        Some("close") => close(words),
        Some("restart") => restart(words),
        Some("flow") => flow(words),
        Some("picture") => picture(words),
        _ => Err(Fault::Words),
    }
}

fn give(mut words: Words<'_>) -> Result<PairLine, Fault>
    ensures { result ≡ give words.entry }
{
    let (Some(end), Some(bytes), None) = (words.next(), words.next(), words.next()) else {
        return Err(Fault::Words);
    };
    let (end, item) = both(end_named(end), item(bytes))?;
    Ok(PairLine::Event(PairEvent::Give(end, item)))
}

fn tick(mut words: Words<'_>) -> Result<PairLine, Fault>
    ensures { result ≡ tick words.entry }
{
    let (Some(end), None) = (words.next(), words.next()) else {
        return Err(Fault::Words);
    };
    Ok(PairLine::Event(PairEvent::Tick(end_named(end)?)))
}

fn time(mut words: Words<'_>) -> Result<PairLine, Fault>
    ensures { result ≡ time words.entry }
{
    let Some(elapsed) = words.next() else {
        return Err(Fault::Words);
    };
    check_names(words.clone().unwrap())?;
    let (elapsed, (client, server)) = both(decimal(elapsed), clocks(words))?;
    Ok(PairLine::Event(PairEvent::Time {
        elapsed,
        of_client: client.unwrap_or(elapsed),
        of_server: server.unwrap_or(elapsed),
    }))
}

fn deliver(mut words: Words<'_>) -> Result<PairLine, Fault>
    ensures { result ≡ deliver words.entry }
{
    let (Some(end), Some(bytes), None) = (words.next(), words.next(), words.next()) else {
        return Err(Fault::Words);
    };
    let (end, bytes) = both(end_named(end), hexadecimal_or_none(bytes))?;
    Ok(PairLine::Event(PairEvent::Deliver(end, bytes)))
}

fn lose(mut words: Words<'_>) -> Result<PairLine, Fault>
    ensures { result ≡ lose words.entry }
{
    let (Some(bytes), None) = (words.next(), words.next()) else {
        return Err(Fault::Words);
    };
    Ok(PairLine::Event(PairEvent::Lose(hexadecimal(bytes)?)))
}

fn close(mut words: Words<'_>) -> Result<PairLine, Fault>
    ensures { result ≡ close words.entry }
{
    let (Some(end), Some(why), None) = (words.next(), words.next(), words.next()) else {
        return Err(Fault::Words);
    };
    let (end, reason) = both(end_named(end), reason(why))?;
    Ok(PairLine::Event(PairEvent::Close(end, reason)))
}

fn restart(mut words: Words<'_>) -> Result<PairLine, Fault>
    ensures { result ≡ restart words.entry }
{
    let (Some(end), Some(clock), Some(number), None) = (
        words.next(),
        words.next(),
        words.next(),
        words.next(),
    ) else {
        return Err(Fault::Words);
    };
    let numbers = both(clock_reading(clock), sequence_number(number));
    let (end, (clock, number)) = both(end_named(end), numbers)?;
    Ok(PairLine::Event(PairEvent::Restart {
        end,
        clock,
        first_sequence_number: number,
    }))
}

fn flow(mut words: Words<'_>) -> Result<PairLine, Fault>
    ensures { result ≡ flow words.entry }
{
    let (Some(word), None) = (words.next(), words.next()) else {
        return Err(Fault::Words);
    };
    Ok(PairLine::Flow(milliseconds(word)?))
}

fn picture(mut words: Words<'_>) -> Result<PairLine, Fault>
    ensures { result ≡ picture words.entry }
{
    match words.next() {
        None => Ok(PairLine::Picture),
        Some(_) => Err(Fault::Words),
    }
}

// The end of a name.
fn end_named(word: &str) -> Result<Role, Fault>
    ensures { result ≡ end_named word.now }
{
    match word {
        "C" => Ok(Role::Client),
        "S" => Ok(Role::Server),
        _ => Err(Fault::Name),
    }
}

// The item that a word spells.
fn item(word: &str) -> Result<Item, Fault>
    ensures { result ≡ item word.now }
{
    Item::of(hexadecimal(word)?.as_slice()).ok_or(Fault::Hexadecimal)
}

// The reason of a close, by its number.
fn reason(word: &str) -> Result<Reason, Fault>
    ensures { result ≡ reason word.now }
{
    match decimal(word)? {
        0 => Ok(Reason::User),
        1 => Ok(Reason::State),
        2 => Ok(Reason::Sequence),
        3 => Ok(Reason::Time),
        4 => Ok(Reason::Version),
        5 => Ok(Reason::Window),
        _ => Err(Fault::Number),
    }
}

// A clock reading, in milliseconds.
fn clock_reading(word: &str) -> Result<u64, Fault>
    ensures { result ≡ number_up_to LATEST_CLOCK word.now }
{
    let clock = decimal(word)?;
    if clock > LATEST_CLOCK {
        return Err(Fault::Number);
    }
    Ok(clock)
}

// A sequence number.
fn sequence_number(word: &str) -> Result<u32, Fault>
    ensures { result ≡ number_up_to 4294967295 word.now }
{
    u32::try_from(decimal(word)?).map_err(|_| Fault::Number)
}

// The length of a flow: its rounds are 10 ms each.
fn milliseconds(word: &str) -> Result<u64, Fault>
    ensures { result ≡ milliseconds word.now }
{
    let length = decimal(word)?;
    if length < SHORTEST_FLOW || length > LONGEST_FLOW || length % ROUND != 0 {
        return Err(Fault::Number);
    }
    Ok(length)
}

// The end that a word `END=E` names, and the word of its number.
fn named<'a>(word: &'a str) -> Result<(Role, &'a str), Fault>
    ensures { MatchResult result (λ of. named word.now ≡ Ok (of.0, of.1.now)) (λ fault. named word.now ≡ Err fault) }
{
    let (name, number) = name_and_number(word)?;
    Ok((end_named(name)?, number))
}

// The lowest fault in the names of the words.
fn check_names(words: Words<'_>) -> Result<(), Fault>
    ensures { result ≡ names words.entry }
{
    let mut lowest = Ok(());
    for word in words {
        lowest = both(lowest, named(word)).map(|_| ());
    }
    lowest
}

// The word of the number that `word` gives to `end`, if it names this end.
fn number_for<'a>(end: Role, word: &'a str) -> Option<&'a str>
    ensures { option_copied result ≡ number_for end (named word.now) }
{
    match (end, named(word)) {
        (Role::Client, Ok((Role::Client, number))) => Some(number),
        (Role::Server, Ok((Role::Server, number))) => Some(number),
        _ => None,
    }
}

// The numbers of both ends, of those that words name.
fn clocks(words: Words<'_>) -> Result<(Option<u64>, Option<u64>), Fault>
    ensures { result ≡ clocks words.entry }
{
    let client = clock(Role::Client, words.clone().unwrap());
    let server = clock(Role::Server, words);
    both(client, server)
}

// The number of an end, if a word names it; an end that is named twice has a fault in its name.
fn clock(end: Role, words: Words<'_>) -> Result<Option<u64>, Fault>
    ensures { result ≡ sole (numbers_for end words.entry) }
{
    let mut sole = None;
    for word in words {
        let Some(number) = number_for(end, word) else {
            continue;
        };
        if sole.replace(number).is_some() {
            return Err(Fault::Name);
        }
    }
    match sole {
        None => Ok(None),
        Some(number) => Ok(Some(decimal(number)?)),
    }
}
