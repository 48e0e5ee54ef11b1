//! How a text is cut into lines, and a line into words.

ghost use Rattle.std.specs.Prelude.{◌≡◌, ◌+◌, ◌^◌, ◌<◌, ℕ, List, [], ◌∷◌, length, MatchResult, Ok, Err, ⊤};
ghost use Rattle.std.specs.List.{enumerate_from};
ghost use Rattle.std.specs.Option.{option_map_or};
ghost use Rattle.std.specs.Iterator.{YieldsFirstBy, item_count};
ghost use Rattle.replay_words.specs.Cut.{words, words_left, up_to_equals, event_and_answer, lines, is_passed_over, name_and_number};

use crate::fault::Fault;
use std::alloc::AllocError;
use std::marker::Model;

/// The words of a line, parted by single spaces. A second space, or one at an end, makes an empty
/// word, and a carriage return belongs to its word.
#[derive(Drop)]
pub struct Words<'a> {
    /// What no word was taken of, or nothing after the last word.
    rest: Option<&'a str>,
    /// Whether the words end before the first `=`.
    ends_at_equals: bool,
}

impl<'a> Model for Words<'a> {
    ghost Value = { List (List ℕ) };

    ghost view = { λ w. up_to_equals w.ends_at_equals (words_left w.rest) };
}

impl<'a> Words<'a> {
    /// The words of `line`, which has no line feed.
    pub fn of(line: &'a str) -> Self
        ensures { result ≡ words line.now }
    {
        Words {
            rest: Some(line),
            ends_at_equals: false,
        }
    }
}

impl<'a> Clone for Words<'a> {
    ghost is_clone = { λ words copy. copy ≡ words };

    ghost is_infallible = { λ _. ⊤ };

    fn clone(&self) -> Result<Self, AllocError> {
        Ok(Words {
            rest: self.rest,
            ends_at_equals: self.ends_at_equals,
        })
    }
}

impl<'a> Iterator for Words<'a> {
    type Item = &'a str;

    ghost next_gives = { YieldsFirstBy (λ word. word.now) (λ left. left) };

    ghost remaining = { item_count (λ left. left) };

    fn next(&mut self) -> Option<&'a str> {
        let (word, rest) = first_word(self.rest?);
        if self.ends_at_equals && word == "=" {
            self.rest = None;
            return None;
        }
        self.rest = rest;
        Some(word)
    }
}

/// The first word of a text, and what stands behind it.
fn first_word<'a>(text: &'a str) -> (&'a str, Option<&'a str>)
    ensures { words text.now ≡ result.0.now ∷ words_left result.1 }
{
    match text.split_once(' ') {
        Some((word, rest)) => (word, Some(rest)),
        None => (text, None),
    }
}

/// The words of the event and those of its answer in a line of a session: what stands before the first
/// word `=`, and what stands behind it; fault 1 where there is none.
pub fn event_and_answer<'a>(line: &'a str) -> Result<(Words<'a>, Words<'a>), Fault>
    ensures { MatchResult result (λ sides. event_and_answer (words line.now) ≡ Ok (sides.0, sides.1)) (λ fault. event_and_answer (words line.now) ≡ Err fault) }
{
    let mut words = Words::of(line);
    while let Some(word) = words.next() {
        if word == "=" {
            let event = Words {
                rest: Some(line),
                ends_at_equals: true,
            };
            return Ok((event, words));
        }
    }
    Err(Fault::Words)
}

/// The lines of a text, each with its number from 1. A line ends at a line feed, which the last may
/// lack.
#[derive(Drop)]
pub struct Lines<'a> {
    rest: &'a str,
    /// How many lines were taken.
    taken: u64,
}

impl<'a> Model for Lines<'a> {
    ghost Value = { List (ℕ × List ℕ) };

    ghost view = { λ l. enumerate_from (l.taken + 1) (lines l.rest.now) };

    ghost invariant = { λ l. l.taken + length l.rest.now < 2 ^ 64 };
}

impl<'a> Lines<'a> {
    /// The lines of `text`.
    pub fn of(text: &'a str) -> Self
        ensures { result ≡ enumerate_from 1 (lines text.now) }
    {
        Lines {
            rest: text,
            taken: 0,
        }
    }
}

impl<'a> Iterator for Lines<'a> {
    type Item = (u64, &'a str);

    ghost next_gives = { YieldsFirstBy (λ line. (line.0, line.1.now)) (λ left. left) };

    ghost remaining = { item_count (λ left. left) };

    fn next(&mut self) -> Option<(u64, &'a str)> {
        if self.rest.is_empty() {
            return None;
        }
        let (line, rest) = self.rest.split_once('\n').unwrap_or((self.rest, ""));
        self.rest = rest;
        self.taken += 1;
        Some((self.taken, line))
    }
}

/// Whether `line` holds no event: an empty line, or a comment behind a number sign.
pub fn is_passed_over(line: &str) -> bool
    ensures { result ≡ is_passed_over line.now }
{
    matches!(line.as_bytes(), [] | [b'#', ..])
}

/// The two sides of a word `NAME=NUMBER`, parted at its first equals sign; fault 1 where it has none.
pub fn name_and_number<'a>(word: &'a str) -> Result<(&'a str, &'a str), Fault>
    ensures { MatchResult result (λ sides. name_and_number word.now ≡ Ok (sides.0.now, sides.1.now)) (λ fault. name_and_number word.now ≡ Err fault) }
{
    word.split_once('=').ok_or(Fault::Words)
}
