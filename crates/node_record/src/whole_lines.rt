//! The lines of a text that are whole.

ghost use Rattle.std.specs.Prelude.{◌≡◌, ◌+◌, ◌^◌, ◌<◌, ℕ, List, length};
ghost use Rattle.std.specs.List.{enumerate_from};
ghost use Rattle.std.specs.Iterator.{YieldsFirstBy, item_count};
ghost use Rattle.node_record.specs.Records.{whole_lines};

use std::marker::Model;

/// The lines of a text, each with its number from 1. A line ends at a line feed: what stands after the last one is no line.
#[derive(Drop)]
pub(crate) struct WholeLines<'a> {
    rest: &'a str,
    /// How many lines were taken.
    taken: u64,
}

impl<'a> Model for WholeLines<'a> {
    ghost Value = { List (ℕ × List ℕ) };

    ghost view = { λ l. enumerate_from (l.taken + 1) (whole_lines l.rest.now) };

    ghost invariant = { λ l. l.taken + length l.rest.now < 2 ^ 64 };
}

impl<'a> WholeLines<'a> {
    /// The lines of `text`.
    pub(crate) fn of(text: &'a str) -> Self
        ensures { result ≡ enumerate_from 1 (whole_lines text.now) }
    {
        WholeLines {
            rest: text,
            taken: 0,
        }
    }
}

impl<'a> Iterator for WholeLines<'a> {
    type Item = (u64, &'a str);

    ghost next_gives = { YieldsFirstBy (λ line. (line.0, line.1.now)) (λ left. left) };

    ghost remaining = { item_count (λ left. left) };

    fn next(&mut self) -> Option<(u64, &'a str)> {
        match self.rest.split_once('\n') {
            Some((line, rest)) => {
                self.rest = rest;
                self.taken += 1;
                Some((self.taken, line))
            }
            None => None,
        }
    }
}
