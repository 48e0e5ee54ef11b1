//! Numbers drawn from a seed, for tests.
#![tactic(auto)]

ghost use Rattle.std.specs.Prelude.{◌≡◌, ◌%◌, ◌<◌, ◌==◌, IsTrue};
ghost use Rattle.rand_pcg.specs.Lcg.{increment_of, started};
ghost use Rattle.rand_pcg.specs.Pcg.{multiplier_64, pcg32};

use rand_core::utils::NextWord;
use rand_pcg::Pcg32;
use std::marker::Model;

/// Which of the generator's streams is drawn from.
const STREAM: u64 = 1;

/// Numbers that come again where the seed is the same. Clauses see the generator that they come from.
#[derive(Drop)]
pub struct Chance {
    words: Pcg32,
}

impl Model for Chance {
    ghost use Rattle.rand_pcg.specs.Lcg.{Lcg};

    ghost Value = { Lcg };

    ghost view = { λ c. c.words };

    ghost inverse = { λ l. record { words = l } };
}

impl Chance {
    /// The numbers of a seed.
    pub fn seeded(seed: u64) -> Chance
        ensures { result ≡ started 64 multiplier_64 seed (increment_of 64 1) }
    {
        Chance {
            words: Pcg32::new(seed, STREAM),
        }
    }

    /// Any number of 32 bits.
    pub fn word(&mut self) -> u32
        ensures value { result ≡ (pcg32 self.old).0 }
        ensures next { self.new ≡ (pcg32 self.old).1 }
    {
        self.words.next_word()
    }

    /// Any byte: the lowest one of a word.
    pub fn byte(&mut self) -> u8
        ensures value { result ≡ (pcg32 self.old).0 % 256 }
        ensures next { self.new ≡ (pcg32 self.old).1 }
    {
        (self.word() % 256) as u8
    }

    /// A number below this one, and 0 below 0.
    pub fn below(&mut self, limit: u32) -> u32
        ensures value { 0 < limit → result ≡ (pcg32 self.old).0 % limit }
        ensures zero { limit ≡ 0 → result ≡ 0 }
        ensures bounded { 0 < limit → result < limit }
        ensures next { self.new ≡ (pcg32 self.old).1 }
    {
        self.word().checked_rem(limit).unwrap_or(0)
    }

    /// A place in a list of this length, and 0 in an empty one.
    pub fn place(&mut self, length: usize) -> usize
        ensures value { 0 < length → result ≡ (pcg32 self.old).0 % length }
        ensures zero { length ≡ 0 → result ≡ 0 }
        ensures bounded { 0 < length → result < length }
        ensures next { self.new ≡ (pcg32 self.old).1 }
    {
        (self.word() as usize).checked_rem(length).unwrap_or(0)
    }

    /// Whether a number below this one is 0: true once in so many times, and always where it is 0.
    pub fn once_in(&mut self, times: u32) -> bool
        ensures value { 0 < times → result ≡ ((pcg32 self.old).0 % times == 0) }
        ensures zero { times ≡ 0 → IsTrue result }
        ensures next { self.new ≡ (pcg32 self.old).1 }
    {
        self.below(times) == 0
    }
}
