//! The words for what is told of signals, points and sections: what is printed, and what is read back.

ghost use Rattle.std.specs.Prelude.{◌≡◌, Some, IfSome};
ghost use Rattle.sci_telegram.specs.Words.{aspect_of_word, aspect_word, occupancy_of_word, occupancy_word, position_of_word, position_word, side_of_word, side_word};

use crate::message::{Aspect, Occupancy, Position, Side};

impl Side {
    /// The word of a side.
    pub fn word(&self) -> &'static str
        ensures spelled { result.now ≡ side_word self.now }
        ensures read_back { side_of_word result.now ≡ Some self.now }
    {
        match self {
            Side::Right => "right",
            Side::Left => "left",
        }
    }

    /// The side whose word this is, if it is one.
    pub fn of_word(word: &str) -> Option<Side>
        ensures read { result ≡ side_of_word word.now }
        ensures spelled { IfSome result (λ side. side_word side ≡ word.now) }
    {
        match word {
            "right" => Some(Side::Right),
            "left" => Some(Side::Left),
            _ => None,
        }
    }
}

impl Position {
    /// The word of a position.
    pub fn word(&self) -> &'static str
        ensures spelled { result.now ≡ position_word self.now }
        ensures read_back { position_of_word result.now ≡ Some self.now }
    {
        match self {
            Position::Right => "right",
            Position::Left => "left",
            Position::NoEndPosition => "none",
        }
    }

    /// The position whose word this is, if it is one.
    pub fn of_word(word: &str) -> Option<Position>
        ensures read { result ≡ position_of_word word.now }
        ensures spelled { IfSome result (λ position. position_word position ≡ word.now) }
    {
        match word {
            "right" => Some(Position::Right),
            "left" => Some(Position::Left),
            "none" => Some(Position::NoEndPosition),
            _ => None,
        }
    }
}

impl Aspect {
    /// The word of an aspect.
    pub fn word(&self) -> &'static str
        ensures spelled { result.now ≡ aspect_word self.now }
        ensures read_back { aspect_of_word result.now ≡ Some self.now }
    {
        match self {
            Aspect::Stop => "stop",
            Aspect::Proceed => "proceed",
            Aspect::Slow => "slow",
        }
    }

    /// The aspect whose word this is, if it is one.
    pub fn of_word(word: &str) -> Option<Aspect>
        ensures read { result ≡ aspect_of_word word.now }
        ensures spelled { IfSome result (λ aspect. aspect_word aspect ≡ word.now) }
    {
        match word {
            "stop" => Some(Aspect::Stop),
            "proceed" => Some(Aspect::Proceed),
            "slow" => Some(Aspect::Slow),
            _ => None,
        }
    }
}

impl Occupancy {
    /// The word of an occupancy.
    pub fn word(&self) -> &'static str
        ensures spelled { result.now ≡ occupancy_word self.now }
        ensures read_back { occupancy_of_word result.now ≡ Some self.now }
    {
        match self {
            Occupancy::Clear => "clear",
            Occupancy::Occupied => "occupied",
        }
    }

    /// The occupancy whose word this is, if it is one.
    pub fn of_word(word: &str) -> Option<Occupancy>
        ensures read { result ≡ occupancy_of_word word.now }
        ensures spelled { IfSome result (λ occupancy. occupancy_word occupancy ≡ word.now) }
    {
        match word {
            "clear" => Some(Occupancy::Clear),
            "occupied" => Some(Occupancy::Occupied),
            _ => None,
        }
    }
}
