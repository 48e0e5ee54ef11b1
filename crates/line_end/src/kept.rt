//! What an end keeps in its file.

ghost use Rattle.std.specs.Prelude.{◌≡◌};

use line_laws::Position;
use std::marker::Model;

/// What an end keeps over a restart: whether the line's token is here, and where its lock lies.
#[derive(Clone, Copy, PartialEq, Eq, Debug)]
pub struct Kept {
    token: bool,
    lock: Position,
}

impl Model for Kept {
    ghost use Rattle.line_laws.specs.End.{File};

    ghost Value = { File };

    ghost view = { λ kept. record { token = kept.token; lock = kept.lock } };

    ghost inverse = { λ file. record { token = file.token; lock = file.lock } };
}

impl Kept {
    /// What is read from a file.
    pub fn new(token: bool, lock: Position) -> Kept
        ensures { result ≡ record { token = token; lock = lock } }
    {
        Kept { token, lock }
    }

    /// Whether the line's token is here.
    pub fn token(&self) -> bool
        ensures { result ≡ self.now.token }
    {
        self.token
    }

    /// Where the lock lies.
    pub fn lock(&self) -> Position
        ensures { result ≡ self.now.lock }
    {
        self.lock
    }
}
