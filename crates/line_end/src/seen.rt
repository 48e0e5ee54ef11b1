//! What an end sees when it looks.

ghost use Rattle.std.specs.Prelude.{◌≡◌};

use line_laws::Position;
use std::marker::Model;

/// What an end sees when it looks: its contacts, how its station drives the lock, and what its operator wishes.
#[derive(Clone, Copy, Debug)]
pub struct Seen {
    busy: bool,
    drive: Option<Position>,
    wish: bool,
}

impl Model for Seen {
    ghost use Rattle.line_laws.specs.End as spec;

    ghost Value = { spec.Seen };

    ghost view = { λ seen. record { busy = seen.busy; drive = seen.drive; wish = seen.wish } };

    ghost inverse = { λ seen. record { busy = seen.busy; drive = seen.drive; wish = seen.wish } };
}

impl Seen {
    /// `busy`: a contact of its part is occupied. `drive`: where the station drives the lock, if it does. `wish`: the
    /// operator asks for the line.
    pub fn new(busy: bool, drive: Option<Position>, wish: bool) -> Seen
        ensures { result ≡ record { busy = busy; drive = drive; wish = wish } }
    {
        Seen { busy, drive, wish }
    }

    pub fn busy(&self) -> bool
        ensures { result ≡ self.now.busy }
    {
        self.busy
    }

    pub fn drive(&self) -> Option<Position>
        ensures { result ≡ self.now.drive }
    {
        self.drive
    }

    pub fn wish(&self) -> bool
        ensures { result ≡ self.now.wish }
    {
        self.wish
    }
}
