//! Who the two ends of a line are.

ghost use Rattle.std.specs.Prelude.{◌≡◌};
ghost use Rattle.line_world.specs.Names.{parties};

use line_host::{Name, Parties, Side};
use rasta_pdu::Key;

/// The version that each end tells its partner.
pub const VERSION: u8 = 1;

/// An end of a line as its partner knows it.
#[derive(Clone, Copy, Debug)]
pub struct EndName {
    /// By which it signs its telegrams.
    pub name: Name,
    /// Its identity on the line's link.
    pub id: u32,
}

/// Who the two ends of a line are.
#[derive(Clone, Copy, Debug)]
pub struct LineNames {
    /// The name of the line.
    pub line: Name,
    /// The client of the line's link.
    pub first: EndName,
    /// Its server.
    pub second: EndName,
    /// The key of the line's network.
    pub key: Key,
}

impl LineNames {
    /// The end at a side, and with whom it talks.
    pub fn parties(&self, side: Side) -> Parties
        ensures { result ≡ parties side self.now }
    {
        let (own, partner) = match side {
            Side::First => (self.first, self.second),
            Side::Second => (self.second, self.first),
        };
        Parties {
            line: self.line,
            side,
            own: own.id,
            partner: partner.id,
            own_name: own.name,
            peer_name: partner.name,
            key: self.key,
        }
    }
}
