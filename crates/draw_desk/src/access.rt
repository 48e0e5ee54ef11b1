//! By what a desk knows who may ask, and who may command.

ghost use Rattle.std.specs.Prelude.{◌≡◌};

use std::marker::Model;

/// By what a desk knows who may ask, and who may command.
#[derive(Drop)]
pub struct Access<'a> {
    /// Its address and port, as a browser writes them into `Host`.
    pub host: &'a [u8],
    /// The origin of its page, as a browser writes it into `Origin`.
    pub origin: &'a [u8],
    /// The token that its page is given.
    pub token: &'a [u8],
}

impl<'a> Model for Access<'a> {
    ghost use Rattle.draw_desk.specs.Seen.{AccessView};

    ghost Value = { AccessView };

    ghost view = { λ a. record { host = a.host.now; origin = a.origin.now; token = a.token.now } };
}

/// The same, as a desk keeps it.
#[derive(Drop)]
pub struct OwnAccess {
    pub host: String,
    pub origin: String,
    pub token: String,
}

impl Model for OwnAccess {
    ghost use Rattle.std.specs.Prelude.{string_bytes};
    ghost use Rattle.draw_desk.specs.Seen.{AccessView};

    ghost Value = { AccessView };

    ghost view = { λ a. record { host = string_bytes a.host; origin = string_bytes a.origin; token = string_bytes a.token } };
}

impl OwnAccess {
    /// What a request is judged by.
    pub(crate) fn lent(&self) -> Access<'_>
        ensures { result ≡ self.now }
    {
        Access {
            host: self.host.as_bytes(),
            origin: self.origin.as_bytes(),
            token: self.token.as_bytes(),
        }
    }
}
