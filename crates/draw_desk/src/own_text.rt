//! A text of one's own.

ghost use Rattle.std.specs.Prelude.{◌≡◌, IfOk, string_bytes};

use std::alloc::{AllocError, Global};
use std::marker::Model;

/// A text of one's own.
#[derive(Drop)]
pub struct OwnText {
    text: String,
}

impl Model for OwnText {
    ghost use Rattle.std.specs.Prelude.{ℕ, List, string_bytes};

    ghost Value = { List ℕ };

    ghost view = { λ t. string_bytes t.text };
}

impl OwnText {
    pub fn new(text: String) -> OwnText
        ensures { result ≡ string_bytes text }
    {
        OwnText { text }
    }

    /// A copy of a text.
    pub fn of(alloc: Global, text: &str) -> Result<OwnText, AllocError>
        ensures { IfOk result (λ own. own ≡ text.now) }
    {
        let text = String::from_str(alloc, text)?;
        Ok(OwnText { text })
    }

    pub fn as_str(&self) -> &str
        ensures { result.now ≡ self.now }
    {
        self.text.as_str()
    }
}
