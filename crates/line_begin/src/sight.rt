//! Whether a file stands at a place already.

ghost use Rattle.std.specs.Prelude.{◌≡◌, IfNone, IfOk, IfSome, IsErr};
ghost use Rattle.line_begin.specs.declared.sight.There.TheVariants as there;

use line_file::Place;
use std::io;

/// What is seen at the place of a file, before a line begins.
#[derive(Clone, Copy, Debug, PartialEq, Eq)]
pub enum There {
    /// No file is there.
    Nothing,
    /// A file is there, whatever it has.
    File,
    /// The system doesn't say whether one is there.
    Unseen,
}

/// What is seen, where this is what the place answered.
fn seen(answer: io::Result<Option<Vec<u8>>>) -> There
    ensures file { IfOk answer (λ file. IfSome file (λ bytes. result ≡ there.File)) }
    ensures nothing { IfOk answer (λ file. IfNone file (result ≡ there.Nothing)) }
    ensures unseen { IsErr answer → result ≡ there.Unseen }
{
    match answer {
        Ok(Some(_)) => There::File,
        Ok(None) => There::Nothing,
        Err(_) => There::Unseen,
    }
}

/// What is seen at the place of a file.
pub fn look<P: Place>(place: &P) -> There {
    seen(place.read())
}
