//! Places in a text, by line and column.

ghost use Rattle.std.specs.Prelude.{◌≡◌};
ghost use Rattle.station_layout.specs.Places.{behind, place_behind};

/// A place in a text. Lines and columns count from 1, and a column counts characters.
#[derive(Clone, Copy)]
pub(crate) struct TextPlace {
    pub(crate) line: usize,
    pub(crate) column: usize,
}

/// The place after one more byte.
fn behind(at: TextPlace, byte: u8) -> TextPlace
    ensures { result ≡ behind at byte }
{
    if byte == b'\n' {
        return TextPlace {
            line: at.line.saturating_add(1),
            column: 1,
        };
    }
    // Such a byte goes on with a character.
    if (128..192).contains(&byte) {
        return at;
    }
    TextPlace {
        line: at.line,
        column: at.column.saturating_add(1),
    }
}

/// The place after a text.
pub(crate) fn place_behind(text: &[u8]) -> TextPlace
    ensures { result ≡ place_behind text.now }
{
    let mut at = TextPlace { line: 1, column: 1 };
    for byte in text {
        at = behind(at, *byte);
    }
    at
}
