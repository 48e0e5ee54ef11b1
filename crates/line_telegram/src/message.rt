//! What the ends of a line tell one another.

use line_laws::Item;
use sci_telegram::Agreement;

/// What a telegram of a line says.
#[derive(Clone, Copy, Debug, PartialEq, Eq)]
pub enum LineMessage {
    /// The first end tells its version. It comes first in a connection.
    VersionCheck { version: u8 },
    /// The second end tells its version, and whether the two match.
    VersionAnswer { agreement: Agreement, version: u8 },
    /// What either end tells then.
    Line(Item),
}
