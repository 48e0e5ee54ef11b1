//! The key of a station's network.

ghost use Rattle.std.specs.Prelude.{◌≡◌};
ghost use Rattle.ixl_spec.specs.First.{key_of};

use closings::Layout;
use rasta_pdu::Key;

/// The key of the network: that of the layout, and otherwise the standard start of MD4.
pub fn key_of(layout: &Layout) -> Key
    ensures { result ≡ key_of layout.now }
{
    Key(layout.station().key.unwrap_or(md4::STANDARD))
}
