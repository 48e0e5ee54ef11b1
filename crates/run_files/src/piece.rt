//! How much of some bytes goes to a part.

ghost use Rattle.std.specs.Prelude.{◌≡◌, ◌==◌, ◌≤◌, ◌&&◌, length, nat_le};
ghost use Rattle.run_files.specs.inside.Pieces.{piece};

use crate::line_ends::LINE_FEED;

/// How many of these bytes go to a part that lacks so many of its size: all, or those up to the line feed with which it is full.
pub(crate) fn piece(missing: u64, bytes: &[u8]) -> usize
    ensures bound { result ≤ length bytes.now }
    ensures piece { result ≡ piece missing bytes.now }
{
    let mut left = missing;
    for place in 0..bytes.len() {
        if is_last(bytes[place], left) {
            return place + 1;
        }
        left = left.saturating_sub(1);
    }
    bytes.len()
}

/// Whether a part that lacks so many bytes of its size is full with this one.
fn is_last(byte: u8, left: u64) -> bool
    ensures { result ≡ (byte == 10 && nat_le left 1) }
{
    byte == LINE_FEED && left <= 1
}
