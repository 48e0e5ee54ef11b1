//! The room for an interlocking.

ghost use Rattle.std.specs.Prelude.{◌≡◌, nat_lt};

use crate::held::Held;

/// How many bytes the room of a handle has at least.
const ROOM_BYTES: usize = 2048;

/// An interlocking fits there.
const _: () = prove!(size_of::<Held>() <= ROOM_BYTES);

/// Whether that is less room than there has to be.
pub(crate) fn is_too_small(room: usize) -> bool
    ensures { result ≡ nat_lt room 2048 }
{
    room < ROOM_BYTES
}
