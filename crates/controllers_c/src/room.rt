//! The room for a controller.

ghost use Rattle.std.specs.Prelude.{◌≡◌, nat_lt};

use crate::held::Held;

/// How many bytes the room of a handle has at least.
const ROOM_BYTES: usize = 1024;

/// A controller of any kind fits there.
const _: () = prove!(size_of::<Held>() <= ROOM_BYTES);

/// Whether that is less room than there has to be.
pub(crate) fn is_too_small(room: usize) -> bool
    ensures { result ≡ nat_lt room 1024 }
{
    room < ROOM_BYTES
}
