//! Whether the same is known as before.

ghost use Rattle.std.specs.Prelude.{◌≡◌};
ghost use Rattle.node_kinds.specs.Interlockings.{is_same};

use node_drive::node_lines::Known;

/// Whether the same is known of the same thing.
pub(crate) fn is_same(one: Known, other: Known) -> bool
    ensures { result ≡ is_same one other }
{
    one == other
}
