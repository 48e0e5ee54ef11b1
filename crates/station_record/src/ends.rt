//! The nodes at the ends of a link.

ghost use Rattle.std.specs.Prelude.{◌≡◌};
ghost use Rattle.station_record.specs.Traffic.{sender};

use replay::{NodeId, Role, receiver};

/// The node that sent on a link. Its partner would have sent to it.
pub(crate) fn sender(who: Role, link: usize) -> NodeId
    ensures { result ≡ sender who link }
{
    match who {
        Role::Client => receiver(Role::Server, link),
        Role::Server => receiver(Role::Client, link),
    }
}
