//! What a step hands out is sent.

ghost use Rattle.std.specs.Prelude.{◌≡◌, ◌+◌, ◌≤◌, ◌++◌, length};
ghost use Rattle.simulator_spec.specs.rasta_core.Ends.{handed_out};
ghost use Rattle.simulator_spec.specs.rasta_core.Links.{sent_on};
ghost use Rattle.simulator_spec.specs.rasta_core.identity.Role.TheVariants as role;

use crate::Network;
use simulator_spec::Role;
use simulator_spec::object_host::{Controller, Hosted};

/// The datagrams of the last step are sent on the controller's link, in its connection.
pub(crate) fn send_all<C: Controller>(
    hosted: &mut Hosted<C>,
    link: usize,
    connection: Option<usize>,
    network: &mut Network,
)
    requires { length hosted.old.outbox.datagrams ≤ network.old.room }
    ensures host { hosted.new.host ≡ hosted.old.host }
    ensures sent { network.new.sent ≡ network.old.sent ++ sent_on link (handed_out network.old.time role.Server connection hosted.old.outbox.datagrams) }
    ensures time { network.new.time ≡ network.old.time }
    ensures room { network.new.room + length hosted.old.outbox.datagrams ≡ network.old.room }
{
    while let Some(datagram) = hosted.take_first() {
        network.send(link, &datagram, Role::Server, connection);
    }
}
