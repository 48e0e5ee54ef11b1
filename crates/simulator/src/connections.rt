//! The connections that the interlocking began.

ghost use Rattle.std.specs.Prelude.{◌≡◌, ◌<◌, ◌+◌, None, IfOk, map, slice_index_or};
ghost use Rattle.simulator_spec.specs.First.{no_connection};
ghost use Rattle.simulator_spec.specs.Nodes.{partners};
ghost use Rattle.simulator_spec.specs.Interlocking.{begun_by, sending_one};
ghost use Rattle.simulator.specs.inside.Connections.{sending_by};

use ixl_state::{Datagram, Layout, Role, is_request};
use simulator_field::Network;
use simulator_spec::link_of;
use std::alloc::{AllocError, Global};

/// The connection that was begun last on each link.
#[derive(Debug, Drop)]
pub(crate) struct Connections {
    pub(crate) begun: Vec<Option<usize>>,
}

impl Connections {
    /// No connection was begun on any link of a layout.
    pub(crate) fn new(alloc: Global, layout: &Layout) -> Result<Connections, AllocError>
        ensures { IfOk result (λ connections. connections.begun.items ≡ map no_connection (partners layout.now)) }
    {
        let begun = vec![in alloc; None; layout.links()]?;
        Ok(Connections { begun })
    }

    /// A datagram is about to be sent on a link. A request begins a connection there, with this number.
    fn begin(&mut self, link: usize, moment: usize, bytes: &[u8])
        ensures { self.new.begun.items ≡ begun_by link moment bytes.now self.old.begun.items }
    {
        if is_request(bytes) && link < self.begun.len() {
            self.begun[link] = Some(moment);
        }
    }

    /// The connection that was begun last on a link.
    fn last(&self, link: usize) -> Option<usize>
        ensures { result ≡ slice_index_or self.now.begun.items link None }
    {
        match self.begun.as_slice().get(link) {
            Some(connection) => *connection,
            None => None,
        }
    }

    /// A datagram is sent on the link of its receiver, in the connection that was begun there last. A request begins one,
    /// which has its number: how many datagrams were sent before.
    pub(crate) fn send(&mut self, layout: &Layout, datagram: &Datagram, network: &mut Network)
        requires { 0 < network.old.room }
        ensures sending { sending_by self.new network.new ≡ sending_one layout.now network.old.time datagram.now.items (sending_by self.old network.old) }
        ensures time { network.new.time ≡ network.old.time }
        ensures room { network.new.room + 1 ≡ network.old.room }
    {
        let bytes = datagram.as_slice();
        let link = link_of(layout, bytes);
        self.begin(link, network.len(), bytes);
        network.send(link, datagram, Role::Client, self.last(link));
    }
}
