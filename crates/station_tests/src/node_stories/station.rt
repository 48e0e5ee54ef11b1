//! The small station.

use control_table::Checked;
use std::alloc::Global;
use std::net::{IpAddr, Ipv4Addr, Net, SocketAddr};

/// One point, with a route over each of its legs from the same signal, and one back over its left leg: its control table, and the
/// addresses of its nodes on this machine, in their order.
#[derive(Clone, Copy)]
pub(crate) struct Station<'a> {
    pub(crate) rt: &'a HostRuntime,
    pub(crate) alloc: Global,
    pub(crate) table: &'a Checked,
    pub(crate) addresses: &'a [SocketAddr],
    /// Those in a second network; none where there is only one.
    pub(crate) second: &'a [SocketAddr],
}

/// Its nodes, by their numbers.
pub(crate) const INTERLOCKING: usize = 0;

pub(crate) const S1: usize = 1;

pub(crate) const S3: usize = 2;

pub(crate) const S4: usize = 3;

pub(crate) const P1: usize = 4;

pub(crate) const D1: usize = 5;

/// The names of its nodes, in the order of their numbers.
pub(crate) const NAMES: [&str; 6] = ["IXL1", "S1", "S3", "S4", "P1", "D1"];

/// The name of a node.
pub(crate) fn name(number: usize) -> &'static str {
    NAMES.get(number).copied().unwrap_or("-")
}

/// An address of the loopback interface for each node in a network of this number, all with one port, which the system gave.
pub(crate) fn free_addresses(net: &impl Net, network: u8) -> Option<[SocketAddr; 6]> {
    let free = net.bind_udp(at(network, 1, 0)).ok()?;
    let port = free.local_addr().ok()?.port();
    Some([
        at(network, 1, port),
        at(network, 2, port),
        at(network, 3, port),
        at(network, 4, port),
        at(network, 5, port),
        at(network, 6, port),
    ])
}

/// An address of the loopback interface.
fn at(network: u8, last: u8, port: u16) -> SocketAddr {
    SocketAddr::new(IpAddr::V4(Ipv4Addr::new(127, 0, network, last)), port)
}
