//! Where the nodes of a station are found in captures, by the text of an addresses file.

ghost use Rattle.std.specs.Prelude.{◌≡◌, ◌≤◌, ◌<◌, ◌∷◌, ◌++◌, [], IfErr, IfNone, IfOk, IfSome, OnOk, OnSome, Some, length, map};
ghost use Rattle.replay_lines.specs.Names.{node_names};
ghost use Rattle.station_check.specs.Failures.{Told};
ghost use Rattle.node_record.specs.GivenEnds.{AreEnds, Explains, end_at, second_of};
ghost use Rattle.node_record.specs.NodeEnds.{ends_of};
ghost use Rattle.node_record.specs.inside.EndsSoFar.{ExplainsOf, HasEnds, IsNoEnd, IsNoEndOf};

use crate::node_ends::NodeEnds;
use capture_file::Endpoint;
use control_table::Layout;
use simulator_event::NodeId;
use station_check::{Failure, Networks, read_networks, table_of, tell};
use std::alloc::Global;
use std::io::Write;
use std::net::SocketAddr;

/// The ends of the nodes of a station in captures, in the order of the nodes: in the only network or the first, and in the second,
/// where there are two.
#[derive(Drop)]
pub struct FoundEnds {
    pub first: Vec<Endpoint>,
    pub second: Vec<Endpoint>,
}

impl FoundEnds {
    /// The end of no node is known.
    pub fn none(alloc: Global) -> FoundEnds
        ensures first { result.first.items ≡ [] }
        ensures second { result.second.items ≡ [] }
    {
        FoundEnds {
            first: Vec::new(alloc),
            second: Vec::new(alloc),
        }
    }

    pub fn as_ends(&self) -> NodeEnds<'_>
        ensures { ends_of result ≡ record { first = self.now.first.items; second = self.now.second.items } }
    {
        NodeEnds {
            first: &self.first,
            second: &self.second,
        }
    }
}

/// The ends of the nodes of a station in captures, by the text of an addresses file. Both texts are judged, the layout first; each
/// address has to be one of IPv4, since a capture has no others. Where there are none, `err` is told why.
pub fn ends_text<E: Write>(
    alloc: Global,
    layout: &str,
    addresses: &str,
    err: &mut E,
) -> Option<FoundEnds>
    ensures found { IfSome result (λ ends. AreEnds layout.now addresses.now (record { first = ends.first.items; second = ends.second.items })) }
    ensures silent { OnSome result (err.new ≡ err.old) }
    // Only a beginning of the line was told where a write to `err` failed.
    ensures explains { IfNone result (Told (Explains layout.now addresses.now) (E.contents err.old) (E.contents err.new)) }
{
    match ends(alloc, layout, addresses) {
        Ok(ends) => Some(ends),
        Err(failure) => {
            tell(&failure, err);
            None
        }
    }
}

/// Judges the texts, and then makes the ends.
fn ends(alloc: Global, layout: &str, addresses: &str) -> Result<FoundEnds, Failure>
    ensures found { IfOk result (λ ends. AreEnds layout.now addresses.now (record { first = ends.first.items; second = ends.second.items })) }
    ensures explains { IfErr result (Explains layout.now addresses.now) }
{
    let table = table_of(alloc, layout)?;
    let ends = ends_in(alloc, table.layout(), addresses);
    drop(table);
    ends
}

/// The ends of the nodes of this layout, by the text of an addresses file.
fn ends_in(alloc: Global, layout: &Layout, addresses: &str) -> Result<FoundEnds, Failure>
    ensures found { IfOk result (λ ends. HasEnds layout.now addresses.now (record { first = ends.first.items; second = ends.second.items })) }
    ensures explains { IfErr result (ExplainsOf layout.now addresses.now) }
{
    let networks = read_networks(alloc, layout, addresses)?;
    let first = first_ends(alloc, layout, &networks)?;
    let second = second_ends(alloc, layout, &networks)?;
    Ok(FoundEnds { first, second })
}

/// The ends in the only network, or in the first.
fn first_ends(alloc: Global, layout: &Layout, networks: &Networks) -> Result<Vec<Endpoint>, Failure>
    requires { length networks.now.first ≤ length (node_names layout.now) }
    ensures found { IfOk result (λ ends. map end_at networks.now.first ≡ map (λ end. Some end) ends.items) }
    ensures explains { IfErr result (IsNoEnd layout.now networks.now.first) }
{
    ends_at(alloc, layout, networks.first())
}

/// The ends in the second network, where there are two.
fn second_ends(
    alloc: Global,
    layout: &Layout,
    networks: &Networks,
) -> Result<Vec<Endpoint>, Failure>
    requires { length (second_of networks.now) ≤ length (node_names layout.now) }
    ensures found { IfOk result (λ ends. map end_at (second_of networks.now) ≡ map (λ end. Some end) ends.items) }
    ensures explains { IfErr result (IsNoEnd layout.now (second_of networks.now)) }
{
    match networks.second() {
        Some(second) => ends_at(alloc, layout, second),
        None => Ok(Vec::new(alloc)),
    }
}

/// The ends of the first nodes in a network, by their addresses there.
fn ends_at(
    alloc: Global,
    layout: &Layout,
    addresses: &[SocketAddr],
) -> Result<Vec<Endpoint>, Failure>
    requires { length addresses.now ≤ length (node_names layout.now) }
    ensures found { IfOk result (λ ends. map end_at addresses.now ≡ map (λ end. Some end) ends.items) }
    ensures explains { IfErr result (IsNoEnd layout.now addresses.now) }
{
    let mut ends = Vec::new(alloc);
    for place in 0..addresses.len() {
        push_end(layout, &addresses[place], place, &mut ends)?;
    }
    Ok(ends)
}

/// Adds the end of the address of the node at a place, where it is one of IPv4.
fn push_end(
    layout: &Layout,
    address: &SocketAddr,
    place: usize,
    ends: &mut Vec<Endpoint>,
) -> Result<(), Failure>
    requires { place < length (node_names layout.now) }
    ensures added { OnOk result (map (λ end. Some end) ends.new.items ≡ map (λ end. Some end) ends.old.items ++ end_at address.now ∷ []) }
    ensures failed { IfErr result (IsNoEndOf layout.now address.now place) }
{
    let SocketAddr::V4(address) = address else {
        return match layout.node_name(NodeId(place)) {
            Some(name) => Err(Failure::NoIpv4(name)),
            None => Err(Failure::OutOfMemory),
        };
    };
    let end = Endpoint {
        address: address.ip().octets(),
        port: address.port(),
    };
    match ends.push(end) {
        Ok(()) => Ok(()),
        Err(_) => Err(Failure::OutOfMemory),
    }
}
