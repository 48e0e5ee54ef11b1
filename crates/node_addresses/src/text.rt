//! The text of an addresses file.

ghost use Rattle.std.specs.Prelude.{◌≡◌, IfErr, IfOk, List, None, Some};
ghost use Rattle.std.specs.declared.net.socket_addr.SocketAddr.{SocketAddr as Address};
ghost use Rattle.control_table.specs.layout.Once.{Distinct};
ghost use Rattle.toml.specs.Parse.{parse_document};
ghost use Rattle.toml.specs.View.{table_view};
ghost use Rattle.node_addresses.specs.Addresses.{AreIn, IsFault, IsSound, StopsIn, UnlessMemory};
ghost use Rattle.node_addresses.specs.declared.fault.AddressesFault.TheVariants.{Toml};

use crate::address_read::next_address;
use crate::fault::AddressesFault;
use crate::keys::check_keys;
use crate::network::Network;
use control_table::{Layout, NodeId};
use std::alloc::Global;
use std::net::SocketAddr;
use toml::Table;

/// The addresses of a station's nodes, in their order: the station, the signals, the points and the detectors, each in the order
/// of the layout. The text is TOML with one key for each node, as `IXL1 = "10.0.0.1:5001"`. The first fault is told where the
/// text is none. `OutOfMemory` comes only where memory was refused.
pub fn read_addresses(
    alloc: Global,
    layout: &Layout,
    text: &str,
) -> Result<Vec<SocketAddr>, AddressesFault>
    ensures sound { IfOk result (λ addresses. IsSound layout.now text.now addresses.items) }
    ensures fault { IfErr result (λ fault. UnlessMemory fault (IsFault layout.now text.now fault)) }
    ensures only { IfErr result (λ fault. UnlessMemory fault ((addresses : List Address) → ¬ (IsSound layout.now text.now addresses))) }
{
    let document = document(alloc, text)?;
    let addresses = addresses_of(alloc, layout, &document, Network::Alone, &[])?;
    check_keys(layout, &document)?;
    Ok(addresses)
}

pub(crate) fn document(alloc: Global, text: &str) -> Result<Table, AddressesFault>
    ensures read { IfOk result (λ document. parse_document text.now ≡ Some (table_view document)) }
    ensures fault { IfErr result (λ fault. UnlessMemory fault ((fault ≡ Toml) × (parse_document text.now ≡ None))) }
{
    match toml::table_from_str(alloc, text) {
        Ok(document) => Ok(document),
        Err(fault) if fault.is_memory() => Err(AddressesFault::OutOfMemory),
        Err(_) => Err(AddressesFault::Toml),
    }
}

/// The address of each node in a network, where these others are taken.
pub(crate) fn addresses_of(
    alloc: Global,
    layout: &Layout,
    document: &Table,
    network: Network,
    others: &[SocketAddr],
) -> Result<Vec<SocketAddr>, AddressesFault>
    requires { Distinct others.now }
    ensures found { IfOk result (λ addresses. AreIn network others.now layout.now (table_view document.now) addresses.items) }
    ensures fault { IfErr result (λ fault. UnlessMemory fault (StopsIn network others.now layout.now (table_view document.now) fault)) }
{
    let mut addresses = Vec::new(alloc);
    while let Some(name) = layout.node_name(NodeId(addresses.len())) {
        let address = next_address(document, &name, network, others, &addresses)?;
        addresses.push(address)?;
    }
    Ok(addresses)
}
