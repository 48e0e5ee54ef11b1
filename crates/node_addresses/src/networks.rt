//! Addresses in one network, or in two.

ghost use Rattle.std.specs.Prelude.{◌≡◌, IfErr, IfOk, Some};
ghost use Rattle.std.specs.Option.{option_map};
ghost use Rattle.toml.specs.View.{table_view};
ghost use Rattle.node_addresses.specs.Addresses.{UnlessMemory};
ghost use Rattle.node_addresses.specs.Networks.{AreNetworks, IsFaultIn, IsSoundIn, array_under, has_two};
ghost use Rattle.node_addresses.specs.inside.NetworksRead.{StopsInNetworks};

use crate::address_read::value_under;
use crate::fault::AddressesFault;
use crate::keys::check_keys;
use crate::network::Network;
use crate::text::{addresses_of, document};
use control_table::{Layout, Name, NodeId};
use std::alloc::Global;
use std::marker::Model;
use std::net::SocketAddr;
use toml::Table;

/// The addresses of a station's nodes in one network, or in each of two, in the order of the nodes. Clauses see them as a
/// `NetworksState`.
#[derive(Drop)]
pub struct Networks {
    first: Vec<SocketAddr>,
    second: Option<Vec<SocketAddr>>,
}

impl Model for Networks {
    ghost use Rattle.std.specs.Option.{option_map};
    ghost use Rattle.node_addresses.specs.Networks.{NetworksState};

    ghost Value = { NetworksState };

    ghost view = { λ n. record { first = n.first.items; second = option_map (λ v. v.items) n.second } };
}

impl Networks {
    /// Those in the first network, or in the only one.
    pub fn first(&self) -> &[SocketAddr]
        ensures { result.now ≡ self.now.first }
    {
        self.first.as_slice()
    }

    /// Those in the second, where there are two.
    pub fn second(&self) -> Option<&[SocketAddr]>
        ensures { option_map (λ s. s.now) result ≡ self.now.second }
    {
        match &self.second {
            Some(second) => Some(second.as_slice()),
            None => None,
        }
    }
}

/// The addresses of a station's nodes in one network or in two. The text is TOML with one key for each node, as
/// `IXL1 = "10.0.1.1:5001"` with one network, or `IXL1 = ["10.0.1.1:5001", "10.0.2.1:5001"]` with two; all nodes have the same number.
/// The first fault is told where the text is none. `OutOfMemory` comes only where memory was refused.
pub fn read_networks(alloc: Global, layout: &Layout, text: &str) -> Result<Networks, AddressesFault>
    ensures sound { IfOk result (IsSoundIn layout.now text.now) }
    ensures fault { IfErr result (λ fault. UnlessMemory fault (IsFaultIn layout.now text.now fault)) }
{
    let document = document(alloc, text)?;
    let networks = networks_of(alloc, layout, &document)?;
    check_keys(layout, &document)?;
    Ok(networks)
}

fn networks_of(alloc: Global, layout: &Layout, document: &Table) -> Result<Networks, AddressesFault>
    ensures found { IfOk result (AreNetworks layout.now (table_view document.now)) }
    ensures fault { IfErr result (λ fault. UnlessMemory fault (StopsInNetworks layout.now (table_view document.now) fault)) }
{
    if !has_two(layout, document) {
        let first = addresses_of(alloc, layout, document, Network::Alone, &[])?;
        return Ok(Networks {
            first,
            second: None,
        });
    }
    let first = addresses_of(alloc, layout, document, Network::First, &[])?;
    let second = addresses_of(alloc, layout, document, Network::Second, &first)?;
    Ok(Networks {
        first,
        second: Some(second),
    })
}

/// Whether an array stands under the name of the first node.
fn has_two(layout: &Layout, document: &Table) -> bool
    ensures { result ≡ has_two layout.now (table_view document.now) }
{
    match layout.node_name(NodeId(0)) {
        Some(name) => is_array(document, &name),
        None => false,
    }
}

/// Whether an array stands under a name.
fn is_array(document: &Table, name: &Name) -> bool
    ensures { result ≡ array_under (table_view document.now) (Some name.now) }
{
    match value_under(document, name) {
        Some(value) => value.is_array(),
        None => false,
    }
}
