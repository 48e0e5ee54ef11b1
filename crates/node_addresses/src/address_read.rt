//! The address of one node.

ghost use Rattle.std.specs.Prelude.{◌≡◌, ◌++◌, IfErr, IfNone, IfOk, IfSome};
ghost use Rattle.std.specs.Bool.{Decides};
ghost use Rattle.std.specs.List.{Contains};
ghost use Rattle.std.specs.Option.{option_copied, option_map};
ghost use Rattle.toml.specs.Data.{as_array, get_member};
ghost use Rattle.toml.specs.View.{items_view, view, table_view};
ghost use Rattle.node_addresses.specs.Addresses.{GivesAddress, HasNone, StandsUnder, WritesAddress, first_of, part_in, second_of, text_in};

use crate::fault::AddressesFault;
use crate::network::Network;
use control_table::Name;
use std::net::SocketAddr;
use toml::{Table, Value};

/// The address of the next node in a network, which none of the nodes before it may have, and which is none of these others.
pub(crate) fn next_address(
    document: &Table,
    name: &Name,
    network: Network,
    others: &[SocketAddr],
    before: &[SocketAddr],
) -> Result<SocketAddr, AddressesFault>
    ensures found { IfOk result (StandsUnder network (table_view document.now) name.now) }
    ensures own { IfOk result (λ address. ¬ (Contains (others.now ++ before.now) address)) }
    ensures fault { IfErr result (HasNone network others.now (table_view document.now) name.now before.now) }
{
    let Some(value) = value_under(document, name) else {
        return Err(AddressesFault::MissingNode(*name));
    };
    let Some(address) = address_in(network, value) else {
        return Err(AddressesFault::WrongAddress(*name));
    };
    if is_taken(others, before, &address) {
        return Err(AddressesFault::DoubleAddress(*name));
    }
    Ok(address)
}

// What stands under a node's name.
pub(crate) fn value_under<'a>(document: &'a Table, name: &Name) -> Option<&'a Value>
    ensures { option_map (λ v. view v.now) result ≡ get_member name.now (table_view document.now) }
{
    document.get(name.as_str())
}

fn address_in(network: Network, value: &Value) -> Option<SocketAddr>
    ensures found { IfSome result (GivesAddress network (view value.now)) }
    ensures none { IfNone result ((address : SocketAddr) → ¬ (GivesAddress network (view value.now) address)) }
{
    written_address(text_in(network, value)?)
}

/// What of a value is the text of its address in a network.
fn text_in(network: Network, value: &Value) -> Option<&str>
    ensures { option_copied result ≡ text_in network (view value.now) }
{
    part_in(network, value)?.as_str()
}

fn part_in(network: Network, value: &Value) -> Option<&Value>
    ensures { option_map (λ v. view v.now) result ≡ part_in network (view value.now) }
{
    match network {
        Network::Alone => Some(value),
        Network::First => first_of(items_in(value)?),
        Network::Second => second_of(items_in(value)?),
    }
}

/// The items of a value, where it is an array.
fn items_in(value: &Value) -> Option<&[Value]>
    ensures { option_map (λ items. items_view items.now) result ≡ as_array (view value.now) }
{
    match value.as_array() {
        Some(items) => Some(items.as_slice()),
        None => None,
    }
}

/// The first of two.
fn first_of(items: &[Value]) -> Option<&Value>
    ensures { option_map (λ v. view v.now) result ≡ first_of (items_view items.now) }
{
    let (one, others) = items.split_first()?;
    let (_, more) = others.split_first()?;
    match more.split_first() {
        Some(_) => None,
        None => Some(one),
    }
}

/// The second of two.
fn second_of(items: &[Value]) -> Option<&Value>
    ensures { option_map (λ v. view v.now) result ≡ second_of (items_view items.now) }
{
    let (_, others) = items.split_first()?;
    let (other, more) = others.split_first()?;
    match more.split_first() {
        Some(_) => None,
        None => Some(other),
    }
}

fn written_address(text: &str) -> Option<SocketAddr>
    ensures found { IfSome result (WritesAddress text.now) }
    ensures none { IfNone result ((address : SocketAddr) → ¬ (WritesAddress text.now address)) }
{
    match text.parse::<SocketAddr>() {
        Ok(address) if address.port() != 0 => Some(address),
        _ => None,
    }
}

/// Whether an address is one of these others, or of one of the nodes before.
fn is_taken(others: &[SocketAddr], before: &[SocketAddr], address: &SocketAddr) -> bool
    ensures { Decides result (Contains (others.now ++ before.now) address.now) }
{
    is_among(others, address) || is_among(before, address)
}

fn is_among(addresses: &[SocketAddr], address: &SocketAddr) -> bool
    ensures { Decides result (Contains addresses.now address.now) }
{
    addresses.contains(address)
}
