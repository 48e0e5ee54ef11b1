//! The keys of an addresses file.

ghost use Rattle.std.specs.Prelude.{◌≡◌, IfErr, None, OnOk, Some};
ghost use Rattle.toml.specs.View.{table_view};
ghost use Rattle.node_addresses.specs.Addresses.{unknown, unknown_key};

use crate::fault::AddressesFault;
use control_table::{Layout, Name};
use replay_lines::node_named;
use toml::Table;

/// Whether each key is the name of a node, or else the fault of the first that isn't.
pub(crate) fn check_keys(layout: &Layout, document: &Table) -> Result<(), AddressesFault>
    ensures known { OnOk result (unknown_key layout.now (table_view document.now) ≡ None) }
    ensures unknown { IfErr result (λ fault. unknown_key layout.now (table_view document.now) ≡ Some fault) }
{
    for (key, _) in document {
        if node_named(layout, key.as_str()).is_err() {
            return Err(unknown(key.as_str()));
        }
    }
    Ok(())
}

fn unknown(key: &str) -> AddressesFault
    ensures { result ≡ unknown key.now }
{
    match Name::of(key.as_bytes()) {
        Some(name) => AddressesFault::UnknownNode(name),
        None => AddressesFault::WrongName,
    }
}
