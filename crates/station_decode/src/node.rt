//! The nodes of a network by their identities.

ghost use Rattle.std.specs.Prelude.{◌≡◌, IfOk, option_copied, string_bytes};
ghost use Rattle.station_decode.specs.Datagrams.{identified, key_in, name_among, node_word, nodes_known};

use ixl_spec::{Key, Layout, Name, key_of};
use std::alloc::{AllocError, Global};

/// The key under which datagrams are read: the layout's, and otherwise the standard start of MD4.
pub(crate) fn key_in(layout: Option<&Layout>) -> Key
    ensures { result ≡ key_in (option_copied layout.entry) }
{
    match layout {
        Some(layout) => key_of(layout),
        None => Key(md4::STANDARD),
    }
}

/// The word for an identity: the name of its node in the layout, and otherwise its number after a sign.
pub(crate) fn node_word(
    alloc: Global,
    layout: Option<&Layout>,
    id: u32,
) -> Result<String, AllocError>
    ensures { IfOk result (λ word. string_bytes word ≡ node_word (option_copied layout.entry) id) }
{
    match name_in(layout, id) {
        Some(name) => String::from_str(alloc, name.as_str()),
        None => format!(in alloc; "#{id}"),
    }
}

/// The name of the node that has an identity, if there is a layout and it has one.
fn name_in(layout: Option<&Layout>, id: u32) -> Option<Name>
    ensures { result ≡ name_among (nodes_known (option_copied layout.entry)) id }
{
    match layout {
        Some(layout) => name_of(layout, id),
        None => None,
    }
}

/// The name of the node of a layout that has an identity.
#[tactic(auto, using(crate::proofs::Identified::named_of))]
fn name_of(layout: &Layout, id: u32) -> Option<Name>
    ensures { result ≡ name_among (identified layout.now) id }
{
    let node = layout.node_with(id)?;
    layout.node_name(node)
}
