//! A layout whose text may have no routes yet.

ghost use Rattle.std.specs.Prelude.{◌≡◌, ◌++◌, IfOk, codes, string_bytes};
ghost use Rattle.layout_text.specs.FirstFault.{Gives};
ghost use Rattle.table_review.specs.Topology.{is_routes_key, topology_in};

use layout_text::{LayoutFault, Place, TableName};
use route_derivation::control_table::Layout;
use std::alloc::{AllocError, Global};

/// What stands before a text that has no routes, so that it has an empty list of them.
const NO_ROUTES: &str = "route = []\n";

/// Whether a place is that of the key `route` itself.
fn is_routes_key(place: Place) -> bool
    ensures { result ≡ is_routes_key place }
{
    matches!(place.table, TableName::Route) && place.entry == 0
}

/// A text with an empty list of routes before it.
fn without_routes(alloc: Global, text: &str) -> Result<String, AllocError>
    ensures { IfOk result (λ s. string_bytes s ≡ codes "route = []\n" ++ text.now) }
{
    let mut longer = String::from_str(alloc, NO_ROUTES)?;
    longer.push_str(text)?;
    Ok(longer)
}

/// The layout of a text, which may have no key `route` yet: then it has no routes.
pub fn layout_or_topology(alloc: Global, text: &str) -> Result<Layout, LayoutFault>
    ensures { Gives (λ l. l) result (topology_in text.now) }
{
    match Layout::read(alloc, text) {
        Err(LayoutFault::MissingKey(place)) if is_routes_key(place) => {
            let longer = without_routes(alloc, text)?;
            Layout::read(alloc, longer.as_str())
        }
        read => read,
    }
}
