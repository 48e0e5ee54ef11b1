//! Where the nodes of a network are found.

ghost use Rattle.std.specs.Prelude.{◌≡◌};
ghost use Rattle.capture_file.specs.NodeEnds.{end_of, placed};

use crate::journey::Endpoint;

/// The port of every node that isn't given one.
const PORT: u16 = 40100;

/// An end that is made of the place of a node.
fn placed(place: usize) -> Endpoint
    ensures { result ≡ placed place }
{
    let high = place / 250 % 250;
    let low = place % 250 + 1;
    Endpoint {
        address: [10, 0, high as u8, low as u8],
        port: PORT,
    }
}

/// Where the node of a place is found: where that is given, and otherwise at an end that is made of the place.
pub fn end_of(given: &[Endpoint], place: usize) -> Endpoint
    ensures { result ≡ end_of given.now place }
{
    match given.get(place) {
        Some(end) => *end,
        None => placed(place),
    }
}
