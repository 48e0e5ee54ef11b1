//! Where the nodes of a station are found in captures.

ghost use Rattle.std.specs.Prelude.{◌≡◌};
ghost use Rattle.node_record.specs.NodeEnds.{end_in, ends_of, placed_in_second};

use capture_file::{Endpoint, end_of};
use station_check::Network;

/// Where the nodes of a station are found: the first of them at these ends, in the only network or the first, and in the second. The
/// end of each other is made of its place.
#[derive(Clone, Copy)]
pub struct NodeEnds<'a> {
    pub first: &'a [Endpoint],
    pub second: &'a [Endpoint],
}

/// The port of every node that isn't given one.
const PORT: u16 = 40100;

/// Where the node of a place is found in a network.
pub(crate) fn end_in(given: NodeEnds<'_>, over: Network, place: usize) -> Endpoint
    ensures { result ≡ end_in (ends_of given.entry) over place }
{
    match over {
        Network::Alone | Network::First => end_of(given.first, place),
        Network::Second => match given.second.get(place) {
            Some(end) => *end,
            None => placed_in_second(place),
        },
    }
}

/// An end in the second network that is made of the place of a node.
fn placed_in_second(place: usize) -> Endpoint
    ensures { result ≡ placed_in_second place }
{
    let high = place / 250 % 250;
    let low = place % 250 + 1;
    Endpoint {
        address: [10, 1, high as u8, low as u8],
        port: PORT,
    }
}
