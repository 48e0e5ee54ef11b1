//! The newest and the oldest copy of bytes.

ghost use Rattle.std.specs.Prelude.{◌≡◌, ◌<◌, false, true, length, IfSome, IfNone, Some, None};
ghost use Rattle.std.specs.Option.{option_map};
ghost use Rattle.simulator_spec.specs.rasta_core.Bag as bag;
ghost use Rattle.simulator_field.specs.Network.{IsOldestCopy, datagrams};
ghost use Rattle.simulator_field.specs.inside.Entries.{AreKept, AreWithin, on_links};
ghost use Rattle.simulator_field.specs.inside.Indexed.{keys_of};

use crate::entry::Entry;
use place_index::{PlaceIndex, key_of};
use simulator_spec::LIFETIME_MICROS;

/// The connection of the newest copy of these bytes that can still be delivered. The search goes from the newest
/// datagram of their key back, and ends at one that is too old.
pub(crate) fn newest_copy(
    entries: &[Entry],
    row: &[u8],
    index: &PlaceIndex,
    time: u64,
    bytes: &[u8],
) -> Option<usize>
    requires kept { AreKept time row.now entries.now }
    requires indexed { index.now.keys ≡ keys_of row.now entries.now }
    ensures { result ≡ option_map (λ s. s.connection) (bag.newest_copy time bytes.now (datagrams (on_links row.now entries.now))) }
{
    let mut found = index.newest(key_of(bytes));
    while let Some(place) = found {
        let one = &entries[place];
        if time.saturating_sub(one.at) > LIFETIME_MICROS {
            return None;
        }
        if one.is_copy(row, bytes) {
            return Some(one.connection);
        }
        found = index.older(place);
    }
    None
}

/// The place of the oldest copy of these bytes that isn't lost.
pub(crate) fn oldest_copy(
    entries: &[Entry],
    row: &[u8],
    index: &PlaceIndex,
    bytes: &[u8],
) -> Option<usize>
    requires within { AreWithin row.now entries.now }
    requires indexed { index.now.keys ≡ keys_of row.now entries.now }
    ensures found { IfSome result (λ place. IsOldestCopy place bytes.now (on_links row.now entries.now)) }
    ensures none { IfNone result (bag.has_copy bytes.now (datagrams (on_links row.now entries.now)) ≡ false) }
{
    let mut found = index.oldest(key_of(bytes));
    while let Some(place) = found {
        if entries[place].is_copy(row, bytes) {
            return Some(place);
        }
        found = index.newer(place);
    }
    None
}
