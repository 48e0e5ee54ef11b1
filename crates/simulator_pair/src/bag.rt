//! The datagrams that were sent, oldest first, and the bag of those that the network still has.

ghost use Rattle.std.specs.Prelude.{◌≡◌, ◌+◌, ◌<◌, ◌≤◌, ◌++◌, ℕ, List, [], length, true, false, IfSome, IfNone};
ghost use Rattle.std.specs.Option.{option_map};
ghost use Rattle.std.specs.Vec.{vec_len, vec_capacity};
ghost use Rattle.rasta_core.specs.Bag as spec;
ghost use Rattle.rasta_core.specs.Ends.{handed_out};
ghost use Rattle.simulator_pair.specs.inside.EventTest.{StandsAt};
ghost use Rattle.simulator_pair.specs.inside.Indexed.{keys_of};
ghost use Rattle.simulator_pair.specs.inside.Order.{AreInOrder};
ghost use Rattle.simulator_pair.specs.Events.{clock_limit};

use place_index::{PlaceIndex, key_of};
use rasta_core::{LIFETIME_MICROS, Outbox, Role, Sent};

/// The datagrams that the network still has: those that were sent and aren't lost, oldest first.
#[derive(Debug, Drop)]
pub struct Bag<'a> {
    pub(crate) sent: &'a [Sent],
}

impl<'a> Iterator for Bag<'a> {
    type Item = &'a Sent;

    ghost use Rattle.std.specs.Iterator.{YieldsFirstRef, item_count};
    ghost use Rattle.simulator_pair.specs.Bag.{in_bag};

    ghost next_gives = { YieldsFirstRef in_bag };

    ghost remaining = { item_count in_bag };

    fn next(&mut self) -> Option<&'a Sent> {
        while let Some((first, later)) = self.sent.split_first() {
            self.sent = later;
            if !first.is_lost() {
                return Some(first);
            }
        }
        None
    }
}

/// Whether it is a copy of these bytes that isn't lost.
fn is_copy(sent: &Sent, bytes: &[u8]) -> bool
    ensures { result ≡ spec.is_copy bytes.now sent.now }
{
    !sent.is_lost() && sent.bytes() == bytes
}

/// The connection of the newest copy of these bytes that can still be delivered. The search goes from the newest
/// datagram of their key back, and ends at one that is too old.
pub(crate) fn newest_copy(
    sent: &[Sent],
    index: &PlaceIndex,
    time: u64,
    bytes: &[u8],
) -> Option<usize>
    requires in_order { AreInOrder time sent.now }
    requires within { time ≤ clock_limit }
    requires indexed { index.now.keys ≡ keys_of sent.now }
    ensures { result ≡ option_map (λ s. s.connection) (spec.newest_copy time bytes.now sent.now) }
{
    let mut found = index.newest(key_of(bytes));
    while let Some(place) = found {
        let one = &sent[place];
        if one.at() + LIFETIME_MICROS < time {
            return None;
        }
        if is_copy(one, bytes) {
            return Some(one.connection());
        }
        found = index.older(place);
    }
    None
}

/// The place of the oldest copy of these bytes that isn't lost.
pub(crate) fn oldest_copy(sent: &[Sent], index: &PlaceIndex, bytes: &[u8]) -> Option<usize>
    requires { index.now.keys ≡ keys_of sent.now }
    ensures found { IfSome result (λ place. (spec.has_copy bytes.now sent.now ≡ true) × StandsAt place bytes.now sent.now) }
    ensures none { IfNone result (spec.has_copy bytes.now sent.now ≡ false) }
{
    let mut found = index.oldest(key_of(bytes));
    while let Some(place) = found {
        if is_copy(&sent[place], bytes) {
            return Some(place);
        }
        found = index.newer(place);
    }
    None
}

/// The network loses the datagram at this place: of bytes whose oldest copy it is, this copy.
pub(crate) fn lose_at(sent: &mut [Sent], index: &mut PlaceIndex, place: usize)
    requires within { place < length sent.old }
    requires indexed { index.old.keys ≡ keys_of sent.old }
    ensures lost { (bytes : List ℕ) → StandsAt place bytes sent.old → sent.new ≡ spec.without_oldest bytes sent.old }
    ensures indexed { index.new.keys ≡ keys_of sent.new }
    ensures room { index.new.room ≡ index.old.room }
{
    sent[place].lose();
    index.remove(place);
}

/// What was handed out is sent, by this end in its connection.
pub(crate) fn send_all(
    sent: &mut Vec<Sent>,
    index: &mut PlaceIndex,
    outbox: &mut Outbox,
    time: u64,
    sender: Role,
    connection: Option<usize>,
)
    requires memory { vec_len sent.old + length outbox.old.datagrams ≤ vec_capacity sent.old }
    requires room { length outbox.old.datagrams ≤ index.old.room }
    requires indexed { index.old.keys ≡ keys_of sent.old.items }
    ensures items { sent.new.items ≡ sent.old.items ++ handed_out time sender connection outbox.old.datagrams }
    ensures len { vec_len sent.new ≡ vec_len sent.old + length outbox.old.datagrams }
    ensures capacity { vec_capacity sent.new ≡ vec_capacity sent.old }
    ensures indexed { index.new.keys ≡ keys_of sent.new.items }
    ensures room { index.new.room + length outbox.old.datagrams ≡ index.old.room }
    ensures emptied { outbox.new ≡ record outbox.old { datagrams = [] } }
{
    let number = connection.unwrap_or(0);
    while let Some(datagram) = outbox.take_first() {
        index.push(key_of(datagram.as_slice()));
        sent.push_reserved(Sent::new(datagram, time, sender, number));
    }
}
