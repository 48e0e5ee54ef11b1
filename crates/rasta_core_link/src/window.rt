//! The items that wait for confirmation.

ghost use Rattle.std.specs.Prelude.{◌≡◌, ◌+◌, ◌-◌, ◌^◌, ◌<◌, ◌≤◌, length};
ghost use Rattle.circular_buffer.specs.Buffer.{buffer};
ghost use Rattle.rasta_core_link.specs.Outbox.{HasRoomFor, posted};
ghost use Rattle.rasta_core_link.specs.Receipt.{still_waiting, repeated, retagged};

use crate::header::Header;
use crate::outbox::Outbox;
use circular_buffer::HeapCircularBuffer;
use rasta_pdu::{Body, Item, Items, Key};

/// An item, and the count in the connection of the PDU that last carried it.
#[derive(Debug, Drop)]
pub struct Unconfirmed {
    pub(crate) tag: u32,
    pub(crate) item: Item,
}

/// Lets the items go that are confirmed: those with a tag up to this count.
#[tactic(auto, using(crate::proofs::UnconfirmedItems::dropping))]
pub(crate) fn drop_confirmed(waiting: &mut HeapCircularBuffer<Unconfirmed>, confirmed: u32)
    ensures { waiting.new ≡ buffer (still_waiting confirmed waiting.old.items) waiting.old.capacity }
{
    while let Some(first) = waiting.front() {
        if first.tag > confirmed {
            return;
        }
        let _ = waiting.pop_front();
    }
}

/// Hands the items out again, oldest first, under new counts from this one on, and retags them so.
pub(crate) fn repeat(
    waiting: &mut HeapCircularBuffer<Unconfirmed>,
    header: Header,
    key: &Key,
    count: u32,
    outbox: &mut Outbox,
)
    requires fits { length waiting.old.items ≤ waiting.old.capacity }
    requires counts_fit { count + length waiting.old.items < 2 ^ 32 }
    requires room { HasRoomFor (length waiting.old.items) outbox.old }
    ensures retagged { waiting.new ≡ buffer (retagged count waiting.old.items) waiting.old.capacity }
    ensures posted { outbox.new ≡ posted key.now (repeated header count waiting.old.items) outbox.old }
{
    for index in 0..waiting.len() {
        if let Some(first) = waiting.pop_front() {
            let tag = count + index as u32;
            outbox.post(
                key,
                header.pdu(tag, Body::RetransmittedData(Items::one(first.item.copy()))),
            );
            let _ = waiting.try_push_back(Unconfirmed {
                tag,
                item: first.item,
            });
        }
    }
}
