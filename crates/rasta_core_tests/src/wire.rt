//! Items and PDUs, and calls of the codec.

use rasta_pdu::{Datagram, Item, Key, Pdu, PduFault, read, write};
use std::process::Abort;

/// The item of 1 to 61 bytes.
pub(crate) fn item(rt: &impl Abort, bytes: &[u8]) -> Item {
    Item::of(bytes).expect(rt, "1 to 61 bytes")
}

pub(crate) fn written(key: &Key, pdu: &Pdu) -> Datagram {
    write(key, pdu)
}

pub(crate) fn read_pdu(key: &Key, bytes: &[u8]) -> Result<Pdu, PduFault> {
    read(key, bytes)
}
