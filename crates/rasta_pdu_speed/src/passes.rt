// The same PDU again and again, with another number each time.

ghost use Rattle.std.specs.Prelude.{◌≡◌};
ghost use Rattle.rasta_pdu_speed.specs.Passes.{data_of, digested, written, written_and_read};

use arrayvec::ArrayVec;
use md4::digest_from;
use rasta_pdu::{Body, Item, Items, Key, Pdu, read, write};

const KEY: Key = Key(md4::STANDARD);

/// A data PDU with so many items of 61 bytes, if there can be one.
pub fn data_of(count: usize) -> Option<Pdu>
    ensures { result ≡ data_of count }
{
    let mut items: ArrayVec<Item, 3> = ArrayVec::new();
    for _item in 0..count {
        items.try_push(Item::of(&[0x5a; 61])?).ok()?;
    }
    Some(Pdu {
        receiver: 2,
        sender: 1,
        sequence_number: 7,
        confirmed_sequence_number: 5,
        time_stamp: 10000,
        confirmed_time_stamp: 9900,
        body: Body::Data(Items::of(&items)?),
    })
}

/// Writes it so often; the next number is the end of the last code.
pub fn written(mut pdu: Pdu, times: u32) -> u32
    ensures { result ≡ written pdu times }
{
    for _pass in 0..times {
        let bytes = write(&KEY, &pdu);
        let (_, end) = bytes.split_at(bytes.len() - 4);
        pdu.sequence_number = u32::from_le_bytes([end[0], end[1], end[2], end[3]]);
    }
    pdu.sequence_number
}

/// Writes and reads it so often; the next number is one more than the one read.
pub fn written_and_read(mut pdu: Pdu, times: u32) -> u32
    ensures { result ≡ written_and_read pdu times }
{
    for _pass in 0..times {
        let bytes = write(&KEY, &pdu);
        let Ok(again) = read(&KEY, &bytes) else {
            return 0;
        };
        pdu = again;
        pdu.sequence_number = pdu.sequence_number.wrapping_add(1);
    }
    pdu.sequence_number
}

/// Digests the bytes before its code so often; the next start is from the last digest.
pub fn digested(pdu: &Pdu, times: u32) -> u32
    ensures { result ≡ digested pdu.now times }
{
    let bytes = write(&KEY, pdu);
    let (text, _) = bytes.split_at(bytes.len() - 8);
    let mut first = 0;
    for _pass in 0..times {
        let digest = digest_from([first, 1, 2, 3], text);
        first = u32::from_le_bytes([digest[0], digest[1], digest[2], digest[3]]);
    }
    first
}
