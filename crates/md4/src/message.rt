// A whole message: its blocks, its padding and its digest (RFC 1320, 3.1 to 3.5).

ghost use Rattle.std.specs.Prelude.{◌≡◌, ℕ, ◌+◌, ◌%◌, ◌<◌, List, ◌++◌, length};
ghost use Rattle.md4.specs.Md4.{after_all, digest, padding, register_bytes};

use crate::block::{BLOCK_LEN, after_block};

/// The four words A, B, C and D that RFC 1320 starts from (3.3).
pub const STANDARD: [u32; 4] = [0x6745_2301, 0xefcd_ab89, 0x98ba_dcfe, 0x1032_5476];

// The byte after a message: a bit 1, and seven zeros.
const END_MARK: u8 = 0x80;

// The number of bytes in the length at the end of the padding.
const LENGTH_LEN: usize = 8;

// The registers after all whole blocks of `bytes`, and the bytes left.
fn after_whole_blocks<'a>(start: [u32; 4], bytes: &'a [u8]) -> ([u32; 4], &'a [u8])
    ensures value { (later : List ℕ) → after_all result.0 (result.1.now ++ later) ≡ after_all start (bytes.now ++ later) }
    ensures left { length result.1.now ≡ length bytes.now % BLOCK_LEN }
{
    let mut registers = start;
    let mut left = bytes;
    while let Some((block, rest)) = left.split_first_chunk::<BLOCK_LEN>() {
        let after = after_block(registers, block);
        registers = after;
        left = rest;
    }
    (registers, left)
}

// The registers after the bytes left of a message of `len` bytes, and its padding.
fn after_padding(registers: [u32; 4], left: &[u8], len: usize) -> [u32; 4]
    requires { length left.now ≡ len % BLOCK_LEN }
    ensures { result ≡ after_all registers (left.now ++ padding len) }
{
    let mut padded = [0; 2 * BLOCK_LEN];
    padded[..left.len()].copy_from_slice(left);
    padded[left.len()] = END_MARK;
    let end = if left.len() < BLOCK_LEN - LENGTH_LEN {
        BLOCK_LEN
    } else {
        2 * BLOCK_LEN
    };
    let bits = (len as u64).wrapping_mul(8);
    padded[end - LENGTH_LEN..end].copy_from_slice(&bits.to_le_bytes());
    let (after, _) = after_whole_blocks(registers, &padded[..end]);
    after
}

// The registers as bytes, the low-order byte of each first.
fn bytes_of(registers: [u32; 4]) -> [u8; 16]
    ensures { result ≡ register_bytes registers }
{
    let [a, b, c, d] = registers;
    let [a0, a1, a2, a3] = a.to_le_bytes();
    let [b0, b1, b2, b3] = b.to_le_bytes();
    let [c0, c1, c2, c3] = c.to_le_bytes();
    let [d0, d1, d2, d3] = d.to_le_bytes();
    [
        a0, a1, a2, a3, b0, b1, b2, b3, c0, c1, c2, c3, d0, d1, d2, d3,
    ]
}

/// The sixteen bytes of the MD4 digest of `bytes` (RFC 1320), started from the registers A, B, C and
/// D of `start`: those of `STANDARD`, or a key.
pub fn digest_from(start: [u32; 4], bytes: &[u8]) -> [u8; 16]
    ensures { result ≡ digest start bytes.now }
{
    let (registers, left) = after_whole_blocks(start, bytes);
    bytes_of(after_padding(registers, left, bytes.len()))
}
