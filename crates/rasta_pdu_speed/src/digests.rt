// One digest after another of the same message.

ghost use Rattle.std.specs.Prelude.{◌≡◌};
ghost use Rattle.md4.specs.Md4.{block_words};
ghost use Rattle.rasta_pdu_speed.specs.Digests.{digest_again};

use md4::{STANDARD, digest_from};

// The four words of a digest.
fn words_of(digest: [u8; 16]) -> [u32; 4]
    ensures { result ≡ block_words digest 4 }
{
    let [
        a0,
        a1,
        a2,
        a3,
        b0,
        b1,
        b2,
        b3,
        c0,
        c1,
        c2,
        c3,
        d0,
        d1,
        d2,
        d3,
    ] = digest;
    [
        u32::from_le_bytes([a0, a1, a2, a3]),
        u32::from_le_bytes([b0, b1, b2, b3]),
        u32::from_le_bytes([c0, c1, c2, c3]),
        u32::from_le_bytes([d0, d1, d2, d3]),
    ]
}

/// The digest of `message`, and then `more` times that started from the digest before it.
pub fn digest_again(message: &[u8], more: u32) -> [u8; 16]
    ensures { result ≡ digest_again STANDARD message.now more }
{
    let mut digest = digest_from(STANDARD, message);
    for _pass in 0..more {
        let next = digest_from(words_of(digest), message);
        digest = next;
    }
    digest
}
