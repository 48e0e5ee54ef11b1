//! The checksum of RFC 791 (3.1) and RFC 768.

ghost use Rattle.std.specs.Prelude.{◌≡◌, ◌+◌, ◌*◌, ◌<◌, ◌≤◌, length};
ghost use Rattle.capture_file.specs.Checksum.{folded, word_sum};

/// The 16-bit words of so few bytes add up to less than 2^32.
const MOST_SUMMED: usize = 1024;

/// The 16-bit words of bytes, high-order byte first, added up. A last byte without a second one has a zero byte behind it.
pub(crate) fn sum_of_words(bytes: &[u8]) -> u32
    requires { length bytes.now ≤ MOST_SUMMED }
    ensures value { result ≡ word_sum bytes.now }
    ensures most { result ≤ 65535 * length bytes.now }
{
    let mut sum = 0;
    let mut left = bytes;
    while let Some((word, rest)) = left.split_first_chunk::<2>() {
        sum += u32::from(u16::from_be_bytes(*word));
        left = rest;
    }
    sum + last_word(left)
}

/// The word of a last byte without a second one, if there is one.
#[tactic(auto, using(crate::proofs::Sums::last_byte, crate::proofs::Sums::none_left))]
fn last_word(left: &[u8]) -> u32
    requires { length left.now < 2 }
    ensures value { result ≡ word_sum left.now }
    ensures most { result ≤ 65535 * length left.now }
{
    if left.is_empty() {
        return 0;
    }
    u32::from(left[0]) * 256
}

/// The one's complement of a sum of words, whose carries are added at its low end.
pub(crate) fn complement(sum: u32) -> u16
    ensures { result + folded sum ≡ 65535 }
{
    if sum == 0 {
        return u16::MAX;
    }
    (65534 - (sum - 1) % 65535) as u16
}
