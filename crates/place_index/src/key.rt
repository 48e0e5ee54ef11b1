//! The key of bytes.

ghost use Rattle.std.specs.Prelude.{◌≡◌, ◌<◌};
ghost use Rattle.place_index.specs.Places.{key_of, no_key};

/// The keys of bytes are below this number.
const KEYS_END: u64 = 1 << 31;

/// Odd, so that bytes which differ in one of them have different keys.
const FACTOR: u64 = 31;

/// The key of bytes: equal bytes have one key, and others seldom have the same.
pub fn key_of(bytes: &[u8]) -> u32
    ensures value { result ≡ key_of bytes.now }
    ensures within { result < no_key }
{
    let mut key = 0;
    for byte in bytes {
        key = (key * FACTOR + u64::from(*byte)) % KEYS_END;
    }
    key as u32
}
