//! What a word says as a number, and as bytes, and the word for some bytes.

ghost use Rattle.std.specs.Prelude.{◌≡◌, ◌≤◌, length, IfOk, MatchResult, Ok, Err, string_bytes, true};
ghost use Rattle.replay_words.specs.Words.{is_without};
ghost use Rattle.replay_words.specs.Read.{decimal, hexadecimal, hexadecimal_or_none, hex_word};

use crate::fault::Fault;
use arrayvec::ArrayVec;
use rasta_pdu::{LONGEST_DATAGRAM, Received};
use std::alloc::{AllocError, Global};

// The fewest bytes that hexadecimal digits spell.
const SHORTEST: usize = 1;

/// The bytes of a line.
pub type Bytes = Received;

/// The number below 2^64 that `word` spells in one or more decimal digits, without a sign; fault 3
/// otherwise. Leading zeros are read.
pub fn decimal(word: &str) -> Result<u64, Fault>
    ensures { result ≡ decimal word.now }
{
    // `parse` would read a plus.
    if word.starts_with('+') {
        return Err(Fault::Number);
    }
    word.parse().map_err(|_| Fault::Number)
}

/// The 1 to 512 bytes that `word` spells in hexadecimal digits of either case; fault 4 otherwise.
pub fn hexadecimal(word: &str) -> Result<Bytes, Fault>
    ensures { MatchResult result (λ bytes. hexadecimal word.now ≡ Ok bytes.items) (λ fault. hexadecimal word.now ≡ Err fault) }
{
    let length = word.len() / 2;
    if length < SHORTEST || length > LONGEST_DATAGRAM {
        return Err(Fault::Hexadecimal);
    }
    let mut buffer = [0; LONGEST_DATAGRAM];
    let decoded = &mut buffer[..length];
    hex::decode_to_slice(word, decoded).map_err(|_| Fault::Hexadecimal)?;
    ArrayVec::try_from(&*decoded).map_err(|_| Fault::Hexadecimal)
}

/// The bytes that `word` spells as [`hexadecimal`] reads them, or no bytes for a hyphen; fault 4
/// otherwise.
pub fn hexadecimal_or_none(word: &str) -> Result<Bytes, Fault>
    ensures { MatchResult result (λ bytes. hexadecimal_or_none word.now ≡ Ok bytes.items) (λ fault. hexadecimal_or_none word.now ≡ Err fault) }
{
    if word == "-" {
        return Ok(ArrayVec::new());
    }
    hexadecimal(word)
}

/// The word for `bytes`: a hyphen for none, otherwise two digits a byte, in lower case.
/// [`hexadecimal_or_none`] reads it back.
pub fn hex_word(alloc: Global, bytes: &[u8]) -> Result<String, AllocError>
    ensures word { IfOk result (λ word. string_bytes word ≡ hex_word bytes.now) }
    ensures read_back { IfOk result (λ word. length bytes.now ≤ LONGEST_DATAGRAM → hexadecimal_or_none (string_bytes word) ≡ Ok bytes.now) }
    ensures no_space { IfOk result (λ word. is_without 32 (string_bytes word) ≡ true) }
{
    if bytes.is_empty() {
        String::from_str(alloc, "-")
    } else {
        hex::encode(alloc, bytes)
    }
}
