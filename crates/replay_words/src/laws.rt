//! What is written in a line is read again.

ghost use Rattle.std.specs.Prelude.{◌≡◌, ◌^◌, ◌<◌, ◌≤◌, ◌∷◌, ◌++◌, ℕ, List, length, true, Ok};
ghost use Rattle.std.specs.Fmt.{decimal as written};
ghost use Rattle.std.specs.List.{join_with_byte};
ghost use Rattle.replay_words.specs.Cut.{words, name_and_number};
ghost use Rattle.replay_words.specs.Read.{decimal, hex_word, hexadecimal, hexadecimal_or_none};
ghost use Rattle.hex.specs.Hex.{IsBytes};
ghost use Rattle.rasta_pdu.specs.declared.writer.TheConstants.{LONGEST_DATAGRAM};
ghost use Rattle.replay_words.specs.Words.{are_words, is_without};

/// Words without spaces are the words of the line that they make, parted by single spaces.
#[tactic(auto, using(crate::proofs::Written::joined))]
pub fn joined_words_are_read_again()
    ensures { (ws : List (List ℕ)) → 0 < length ws → are_words ws ≡ true → words (join_with_byte 32 ws) ≡ ws }
{}

/// A number below 2^64 is read as it was written, in a word without spaces.
#[tactic(auto, using(crate::proofs::Written::number_read, crate::proofs::Written::number_word))]
pub fn a_number_is_read_again()
    ensures read { (n : ℕ) → n < 2 ^ 64 → decimal (written n) ≡ Ok n }
    ensures word { (n : ℕ) → n < 2 ^ 64 → is_without 32 (written n) ≡ true }
{}

/// A name without an equals sign and what stands behind the sign are parted again.
#[tactic(auto, using(crate::proofs::Written::sides_read))]
pub fn a_name_and_its_number_are_parted_again()
    ensures { (name number : List ℕ) → is_without 61 name ≡ true → name_and_number (name ++ 61 ∷ number) ≡ Ok (name, number) }
{}

/// Bytes are read as they were written, in a word without spaces.
#[tactic(auto, using(crate::proofs::Spelled::bytes_read, crate::proofs::Spelled::some_bytes_read, crate::proofs::Written::bytes_word))]
pub fn bytes_are_read_again()
    ensures any { (bytes : List ℕ) → IsBytes bytes → length bytes ≤ LONGEST_DATAGRAM → hexadecimal_or_none (hex_word bytes) ≡ Ok bytes }
    ensures some { (bytes : List ℕ) → IsBytes bytes → 0 < length bytes → length bytes ≤ LONGEST_DATAGRAM → hexadecimal (hex_word bytes) ≡ Ok bytes }
    ensures word { (bytes : List ℕ) → is_without 32 (hex_word bytes) ≡ true }
{}
