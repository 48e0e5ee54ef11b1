//! What holds of checksums.

ghost use Rattle.std.specs.Prelude.{◌≡◌, ℕ, ◌+◌, ◌-◌, ◌≤◌, nat_le, if◌then◌else◌};
ghost use Rattle.capture_file.specs.Checksum.{folded};

/// Sums of words are folded as one's complement arithmetic adds two words: a carry out of the sum is added at its low end.
/// It makes no difference whether that is done at each word or once at the end.
pub fn carries_go_around()
    ensures added { (a b : ℕ) → a ≤ 65535 → b ≤ 65535 → folded (a + b) ≡ (if nat_le (a + b) 65535 then a + b else (a + b - 65536) + 1) }
    ensures later { (a b : ℕ) → folded (folded a + b) ≡ folded (a + b) }
{}
