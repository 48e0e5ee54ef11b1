// One block of 64 bytes: three rounds of sixteen steps over four registers (RFC 1320, 3.4).

ghost use Rattle.std.specs.Prelude.{◌≡◌, ℕ, ◌+◌, ◌%◌, ◌^◌, List};
ghost use Rattle.std.specs.Int.{w32, rotate_left};
ghost use Rattle.md4.specs.Four.{raised, with_four};
ghost use Rattle.md4.specs.Md4.{after_block, block_words, choice, first_round, majority, newest, parity, second_round, sums, third_round};

/// The number of bytes in a block.
pub const BLOCK_LEN: usize = 64;

// What each step of the second and of the third round adds.
const SECOND_CONSTANT: u32 = 0x5a82_7999;

const THIRD_CONSTANT: u32 = 0x6ed9_eba1;

// How far the four steps of a group turn their sums, by their round.
const FIRST_SHIFTS: [u32; 4] = [3, 7, 11, 19];

const SECOND_SHIFTS: [u32; 4] = [3, 5, 9, 13];

const THIRD_SHIFTS: [u32; 4] = [3, 9, 11, 15];

// The function F: x chooses between y and z.
fn choice(x: u32, y: u32, z: u32) -> u32
    ensures { result ≡ choice x y z }
{
    z ^ (x & (y ^ z))
}

// The function G: each bit is that of most of the three.
fn majority(x: u32, y: u32, z: u32) -> u32
    ensures { result ≡ majority x y z }
{
    // The two terms share no bit. A sum can join the step's sum, which then waits for x the least.
    (x & (y ^ z)).wrapping_add(y & z)
}

// The function H: each bit is set where an odd number of the three are.
fn parity(x: u32, y: u32, z: u32) -> u32
    ensures { result ≡ parity x y z }
{
    x ^ y ^ z
}

// The word that a step leaves in the place of its oldest register. `word` has the round's constant in
// it.
fn turned(oldest: u32, mixed: u32, word: u32, shift: u32) -> u32
    ensures { result ≡ rotate_left w32 ((oldest + mixed + word) % 2 ^ 32) shift }
{
    // `mixed` depends on the step before, so adding it last shortens the chain of steps.
    oldest
        .wrapping_add(word)
        .wrapping_add(mixed)
        .rotate_left(shift)
}

// Four steps of the first round.
#[inline(always)]
fn first_round(registers: [u32; 4], words: [u32; 4]) -> [u32; 4]
    ensures { (before : List ℕ) → registers ≡ newest before → result ≡ newest (with_four first_round words before) }
{
    let [a, b, c, d] = registers;
    let [w, x, y, z] = words;
    let a = turned(a, choice(b, c, d), w, FIRST_SHIFTS[0]);
    let d = turned(d, choice(a, b, c), x, FIRST_SHIFTS[1]);
    let c = turned(c, choice(d, a, b), y, FIRST_SHIFTS[2]);
    let b = turned(b, choice(c, d, a), z, FIRST_SHIFTS[3]);
    [a, b, c, d]
}

// Four steps of the second round, on words with its constant in them.
#[inline(always)]
fn second_round(registers: [u32; 4], words: [u32; 4]) -> [u32; 4]
    ensures { (before : List ℕ) → registers ≡ newest before → result ≡ newest (with_four second_round words before) }
{
    let [a, b, c, d] = registers;
    let [w, x, y, z] = words;
    let a = turned(a, majority(b, c, d), w, SECOND_SHIFTS[0]);
    let d = turned(d, majority(a, b, c), x, SECOND_SHIFTS[1]);
    let c = turned(c, majority(d, a, b), y, SECOND_SHIFTS[2]);
    let b = turned(b, majority(c, d, a), z, SECOND_SHIFTS[3]);
    [a, b, c, d]
}

// Four steps of the third round, on words with its constant in them.
#[inline(always)]
fn third_round(registers: [u32; 4], words: [u32; 4]) -> [u32; 4]
    ensures { (before : List ℕ) → registers ≡ newest before → result ≡ newest (with_four third_round words before) }
{
    let [a, b, c, d] = registers;
    let [w, x, y, z] = words;
    let a = turned(a, parity(b, c, d), w, THIRD_SHIFTS[0]);
    let d = turned(d, parity(a, b, c), x, THIRD_SHIFTS[1]);
    let c = turned(c, parity(d, a, b), y, THIRD_SHIFTS[2]);
    let b = turned(b, parity(c, d, a), z, THIRD_SHIFTS[3]);
    [a, b, c, d]
}

// A block as words, low-order byte first.
fn words_of(block: &[u8; BLOCK_LEN]) -> [u32; 16]
    ensures { result ≡ block_words block.now 16 }
{
    let mut words = [0; 16];
    for k in 0..16 {
        let at = 4 * k;
        words[k] = u32::from_le_bytes([block[at], block[at + 1], block[at + 2], block[at + 3]]);
    }
    words
}

// A block as words with a constant added to each. A call stays a call: LLVM would else add the
// constant at the end of each step's sum, where the next step waits for it.
#[inline(never)]
fn raised(block: &[u8; BLOCK_LEN], constant: u32) -> [u32; 16]
    ensures { result ≡ raised constant (block_words block.now 16) }
{
    let words = words_of(block);
    let mut sums = [0; 16];
    for k in 0..16 {
        sums[k] = words[k].wrapping_add(constant);
    }
    sums
}

// Adds each of four words to its own.
fn sums(registers: [u32; 4], others: [u32; 4]) -> [u32; 4]
    ensures { result ≡ sums registers others }
{
    [
        registers[0].wrapping_add(others[0]),
        registers[1].wrapping_add(others[1]),
        registers[2].wrapping_add(others[2]),
        registers[3].wrapping_add(others[3]),
    ]
}

/// The registers A, B, C and D after a block.
pub fn after_block(registers: [u32; 4], block: &[u8; BLOCK_LEN]) -> [u32; 4]
    ensures { result ≡ after_block registers block.now }
{
    let x = words_of(block);
    let turned = first_round(registers, [x[0], x[1], x[2], x[3]]);
    let turned = first_round(turned, [x[4], x[5], x[6], x[7]]);
    let turned = first_round(turned, [x[8], x[9], x[10], x[11]]);
    let turned = first_round(turned, [x[12], x[13], x[14], x[15]]);

    let y = raised(block, SECOND_CONSTANT);
    let turned = second_round(turned, [y[0], y[4], y[8], y[12]]);
    let turned = second_round(turned, [y[1], y[5], y[9], y[13]]);
    let turned = second_round(turned, [y[2], y[6], y[10], y[14]]);
    let turned = second_round(turned, [y[3], y[7], y[11], y[15]]);

    let z = raised(block, THIRD_CONSTANT);
    let turned = third_round(turned, [z[0], z[8], z[4], z[12]]);
    let turned = third_round(turned, [z[2], z[10], z[6], z[14]]);
    let turned = third_round(turned, [z[1], z[9], z[5], z[13]]);
    let turned = third_round(turned, [z[3], z[11], z[7], z[15]]);

    sums(registers, turned)
}
