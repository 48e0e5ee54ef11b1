//! The faults of a line, and the lowest of several.

ghost use Rattle.std.specs.Prelude.{◌≡◌};
ghost use Rattle.replay_words.specs.Fault.{number_of, lower, both};

use std::alloc::{AllocError, AllocFailed};

/// What is wrong with a line. A line with several faults is told the one of the lowest number.
#[derive(Clone, Copy, Debug, PartialEq, Eq)]
pub enum Fault {
    /// 1: an unknown word, or the wrong number of words.
    Words = 1,
    /// 2: an unknown name, or a name given twice.
    Name = 2,
    /// 3: no decimal number, or one outside its bounds.
    Number = 3,
    /// 4: no hexadecimal digits, or too few or too many bytes.
    Hexadecimal = 4,
    /// 5: an answer that the event can't have.
    Answer = 5,
    /// 6: a line that stands before an earlier one of its script.
    Order = 6,
    /// 7: want of memory in reading the line.
    Memory = 7,
}

impl Fault {
    /// The number by which the fault is told, 1 to 7.
    pub fn number(self) -> u8
        ensures { result ≡ number_of self }
    {
        self as u8
    }

    /// The fault that is told of a line with both.
    pub fn lower(self, other: Fault) -> Fault
        ensures { result ≡ lower self other }
    {
        if self.number() <= other.number() {
            self
        } else {
            other
        }
    }
}

impl From<AllocError> for Fault {
    ghost use Rattle.replay_words.specs.declared.fault.Fault.TheVariants.{Memory};

    ghost from_gives = { λ _ fault. fault ≡ Memory };

    fn from(_error: AllocError) -> Fault {
        Fault::Memory
    }
}

impl<T: Drop> From<AllocFailed<T>> for Fault {
    ghost use Rattle.replay_words.specs.declared.fault.Fault.TheVariants.{Memory};

    ghost from_gives = { λ _ fault. fault ≡ Memory };

    fn from(_error: AllocFailed<T>) -> Fault {
        Fault::Memory
    }
}

/// What two words of a line say, or the lower fault of the two.
pub fn both<A: Drop, B: Drop>(
    first: Result<A, Fault>,
    second: Result<B, Fault>,
) -> Result<(A, B), Fault>
    ensures { result ≡ both first second }
{
    match (first, second) {
        (Ok(a), Ok(b)) => Ok((a, b)),
        (Ok(_), Err(fault)) | (Err(fault), Ok(_)) => Err(fault),
        (Err(one), Err(other)) => Err(one.lower(other)),
    }
}
