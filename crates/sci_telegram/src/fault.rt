//! Why bytes are no telegram.

use thiserror::Error;

/// What is wrong with bytes: the first of these tests that fails.
#[derive(Clone, Copy, Debug, PartialEq, Eq, Error)]
pub enum SciFault {
    /// There are fewer than 43 bytes, those of a telegram without payload.
    #[error("fewer than 43 bytes")]
    Short = 1,
    /// The first byte stands for no protocol.
    #[error("no such protocol")]
    Protocol = 2,
    /// The protocol has no telegram of this type number.
    #[error("the protocol has no such type")]
    BadType = 3,
    /// The payload hasn't the length of its type.
    #[error("the payload has not the length of its type")]
    Length = 4,
    /// A name field isn't 1 to 20 name characters and then only `_`.
    #[error("a name field holds no name")]
    Name = 5,
    /// The payload has a value that isn't in the table.
    #[error("the payload has no value of its type")]
    Value = 6,
}
