//! Why bytes are no PDU.

use thiserror::Error;

/// What is wrong with bytes: the first of these tests that fails.
#[derive(Clone, Copy, Debug, PartialEq, Eq, Error)]
pub enum PduFault {
    /// There are fewer than 36 bytes, those of a PDU without payload.
    #[error("fewer than 36 bytes")]
    TooShort = 1,
    /// The length field isn't the number of bytes.
    #[error("the length field is not the number of bytes")]
    Length = 2,
    /// The last 8 bytes aren't the safety code of those before.
    #[error("the safety code is wrong")]
    Code = 3,
    /// No PDU has this type number.
    #[error("no such type")]
    BadType = 4,
    /// The payload hasn't the length of its type, for all types but those of data.
    #[error("the payload has not the length of its type")]
    Body = 5,
    /// The payload of data isn't exactly 1 to 3 items of 1 to 61 bytes.
    #[error("the payload is not 1 to 3 items")]
    Items = 6,
}
