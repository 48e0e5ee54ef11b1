//! The MD4 digest (RFC 1320) of a message, from any four words to start with.
//!
//! MD4 is broken as a cryptographic hash: it is here as the safety code of messages on a closed
//! network, where its start is a key.
#![tactic(auto)]

mod block;
mod message;

pub use message::{STANDARD, digest_from};
