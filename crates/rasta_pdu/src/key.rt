//! The key of a network.

/// The four registers from which MD4 starts under this key; `md4::STANDARD` is the one of RFC 1320.
#[derive(Clone, Copy, Debug, PartialEq, Eq)]
pub struct Key(pub [u32; 4]);
