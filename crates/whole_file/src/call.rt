//! The calls by which a file is kept, and which of them failed.

use std::io;

/// A call of a keep, in their order.
#[derive(Clone, Copy, Debug, PartialEq, Eq)]
pub enum Call {
    /// The bytes are written under a new name.
    Write,
    /// They are synced.
    Sync,
    /// The new file stands in the place of the old one.
    Replace,
    /// Its folder is synced.
    SyncFolder,
}

/// Why a file wasn't kept: which call failed, and what the system says of it.
#[derive(Debug, Drop)]
pub struct NotKept {
    pub call: Call,
    pub error: io::Error,
}
