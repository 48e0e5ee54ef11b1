//! Why a file of closings wasn't kept.

use whole_file::NotKept;

/// Why a file of closings wasn't kept. What is closed stays closed, and the next keep tries again.
#[derive(Debug, Drop)]
pub enum Unkept {
    /// Memory was refused, and no call was made.
    OutOfMemory,
    /// A call failed.
    Failed(NotKept),
}
