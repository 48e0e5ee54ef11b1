//! What a handle holds.

use embedded_ixl::EmbeddedInterlocking;

/// What a handle holds: an interlocking that was started.
#[derive(Drop)]
pub struct Held {
    pub(crate) embedded: EmbeddedInterlocking,
}
