//! The digest of a layout, by which it is seen that all nodes have the same one.

ghost use Rattle.std.specs.Prelude.{◌≡◌, IfOk, string_bytes};
ghost use Rattle.hex.specs.Hex.{encode_lower};
ghost use Rattle.sha2.specs.Sha256.{sha256};

use sha2::{Digest, Sha256};
use std::alloc::{AllocError, Global};

/// The SHA-256 of a layout's text, in hexadecimal digits.
pub fn layout_digest(alloc: Global, layout: &str) -> Result<String, AllocError>
    ensures { IfOk result (λ digest. string_bytes digest ≡ encode_lower (sha256 layout.now)) }
{
    hex::encode(alloc, Sha256::digest(layout))
}
