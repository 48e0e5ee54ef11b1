//! A text with a piece put into it.

ghost use Rattle.std.specs.Prelude.{◌≡◌, ◌++◌, IfOk, IfSome, drop, take};

use std::alloc::{AllocError, Global};

/// A text with a piece put into it at a place, if the text is so long.
pub(crate) fn with_insertion(
    alloc: Global,
    text: &[u8],
    at: usize,
    piece: &[u8],
) -> Result<Option<Vec<u8>>, AllocError>
    ensures { IfOk result (λ put. IfSome put (λ v. v.items ≡ (take at text.now ++ piece.now) ++ drop at text.now)) }
{
    if at > text.len() {
        return Ok(None);
    }
    let (before, after) = text.split_at(at);
    let mut longer = Vec::from_slice(alloc, before)?;
    longer.extend_from_slice(piece)?;
    longer.extend_from_slice(after)?;
    Ok(Some(longer))
}
