//! What a page says that it knows of the file over which it writes.

ghost use Rattle.std.specs.Prelude.{◌≡◌, IfOk, Some, None};
ghost use Rattle.draw_desk.specs.Saving.{claim_of, is_same, may_write};
ghost use Rattle.draw_desk.specs.Seen.{field_sent};

use crate::own_text::OwnText;
use std::alloc::{AllocError, Global};

/// What a page says that it knows of the file over which it writes.
#[derive(Clone, Copy)]
pub enum Claim {
    /// Whatever stands there is written over.
    Anything,
    /// The text that was read or written last.
    Current,
    /// Another one, or none.
    Stale,
}

/// The word of a page that writes over whatever stands there.
const ANYTHING: &[u8] = b"anything";

/// What a field says, where the last text has a number.
pub fn claim_of(alloc: Global, number: u64, said: Option<&[u8]>) -> Result<Claim, AllocError>
    ensures { IfOk result (λ claim. claim ≡ claim_of number (field_sent said.entry)) }
{
    let Some(said) = said else {
        return Ok(Claim::Stale);
    };
    if said == ANYTHING {
        return Ok(Claim::Anything);
    }
    let current = format!(in alloc; "{number}")?;
    if said == current.as_bytes() {
        Ok(Claim::Current)
    } else {
        Ok(Claim::Stale)
    }
}

/// Whether what was found is the text that is known.
pub(crate) fn is_same(known: &Option<OwnText>, found: &Option<OwnText>) -> bool
    ensures { result ≡ is_same known.now found.now }
{
    match (known, found) {
        (None, None) => true,
        (Some(known), Some(found)) => known.as_str() == found.as_str(),
        _ => false,
    }
}

/// Whether the file may be written over in which this was found.
pub fn may_write(claim: Claim, known: &Option<OwnText>, found: &Option<OwnText>) -> bool
    ensures { result ≡ may_write claim known.now found.now }
{
    match claim {
        Claim::Anything => true,
        Claim::Current => is_same(known, found),
        Claim::Stale => false,
    }
}
