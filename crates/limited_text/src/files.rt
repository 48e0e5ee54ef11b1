//! The texts of files.

ghost use Rattle.std.specs.Prelude.{◌≤◌, true, IfOk, string_len};
ghost use Rattle.limited_text.specs.Limits.{longest};

use crate::limits::longest;
use crate::{Content, TextFault, text_up_to};
use std::fs::{File, Files, OpenFile};

/// The text of a file, if it isn't too long for what it is to have. What tells a length that is too great isn't read at all.
pub fn file_text<R: Files + AllocGlobal>(
    rt: &R,
    path: &str,
    content: Content,
) -> Result<String, TextFault>
    ensures { IfOk result (λ text. string_len text ≤ longest content true) }
{
    let mut file = File::open(rt, path)?;
    let about = file.metadata()?;
    let limit = longest(content, about.is_file());
    if about.len() > limit {
        return Err(TextFault::TooLong);
    }
    text_up_to(rt.alloc(), &mut file, limit)
}
