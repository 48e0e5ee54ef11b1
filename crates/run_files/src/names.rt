//! The names of parts.

ghost use Rattle.std.specs.Prelude.{◌≡◌, ◌++◌, IfOk, codes, string_bytes};
ghost use Rattle.std.specs.Fmt.{decimal};
ghost use Rattle.run_files.specs.Reads.{part_name};

use std::alloc::{AllocError, Global};

/// The name of a part of a record: the first has that of the record, the others their number behind it.
pub(crate) fn part_name(alloc: Global, path: &str, number: u64) -> Result<String, AllocError>
    ensures { IfOk result (λ name. string_bytes name ≡ part_name path.now number) }
{
    if number == 1 {
        String::from_str(alloc, path)
    } else {
        further_name(alloc, path, number)
    }
}

/// The name of a part behind the first.
fn further_name(alloc: Global, path: &str, number: u64) -> Result<String, AllocError>
    ensures { IfOk result (λ name. string_bytes name ≡ path.now ++ codes "." ++ decimal number) }
{
    format!(in alloc; "{path}.{number}")
}
