//! Why there is no interlocking of a text, as text.

ghost use Rattle.std.specs.Prelude.{◌≡◌, ◌++◌, IfOk, drop, length, string_bytes, take};
ghost use Rattle.interlocking_c.specs.Faults.{fault_line, told_count};

use embedded_ixl::StartFault;
use std::alloc::{AllocError, Global};

/// The line that tells a fault, as `station` tells it.
pub(crate) fn fault_line(alloc: Global, fault: StartFault) -> Result<String, AllocError>
    ensures { IfOk result (λ line. string_bytes line ≡ fault_line fault) }
{
    match fault {
        StartFault::Layout(fault) => format!(in alloc; "layout fault {fault}"),
        StartFault::Table(fault) => format!(in alloc; "table fault {fault}"),
        StartFault::OutOfMemory => String::from_str(alloc, "out of memory"),
    }
}

/// Puts a line at the front of `out`, or as much of it as there is room for, and tells how many bytes it put there.
pub(crate) fn tell(line: &str, out: &mut [u8]) -> usize
    ensures count { result ≡ told_count line.now out.old }
    ensures told { out.new ≡ take result line.now ++ drop result out.old }
{
    let bytes = line.as_bytes();
    let count = if bytes.len() < out.len() {
        bytes.len()
    } else {
        out.len()
    };
    let (told, _) = bytes.split_at(count);
    let (front, _) = out.split_at_mut(count);
    front.copy_from_slice(told);
    count
}
