//! The start of an interlocking.

ghost use Rattle.std.specs.Prelude.{◌≡◌, ◌≢◌, ◌≤◌, ◌<◌, ◌⊎◌, Ok, Some, IsUtf8, false, true};
ghost use Rattle.embedded_ixl.specs.Made.{IsMadeOf};
ghost use Rattle.embedded_ixl.specs.declared.start_fault.StartFault.{StartFault};
ghost use Rattle.embedded_ixl.specs.ixl_state.control_table.Table.{Sound};
ghost use Rattle.embedded_ixl.specs.ixl_state.layout.Entries.{Site};
ghost use Rattle.embedded_ixl.specs.ixl_state.layout.NamesResolved.{layout_in};
ghost use Rattle.embedded_ixl.specs.declared.start_fault.StartFault.TheVariants.{OutOfMemory};
ghost use Rattle.interlocking_c.specs.Faults.{IsOfText, IsTold};
ghost use Rattle.interlocking_c.specs.Owned.{is_started};
ghost use Rattle.interlocking_c.specs.declared.held.Held.{Held};

use crate::answers::{LAYOUT, MEMORY, OK, ROOM, STARTED, UTF8};
use crate::fault_told::{fault_line, tell};
use crate::handle::Handle;
use crate::held::Held;
use crate::room::is_too_small;
use embedded_ixl::{EmbeddedInterlocking, StartFault};
use std::alloc::Global;

/// Tells why there is no interlocking of a text: its fault, or that memory was refused.
fn refused(alloc: Global, fault: StartFault, told: &mut [u8], count: &mut usize) -> u32
    ensures answer { (result ≡ 5) ⊎ (result ≡ 12) }
    ensures memory { fault ≡ OutOfMemory → result ≡ 5 }
    ensures told { result ≡ 12 → IsTold fault told.old told.new count.new }
    ensures same { result ≢ 12 → (told.new ≡ told.old) × (count.new ≡ count.old) }
{
    if matches!(fault, StartFault::OutOfMemory) {
        return MEMORY;
    }
    match fault_line(alloc, fault) {
        Ok(line) => {
            *count = tell(line.as_str(), told);
            LAYOUT
        }
        Err(_) => MEMORY,
    }
}

/// Starts an interlocking in the room of a handle, of which there are so many bytes, of the layout of a text. Where the text has a fault,
/// that is told at the front of `told`, as far as there is room, in so many bytes as `count` tells.
#[unsafe(no_mangle)]
pub extern "C" fn zendurai_interlocking_start(
    alloc: Global,
    handle: &mut Handle,
    room: usize,
    text: &[u8],
    first_sequence_number: u32,
    now: u64,
    told: &mut [u8],
    count: &mut usize,
) -> u32
    ensures started { is_started handle.old.held ≡ true → result ≡ 2 }
    ensures room { is_started handle.old.held ≡ false → room < 2048 → result ≡ 3 }
    ensures utf8 { is_started handle.old.held ≡ false → 2048 ≤ room → (IsUtf8 text.now → ⊥) → result ≡ 13 }
    ensures accepted { is_started handle.old.held ≡ false → 2048 ≤ room → IsUtf8 text.now → (site : Site) → layout_in text.now ≡ Ok site → Sound site → (result ≡ 0) ⊎ (result ≡ 5) }
    ensures otherwise { is_started handle.old.held ≡ false → 2048 ≤ room → IsUtf8 text.now → (result ≡ 0) ⊎ ((result ≡ 5) ⊎ (result ≡ 12)) }
    ensures does { result ≡ 0 → (held : Held) × (handle.new.held ≡ Some held) × IsMadeOf text.now first_sequence_number now held.embedded }
    ensures same { result ≢ 0 → handle.new.held ≡ handle.old.held }
    ensures fault { result ≡ 12 → (fault : StartFault) × IsOfText text.now fault × IsTold fault told.old told.new count.new }
    ensures untold { result ≢ 12 → (told.new ≡ told.old) × (count.new ≡ count.old) }
{
    if handle.is_started() {
        return STARTED;
    }
    if is_too_small(room) {
        return ROOM;
    }
    let Ok(text) = str::from_utf8(text) else {
        return UTF8;
    };
    match EmbeddedInterlocking::new(alloc, text, first_sequence_number, now) {
        Ok(embedded) => {
            handle.put(Held { embedded });
            OK
        }
        Err(fault) => refused(alloc, fault, told, count),
    }
}
