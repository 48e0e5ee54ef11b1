//! Texts of layouts.

ghost use Rattle.std.specs.Prelude.{◌≡◌, ◌≢◌, IsOk};
ghost use Rattle.layout.specs.Faults.{IsFirstFault};
ghost use Rattle.layout.specs.NamesResolved.{layout_in};
ghost use Rattle.layout_text.specs.declared.fault.LayoutFault.{LayoutFault};
ghost use Rattle.codec.specs.LayoutText.{fault_number};

use layout::{Layout, LayoutFault};
use std::alloc::Global;

/// The answer where the bytes aren't UTF-8.
const NO_TEXT: u32 = 9;

/// The number of a fault.
fn fault_number(fault: LayoutFault) -> u32
    ensures { result ≡ fault_number fault }
{
    match fault {
        LayoutFault::Toml => 1,
        LayoutFault::MissingKey(_) => 2,
        LayoutFault::WrongKind(_) => 3,
        LayoutFault::UnknownName(_) => 4,
        LayoutFault::DoubleName(_) => 5,
        LayoutFault::DoubleJoint(_) => 6,
        LayoutFault::Limit(_) => 7,
        LayoutFault::OutOfMemory => 8,
    }
}

/// Reads the text of a layout: 0 where it is one, or the number of the first fault; 8 only where memory was refused, and 9
/// where the bytes aren't UTF-8.
#[unsafe(no_mangle)]
pub extern "C" fn zendurai_layout_read(alloc: Global, text: &[u8]) -> u32
    ensures layout { result ≡ 0 → IsOk (layout_in text.now) }
    ensures fault { result ≢ 0 → result ≢ 9 → (fault : LayoutFault) × (result ≡ fault_number fault) × IsFirstFault text.now fault }
{
    let Ok(text) = str::from_utf8(text) else {
        return NO_TEXT;
    };
    match Layout::read(alloc, text) {
        Ok(_) => 0,
        Err(fault) => fault_number(fault),
    }
}
