//! Why there is no interlocking of a text.

ghost use Rattle.std.specs.Prelude.{◌≡◌};

use ixl_state::ixl_spec::control_table::TableFault;
use layout_text::LayoutFault;
use std::alloc::AllocError;

/// Why there is no interlocking of a text.
#[derive(Clone, Copy)]
pub enum StartFault {
    /// The text isn't a layout: its first fault.
    Layout(LayoutFault),
    /// The control table of the layout isn't sound: its first fault.
    Table(TableFault),
    /// Memory was refused.
    OutOfMemory,
}

impl From<LayoutFault> for StartFault {
    ghost use Rattle.embedded_ixl.specs.Made.{fault_of_text};

    ghost from_gives = { λ fault why. why ≡ fault_of_text fault };

    fn from(fault: LayoutFault) -> StartFault {
        match fault {
            LayoutFault::OutOfMemory => StartFault::OutOfMemory,
            _ => StartFault::Layout(fault),
        }
    }
}

impl From<TableFault> for StartFault {
    ghost use Rattle.embedded_ixl.specs.Made.{fault_of_table};

    ghost from_gives = { λ fault why. why ≡ fault_of_table fault };

    fn from(fault: TableFault) -> StartFault {
        match fault {
            TableFault::OutOfMemory => StartFault::OutOfMemory,
            _ => StartFault::Table(fault),
        }
    }
}

impl From<AllocError> for StartFault {
    ghost use Rattle.embedded_ixl.specs.declared.start_fault.StartFault.TheVariants.{OutOfMemory};

    ghost from_gives = { λ fault why. why ≡ OutOfMemory };

    fn from(_fault: AllocError) -> StartFault {
        StartFault::OutOfMemory
    }
}
