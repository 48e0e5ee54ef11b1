//! Why nothing is told of a table.

use control_table::TableFault;
use layout_text::LayoutFault;
use route_derivation::{Underived, control_table};
use std::alloc::{AllocError, AllocFailed};
use std::fmt;

/// Why nothing is told of a table.
#[derive(Drop)]
pub enum ReviewFault {
    /// The text is no layout, or says of a point what no key `slow` may say.
    Layout(LayoutFault),
    /// The table of the layout isn't sound.
    Table(TableFault),
    /// No signal has the name at this place of those that are asked for, counted from 1.
    Signal(usize),
    /// No routes follow.
    Underived(Underived),
    /// No place was found in the text at which the routes can be written.
    NoPlace,
    /// Memory ran out.
    OutOfMemory,
}

impl fmt::Display for ReviewFault {
    ghost use Rattle.std.specs.Prelude.{Some};
    ghost use Rattle.table_review.specs.Messages.{message};

    ghost output = { λ fault. Some (message fault) };

    fn fmt<W: fmt::Write>(&self, f: &mut fmt::Formatter<W>) -> fmt::Result {
        match self {
            ReviewFault::Layout(fault) => write!(f, "layout fault {fault}"),
            ReviewFault::Table(fault) => write!(f, "table fault {fault}"),
            ReviewFault::Signal(place) => write!(f, "signal fault 2 Name at {place}"),
            ReviewFault::Underived(fault) => write!(f, "routes fault: {fault}"),
            ReviewFault::NoPlace => f.write_str("routes fault: no place for them in the text"),
            ReviewFault::OutOfMemory => f.write_str("out of memory"),
        }
    }
}

impl From<LayoutFault> for ReviewFault {
    ghost use Rattle.std.specs.Prelude.{◌≡◌};
    ghost use Rattle.table_review.specs.declared.fault.ReviewFault.TheVariants.{Layout};

    ghost from_gives = { λ fault review. review ≡ Layout fault };

    fn from(fault: LayoutFault) -> ReviewFault {
        ReviewFault::Layout(fault)
    }
}

impl From<TableFault> for ReviewFault {
    ghost use Rattle.std.specs.Prelude.{◌≡◌};
    ghost use Rattle.table_review.specs.declared.fault.ReviewFault.TheVariants.{Table};

    ghost from_gives = { λ fault review. review ≡ Table fault };

    fn from(fault: TableFault) -> ReviewFault {
        ReviewFault::Table(fault)
    }
}

impl From<Underived> for ReviewFault {
    ghost use Rattle.std.specs.Prelude.{◌≡◌};
    ghost use Rattle.table_review.specs.declared.fault.ReviewFault.TheVariants as faults;

    ghost from_gives = { λ fault review. review ≡ faults.Underived fault };

    fn from(fault: Underived) -> ReviewFault {
        ReviewFault::Underived(fault)
    }
}

impl From<AllocError> for ReviewFault {
    ghost use Rattle.std.specs.Prelude.{◌≡◌};
    ghost use Rattle.table_review.specs.declared.fault.ReviewFault.TheVariants.{OutOfMemory};

    ghost from_gives = { λ _ review. review ≡ OutOfMemory };

    fn from(_error: AllocError) -> ReviewFault {
        ReviewFault::OutOfMemory
    }
}

impl<T: Drop> From<AllocFailed<T>> for ReviewFault {
    ghost use Rattle.std.specs.Prelude.{◌≡◌};
    ghost use Rattle.table_review.specs.declared.fault.ReviewFault.TheVariants.{OutOfMemory};

    ghost from_gives = { λ _ review. review ≡ OutOfMemory };

    fn from(_error: AllocFailed<T>) -> ReviewFault {
        ReviewFault::OutOfMemory
    }
}
