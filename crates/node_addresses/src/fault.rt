//! What is wrong with an addresses file.

ghost use Rattle.std.specs.Prelude.{◌≡◌, Some};
ghost use Rattle.node_addresses.specs.Messages.{node_of, title};
ghost use Rattle.node_addresses.specs.declared.fault.AddressesFault.TheVariants.{OutOfMemory};

use control_table::Name;
use std::alloc::{AllocError, AllocFailed};
use std::error::Error;
use std::fmt;

/// Why a text is no addresses file of a station. First the text is read as TOML, then the nodes are looked for in the order of
/// the layout, and then the keys in the order of their bytes. The first fault is told.
#[derive(Clone, Copy, Debug)]
pub enum AddressesFault {
    /// The text is no TOML.
    Toml,
    /// A node has no key.
    MissingNode(Name),
    /// What stands under a node's key is no text of an IP address and a port from 1 on.
    WrongAddress(Name),
    /// A node before this one has the same address.
    DoubleAddress(Name),
    /// A key is the name of no node.
    UnknownNode(Name),
    /// A key hasn't the form of a name.
    WrongName,
    /// Memory ran out.
    OutOfMemory,
}

impl fmt::Display for AddressesFault {
    ghost use Rattle.node_addresses.specs.Messages.{fault_text};

    ghost output = { λ fault. Some (fault_text fault) };

    fn fmt<W: fmt::Write>(&self, f: &mut fmt::Formatter<W>) -> fmt::Result {
        let title = title(*self);
        match node_of(*self) {
            Some(name) => {
                let name = name.as_str();
                write!(f, "{title} at {name}")
            }
            None => f.write_str(title),
        }
    }
}

impl Error for AddressesFault {}

/// The number and the name of a fault.
fn title(fault: AddressesFault) -> &'static str
    ensures { result.now ≡ title fault }
{
    match fault {
        AddressesFault::Toml => "1 Toml",
        AddressesFault::MissingNode(_) => "2 MissingNode",
        AddressesFault::WrongAddress(_) => "3 WrongAddress",
        AddressesFault::DoubleAddress(_) => "4 DoubleAddress",
        AddressesFault::UnknownNode(_) => "5 UnknownNode",
        AddressesFault::WrongName => "6 WrongName",
        AddressesFault::OutOfMemory => "7 OutOfMemory",
    }
}

/// The node that a fault names.
fn node_of(fault: AddressesFault) -> Option<Name>
    ensures { result ≡ node_of fault }
{
    match fault {
        AddressesFault::MissingNode(name)
        | AddressesFault::WrongAddress(name)
        | AddressesFault::DoubleAddress(name)
        | AddressesFault::UnknownNode(name) => Some(name),
        _ => None,
    }
}

impl From<AllocError> for AddressesFault {
    ghost from_gives = { λ _ e. e ≡ OutOfMemory };

    fn from(_e: AllocError) -> AddressesFault {
        AddressesFault::OutOfMemory
    }
}

impl<T: Drop> From<AllocFailed<T>> for AddressesFault {
    ghost from_gives = { λ _ e. e ≡ OutOfMemory };

    fn from(_e: AllocFailed<T>) -> AddressesFault {
        AddressesFault::OutOfMemory
    }
}
