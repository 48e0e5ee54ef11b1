//! Why a node's process doesn't run to its end.

use node_kinds::node_drive::NodeFault;
use node_network::OpenFault;
use station_check::AddressesFault;
use std::fmt;

/// Why a node's process doesn't run to its end.
#[derive(Clone, Copy)]
pub(crate) enum NodeFailure {
    /// The name is no node's.
    NoNode,
    /// The addresses file is faulty.
    Addresses(AddressesFault),
    /// The operator can't be served at the address, or not by this node.
    Operator,
    NoRandom,
    NoRecord,
    /// Closings are kept of the interlocking alone.
    Closings,
    /// Locks are kept in the file of closings.
    Locks,
    /// What the process has outside can't be opened.
    Open(OpenFault),
    /// It ended before its time.
    Ended(NodeFault),
}

impl fmt::Display for NodeFailure {
    fn fmt<W: fmt::Write>(&self, f: &mut fmt::Formatter<W>) -> fmt::Result {
        let text = match self {
            NodeFailure::NoNode => "no node of the station has this name",
            NodeFailure::Addresses(fault) => return fault.fmt(f),
            NodeFailure::Operator => {
                "the operator's address has to be one of the loopback interface, and the node the interlocking"
            }
            NodeFailure::NoRandom => "the system gives no random number",
            NodeFailure::NoRecord => "the record can't be made",
            NodeFailure::Closings => "closings are kept of the interlocking alone",
            NodeFailure::Locks => "--keep-locks takes --closings FILE",
            NodeFailure::Open(fault) => return fault.fmt(f),
            NodeFailure::Ended(fault) => return fault.fmt(f),
        };
        f.write_str(text)
    }
}
