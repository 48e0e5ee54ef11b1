//! Which commands are auxiliary ones, so that each that is accepted is counted.

ghost use Rattle.std.specs.Prelude.{◌≡◌};
ghost use Rattle.node_lines.specs.Auxiliaries.{auxiliary_of, counted_after};

use closings::{Auxiliary, AuxiliaryCounts};
use replay_lines::ixl_spec::Command;

/// The kind of a command, if it is an auxiliary one.
fn auxiliary_of(command: Command) -> Option<Auxiliary>
    ensures { result ≡ auxiliary_of command }
{
    match command {
        Command::Release(_) => Some(Auxiliary::Release),
        Command::Open(_) => Some(Auxiliary::Open),
        _ => None,
    }
}

/// How many auxiliary commands were accepted, once this command is.
pub fn counted_after(command: Command, counts: AuxiliaryCounts) -> AuxiliaryCounts
    ensures { result ≡ counted_after command counts }
{
    match auxiliary_of(command) {
        Some(of) => counts.with_one(of),
        None => counts,
    }
}
