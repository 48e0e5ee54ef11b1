//! What a step does at one node.

ghost use Rattle.std.specs.Prelude.{◌≡◌, ℕ, List};
ghost use Rattle.ixl_spec.specs.StepSoFar.{StepSoFar};
ghost use Rattle.ixl_spec.specs.State.{IxlState};
ghost use Rattle.ixl_spec.specs.Step.{Datagram, Input, known_signal_hearing, known_point_hearing};
ghost use Rattle.ixl_spec.specs.Table.{Table};
ghost use Rattle.simulator_machine.specs.Machine.{Machine};
ghost use Rattle.simulator_move_laws.specs.MachineSoFar.{Leads};
ghost use Rattle.simulator_move_laws.specs.Facts.{FarEnds};
ghost use Rattle.simulator_move_laws.specs.Rows.{machine_table};
ghost use Rattle.simulator_move_laws.specs.Sees.{Given};

use ixl_spec::ixl_client::{step_hears_what_was_taken, step_is_calls};
use simulator_machine::{lists_of_moves_compose, moves_of_one_are_moves};

/// Where a step so far is a list of moves of the machine, so it is with the input's datagram at a signal, and at a point.
pub fn datagrams_are_moves()
    ensures signal { (now : ℕ) (input : Input) (table : Table) (ixl : IxlState) (given : Given) (machine : Machine) (part : StepSoFar)
        → FarEnds now input ixl given machine → Leads now input (machine_table table) ixl given machine part
        → (bytes : List ℕ) (place : ℕ) → input ≡ Datagram bytes → Leads now input (machine_table table) ixl given machine (known_signal_hearing now bytes place part) }
    ensures point { (now : ℕ) (input : Input) (table : Table) (ixl : IxlState) (given : Given) (machine : Machine) (part : StepSoFar)
        → FarEnds now input ixl given machine → Leads now input (machine_table table) ixl given machine part
        → (bytes : List ℕ) (place : ℕ) → input ≡ Datagram bytes → Leads now input (machine_table table) ixl given machine (known_point_hearing now bytes place part) }
{
    lists_of_moves_compose();
    moves_of_one_are_moves();
    step_is_calls();
    step_hears_what_was_taken();
}
