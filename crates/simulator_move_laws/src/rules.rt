//! What the rules do.

ghost use Rattle.std.specs.Prelude.{ℕ};
ghost use Rattle.ixl_spec.specs.StepSoFar.{StepSoFar};
ghost use Rattle.ixl_spec.specs.Rules.{ruled};
ghost use Rattle.ixl_spec.specs.State.{IxlState};
ghost use Rattle.ixl_spec.specs.Step.{Input};
ghost use Rattle.ixl_spec.specs.Table.{Table};
ghost use Rattle.simulator_machine.specs.Machine.{Machine};
ghost use Rattle.simulator_move_laws.specs.MachineSoFar.{Leads};
ghost use Rattle.simulator_move_laws.specs.Facts.{FarEnds};
ghost use Rattle.simulator_move_laws.specs.Rows.{AreHeldAtFirst, machine_table};
ghost use Rattle.simulator_move_laws.specs.Sees.{Given};

use ixl_spec::ixl_client::{step_hears_what_was_taken, step_is_calls};
use simulator_machine::{lists_of_moves_compose, moves_of_one_are_moves};

/// Where a step so far is a list of moves of the machine, so it is with the six rules: of each route in table order, and
/// with each stop, each move of a point and each aspect that they give.
pub fn rules_are_moves()
    ensures { (now : ℕ) (input : Input) (table : Table) (ixl : IxlState) (given : Given) (machine : Machine) (part : StepSoFar)
        → FarEnds now input ixl given machine → AreHeldAtFirst table → Leads now input (machine_table table) ixl given machine part
        → Leads now input (machine_table table) ixl given machine (ruled now table part) }
{
    lists_of_moves_compose();
    moves_of_one_are_moves();
    step_is_calls();
    step_hears_what_was_taken();
}
