//! What each link does on a tick.

ghost use Rattle.std.specs.Prelude.{ℕ};
ghost use Rattle.ixl_spec.specs.StepSoFar.{StepSoFar};
ghost use Rattle.ixl_spec.specs.State.{IxlState};
ghost use Rattle.ixl_spec.specs.Step.{Tick};
ghost use Rattle.simulator_machine.specs.Machine.{Machine};
ghost use Rattle.simulator_machine.specs.Table.{Table as MachineTable};
ghost use Rattle.simulator_move_laws.specs.Behind.{LeadsBehind};
ghost use Rattle.simulator_move_laws.specs.MachineSoFar.{Leads};
ghost use Rattle.simulator_move_laws.specs.Facts.{FarEnds};
ghost use Rattle.simulator_move_laws.specs.Sees.{Given};
ghost use Rattle.ixl_spec.specs.Step.{ticked};

use simulator_machine::{lists_of_moves_compose, moves_of_one_are_moves};

/// Where a step so far is a list of moves of the machine, so it is with what each link does on a tick after the rules.
pub fn ticks_are_moves()
    ensures { (now : ℕ) (table : MachineTable) (ixl : IxlState) (given : Given) (machine : Machine) (part : StepSoFar) → FarEnds now Tick ixl given machine
        → Leads now Tick table ixl given machine part → LeadsBehind now Tick table ixl given machine (ticked now Tick part) }
{
    lists_of_moves_compose();
    moves_of_one_are_moves();
}
