//! What a step of an interlocking is to the machine, and one step after another.

ghost use Rattle.std.specs.Prelude.{◌≡◌, ◌≤◌, ◌<◌, ℕ, List, length};
ghost use Rattle.ixl_spec.specs.rasta_core.Outbox.{OutboxState};
ghost use Rattle.ixl_spec.specs.rasta_pdu.declared.key.Key.{Key};
ghost use Rattle.ixl_spec.specs.StepSoFar.{begun_with};
ghost use Rattle.ixl_spec.specs.State.{IxlState};
ghost use Rattle.ixl_spec.specs.Step.{Commands, Datagram, Input, Tick, stepped};
ghost use Rattle.ixl_spec.specs.declared.command.Command.{Command};
ghost use Rattle.ixl_spec.specs.Table.{Table};
ghost use Rattle.simulator_machine.specs.Machine.{Machine, is_held, made_anew};
ghost use Rattle.simulator_move_laws.specs.Made.{IsJustMade};
ghost use Rattle.simulator_machine.specs.Table.{Table as MachineTable};
ghost use Rattle.simulator_machine.specs.Chains.{MovesTo};
ghost use Rattle.ixl_spec.specs.rasta_core.Parameters.{greatest};
ghost use Rattle.simulator_move_laws.specs.Course.{Happening, MayAllHappen, Moment, SeesAt, moments_after};
ghost use Rattle.simulator_move_laws.specs.Onward.{AreAloneAfterQuiet, IsMadeAnew, IsPassed, IsStepped, LooksAlike, held_routes};
ghost use Rattle.simulator_move_laws.specs.Behind.{LeadsBehind};
ghost use Rattle.simulator_move_laws.specs.MachineSoFar.{Leads};
ghost use Rattle.simulator_move_laws.specs.Facts.{FarEnds};
ghost use Rattle.simulator_move_laws.specs.Rows.{AreHeldAtFirst, machine_table};
ghost use Rattle.simulator_move_laws.specs.Sees.{Given, Sees};

use ixl_spec::ixl_client::{step_hears_what_was_taken, step_is_calls};
use simulator_machine::{lists_of_moves_compose, moves_of_each_are_moves, moves_of_one_are_moves};

/// A step is a list of moves of the machine: with the input's datagram at whatever node, with a command, and on a tick, with
/// the heartbeat that is due at each link, and the opening of a link that is down.
pub fn steps_are_moves()
    ensures datagram { (now : ℕ) (table : Table) (key : Key) (bytes : List ℕ) (ixl : IxlState) (outbox : OutboxState) (given : Given) (machine : Machine)
        → Sees now ixl given machine → FarEnds now (Datagram bytes) ixl given machine → AreHeldAtFirst table → length ixl.routes ≡ length table.rows
        → Leads now (Datagram bytes) (machine_table table) ixl given machine (stepped now table key (Datagram bytes) (begun_with ixl outbox)) }
    ensures command { (now : ℕ) (table : Table) (key : Key) (command : Command) (ixl : IxlState) (outbox : OutboxState) (given : Given) (machine : Machine)
        → Sees now ixl given machine → FarEnds now (Commands command) ixl given machine → AreHeldAtFirst table → length ixl.routes ≡ length table.rows
        → Leads now (Commands command) (machine_table table) ixl given machine (stepped now table key (Commands command) (begun_with ixl outbox)) }
    ensures tick { (now : ℕ) (table : Table) (key : Key) (ixl : IxlState) (outbox : OutboxState) (given : Given) (machine : Machine)
        → Sees now ixl given machine → FarEnds now Tick ixl given machine → AreHeldAtFirst table → length ixl.routes ≡ length table.rows
        → LeadsBehind now Tick (machine_table table) ixl given machine (stepped now table key Tick (begun_with ixl outbox)) }
{
    lists_of_moves_compose();
    moves_of_one_are_moves();
    step_is_calls();
    step_hears_what_was_taken();
}

/// After a whole step the machine sees the interlocking as it is then, just as it did before: steps may follow one another.
pub fn steps_are_seen()
    ensures { (now : ℕ) (input : Input) (table : Table) (key : Key) (ixl : IxlState) (outbox : OutboxState) (given : Given) (machine : Machine)
        → Sees now ixl given machine → FarEnds now input ixl given machine → AreHeldAtFirst table → length ixl.routes ≡ length table.rows
        → (new : Machine) × IsStepped now input (machine_table table) ixl given machine (stepped now table key input (begun_with ixl outbox)) new }
{
    lists_of_moves_compose();
    moves_of_one_are_moves();
    step_is_calls();
    step_hears_what_was_taken();
}

/// What happens to an interlocking by the clock alone is moves of the machine: links close, quiet times end, and so does the
/// hold, when no server is in a connection any more.
pub fn passing_time_is_moves()
    ensures { (now later : ℕ) (table : MachineTable) (ixl : IxlState) (given : Given) (machine : Machine) → now ≤ later → Sees now ixl given machine
        → AreAloneAfterQuiet later ixl machine → (new : Machine) × IsPassed later table ixl given machine new }
{
    lists_of_moves_compose();
    moves_of_each_are_moves();
}

/// What the machine holds, the interlocking holds: in a hold the frozen routes, and outside it those with authority.
pub fn held_routes_are_seen()
    ensures { (now : ℕ) (ixl : IxlState) (given : Given) (machine : Machine) → Sees now ixl given machine
        → (number : ℕ) → is_held machine number ≡ held_routes now ixl machine.frozen number }
{}

/// An interlocking that is made anew is a move of the machine: its hold begins, and the routes that were held are frozen.
pub fn restarts_are_moves()
    ensures { (now later : ℕ) (table : MachineTable) (old anew : IxlState) (given anew_given : Given) (machine : Machine) → Sees now old given machine
        → IsJustMade anew → anew.created ≡ later → later < greatest → length anew.known_signals ≡ length old.known_signals
        → IsMadeAnew now later table old anew anew_given machine (made_anew machine) }
{}

/// What controllers do changes nothing that the machine sees of the interlocking.
pub fn controllers_change_nothing_seen()
    ensures { (now : ℕ) (ixl : IxlState) (given : Given) (old new : Machine) → Sees now ixl given old → LooksAlike ixl old new → Sees now ixl given new }
{}

/// One after another, steps, passing time, interlockings made anew and what controllers do between them lead the machine by
/// its moves, and it sees the interlocking at the end.
pub fn courses_are_moves()
    ensures { (table : Table) (meaning : List Happening) (moment : Moment) (machine : Machine) → AreHeldAtFirst table → SeesAt table moment machine
        → MayAllHappen table meaning moment machine → (new : Machine) × MovesTo (machine_table table) machine new × SeesAt table (moments_after table meaning moment) new }
{
    lists_of_moves_compose();
    passing_time_is_moves();
    steps_are_seen();
}
