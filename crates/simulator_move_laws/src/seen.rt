//! What the machine sees of a table, and of an interlocking that was just made.

ghost use Rattle.std.specs.Prelude.{◌≡◌, ℕ, None, slice_get, true};
ghost use Rattle.ixl_spec.specs.State.{IxlState};
ghost use Rattle.ixl_spec.specs.Table.{Table};
ghost use Rattle.simulator_machine.specs.Machine.{Machine, made_anew};
ghost use Rattle.simulator_machine.specs.Link.{Gone};
ghost use Rattle.simulator_machine.specs.Point.{Position};
ghost use Rattle.simulator_machine.specs.Run.{first};
ghost use Rattle.ixl_spec.specs.View.{is_holding};
ghost use Rattle.simulator_move_laws.specs.Made.{IsJustMade, IsQuietMachine};
ghost use Rattle.simulator_machine.specs.Table.{IsSound};
ghost use Rattle.simulator_move_laws.specs.Rows.{machine_table};
ghost use Rattle.simulator_move_laws.specs.Sees.{Given, Sees};

/// Conflicts go both ways, and two routes that begin at one signal conflict.
pub fn tables_are_sound()
    ensures { (table : Table) → IsSound (machine_table table) }
{}

/// The machine sees an interlocking that was just made, or made anew, from the clock of its creation to the end of its
/// hold: at the machine's first state, and at what a restart leaves of it (*first*, *anew*).
pub fn made_interlockings_are_seen()
    ensures seen { (now : ℕ) (ixl : IxlState) (given : Given) (machine : Machine) → is_holding now ixl ≡ true → IsJustMade ixl → IsQuietMachine ixl machine → Sees now ixl given machine }
    ensures first { (ixl : IxlState) (positions : ℕ → Position) → IsQuietMachine ixl (first positions) }
    ensures anew { (ixl : IxlState) (machine : Machine) → ((place : ℕ) → slice_get ixl.known_signals place ≡ None → (machine.signals place).link.server ≡ Gone) → IsQuietMachine ixl (made_anew machine) }
{}
