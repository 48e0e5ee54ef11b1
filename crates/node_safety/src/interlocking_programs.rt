//! The interlocking in a program's own loop.

ghost use Rattle.std.specs.Prelude.{◌≡◌, ◌++◌, ◌∷◌, [], ℕ, List, Some};
ghost use Rattle.node_kinds.specs.simulator_spec.First.{Outset};
ghost use Rattle.node_kinds.specs.simulator_spec.ixl_spec.Table.{Table};
ghost use Rattle.node_kinds.specs.simulator_spec.layout.Entries.{Site};
ghost use Rattle.node_kinds.specs.simulator_spec.simulator_event.declared.event.Event.{Event};
ghost use Rattle.embedded_ixl.specs.Calls.{Call, Takes, after_calls, leaves_by};
ghost use Rattle.embedded_ixl.specs.Embedded.{new_state, started};
ghost use Rattle.simulator_node_laws.specs.Shown.{interlocking_life, interlocking_now};
ghost use Rattle.node_safety.specs.Journeys.{HasLeft};
ghost use Rattle.node_safety.specs.Runs.{IsOfIxlCalls};

use embedded_ixl::{calls_are_inputs, what_leaves_is_fresh};

/// A program's interlocking is that of the world in whose events it lived.
pub fn an_interlocking_program_is_that_of_a_world()
    ensures { (site : Site) (table : Table) (events : List Event) → let life = interlocking_life site table events in (is : IsOfIxlCalls site table life.begins.first life.begins.clock life.came) → is.later ≡ []
        → (after_calls is.calls (started (new_state (record { site = site; table = table }) life.begins.first life.begins.clock) life.begins.clock)).interlocking.state.ixl ≡ (interlocking_now site table life).ixl }
{
    calls_are_inputs();
}

/// Each datagram that left a program's interlocking, by whichever of its calls, has left it in the events of its life, in a step less
/// than 500 ms before.
pub fn what_an_interlocking_program_sends_has_left()
    ensures { (site : Site) (table : Table) (outset : Outset) (events : List Event) → let life = interlocking_life site table events in (is : IsOfIxlCalls site table life.begins.first life.begins.clock life.came) → is.later ≡ []
        → (before behind : List Call) (now : ℕ) (datagram : List ℕ) → is.calls ≡ before ++ Takes now ∷ behind
        → leaves_by (Takes now) (after_calls before (started (new_state (record { site = site; table = table }) life.begins.first life.begins.clock) life.begins.clock)) ≡ Some datagram
        → HasLeft site table outset events now datagram }
{
    calls_are_inputs();
    what_leaves_is_fresh();
}
