//! A world in which one controller is changed, or none.

ghost use Rattle.std.specs.Prelude.{ℕ, ◌<◌, length};
ghost use Rattle.simulator_link_laws.specs.layout.Entries.{Site};
ghost use Rattle.simulator_link_laws.specs.rasta_core.Links.{Links, seen};
ghost use Rattle.simulator_link_laws.specs.point_ctl.Drive.{PointState};
ghost use Rattle.simulator_link_laws.specs.signal_ctl.Signal.{SignalState};
ghost use Rattle.simulator_link_laws.specs.ixl_spec.Table.{Table};
ghost use Rattle.simulator_machine.specs.Machine.{Machine};
ghost use Rattle.simulator_link_laws.specs.simulator_move_laws.Point.{IsPointSeen, PointGoes};
ghost use Rattle.simulator_link_laws.specs.simulator_move_laws.Signal.{IsSignalSeen, SignalGoes};
ghost use Rattle.simulator_safety.specs.Represents.{Represents, RepresentsAfter};
ghost use Rattle.simulator_link_laws.specs.simulator_spec.Nodes.{point_link};
ghost use Rattle.simulator_link_laws.specs.simulator_spec.State.{ClockedControllerState, WorldState};
ghost use Rattle.simulator_safety.specs.Change.{NoneChanges, PointChanges, SignalChanges};

use simulator_link_laws::simulator_move_laws::{
    controllers_change_nothing_seen, points_stay_elsewhere, signals_stay_elsewhere,
    tables_are_sound,
};
use simulator_machine::{
    equal_numbers_are_same, invariant_is_kept, lists_of_moves_compose, moves_of_one_are_moves,
};

/// A world in which one signal or one point is another, by moves of the machine's, is one that the machine sees after them;
/// and so is a world in which none is, after no moves.
pub fn changes_are_represented()
    ensures signal { (site : Site) (table : Table) (world new : WorldState) (machine : Machine) (represented : Represents site table world machine) (after : Links)
        (place : ℕ) (next : ClockedControllerState SignalState) → place < length site.signals → SignalChanges site world new represented.network after place next
        → SignalGoes (machine.signals place) (IsSignalSeen (seen place after) next.host) → RepresentsAfter site table machine new }
    ensures point { (site : Site) (table : Table) (world new : WorldState) (machine : Machine) (represented : Represents site table world machine) (after : Links)
        (place : ℕ) (next : ClockedControllerState PointState) → place < length site.points → PointChanges site world new represented.network after place next
        → PointGoes (machine.points place) (IsPointSeen (seen (point_link site place) after) next.host) → RepresentsAfter site table machine new }
    ensures none { (site : Site) (table : Table) (world new : WorldState) (machine : Machine) (represented : Represents site table world machine) (after : Links)
        → NoneChanges site world new represented.network after → RepresentsAfter site table machine new }
{
    controllers_change_nothing_seen();
    equal_numbers_are_same();
    invariant_is_kept();
    lists_of_moves_compose();
    moves_of_one_are_moves();
    points_stay_elsewhere();
    signals_stay_elsewhere();
    tables_are_sound();
}
