//! What holds of these nodes whatever comes to them.

ghost use Rattle.std.specs.Prelude.{◌≡◌, ◌∷◌, ℕ, Bool, List, if◌then◌else◌, true, false};
ghost use Rattle.node_drive.specs.Calls.{Call, Keeps, Writes};
ghost use Rattle.node_drive.specs.Lives.{state_after};
ghost use Rattle.node_kinds.specs.Controllers.{detector_kind, point_kind, signal_kind};
ghost use Rattle.node_kinds.specs.Openings.{Opening, Opens, opening_kind};
ghost use Rattle.node_kinds.specs.Interlockings.{InterlockingNode, interlocking_kind, to_have, to_have_then};
ghost use Rattle.node_kinds.specs.Kept.{AreSame, is_same_closings, kept_last, keeps_some, not_kept_text, wanted};
ghost use Rattle.node_kinds.specs.Same.{IsSameOpening};
ghost use Rattle.node_drive.specs.Rounds.{Coming, Standing, all_come, step};
ghost use Rattle.node_drive.specs.node_lines.Known.{operator_text};
ghost use Rattle.node_drive.specs.node_lines.declared.operator_line.OperatorLine.TheVariants.{Accepted};
ghost use Rattle.simulator_spec.specs.Nodes.{key_of};
ghost use Rattle.simulator_spec.specs.ixl_spec.Step as ixl;
ghost use Rattle.simulator_spec.specs.ixl_spec.closings.Closed.{IsClosed};
ghost use Rattle.simulator_spec.specs.ixl_spec.closings.Things.{Names};
ghost use Rattle.simulator_spec.specs.ixl_spec.closings.declared.thing.Named.{Named};
ghost use Rattle.simulator_spec.specs.ixl_spec.closings.declared.thing.Named.TheVariants.{One};
ghost use Rattle.simulator_spec.specs.ixl_spec.closings.declared.thing.Thing.{Thing};
ghost use Rattle.simulator_spec.specs.ixl_spec.closings.declared.thing.Thing.TheVariants.{Route};
ghost use Rattle.simulator_spec.specs.layout.declared.ids.RouteId.{RouteId};
ghost use Rattle.simulator_spec.specs.ixl_spec.declared.command.Command.TheVariants as command;

use crate::detector_node::DetectorNode;
use crate::point_node::PointNode;
use crate::signal_node::SignalNode;
use ixl_state::ixl_spec::{a_command_changes_what_it_names_alone, what_either_closes_is_closed};
use node_drive::NodeMachine;
use node_drive::node_lines::closings::what_is_listed_is_there_and_closed;

/// Each controller is a node of the kind of its equipment.
pub fn controllers_are_of_their_kinds()
    ensures signal { ⟦<SignalNode<'static> as NodeMachine>⟧.does ≡ signal_kind }
    ensures point { ⟦<PointNode<'static> as NodeMachine>⟧.does ≡ point_kind }
    ensures detector { ⟦<DetectorNode<'static> as NodeMachine>⟧.does ≡ detector_kind }
{}

/// Whatever contacts tell before a controller is made, it stays one of this station and this equipment, with as many sections.
#[tactic(auto, using(crate::proofs::Same::opening_kept))]
pub fn openings_keep_their_equipment()
    ensures { (inputs : List (ℕ × Opens)) (opening : Opening) → IsSameOpening opening (state_after opening_kind inputs opening) }
{}

/// At the end of any list of what comes to a process that keeps what is closed: what is closed of its station, with what is locked where
/// that is kept too, is what was to be kept last; and so many auxiliary commands are counted. Where nothing was to be kept, all of it is
/// as it was before the list. Of the steps that one coming makes the law below tells.
pub fn what_is_closed_was_to_be_kept()
    ensures closed { (comings : List (ℕ × Coming)) (standing : Standing InterlockingNode) → let node = standing.state in keeps_some node.keeping ≡ true
        → let done = all_come interlocking_kind comings standing
        in AreSame node.site (kept_last (to_have node) done.0).closings (wanted node.keeping node.table done.1.state.ixl) }
    ensures counted { (comings : List (ℕ × Coming)) (standing : Standing InterlockingNode) → let node = standing.state in keeps_some node.keeping ≡ true
        → let done = all_come interlocking_kind comings standing
        in (kept_last (to_have node) done.0).counts ≡ done.1.state.counts }
{
    what_is_listed_is_there_and_closed();
}

/// In a process that keeps what is closed, the first call of these steps asks for what is to be kept behind them: of each step that
/// changes what is closed, or what is locked where that is kept too; and of each close, open or release that is accepted. The next call
/// of such a command is its line: `accepted` where it is kept, `not kept` and what it names where it isn't. All that a close names is
/// among what is to be kept. The answer to a cancel is a line before its steps, and not of them.
pub fn closings_are_kept_before_they_are_told()
    ensures changed { (now : ℕ) (kept : Bool) (input : ixl.Input) (standing : Standing InterlockingNode) → let node = standing.state in let all = to_have_then now input node in keeps_some node.keeping ≡ true
        → is_same_closings node.site (to_have node).closings all.closings ≡ false
        → (more : List Call) × ((step interlocking_kind now kept input standing).0 ≡ Keeps all kept ∷ more) }
    ensures close { (now : ℕ) (kept : Bool) (named : Named) (standing : Standing InterlockingNode) → let node = standing.state in let input = ixl.Commands (command.Close named) in keeps_some node.keeping ≡ true
        → ixl.reply now node.table (key_of node.site) input node.ixl ≡ ixl.Accepted
        → let all = to_have_then now input node
        in ((t : Thing) → Names named t → IsClosed all.closings t)
        × ((more : List Call) × ((step interlocking_kind now kept input standing).0 ≡ Keeps all kept ∷ Writes (if kept then operator_text node.site Accepted else not_kept_text node.site named) ∷ more)) }
    ensures open { (now : ℕ) (kept : Bool) (named : Named) (standing : Standing InterlockingNode) → let node = standing.state in let input = ixl.Commands (command.Open named) in keeps_some node.keeping ≡ true
        → ixl.reply now node.table (key_of node.site) input node.ixl ≡ ixl.Accepted
        → (more : List Call) × ((step interlocking_kind now kept input standing).0 ≡ Keeps (to_have_then now input node) kept ∷ Writes (if kept then operator_text node.site Accepted else not_kept_text node.site named) ∷ more) }
    ensures release { (now : ℕ) (kept : Bool) (route : RouteId) (standing : Standing InterlockingNode) → let node = standing.state in let input = ixl.Commands (command.Release route) in keeps_some node.keeping ≡ true
        → ixl.reply now node.table (key_of node.site) input node.ixl ≡ ixl.Accepted
        → (more : List Call) × ((step interlocking_kind now kept input standing).0 ≡ Keeps (to_have_then now input node) kept ∷ Writes (if kept then operator_text node.site Accepted else not_kept_text node.site (One (Route route))) ∷ more) }
{
    a_command_changes_what_it_names_alone();
    what_either_closes_is_closed();
}
