//! What the kinds of nodes come to.

ghost use Rattle.std.specs.Prelude.{◌≡◌, ℕ, List, Option};
ghost use Rattle.node_kinds.specs.Controllers.{Controller, OwnSections, detector_kind, drive_order, lamp_order, point_kind, signal_kind};
ghost use Rattle.node_kinds.specs.Interlockings.{InterlockingNode, interlocking_kind};
ghost use Rattle.node_kinds.specs.node_drive.Lives.{state_after};
ghost use Rattle.node_kinds.specs.node_drive.node_lines.Orders.{aspect_ordered, side_ordered};
ghost use Rattle.simulator_node_laws.specs.Lives.{host_after, ixl_after};
ghost use Rattle.node_kinds.specs.simulator_spec.ixl_spec.Step as ixl;
ghost use Rattle.node_kinds.specs.simulator_spec.object_host.declared.input.Input.{Input};
ghost use Rattle.node_kinds.specs.simulator_spec.point_ctl.Controlled.{point_behaviour};
ghost use Rattle.node_kinds.specs.simulator_spec.point_ctl.Drive.{PointState, driven_by};
ghost use Rattle.node_kinds.specs.simulator_spec.point_ctl.declared.drive.Drive.{Drive};
ghost use Rattle.node_kinds.specs.simulator_spec.sci_telegram.declared.message.Position.{Position};
ghost use Rattle.node_kinds.specs.simulator_spec.signal_ctl.Lamp.{Lamp, aspect_shown};
ghost use Rattle.node_kinds.specs.simulator_spec.signal_ctl.Signal.{SignalState, signal_behaviour};
ghost use Rattle.node_kinds.specs.simulator_spec.tds_ctl.Controlled.{detection_behaviour};
ghost use Rattle.node_kinds.specs.simulator_spec.tds_ctl.declared.section.Section.{Section as SectionState};

/// A controller by its rounds is one by its life: its steps are those of a world's controller.
#[tactic(auto, using(crate::proofs::Lives::controller_lives))]
pub fn controllers_are_those_of_a_world()
    ensures signals { (inputs : List (ℕ × Input)) (c : Controller SignalState (Unit {0})) → (state_after signal_kind inputs c).host ≡ host_after signal_behaviour inputs c.host }
    ensures points { (inputs : List (ℕ × Input)) (c : Controller PointState Position) → (state_after point_kind inputs c).host ≡ host_after point_behaviour inputs c.host }
    ensures detectors { (inputs : List (ℕ × Input)) (c : Controller (List SectionState) OwnSections) → (state_after detector_kind inputs c).host ≡ host_after detection_behaviour inputs c.host }
{}

/// So is the interlocking.
#[tactic(auto, using(crate::proofs::Lives::interlocking_lives))]
pub fn interlockings_are_those_of_a_world()
    ensures { (inputs : List (ℕ × ixl.Input)) (node : InterlockingNode) → (state_after interlocking_kind inputs node).ixl ≡ ixl_after node.site node.table inputs node.ixl }
{}

/// What equipment does that keeps the order of a lamp or a drive is what the controller shows, or to where it drives, at every
/// reading, also when no further line comes.
#[tactic(auto, using(crate::proofs::Kept::lamp_kept, crate::proofs::Kept::drive_kept))]
pub fn orders_tell_all_until_the_next()
    ensures lamp { (lamp : Lamp) (now : ℕ) → aspect_ordered (lamp_order lamp) now ≡ aspect_shown lamp now }
    ensures drive { (drive : Option Drive) (now : ℕ) → side_ordered (drive_order drive) now ≡ driven_by drive now }
{}
