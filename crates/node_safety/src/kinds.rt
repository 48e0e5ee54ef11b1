//! The kinds of nodes, for the laws of the engine. They have no code.

use node_kinds::node_drive::Behaves;

/// The controller of a signal.
pub struct Signals;

impl Behaves for Signals {
    ghost use Rattle.node_kinds.specs.simulator_spec.object_host.declared.input.Input.{Input as HostInput};
    ghost use Rattle.node_kinds.specs.simulator_spec.signal_ctl.Signal.{SignalState};
    ghost use Rattle.node_kinds.specs.Controllers.{Controller, signal_kind};

    ghost State = { Controller SignalState (Unit {0}) };

    ghost Input = { HostInput };

    ghost does = { signal_kind };
}

/// The controller of a point.
pub struct Points;

impl Behaves for Points {
    ghost use Rattle.node_kinds.specs.simulator_spec.object_host.declared.input.Input.{Input as HostInput};
    ghost use Rattle.node_kinds.specs.simulator_spec.point_ctl.Drive.{PointState};
    ghost use Rattle.node_kinds.specs.simulator_spec.sci_telegram.declared.message.Position.{Position};
    ghost use Rattle.node_kinds.specs.Controllers.{Controller, point_kind};

    ghost State = { Controller PointState Position };

    ghost Input = { HostInput };

    ghost does = { point_kind };
}

/// The controller of a detector.
pub struct Detectors;

impl Behaves for Detectors {
    ghost use Rattle.std.specs.Prelude.{List};
    ghost use Rattle.node_kinds.specs.simulator_spec.object_host.declared.input.Input.{Input as HostInput};
    ghost use Rattle.node_kinds.specs.simulator_spec.tds_ctl.declared.section.Section.{Section as SectionState};
    ghost use Rattle.node_kinds.specs.Controllers.{Controller, OwnSections, detector_kind};

    ghost State = { Controller (List SectionState) OwnSections };

    ghost Input = { HostInput };

    ghost does = { detector_kind };
}

/// The interlocking.
pub struct Interlockings;

impl Behaves for Interlockings {
    ghost use Rattle.node_kinds.specs.simulator_spec.ixl_spec.Step as ixl;
    ghost use Rattle.node_kinds.specs.Interlockings.{InterlockingNode, interlocking_kind};

    ghost State = { InterlockingNode };

    ghost Input = { ixl.Input };

    ghost does = { interlocking_kind };
}

/// A controller that isn't made yet.
pub struct Openings;

impl Behaves for Openings {
    ghost use Rattle.node_kinds.specs.Openings.{Opening, Opens, opening_kind};

    ghost State = { Opening };

    ghost Input = { Opens };

    ghost does = { opening_kind };
}
