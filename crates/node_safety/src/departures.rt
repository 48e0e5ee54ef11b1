//! What programs send has left in the history.

ghost use Rattle.std.specs.Prelude.{◌≡◌, ℕ, List, Some, slice_get};
ghost use Rattle.node_kinds.specs.simulator_spec.First.{Outset, new_point, new_signal};
ghost use Rattle.node_kinds.specs.simulator_spec.ixl_spec.Table.{Table};
ghost use Rattle.node_kinds.specs.simulator_spec.layout.Entries.{DetectorEntry, Site};
ghost use Rattle.node_kinds.specs.simulator_spec.layout.declared.entries.Point.{Point as PointEntry};
ghost use Rattle.node_kinds.specs.simulator_spec.layout.declared.entries.Signal.{Signal as SignalEntry};
ghost use Rattle.node_kinds.specs.simulator_spec.point_ctl.Controlled.{point_behaviour};
ghost use Rattle.node_kinds.specs.simulator_spec.signal_ctl.Signal.{signal_behaviour};
ghost use Rattle.node_kinds.specs.simulator_spec.simulator_event.declared.event.Event.{Event};
ghost use Rattle.node_kinds.specs.simulator_spec.tds_ctl.Controlled.{detection_behaviour};
ghost use Rattle.embedded_host.specs.Leaving.{IsHandedOutBy};
ghost use Rattle.simulator_node_laws.specs.Lives.{detector_sensing};
ghost use Rattle.simulator_node_laws.specs.Said.{detector_life};
ghost use Rattle.simulator_node_laws.specs.Shown.{point_life, signal_life};
ghost use Rattle.node_safety.specs.Journeys.{HasLeft};

/// What a controller handed out as something came to it has left it in the events of its life, at the step that handed it out. So has each
/// datagram that its program sent.
pub fn what_programs_send_has_left()
    ensures signals { (site : Site) (table : Table) (outset : Outset) (events : List Event) (place : ℕ) (entry : SignalEntry) → slice_get site.signals place ≡ Some entry → (now : ℕ) (datagram : List ℕ) →
        let life = signal_life site table events place in IsHandedOutBy signal_behaviour life.came (new_signal site life.begins entry) now datagram → HasLeft site table outset events now datagram }
    ensures points { (site : Site) (table : Table) (outset : Outset) (events : List Event) (place : ℕ) (entry : PointEntry) → slice_get site.points place ≡ Some entry → (now : ℕ) (datagram : List ℕ) →
        let life = point_life site table outset events place in IsHandedOutBy point_behaviour life.came (new_point site life.begins life.sensed entry) now datagram → HasLeft site table outset events now datagram }
    ensures detectors { (site : Site) (table : Table) (outset : Outset) (events : List Event) (place : ℕ) (entry : DetectorEntry) → slice_get site.detectors place ≡ Some entry → (now : ℕ) (datagram : List ℕ) →
        let life = detector_life site table outset events place in IsHandedOutBy detection_behaviour life.came (detector_sensing site life.begins life.sensed entry) now datagram → HasLeft site table outset events now datagram }
{}
