//! Small orders, worked by hand.

ghost use Rattle.node_kinds.specs.simulator_spec.layout.declared.port.Port.{Port};
ghost use Rattle.node_safety.specs.WorkedOrders.{Drifts, IsTooOld, MovesUndriven, TellsTheDetector};

/// Small orders: a clock that drifts by one microsecond in a second too much, and one that an event of a world is too short for
/// (*clocks*), a contact of a point that no order drives (*contacts*), a train of which the detector alone is told (*detectors*),
/// and a datagram that is heard one microsecond too late (*datagrams*).
pub fn orders_are_as_worked_by_hand()
    ensures clocks { (at : Port) → Drifts at }
    ensures contacts { (at : Port) → MovesUndriven at }
    ensures detectors { (at : Port) → TellsTheDetector at }
    ensures datagrams { (at : Port) → IsTooOld at }
{}
