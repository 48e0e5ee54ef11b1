//! What a lamp and a drive come to where nothing new comes to their controller, on any network.

ghost use Rattle.std.specs.Prelude.{◌≡◌, ℕ, ◌+◌, ◌≤◌, List, None, Some, slice_get};
ghost use Rattle.ixl_table.specs.Table.{IsTableOf};
ghost use Rattle.simulator_spec.specs.First.{IsOutsetOf, Outset, world_at};
ghost use Rattle.simulator_spec.specs.Nodes.{Point as PointAt, Signal as SignalAt};
ghost use Rattle.simulator_spec.specs.Refusals.{driven_by};
ghost use Rattle.simulator_spec.specs.Run.{CanHappen, after_all};
ghost use Rattle.simulator_spec.specs.Seen.{shown_by};
ghost use Rattle.simulator_spec.specs.State.{ClockedControllerState};
ghost use Rattle.simulator_spec.specs.ixl_spec.Table.{Table};
ghost use Rattle.simulator_spec.specs.layout.Entries.{Site};
ghost use Rattle.simulator_spec.specs.layout.Once.{Once};
ghost use Rattle.simulator_spec.specs.layout.Station.{IsStation};
ghost use Rattle.simulator_spec.specs.point_ctl.Drive.{PointState};
ghost use Rattle.simulator_spec.specs.sci_telegram.declared.message.Aspect.TheVariants.{Stop};
ghost use Rattle.simulator_spec.specs.signal_ctl.Signal.{SignalState};
ghost use Rattle.simulator_spec.specs.simulator_event.declared.event.Event.{Event};
ghost use Rattle.simulator_recovery.specs.Silence.{IsSpent, TakesNone, silence_limit};

use crate::below::laws_below;
use object_host_laws::{point_reports_its_moves, signal_shows_what_was_told};
use simulator_spec::point_ctl::Point;
use simulator_spec::signal_ctl::Signal;

/// A controller's connection is over 1802 ms of true time after the last datagram that the controller took was made, at the
/// latest, or no item was taken in it: after every list of events, on any network. Lamps and points hang on this.
pub fn connections_end_in_silence()
    ensures signal { (site : Site) (table : Table) (outset : Outset) (events : List Event) (place made : ℕ) (signal : ClockedControllerState SignalState) → Once site → IsStation site → IsOutsetOf site outset
        → CanHappen site table events (world_at site table outset) → TakesNone site table (SignalAt place) made events (world_at site table outset)
        → made + silence_limit ≤ (after_all site table events (world_at site table outset)).time
        → slice_get (after_all site table events (world_at site table outset)).signals place ≡ Some signal → IsSpent signal }
    ensures point { (site : Site) (table : Table) (outset : Outset) (events : List Event) (place made : ℕ) (point : ClockedControllerState PointState) → Once site → IsStation site → IsOutsetOf site outset
        → CanHappen site table events (world_at site table outset) → TakesNone site table (PointAt place) made events (world_at site table outset)
        → made + silence_limit ≤ (after_all site table events (world_at site table outset)).time
        → slice_get (after_all site table events (world_at site table outset)).points place ≡ Some point → IsSpent point }
{
    laws_below();
}

/// A lamp is at stop 1802 ms of true time after the last datagram that its controller took was made, at the latest: after
/// every list of events, on any network, whether its controller ticked or not.
pub fn lamps_fall_in_silence()
    ensures { (site : Site) (table : Table) (outset : Outset) (events : List Event) (place made : ℕ) (signal : ClockedControllerState SignalState) → Once site → IsStation site → IsTableOf site table
        → IsOutsetOf site outset → CanHappen site table events (world_at site table outset) → TakesNone site table (SignalAt place) made events (world_at site table outset)
        → made + silence_limit ≤ (after_all site table events (world_at site table outset)).time
        → slice_get (after_all site table events (world_at site table outset)).signals place ≡ Some signal → shown_by signal ≡ Stop }
{
    laws_below();
    connections_end_in_silence();
    signal_shows_what_was_told();
}

/// A point isn't driven 1802 ms of true time after the last datagram that its controller took was made, at the latest.
pub fn points_rest_in_silence()
    ensures { (site : Site) (table : Table) (outset : Outset) (events : List Event) (place made : ℕ) (point : ClockedControllerState PointState) → Once site → IsStation site → IsTableOf site table
        → IsOutsetOf site outset → CanHappen site table events (world_at site table outset) → TakesNone site table (PointAt place) made events (world_at site table outset)
        → made + silence_limit ≤ (after_all site table events (world_at site table outset)).time
        → slice_get (after_all site table events (world_at site table outset)).points place ≡ Some point → driven_by point ≡ None }
{
    laws_below();
    connections_end_in_silence();
    point_reports_its_moves();
}
