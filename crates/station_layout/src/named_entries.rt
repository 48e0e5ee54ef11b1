//! Signals and routes by their names.

ghost use Rattle.std.specs.Prelude.{◌≡◌};
ghost use Rattle.station_layout.specs.NamedEntries.{route_called, signal_called};

use control_table::{Layout, RouteId, SignalId};
use replay_words::Fault;
use station_plan::{route_place, signal_place};

/// The signal of a name; fault 2 where no signal has it.
pub(crate) fn signal_called(layout: &Layout, name: &str) -> Result<SignalId, Fault>
    ensures { result ≡ signal_called layout.now name.now }
{
    match signal_place(layout.signals(), name) {
        Some(place) => Ok(SignalId(place)),
        None => Err(Fault::Name),
    }
}

/// The route of a name; fault 2 where no route has it.
pub(crate) fn route_called(layout: &Layout, name: &str) -> Result<RouteId, Fault>
    ensures { result ≡ route_called layout.now name.now }
{
    match route_place(layout.routes(), name) {
        Some(place) => Ok(RouteId(place)),
        None => Err(Fault::Name),
    }
}
