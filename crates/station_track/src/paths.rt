//! The paths of routes and the throats of borders, as numbers of places.

ghost use Rattle.std.specs.Prelude.{◌≡◌, ◌∷◌, IfOk, Some, length};
ghost use Rattle.std.specs.List.{All};
ghost use Rattle.control_table.specs.layout.Station.{HasElement};
ghost use Rattle.station_track.specs.Meaning.{IfPort, IfThere};
ghost use Rattle.station_track.specs.Paths.{first_or, later_ones, number_of, places_from, route_at, route_places};
ghost use Rattle.station_track.specs.Throats.{has_signal, none_at_all, throat_from};
ghost use Rattle.station_track.specs.Places.{no_place};
ghost use Rattle.station_track.specs.Tracks.{track_of};
ghost use Rattle.train_machine.specs.Track.{path};

use crate::numbers::{limits, no_place, place_number};
use crate::place::Place;
use crate::ports::{beyond, front, place_between, port_of, signal_at, track_behind};
use control_table::BorderId;
use control_table::layout::{Layout, Port, Route};
use std::alloc::{AllocError, Global};

/// The number of a place.
fn number_of(layout: &Layout, place: Option<Place>) -> usize
    requires { IfThere layout.now place }
    ensures { result ≡ number_of layout.now place }
{
    match place {
        Some(place) => place_number(layout, place),
        None => no_place(layout),
    }
}

/// The places from a port on, each left by the next of these ports.
fn places_from(
    alloc: Global,
    layout: &Layout,
    from: Port,
    ports: &[Port],
) -> Result<Vec<usize>, AllocError>
    requires { All (λ port. HasElement layout.now port.element) ports.now }
    ensures { IfOk result (λ v. v.items ≡ places_from layout.now from ports.now) }
{
    let mut places = Vec::new(alloc);
    let mut before = from;
    for left in ports {
        let place = place_between(beyond(layout.joints(), before), *left);
        places.push(number_of(layout, place))?;
        before = *left;
    }
    Ok(places)
}

/// The places of a route.
fn route_places(alloc: Global, layout: &Layout, route: &Route) -> Result<Vec<usize>, AllocError>
    requires { All (λ port. HasElement layout.now port.element) route.now.path }
    ensures { IfOk result (λ v. v.items ≡ route_places layout.now (Some route.now)) }
{
    match port_of(layout.signals(), route.entry()) {
        Some(from) => places_from(alloc, layout, from, route.path()),
        None => Ok(Vec::new(alloc)),
    }
}

/// A list of places, or one place that isn't there.
fn or_nowhere(layout: &Layout, places: Vec<usize>) -> Result<Vec<usize>, AllocError>
    ensures { IfOk result (λ v. v.items ≡ first_or (no_place layout.now) places.items ∷ later_ones places.items) }
{
    let mut places = places;
    if places.is_empty() {
        places.push(no_place(layout))?;
    }
    Ok(places)
}

/// The places of a route of the table. None where it isn't there.
fn places_of_route(alloc: Global, layout: &Layout, route: usize) -> Result<Vec<usize>, AllocError>
    ensures { IfOk result (λ v. v.items ≡ route_places layout.now (route_at layout.now route)) }
{
    limits(layout);
    match layout.routes().get(route) {
        Some(route) => route_places(alloc, layout, route),
        None => Ok(Vec::new(alloc)),
    }
}

/// The path of a route: its places in their order. Of a number that no route has, one place that isn't there.
pub fn path(alloc: Global, layout: &Layout, route: usize) -> Result<Vec<usize>, AllocError>
    ensures { IfOk result (λ v. v.items ≡ path (track_of layout.now) route) }
{
    let places = places_of_route(alloc, layout, route)?;
    or_nowhere(layout, places)
}

/// The signal at which a route begins. A number that no signal has where it isn't there.
pub fn entry(layout: &Layout, route: usize) -> usize
    ensures { result ≡ (track_of layout.now).entry route }
{
    match layout.routes().get(route) {
        Some(route) => route.entry().0,
        None => layout.signals().len(),
    }
}

/// Whether a signal stands at a port.
fn has_signal(layout: &Layout, port: Port) -> bool
    ensures { result ≡ has_signal layout.now port }
{
    signal_at(layout.signals(), port).is_some()
}

/// The places from a port on over tracks alone, up to the first signal. None where there is no such signal.
fn throat_from(
    alloc: Global,
    layout: &Layout,
    entered: Option<Port>,
) -> Result<Vec<usize>, AllocError>
    requires { IfPort layout.now entered }
    ensures { IfOk result (λ v. v.items ≡ none_at_all (throat_from layout.now (length layout.now.tracks) entered)) }
{
    let mut places = Vec::new(alloc);
    let mut next = entered;
    for step in 0..layout.tracks().len() {
        let _step = step;
        let Some(place) = track_behind(next) else {
            return Ok(Vec::new(alloc));
        };
        places.push(place_number(layout, place))?;
        if has_signal(layout, front(place)) {
            return Ok(places);
        }
        next = beyond(layout.joints(), front(place));
    }
    Ok(Vec::new(alloc))
}

/// The throat of a border: the places from it up to the first signal that stands toward the station, where only tracks lie between. A
/// border at whose own port a signal stands has the place outside. None where there is neither, and where the border isn't there.
pub fn throat(alloc: Global, layout: &Layout, border: usize) -> Result<Vec<usize>, AllocError>
    ensures { IfOk result (λ v. v.items ≡ (track_of layout.now).throat border) }
{
    limits(layout);
    let outside = Place::Outside(BorderId(border));
    if has_signal(layout, front(outside)) {
        let mut places = Vec::new(alloc);
        places.push(place_number(layout, outside))?;
        return Ok(places);
    }
    throat_from(alloc, layout, beyond(layout.joints(), front(outside)))
}
