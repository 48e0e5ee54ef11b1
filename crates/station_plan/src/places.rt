//! The places of signals, points, sections and routes in a layout, by their names.

ghost use Rattle.std.specs.Prelude.{◌≡◌};
ghost use Rattle.std.specs.List.{position};
ghost use Rattle.std.specs.Str.{bytes_eq};

use control_table::Name;
use control_table::layout::{Point, Route, Signal};

/// An entry of a table of the layout, which goes by a name.
pub(crate) trait Named {
    ghost use Rattle.std.specs.Prelude.{◌≡◌, ℕ, List};

    ghost own_name: { Self → List ℕ };

    fn own_name(&self) -> &str
        ensures { result.now ≡ own_name self.now };
}

impl Named for Signal {
    ghost own_name = { λ signal. signal.name };

    fn own_name(&self) -> &str {
        self.name.as_str()
    }
}

impl Named for Point {
    ghost own_name = { λ point. point.name };

    fn own_name(&self) -> &str {
        self.name.as_str()
    }
}

impl Named for Name {
    ghost own_name = { λ name. name };

    fn own_name(&self) -> &str {
        self.as_str()
    }
}

impl Named for Route {
    ghost own_name = { λ route. route.name };

    fn own_name(&self) -> &str {
        self.name().as_str()
    }
}

/// The place of the entry of a name.
pub(crate) fn place_of<T: Named>(entries: &[T], name: &str) -> Option<usize>
    ensures { result ≡ position (λ entry. bytes_eq (T.own_name entry) name.now) entries.now }
{
    for (place, entry) in entries.iter().enumerate() {
        if entry.own_name() == name {
            return Some(place);
        }
    }
    None
}

/// The place of the signal of a name.
pub fn signal_place(signals: &[Signal], name: &str) -> Option<usize>
    ensures { result ≡ position (λ signal. bytes_eq signal.name name.now) signals.now }
{
    place_of(signals, name)
}

/// The place of the route of a name.
pub fn route_place(routes: &[Route], name: &str) -> Option<usize>
    ensures { result ≡ position (λ route. bytes_eq route.name name.now) routes.now }
{
    place_of(routes, name)
}
