//! What holds of the search in every layout, and of the routes that follow from it.

ghost use Rattle.std.specs.Prelude.{◌≡◌, ◌≢◌, ◌<◌, List, length, true};
ghost use Rattle.std.specs.List.{Contains};
ghost use Rattle.control_table.specs.layout.declared.ids.RouteId.{RouteId};
ghost use Rattle.control_table.specs.layout.declared.ids.SignalId.{SignalId};
ghost use Rattle.control_table.specs.layout.Entries.{RouteEntry, Site};
ghost use Rattle.control_table.specs.layout.Once.{Once};
ghost use Rattle.control_table.specs.layout.Station.{HasSignal, IsStation};
ghost use Rattle.control_table.specs.Table.{Sound};
ghost use Rattle.control_table.specs.Topology.{IsRoute};
ghost use Rattle.route_derivation.specs.Impossible.{Hinders};
ghost use Rattle.route_derivation.specs.declared.impossible.Hindrance.{Hindrance};
ghost use Rattle.route_derivation.specs.Ways.{Way, IsPassable, IsShort};
ghost use Rattle.route_derivation.specs.Derived.{IsBefore, IsDerived, SameRoute, SameTopology, SameWay};
ghost use Rattle.route_derivation.specs.inside.WaySearch.{ways_from};

/// Each way that is found from a signal begins there, is passable, and has at most 64 elements.
pub(crate) fn found_are_passable()
    ensures { (l : Site) → Once l → (s : SignalId) (w : Way) → Contains (ways_from true l s) w → (w.entry ≡ s) × IsPassable l w × IsShort w }
{}

/// Each passable way of at most 64 elements is found from its signal.
pub(crate) fn passable_are_found()
    ensures { (l : Site) → Once l → IsStation l → (w : Way) → IsPassable l w → IsShort w → Contains (ways_from true l w.entry) w }
{}

/// A layout of the same topology, whose table is the derived one, is sound: `check` accepts it.
pub fn derived_tables_are_sound()
    ensures { (l m : Site) (entries : List SignalId) → SameTopology l m → IsDerived l entries m.routes → Sound m }
{}

/// Every route of every sound table over the same topology is one of those that are derived from all
/// signals, up to its name, approach, extra conflicts and aspect, and the order in which its points are
/// written.
pub fn sound_routes_are_derived()
    ensures { (l m : Site) (entries : List SignalId) (rs : List RouteEntry) → SameTopology l m → IsStation m → Sound m → ((s : SignalId) → HasSignal m s → Contains entries s) → IsDerived l entries rs → (a : RouteId) (r : RouteEntry) → IsRoute m a r → (q : RouteEntry) × Contains rs q × SameRoute r q }
{}

/// Of two derived routes that stand in order, the second leads another way than the first.
pub fn derived_routes_lead_different_ways()
    ensures { (r q : RouteEntry) → IsBefore r q → SameWay r q → ⊥ }
{}

/// A way that something hinders isn't passable.
pub fn hindered_ways_are_impossible()
    ensures { (l : Site) → Once l → (w : Way) (h : Hindrance) → Hinders l w.passages h → IsPassable l w → ⊥ }
{}
