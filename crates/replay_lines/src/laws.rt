//! What is called by its name is found by it, and where the lines of a file stand.

ghost use Rattle.std.specs.Prelude.{◌≡◌, ℕ, List, [], Some, None, Ok, Err, codes, length, slice_get, true};
ghost use Rattle.replay_words.specs.Words.{is_without};
ghost use Rattle.replay_words.specs.declared.fault.Fault.TheVariants.{Name};
ghost use Rattle.ixl_spec.specs.closings.declared.thing.Named.{Named};
ghost use Rattle.ixl_spec.specs.closings.Words.{name_of, named};
ghost use Rattle.ixl_spec.specs.layout.declared.entries.Point.{Point};
ghost use Rattle.ixl_spec.specs.layout.Entries.{Site, RouteEntry};
ghost use Rattle.ixl_spec.specs.layout.Once.{Once};
ghost use Rattle.ixl_spec.specs.layout.Station.{IsStation};
ghost use Rattle.replay_lines.specs.Names.{node_named, node_names, point_named, route_named, section_named};
ghost use Rattle.replay_lines.specs.Outset.{AllStandBehind};
ghost use Rattle.replay_lines.specs.Text.{lines_said};
ghost use Rattle.replay_lines.specs.declared.line.SimLine.{SimLine as Said};

/// In a layout, where no name is used twice, the name of a node, a section, a point or a route is read as
/// what it names.
#[tactic(auto, using(crate::proofs::Apart::node_read, crate::proofs::Apart::section_read, crate::proofs::Apart::point_read, crate::proofs::Apart::route_read))]
pub fn names_are_read_again()
    ensures nodes { (site : Site) → Once site → (k : ℕ) (name : List ℕ) → slice_get (node_names site) k ≡ Some name → node_named site name ≡ Ok (record { 0 = k }) }
    ensures sections { (site : Site) → Once site → (k : ℕ) (name : List ℕ) → slice_get site.sections k ≡ Some name → section_named site name ≡ Ok (record { 0 = k }) }
    ensures points { (site : Site) → Once site → (k : ℕ) (point : Point) → slice_get site.points k ≡ Some point → point_named site point.name ≡ Ok (record { 0 = k }) }
    ensures routes { (site : Site) → Once site → (k : ℕ) (route : RouteEntry) → slice_get site.routes k ≡ Some route → route_named site route.name ≡ record { 0 = k } }
{}

/// In a layout the names of nodes, sections, points and routes, and of what a command names, are words, those of nodes
/// without an equals sign, and nothing is called `_`.
#[tactic(auto, using(crate::proofs::NameWords::node_is_word, crate::proofs::NameWords::node_without_equals, crate::proofs::NameWords::section_is_word, crate::proofs::NameWords::point_is_word, crate::proofs::NameWords::route_is_word, crate::proofs::NameWords::thing_is_word, crate::proofs::NameWords::unknown_route, crate::proofs::NameWords::unknown_point, crate::proofs::NameWords::nothing_named))]
pub fn names_are_words()
    ensures nodes { (site : Site) → IsStation site → (k : ℕ) (name : List ℕ) → slice_get (node_names site) k ≡ Some name → is_without 32 name ≡ true }
    ensures equals { (site : Site) → IsStation site → (k : ℕ) (name : List ℕ) → slice_get (node_names site) k ≡ Some name → is_without 61 name ≡ true }
    ensures sections { (site : Site) → IsStation site → (k : ℕ) (name : List ℕ) → slice_get site.sections k ≡ Some name → is_without 32 name ≡ true }
    ensures points { (site : Site) → IsStation site → (k : ℕ) (point : Point) → slice_get site.points k ≡ Some point → is_without 32 point.name ≡ true }
    ensures routes { (site : Site) → IsStation site → (k : ℕ) (route : RouteEntry) → slice_get site.routes k ≡ Some route → is_without 32 route.name ≡ true }
    ensures things { (site : Site) → IsStation site → (n : Named) (name : List ℕ) → name_of site n ≡ Some name → is_without 32 name ≡ true }
    ensures unknown { (site : Site) → IsStation site → route_named site (codes "_") ≡ record { 0 = length site.routes } }
    ensures no_point { (site : Site) → IsStation site → point_named site (codes "_") ≡ Err Name }
    ensures nothing { (site : Site) → IsStation site → named site (codes "_") None ≡ None }
{}

/// In a file for the simulation the lines that say how points and sections begin stand before all others, and no two of them
/// name the same.
pub fn begun_lines_stand_first()
    ensures { (site : Site) (text : List ℕ) (lines : List Said) → lines_said site text ≡ Ok lines → AllStandBehind [] lines }
{}
