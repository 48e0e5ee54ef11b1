//! What comes of the rules by which a panel sets routes by itself.

ghost use Rattle.std.specs.Prelude.{◌≡◌, ◌∷◌, ◌++◌, ℕ, List, true, false, not};
ghost use Rattle.std.specs.List.{Contains};
ghost use Rattle.node_lines.specs.control_table.Table.{Conflict};
ghost use Rattle.node_lines.specs.layout.Entries.{Site};
ghost use Rattle.node_lines.specs.layout.declared.ids.RouteId.{RouteId as Route};
ghost use Rattle.panel_desk.specs.InTheWay.{IsHindered, StandsAgainst};
ghost use Rattle.panel_desk.specs.StandingLaws.{EachOnce, IsManual, LeadsTo, OnlySetRoutesAgainst, WaitsLonger, asks_for, makes_manual};
ghost use Rattle.panel_desk.specs.StandingOrders.{MayBeTried, StandingView, Tried, is_apart_in, is_shut_in, is_waiting, none_standing, now_waiting, obeyed};
ghost use Rattle.panel_desk.specs.declared.panel_command.PanelCommand.{PanelCommand as Asks};
ghost use Rattle.panel_desk.specs.declared.panel_line.PanelLine.{PanelLine as Line};
ghost use Rattle.panel_desk.specs.declared.standing_orders.Waiting.{Waiting as Waits};

use node_lines::ixl_spec::control_table::conflicts_go_both_ways;

/// What is tried waits, and nothing that is told stands against it.
pub fn what_is_tried_waits_and_nothing_stands_against_it()
    ensures waits { (site : Site) (lines : List Line) (now : ℕ) (old new : StandingView) (routes : List Route) (route : Route) → Tried site lines now old routes new
        → Contains routes route → is_waiting route (now_waiting lines old) ≡ true }
    ensures unopposed { (site : Site) (lines : List Line) (now : ℕ) (old new : StandingView) (routes : List Route) (route : Route) (line : Line) → Tried site lines now old routes new
        → Contains routes route → Contains lines line → StandsAgainst site route line → ⊥ }
{}

/// What waits is tried in a turn in which nothing that is told stands against it, each that waits longer and conflicts with it is hindered,
/// and 1 s has passed since it was tried. A route is hindered where anything but a set route stands against it, as an occupied section.
pub fn what_may_be_tried_is_tried()
    ensures { (site : Site) (lines : List Line) (now : ℕ) (old new : StandingView) (routes : List Route) (before more : List Waits) (one : Waits) → Tried site lines now old routes new
        → is_shut_in lines ≡ false → is_apart_in lines ≡ false → now_waiting lines old ≡ before ++ one ∷ more → MayBeTried site lines now before one → Contains routes one.route }
{}

/// Of two routes that conflict at most one is tried in a turn. It is the one that waits less long only where the other one is hindered. So
/// the one that waits longer isn't overtaken in a turn in which nothing but set routes stands against it.
pub fn of_two_that_conflict_only_the_one_that_waits_longer_is_tried()
    ensures one { (site : Site) (lines : List Line) (now : ℕ) (old new : StandingView) (routes : List Route) (first second : Route) → Tried site lines now old routes new
        → Contains routes first → Contains routes second → Conflict site first second → ⊥ }
    ensures longer { (site : Site) (lines : List Line) (now : ℕ) (old new : StandingView) (routes : List Route) (longer route : Route) → Tried site lines now old routes new
        → EachOnce old.waiting → WaitsLonger (now_waiting lines old) longer route → Conflict site route longer → OnlySetRoutesAgainst site lines longer → Contains routes route → ⊥ }
    ensures hindered { (site : Site) (lines : List Line) (now : ℕ) (old new : StandingView) (routes : List Route) (longer route : Route) → Tried site lines now old routes new
        → EachOnce old.waiting → WaitsLonger (now_waiting lines old) longer route → Conflict site route longer → Contains routes route → IsHindered site lines longer }
{
    conflicts_go_both_ways();
}

/// A route that was cancelled or released is neither automatic nor waits, and isn't tried, until it is asked for again.
pub fn what_was_cancelled_or_released_is_left_alone()
    ensures made { (route : Route) (command : Asks) (orders : StandingView) → makes_manual route command ≡ true → IsManual route (obeyed command orders) }
    ensures stays { (site : Site) (route : Route) (old new : StandingView) → IsManual route old → LeadsTo site (λ command. not (asks_for route command)) old new → IsManual route new }
    ensures untried { (site : Site) (lines : List Line) (now : ℕ) (old new : StandingView) (routes : List Route) (route : Route) → IsManual route old
        → Tried site lines now old routes new → Contains routes route → ⊥ }
{}

/// No route waits twice, whatever is asked and told.
pub fn each_route_waits_once()
    ensures { (site : Site) (places : ℕ) (orders : StandingView) → LeadsTo site (λ command. true) (none_standing places) orders → EachOnce orders.waiting }
{}
