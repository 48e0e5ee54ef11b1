//! What holds of each line of a railway.

ghost use Rattle.std.specs.Prelude.{List, ℕ};
ghost use Rattle.std.specs.List.{Contains};
ghost use Rattle.railway_layout.specs.Locked.{IsEndOf, IsLockedAt};
ghost use Rattle.railway_layout.specs.Railway.{IsRailway};
ghost use Rattle.railway_layout.specs.States.{EndState, LineState, RailwayState};
ghost use Rattle.railway_layout.specs.Written.{RailwayText};

/// At each end of each line, every route that ends at the border, or leaves the lock by its left leg, requires the lock at the
/// right, and every route in over the lock requires it at the left.
pub fn each_line_is_locked()
    ensures { (text : RailwayText) (layouts : List (List ℕ)) (railway : RailwayState) (line : LineState) (e : EndState)
        → IsRailway text layouts railway → Contains railway.lines line → IsEndOf e line → IsLockedAt railway e }
{}
