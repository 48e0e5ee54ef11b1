//! What the definitions of the rounds come to.

ghost use Rattle.std.specs.Prelude.{◌<◌, ℕ, List};
ghost use Rattle.std.specs.List.{AllByRecursion};
ghost use Rattle.simulator_event.specs.declared.event.Event.{Event as Happening};
ghost use Rattle.station_drive.specs.Rounds.{not_due};

/// A round leaves no line whose time has passed, whatever the order of the script.
pub fn no_line_that_is_due_is_left()
    ensures { (passed : ℕ) (script : List (ℕ × Happening)) → AllByRecursion (λ line. passed < line.0) (not_due passed script) }
{}
