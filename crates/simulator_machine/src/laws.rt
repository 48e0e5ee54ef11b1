//! The promise, and the invariant that it follows from.

ghost use Rattle.std.specs.Prelude.{◌≡◌, ℕ, List, false, true};
ghost use Rattle.simulator_machine.specs.Chains.{MovesTo};
ghost use Rattle.simulator_machine.specs.Invariant.{IsPointSound, IsSettled, IsSignalSound, Invariant};
ghost use Rattle.simulator_machine.specs.Table.{Table, IsSound};
ghost use Rattle.simulator_machine.specs.Route.{has_authority};
ghost use Rattle.simulator_machine.specs.Machine.{Machine, made_anew};
ghost use Rattle.simulator_machine.specs.Moves.{Move, May, after};
ghost use Rattle.simulator_machine.specs.Run.{MayRun, first, right_rules, run};
ghost use Rattle.simulator_machine.specs.Point.{IsKnownAt, Point, Position, Side};
ghost use Rattle.simulator_machine.specs.Promise.{Promise};
ghost use Rattle.simulator_machine.specs.Signal.{Aspect, IsAtKnownStop, IsLive, Signal, Stop, shown};

/// After every list of moves from the first state the promise holds.
pub fn promise_holds()
    ensures run { (table : Table) (positions : ℕ → Position) (moves : List Move) → IsSound table → MayRun right_rules table moves (first positions)
        → Promise table (run right_rules table moves (first positions)) }
    ensures reached { (table : Table) (positions : ℕ → Position) (machine : Machine) → IsSound table → MovesTo table (first positions) machine → Promise table machine }
{}

/// The first state has the invariant, and each move, each list of moves keeps it.
pub fn invariant_is_kept()
    ensures first { (table : Table) (positions : ℕ → Position) → Invariant table (first positions) }
    ensures each { (table : Table) (machine : Machine) (move : Move) → IsSound table → Invariant table machine → May table machine move
        → Invariant table (after table machine move) }
    ensures run { (table : Table) (machine : Machine) (moves : List Move) → IsSound table → Invariant table machine → MayRun right_rules table moves machine
        → Invariant table (run right_rules table moves machine) }
    ensures reached { (table : Table) (old new : Machine) → IsSound table → Invariant table old → MovesTo table old new → Invariant table new }
{}

/// Where the invariant holds, so does the promise.
pub fn promise_follows()
    ensures { (table : Table) (machine : Machine) → IsSound table → Invariant table machine → Promise table machine }
{}

/// A point that is known at a side is settled there.
pub fn known_points_are_settled()
    ensures { (side : Side) (point : Point) → IsPointSound point → IsKnownAt side point → IsSettled side point }
{}

/// A signal at known stop shows stop, and no other aspect could still be shown.
pub fn known_stop_is_dark()
    ensures shown { (signal : Signal) → IsSignalSound signal → IsAtKnownStop signal → shown signal ≡ Stop }
    ensures live { (signal : Signal) (aspect : Aspect) → IsSignalSound signal → IsAtKnownStop signal → IsLive aspect signal → ⊥ }
{}

/// The frozen routes are those that had authority when the interlocking was made anew outside a hold; made anew in the
/// hold, it keeps them.
pub fn restarts_freeze_held_routes()
    ensures outside { (machine : Machine) (route : ℕ) → machine.holding ≡ false → (made_anew machine).frozen route ≡ has_authority (machine.routes route) }
    ensures again { (machine : Machine) (route : ℕ) → machine.holding ≡ true → (made_anew machine).frozen route ≡ machine.frozen route }
{}
