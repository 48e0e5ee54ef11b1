//! The promise, and the invariant that it follows from.

ghost use Rattle.std.specs.Prelude.{◌≡◌, ℕ, List, Option};
ghost use Rattle.train_machine.specs.Invariant.{Invariant};
ghost use Rattle.train_machine.specs.Machine.{Machine};
ghost use Rattle.train_machine.specs.Moves.{May, Move, after};
ghost use Rattle.train_machine.specs.Promise.{HasWay, IsApart};
ghost use Rattle.train_machine.specs.Run.{MayRun, MayStand, MovesTo, first, right_rules, run};
ghost use Rattle.train_machine.specs.Track.{IsSound, Side, Track};

/// After every list of moves from the first state, no two trains stand in one section, and each point under a train stands
/// undriven at its leg (*apart*). Whatever train's head comes onto a point next, the point stands undriven at its leg (*way*).
pub fn trains_are_kept_apart()
    ensures apart { (track : Track) (standing : ℕ → List ℕ) (positions : ℕ → Option Side) (moves : List Move) → IsSound track → MayStand track standing
        → MayRun right_rules track moves (first standing positions) → IsApart track (run right_rules track moves (first standing positions)) }
    ensures way { (track : Track) (standing : ℕ → List ℕ) (positions : ℕ → Option Side) (moves : List Move) (move : Move) → IsSound track → MayStand track standing
        → MayRun right_rules track moves (first standing positions) → May track (run right_rules track moves (first standing positions)) move
        → HasWay track (run right_rules track moves (first standing positions)) move }
{}

/// The first state has the invariant, and each move, each list of moves keeps it.
pub fn invariant_is_kept()
    ensures first { (track : Track) (standing : ℕ → List ℕ) (positions : ℕ → Option Side) → MayStand track standing → Invariant track (first standing positions) }
    ensures each { (track : Track) (machine : Machine) (move : Move) → IsSound track → Invariant track machine → May track machine move
        → Invariant track (after track machine move) }
    ensures run { (track : Track) (machine : Machine) (moves : List Move) → IsSound track → Invariant track machine → MayRun right_rules track moves machine
        → Invariant track (run right_rules track moves machine) }
    ensures reached { (track : Track) (old new : Machine) → IsSound track → Invariant track old → MovesTo track old new → Invariant track new }
{}

/// Where the invariant holds, so does the promise, and each move that may be made finds its way.
pub fn promise_follows()
    ensures apart { (track : Track) (machine : Machine) → IsSound track → Invariant track machine → IsApart track machine }
    ensures way { (track : Track) (machine : Machine) (move : Move) → IsSound track → Invariant track machine → May track machine move → HasWay track machine move }
{}

/// No move leads to the same state, one move to what it leaves, and one list of moves may follow another.
pub fn lists_of_moves_compose()
    ensures none { (track : Track) (machine : Machine) → MovesTo track machine machine }
    ensures one { (track : Track) (machine : Machine) (move : Move) → May track machine move → MovesTo track machine (after track machine move) }
    ensures then { (track : Track) (old between new : Machine) → MovesTo track old between → MovesTo track between new → MovesTo track old new }
{}
