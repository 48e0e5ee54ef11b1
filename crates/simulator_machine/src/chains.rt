//! How moves are put together.

ghost use Rattle.std.specs.Prelude.{◌≡◌, ◌≢◌, ℕ, List, false, map, true};
ghost use Rattle.simulator_machine.specs.Chains.{LinkMayChain, MovesTo, NoneFrom, PointMayChain, SignalMayChain, link_chained, point_chained, points_chained, signal_chained, signals_chained};
ghost use Rattle.simulator_machine.specs.Link.{LinkMove};
ghost use Rattle.simulator_machine.specs.Lists.{is_same};
ghost use Rattle.simulator_machine.specs.Table.{Table};
ghost use Rattle.simulator_machine.specs.Machine.{Machine, with_point, with_signal};
ghost use Rattle.simulator_machine.specs.Moves.{May, Move, after};
ghost use Rattle.simulator_machine.specs.Point.{Point, PointLink, PointMove};
ghost use Rattle.simulator_machine.specs.Signal.{Signal, SignalLink, SignalMove};

/// No move leads to the same state, one move to what it leaves, and one list of moves may follow another.
pub fn lists_of_moves_compose()
    ensures none { (table : Table) (machine : Machine) → MovesTo table machine machine }
    ensures one { (table : Table) (machine : Machine) (move : Move) → May table machine move → MovesTo table machine (after table machine move) }
    ensures then { (table : Table) (old between new : Machine) → MovesTo table old between → MovesTo table between new → MovesTo table old new }
{}

/// The moves of one signal, or of one point, are moves of the machine, and change nothing else of it.
pub fn moves_of_one_are_moves()
    ensures signal { (table : Table) (machine : Machine) (place : ℕ) (moves : List SignalMove) → SignalMayChain moves (machine.signals place)
        → MovesTo table machine (with_signal place (signal_chained moves (machine.signals place)) machine) }
    ensures point { (table : Table) (machine : Machine) (place : ℕ) (moves : List PointMove) → PointMayChain moves (machine.points place)
        → MovesTo table machine (with_point place (point_chained moves (machine.points place)) machine) }
{}

/// The moves of a link are moves of the signal, or of the point, that has it.
pub fn moves_of_links_are_moves()
    ensures signal { (moves : List LinkMove) (signal : Signal) → LinkMayChain moves signal.link → SignalMayChain (map SignalLink moves) signal }
    ensures signal_link { (moves : List LinkMove) (signal : Signal) → (signal_chained (map SignalLink moves) signal).link ≡ link_chained moves signal.link }
    ensures point { (moves : List LinkMove) (point : Point) → LinkMayChain moves point.link → PointMayChain (map PointLink moves) point }
    ensures point_link { (moves : List LinkMove) (point : Point) → (point_chained (map PointLink moves) point).link ≡ link_chained moves point.link }
{}

/// So are the moves of all signals, or of all points, each with its own, where finitely many have any.
pub fn moves_of_each_are_moves()
    ensures signals { (table : Table) (machine : Machine) (count : ℕ) (moves : ℕ → List SignalMove) → ((place : ℕ) → SignalMayChain (moves place) (machine.signals place))
        → NoneFrom count moves → MovesTo table machine (signals_chained moves machine) }
    ensures points { (table : Table) (machine : Machine) (count : ℕ) (moves : ℕ → List PointMove) → ((place : ℕ) → PointMayChain (moves place) (machine.points place))
        → NoneFrom count moves → MovesTo table machine (points_chained moves machine) }
{}

/// The test by which one signal, point or route is told from the others.
pub fn equal_numbers_are_same()
    ensures same { (n : ℕ) → is_same n n ≡ true }
    ensures equal { (a b : ℕ) → is_same a b ≡ true → a ≡ b }
    ensures other { (a b : ℕ) → a ≢ b → is_same a b ≡ false }
{}
