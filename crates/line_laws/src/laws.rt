//! What is promised of a line, after any list of moves of its two ends.

ghost use Rattle.std.specs.Prelude.{◌≡◌, ◌⊎◌, ◌++◌, Bool, IsTrue, List};
ghost use Rattle.line_laws.specs.declared.words.Side.{Side};
ghost use Rattle.line_laws.specs.End.{file_of};
ghost use Rattle.line_laws.specs.Line.{Line, Move, Rules, after, node, right_rules};
ghost use Rattle.line_laws.specs.Run.{begins, run};
ghost use Rattle.line_laws.specs.Promise.{HasToken, Holds, IsClear, IsLocked, TellsClear, Throughout, WasClear};
ghost use Rattle.line_laws.specs.Invariant.{IsLineSound, OneToken};

/// At most one end has the token, counting one on the way that may still be taken.
pub fn at_most_one_token()
    ensures ends { (first_busy second_busy : Bool) (moves : List Move) → let line = run right_rules moves (begins first_busy second_busy)
        in HasToken line.first → HasToken line.second → ⊥ }
    ensures on_the_way { (first_busy second_busy : Bool) (moves : List Move) → let line = run right_rules moves (begins first_busy second_busy)
        in OneToken line.first line.second }
{}

/// The two locks never lie at the right at once.
pub fn both_locks_are_never_right()
    ensures { (first_busy second_busy : Bool) (moves : List Move) → let line = run right_rules moves (begins first_busy second_busy)
        in IsLocked line.first → IsLocked line.second → ⊥ }
{}

/// A lock lies at the right only where the token is.
pub fn locked_end_has_the_token()
    ensures { (side : Side) (first_busy second_busy : Bool) (moves : List Move) → let line = run right_rules moves (begins first_busy second_busy)
        in IsLocked (node side line) → HasToken (node side line) }
{}

/// What is on disk is the token and the lock of its end, whenever the end is between two steps.
pub fn files_are_kept()
    ensures { (side : Side) (first_busy second_busy : Bool) (moves : List Move) → let line = run right_rules moves (begins first_busy second_busy)
        in (node side line).file ≡ file_of (node side line).end }
{}

/// Clear was clear: while an end tells its station that the line is clear, there was a moment at which no contact of
/// either end was occupied, and since that moment this end has had the token and no contact of its own was occupied.
pub fn clear_was_clear()
    ensures { (side : Side) (first_busy second_busy : Bool) (moves : List Move) → let start = begins first_busy second_busy
        in TellsClear (node side (run right_rules moves start)) → WasClear right_rules side start moves }
{}

/// A line that begins has the invariant, and every move keeps it. What an end knows of the line, it goes on to know,
/// or the line is clear now.
pub fn invariant_is_kept()
    ensures begins { (first second first_busy second_busy : Bool) → IsLineSound (IsTrue first) (IsTrue second) (begins first_busy second_busy) }
    ensures each { (first second : Bool) (line : Line) (move : Move) → let next = after right_rules move line
        in IsLineSound (IsTrue first) (IsTrue second) line → IsLineSound (IsTrue first ⊎ IsClear next) (IsTrue second ⊎ IsClear next) next }
    ensures run { (first_busy second_busy : Bool) (moves : List Move) → let start = begins first_busy second_busy
        in IsLineSound (WasClear right_rules Side.First start moves) (WasClear right_rules Side.Second start moves) (run right_rules moves start) }
{}

/// Lists of moves follow one another, and what an end knew it goes on to know through moves throughout which it holds the
/// token with its own part free.
pub fn moves_follow_one_another()
    ensures run { (rules : Rules) (moves more : List Move) (line : Line) → run rules (moves ++ more) line ≡ run rules more (run rules moves line) }
    ensures known { (rules : Rules) (side : Side) (start : Line) (moves more : List Move) → WasClear rules side start moves
        → Throughout rules (Holds side) more (run rules moves start) → WasClear rules side start (moves ++ more) }
{}
