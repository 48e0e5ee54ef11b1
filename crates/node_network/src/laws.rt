//! What lines are, whatever the pieces in which their bytes come.

ghost use Rattle.std.specs.Prelude.{◌≡◌, ◌++◌, ℕ, List};
ghost use Rattle.node_network.specs.Lines.{Waiting, cut, handed_on, left, lines};

/// The lines of bytes are one after another what is cut of them.
pub fn lines_come_one_by_one()
    ensures { (begun behind : List ℕ) → lines begun behind ≡ handed_on (cut begun behind) }
{}

/// They are the same in whatever pieces the bytes come.
pub fn lines_come_in_any_pieces()
    ensures lines { (begun first second : List ℕ) → lines begun (first ++ second) ≡ lines begun first ++ lines (left begun first) second }
    ensures left { (begun first second : List ℕ) → left begun (first ++ second) ≡ left (left begun first) second }
{}
