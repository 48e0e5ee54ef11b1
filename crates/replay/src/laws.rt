//! How the station of a file begins, and that whatever is seen of a world that is played is safe.

ghost use Rattle.std.specs.Prelude.{◌≡◌, ℕ, List, Ok, false};
ghost use Rattle.std.specs.List.{list_any};
ghost use Rattle.replay_lines.specs.Outset.{is_begun};
ghost use Rattle.replay_lines.specs.Text.{lines_said};
ghost use Rattle.replay_lines.specs.declared.line.SimLine.{SimLine as Said};
ghost use Rattle.simulator.specs.layout.Entries.{Site};
ghost use Rattle.simulator.specs.simulator_spec.First.{Outset, at_rest};
ghost use Rattle.replay.specs.Outset.{LiesAs, outset_of};
ghost use Rattle.replay.specs.World.{AllSafe, ComesFrom, IsAt, IsFirst, IsSafe, Played};

use replay_lines::begun_lines_stand_first;
use simulator::simulator_safety::reached_worlds_are_safe;

/// The station of a file lies as the lines of the file say when it is started (*said*). Where none of them says how a point
/// or a section begins, every point stands left and every section is clear (*rest*).
pub fn stations_lie_as_lines_say()
    ensures said { (site : Site) (events : List ℕ) (lines : List Said) → lines_said site events ≡ Ok lines → LiesAs site lines (outset_of site lines) }
    ensures rest { (site : Site) (lines : List Said) → list_any is_begun lines ≡ false → outset_of site lines ≡ at_rest site }
{
    begun_lines_stand_first();
}

/// Whatever is seen of a world is safe, if events lead to it from the first world of a checked layout (*first*), or from one
/// that lies otherwise when it is started (*at*).
pub fn worlds_are_safe()
    ensures first { (site : Site) (first now : Played) → IsFirst site first → ComesFrom first now → IsSafe now }
    ensures at { (site : Site) (outset : Outset) (first now : Played) → IsAt site outset first → ComesFrom first now → IsSafe now }
{
    reached_worlds_are_safe();
}

/// So it is with each world that the lines of a file, or a recorded session, lead to.
pub fn played_worlds_are_safe()
    ensures first { (site : Site) (first : Played) → IsFirst site first → AllSafe first }
    ensures at { (site : Site) (outset : Outset) (first : Played) → IsAt site outset first → AllSafe first }
{
    worlds_are_safe();
}
