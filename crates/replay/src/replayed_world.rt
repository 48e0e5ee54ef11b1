//! The replay of a session on a world.

ghost use Rattle.std.specs.Prelude.{◌≡◌, ◌↔◌, ℕ, IfOk};
ghost use Rattle.replay_lines.specs.declared.agreement.Replayed.TheVariants.{Differs, Same};
ghost use Rattle.replay.specs.World.{AnswersOtherwiseAt, AnswersSame, IsFirst, Played, played};

use replay_lines::{Entry, Replayed};
use simulator::{Checked, World};
use std::alloc::{AllocError, Global};

/// Applies a recorded session to the first world of a table, until an event answers otherwise than it was recorded. Only
/// want of memory is an error.
pub fn replay(alloc: Global, checked: Checked, entries: &[Entry]) -> Result<Replayed, AllocError>
    // Each recorded answer is that of `World::apply`, and there alone.
    ensures same { IfOk result (λ verdict. (first : Played) × IsFirst checked first × ((verdict ≡ Same) ↔ AnswersSame first entries.now)) }
    // The line of the first one that isn't, counted from 1, and there alone.
    ensures differs { IfOk result (λ verdict. (first : Played) × IsFirst checked first × ((line : ℕ) → (verdict ≡ Differs line) ↔ AnswersOtherwiseAt line first entries.now)) }
{
    let mut world = first_world(alloc, checked)?;
    replay_lines::replay(&mut world, entries)
}

/// The first world of a table.
pub fn first_world(alloc: Global, checked: Checked) -> Result<World, AllocError>
    ensures { IfOk result (λ world. IsFirst checked (played world)) }
{
    // Every checked layout is a station, in which no name stands twice.
    checked.layout();
    World::new(alloc, checked)
}
