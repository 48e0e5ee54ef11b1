//! What is promised of the file of closings.

ghost use Rattle.std.specs.Prelude.{◌≡◌, ◌⊎◌, ◌++◌, ℕ, Bool, IsTrue, List, Option, true};
ghost use Rattle.closings_file.specs.declared.found.Found.{Found};
ghost use Rattle.closings_file.specs.Files.{found_in};
ghost use Rattle.node_kinds.specs.Kept.{kept_last};
ghost use Rattle.node_kinds.specs.node_drive.Calls.{Call};
ghost use Rattle.node_kinds.specs.node_drive.declared.outside.ToKeep.{ToKeep};
ghost use Rattle.node_kinds.specs.simulator_spec.layout.Entries.{Site};
ghost use Rattle.node_kinds.specs.simulator_spec.layout.Once.{Once};
ghost use Rattle.node_kinds.specs.simulator_spec.layout.Station.{IsStation};
ghost use Rattle.node_kinds.specs.simulator_spec.ixl_spec.closings.declared.thing.Thing.{Thing};
ghost use Rattle.node_kinds.specs.simulator_spec.ixl_spec.closings.Closed.{IsClosed, closed_things, is_closed};
ghost use Rattle.node_kinds.specs.simulator_spec.ixl_spec.closings.Things.{HasThing};
ghost use Rattle.station_node.specs.Closings.{AreAnswered, IsCounted, IsFound, IsOneLife, Moment, Outcome, after_all, begun, calls_in, calls_of_keep, is_kept_last, moves_of_keep, surely, surely_counted};
ghost use Rattle.station_node.specs.Takeover.{AreHeardSo, brought_by, taken_over, told_to_close};
ghost use Rattle.whole_file.specs.Disk.{DiskFile};
ghost use Rattle.whole_file.specs.Keeping.{Kept, begins, calls_of};

use closings_file::written_is_read;
use node_kinds::node_drive::node_lines::closings::what_either_closes_is_closed;
use whole_file::{keep_makes_these_moves, what_is_found_was_kept};

/// At every call of the processes of an interlocking, however each keep goes on the disk, wherever a process ends, also within a keep,
/// and whenever the power is cut: what surely is closed by the calls so far is closed in a process that begins then. What surely is
/// closed at first is what the file says that is there.
pub fn what_surely_is_closed_is_found()
    ensures { (l : Site) (head : List ℕ) (fresh : Option DiskFile) (bytes : Option (List ℕ)) (readable : Bool) (moments : List Moment) (t : Thing)
        → Once l → IsStation l → HasThing l t → let first = begun l head readable (begins fresh bytes) in AreAnswered l head moments first
        → IsTrue (surely l head moments first (is_closed (found_in l head bytes).closings) t) → IsFound l head (after_all l head moments first).file.disk t }
{
    written_is_read();
    what_is_found_was_kept();
}

/// A process that begins then counts on from as many auxiliary commands as surely are counted by the calls so far, or from more. At first
/// that is what the file says that is there.
pub fn what_surely_was_counted_is_found()
    ensures { (l : Site) (head : List ℕ) (fresh : Option DiskFile) (bytes : Option (List ℕ)) (readable : Bool) (moments : List Moment)
        → Once l → IsStation l → let first = begun l head readable (begins fresh bytes) in AreAnswered l head moments first
        → IsCounted l head (after_all l head moments first).file.disk (surely_counted l head moments first (found_in l head bytes).counts) }
{
    written_is_read();
    what_is_found_was_kept();
}

/// What a process was asked to keep last, and answered that it is kept, is closed in a process that begins then; so is what it was to
/// have at first, where that surely was closed. By `node_kinds` that is what its interlocking closes.
pub fn what_was_kept_last_is_found()
    ensures { (l : Site) (head : List ℕ) (fresh : Option DiskFile) (bytes : Option (List ℕ)) (readable : Bool) (earlier life : List Moment) (before : ToKeep) (t : Thing)
        → Once l → IsStation l → HasThing l t → let first = begun l head readable (begins fresh bytes) in AreAnswered l head (earlier ++ life) first → IsOneLife life
        → (IsClosed before.closings t → IsTrue (surely l head earlier first (is_closed (found_in l head bytes).closings) t))
        → let calls = calls_in life in IsTrue (is_kept_last true calls) → IsClosed (kept_last before calls).closings t
        → IsFound l head (after_all l head (earlier ++ life) first).file.disk t }
{
    what_surely_is_closed_is_found();
    what_either_closes_is_closed();
}

/// The calls that a process makes for a keep are those of the moves by which its file goes on.
pub fn a_keep_makes_these_calls()
    ensures { (text : List ℕ) (outcome : Outcome) (known : Option (List ℕ)) (kept : Kept) → calls_of (moves_of_keep text outcome known) kept ≡ calls_of_keep text outcome known }
{
    keep_makes_these_moves();
}

/// A node is told to close each thing that its process found, in their order, and nothing else comes to it before: what comes to it is
/// these lines up to some one, or these lines and then anything.
pub fn what_is_found_is_told_first()
    ensures { (l : Site) (found : Found) (calls : List Call) → AreHeardSo l calls (taken_over l found)
        → let told = told_to_close l (closed_things l found.closings)
        in (more : List Call) × ((told ≡ brought_by calls ++ more) ⊎ (brought_by calls ≡ told ++ more)) }
{}
