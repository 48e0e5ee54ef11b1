//! What is promised of a file that is kept.

ghost use Rattle.std.specs.Prelude.{◌≡◌, ℕ, Bool, List, Option};
ghost use Rattle.whole_file.specs.declared.call.Call.{Call};
ghost use Rattle.whole_file.specs.Calls.{keep_calls};
ghost use Rattle.whole_file.specs.Disk.{DiskFile, bytes_of};
ghost use Rattle.whole_file.specs.Keeping.{AreQuiet, Goes, IsOnDisk, IsOneOf, Kept, Move, Replaced, after, begins, calls_of, keep_moves, run};

/// Where a keep answers Ok, the file has its bytes on disk from that moment until the next keep begins, also after any
/// cut of the power.
pub fn what_leaves_is_on_disk()
    ensures { (fresh : Option DiskFile) (file : Option (List ℕ)) (moves later : List Move) (bytes : List ℕ)
        → let kept = run moves (begins fresh file) in kept.progress ≡ Replaced bytes → AreQuiet later
        → IsOnDisk bytes (run later (after Goes kept)).disk }
{}

/// What is found at any moment, also after any cut of the power, is the bytes of the last keep that answered Ok, or of
/// one begun after it.
pub fn what_is_found_was_kept()
    ensures { (fresh : Option DiskFile) (file : Option (List ℕ)) (moves : List Move)
        → let kept = run moves (begins fresh file) in IsOneOf (bytes_of kept.disk.own) kept.candidates }
{}

/// The calls of a keep are those of these moves, whatever was kept before.
pub fn keep_makes_these_moves()
    ensures { (bytes : List ℕ) (left : Option DiskFile) (happened : Bool) (failing : Option Call) (kept : Kept)
        → calls_of (keep_moves bytes left happened failing) kept ≡ keep_calls bytes failing }
{}
