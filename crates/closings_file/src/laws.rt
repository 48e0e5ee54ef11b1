//! What is promised of a file of closings.

ghost use Rattle.std.specs.Prelude.{◌≡◌, ◌≢◌, ◌<◌, ◌↔◌, ℕ, Bool, false, true, List, Option, Some, None, Err, IsTrue, length, take};
ghost use Rattle.closings.specs.layout.Entries.{Site};
ghost use Rattle.closings.specs.layout.Once.{Once};
ghost use Rattle.closings.specs.layout.Station.{IsStation};
ghost use Rattle.closings.specs.declared.thing.Thing.{Thing};
ghost use Rattle.closings.specs.declared.auxiliary.AuxiliaryCounts.{AuxiliaryCounts};
ghost use Rattle.closings.specs.declared.closed.Closings.{Closings};
ghost use Rattle.closings.specs.Things.{HasThing};
ghost use Rattle.closings.specs.Auxiliaries.{AreCounted, AreNumbers};
ghost use Rattle.closings.specs.Closed.{IsClosed};
ghost use Rattle.whole_file.specs.declared.call.Call.{Call};
ghost use Rattle.whole_file.specs.Calls.{keep_calls};
ghost use Rattle.whole_file.specs.Disk.{DiskFile, cut};
ghost use Rattle.closings_file.specs.declared.fault.FileFault.TheVariants.{CutOff, OtherLayout};
ghost use Rattle.closings_file.specs.Texts.{heading, reading, writing};
ghost use Rattle.closings_file.specs.Files.{found_in, is_known};
ghost use Rattle.closings_file.specs.Course.{Course, FindsClosed, FindsCounted, Move, NoneOpens, calls_of, is_idle, keep_moves, run, starts, wanted};

/// What is written of a layout is found again, with no fault.
pub fn written_is_read()
    ensures fault { (l : Site) (head : List ℕ) (counts : AuxiliaryCounts) (c : Closings) → Once l → IsStation l → AreNumbers counts
        → (found_in l head (Some (writing l head counts c))).fault ≡ None }
    ensures counts { (l : Site) (head : List ℕ) (counts : AuxiliaryCounts) (c : Closings) → Once l → IsStation l → AreNumbers counts
        → (found_in l head (Some (writing l head counts c))).counts ≡ counts }
    ensures things { (l : Site) (head : List ℕ) (counts : AuxiliaryCounts) (c : Closings) (t : Thing) → Once l → IsStation l → AreNumbers counts
        → IsClosed (found_in l head (Some (writing l head counts c))).closings t ↔ (HasThing l t × IsClosed c t) }
{
    replay_words::a_number_is_read_again();
    closings::words_are_read_again();
    closings::what_is_listed_is_there_and_closed();
    closings::a_command_changes_what_it_names_alone();
    closings::all_track_is_closed();
}

/// What was cut off is told to be so, wherever that was.
pub fn cut_off_is_told()
    ensures { (l : Site) (head : List ℕ) (counts : AuxiliaryCounts) (c : Closings) (count : ℕ) → Once l → IsStation l → AreNumbers counts
        → count < length (writing l head counts c) → reading l head (take count (writing l head counts c)) ≡ Err CutOff }
{
    replay_words::a_number_is_read_again();
    closings::words_are_read_again();
    closings::what_is_listed_is_there_and_closed();
    closings::a_command_changes_what_it_names_alone();
    closings::all_track_is_closed();
}

/// A text of a layout of another digest, of which all have one length, is told to be so.
pub fn no_text_is_of_two_layouts()
    ensures { (l far : Site) (digest other : List ℕ) (counts : AuxiliaryCounts) (c : Closings) → length digest ≡ length other → digest ≢ other
        → reading l (heading digest) (writing far (heading other) counts c) ≡ Err OtherLayout }
{}

/// Whatever happens: what was closed or locked when a keep answered Ok, and has been so since, is closed or locked; and
/// a process that finds the file at any moment closes it, also after a cut of the power.
pub fn what_is_kept_is_found()
    ensures wanted { (l : Site) (head : List ℕ) (fresh : Option DiskFile) (bytes : Option (List ℕ)) (moves : List Move) (t : Thing)
        → Once l → IsStation l → HasThing l t → let course = run l head moves (starts l head fresh bytes) in IsTrue (course.kept t) → IsClosed (wanted course) t }
    ensures now { (l : Site) (head : List ℕ) (fresh : Option DiskFile) (bytes : Option (List ℕ)) (moves : List Move) (t : Thing)
        → Once l → IsStation l → HasThing l t → let course = run l head moves (starts l head fresh bytes) in IsTrue (course.kept t) → FindsClosed l head course.file.disk t }
    ensures after_cut { (l : Site) (head : List ℕ) (fresh : Option DiskFile) (bytes : Option (List ℕ)) (moves : List Move) (t : Thing) (left : Option DiskFile) (any : List ℕ)
        → Once l → IsStation l → HasThing l t → let course = run l head moves (starts l head fresh bytes) in IsTrue (course.kept t) → FindsClosed l head (cut left any course.file.disk) t }
{
    written_is_read();
    whole_file::what_is_found_was_kept();
    closings::what_either_closes_is_closed();
}

/// Whatever happens: a process that finds the file at any moment counts on from as many auxiliary commands as were counted when the last
/// keep answered Ok, or from more, also after a cut of the power. Nor has one that runs counted fewer than these.
pub fn what_is_counted_is_found()
    ensures now { (l : Site) (head : List ℕ) (fresh : Option DiskFile) (bytes : Option (List ℕ)) (moves : List Move)
        → Once l → IsStation l → let course = run l head moves (starts l head fresh bytes) in FindsCounted l head course.file.disk course.counted }
    ensures after_cut { (l : Site) (head : List ℕ) (fresh : Option DiskFile) (bytes : Option (List ℕ)) (moves : List Move) (left : Option DiskFile) (any : List ℕ)
        → Once l → IsStation l → let course = run l head moves (starts l head fresh bytes) in FindsCounted l head (cut left any course.file.disk) course.counted }
    ensures counts { (l : Site) (head : List ℕ) (fresh : Option DiskFile) (bytes : Option (List ℕ)) (moves : List Move)
        → Once l → IsStation l → let course = run l head moves (starts l head fresh bytes) in AreCounted course.counted course.counts }
{
    written_is_read();
    whole_file::what_is_found_was_kept();
    closings::what_either_closes_is_closed();
}

/// What was closed when a keep answered Ok stays closed over all restarts until an `open` names it.
pub fn closed_until_it_is_opened()
    ensures { (l : Site) (head : List ℕ) (fresh : Option DiskFile) (bytes : Option (List ℕ)) (moves later : List Move) (t : Thing)
        → Once l → IsStation l → HasThing l t → let course = run l head moves (starts l head fresh bytes)
        in IsTrue (course.kept t) → IsClosed course.closed t → NoneOpens t later → IsClosed (run l head later course).closed t }
{
    written_is_read();
    whole_file::what_is_found_was_kept();
    closings::what_either_closes_is_closed();
    closings::a_command_changes_what_it_names_alone();
}

/// The calls of a keep are those of these moves; where it answers Ok, all that is closed or locked is kept then.
pub fn a_keep_makes_these_moves()
    ensures calls { (l : Site) (head : List ℕ) (left : Option DiskFile) (happened : Bool) (failing : Option Call) (course : Course)
        → IsTrue (is_idle course.file.progress) → is_known (writing l head course.counts (wanted course)) course.known ≡ false
        → calls_of l head (keep_moves left happened failing) course ≡ keep_calls (writing l head course.counts (wanted course)) failing }
    ensures kept { (l : Site) (head : List ℕ) (left : Option DiskFile) (happened : Bool) (course : Course) (t : Thing)
        → IsTrue (is_idle course.file.progress) → IsClosed (wanted course) t → IsTrue ((run l head (keep_moves left happened None) course).kept t) }
{}
