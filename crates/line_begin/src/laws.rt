//! What is promised of a line that begins, at every moment of it.

ghost use Rattle.std.specs.Prelude.{◌≡◌, ℕ, Bool, List, Option, false};
ghost use Rattle.sci_telegram.specs.Names.{IsName};
ghost use Rattle.line_laws.specs.declared.words.Side.{Side};
ghost use Rattle.line_laws.specs.declared.words.Side.TheVariants.{Second};
ghost use Rattle.whole_file.specs.Disk.{DiskFile};
ghost use Rattle.line_begin.specs.Course.{AtMostOne, Before, Done, Event, HasBoth, IsSecondKept, begin_events, begins, calls_of, found, has_token, run};
ghost use Rattle.line_begin.specs.Files.{Outcome, calls_at};
ghost use Rattle.line_begin.specs.Names.{end_file_name};

use line_file::written_is_read;
use whole_file::what_is_found_was_kept;

/// Where at most one of the two files had the token before, at most one has it at each moment: whichever call fails, and wherever the
/// process or the power is cut off.
pub fn no_second_token_comes()
    ensures { (name : List ℕ) (first second : Before) (events : List Event) → AtMostOne name first.file second.file
        → let course = run name events (begins name first second) in AtMostOne name (found course.first) (found course.second) }
{
    what_is_found_was_kept();
    written_is_read();
}

/// Once the file of the second end is kept it has no token, whatever stood there before and whatever comes. So from then on at most one
/// file has it, also where both had it before.
pub fn kept_second_file_has_no_token()
    ensures { (name : List ℕ) (first second : Before) (events later : List Event)
        → let course = run name events (begins name first second) in IsSecondKept course.stage
        → has_token name Second (found (run name later course).second) ≡ false }
{
    what_is_found_was_kept();
    written_is_read();
}

/// Where it is done, both files are found as they were written, also after any cut of the power.
pub fn begun_line_has_both_files()
    ensures { (name : List ℕ) (first second : Before) (events : List Event)
        → let course = run name events (begins name first second) in course.stage ≡ Done → HasBoth name course }
{
    what_is_found_was_kept();
}

/// The calls of `begin` are those of these events, whatever stood there before.
pub fn begin_makes_these_events()
    ensures { (name : List ℕ) (first second : Before) (side : Side) (left : Option DiskFile) (happened : Bool) (outcome : Outcome)
        → calls_of name side (begin_events left happened outcome) (begins name first second) ≡ calls_at name side outcome }
{}

/// No two ends of lines have files of one name, where they are those of one railway.
pub fn no_two_ends_have_one_file()
    ensures { (line station other_line other_station : List ℕ) → IsName line → IsName station → IsName other_line → IsName other_station
        → end_file_name line station ≡ end_file_name other_line other_station → (line ≡ other_line) × (station ≡ other_station) }
{}
