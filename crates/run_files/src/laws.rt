//! What is promised of parts.

ghost use Rattle.std.specs.Prelude.{◌≡◌, ℕ, List, Some, true};
ghost use Rattle.run_files.specs.Parts.{AllAre, IsLongerByItsLastLine, ends_line, nothing, parts_of, written};
ghost use Rattle.run_files.specs.Reads.{read_again};

/// The parts of a text are read again as this text, whatever their size.
pub fn parts_are_read_again()
    ensures { (size : ℕ) (text : List ℕ) → read_again (parts_of size text) ≡ Some text }
{}

/// Each part but the last ends with a line.
pub fn all_but_the_last_end_with_a_line()
    ensures { (size : ℕ) (text : List ℕ) → AllAre (λ part. ends_line part ≡ true) (written size text nothing).closed }
{}

/// A part is longer than the size by its last line alone.
pub fn a_part_is_longer_by_its_last_line_alone()
    ensures { (size : ℕ) (text : List ℕ) → AllAre (IsLongerByItsLastLine size) (parts_of size text) }
{}
