//! What is promised of the texts of ends' files.

ghost use Rattle.std.specs.Prelude.{◌≡◌, ◌≢◌, ◌<◌, ℕ, List, Err, Ok, length, take};
ghost use Rattle.sci_telegram.specs.Names.{IsName};
ghost use Rattle.line_laws.specs.declared.words.Side.{Side};
ghost use Rattle.line_laws.specs.End.{File};
ghost use Rattle.line_file.specs.declared.fault.FileFault.TheVariants.{CutOff, OtherEnd, OtherLine};
ghost use Rattle.line_file.specs.EndFiles.{reading, writing};

/// What is written is read as the same again.
pub fn written_is_read()
    ensures { (name : List ℕ) (side : Side) (kept : File) → reading name side (writing name side kept) ≡ Ok kept }
{}

/// What was cut off is told to be so, wherever that was.
pub fn cut_off_is_told()
    ensures { (name : List ℕ) (side : Side) (kept : File) (count : ℕ) → count < length (writing name side kept)
        → reading name side (take count (writing name side kept)) ≡ Err CutOff }
{}

/// A text of the line's other end, and one of another line, is told to be so.
pub fn no_text_is_of_two_ends()
    ensures end { (name : List ℕ) (side other : Side) (kept : File) → side ≢ other
        → reading name side (writing name other kept) ≡ Err OtherEnd }
    ensures line { (name other : List ℕ) (side far : Side) (kept : File) → IsName name → IsName other → name ≢ other
        → reading name side (writing other far kept) ≡ Err OtherLine }
{}
