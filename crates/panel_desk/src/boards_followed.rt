//! What a page sees that asks again and again.

ghost use Rattle.std.specs.Prelude.{◌≡◌, ◌<◌, List, ℕ};
ghost use Rattle.panel_desk.specs.Lines.{BoardView, noted_at, numbered, told};
ghost use Rattle.panel_desk.specs.Pages.{Follows, patched, texts};

/// A page that showed what a board showed, and then puts in each line that was told since, shows what the board shows now.
pub fn a_page_shows_what_is_told()
    ensures { (old new : BoardView) → Follows old new → patched old.number (texts old.shown) new.shown ≡ texts new.shown }
{}

/// A board that is counted on, and then shown and noted on, follows what it was.
pub fn boards_follow()
    ensures same { (board : BoardView) → Follows board board }
    ensures counted { (old new : BoardView) → Follows old new → Follows old (numbered new) }
    ensures shown { (old new : BoardView) (place : ℕ) (line : List ℕ) → Follows old new → old.number < new.number → Follows old (told place line new) }
    ensures noted { (old new : BoardView) (line : List ℕ) → Follows old new → Follows old (noted_at line new) }
{}
