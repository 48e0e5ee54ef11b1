//! What an interlocking tells is heard.

ghost use Rattle.std.specs.Prelude.{◌≡◌, ◌<◌, ◌^◌, ℕ, List, Ok, length, true};
ghost use Rattle.panel_desk.specs.node_lines.layout.Entries.{Site};
ghost use Rattle.panel_desk.specs.node_lines.layout.Once.{Once};
ghost use Rattle.panel_desk.specs.node_lines.layout.Station.{IsStation};
ghost use Rattle.panel_desk.specs.node_lines.replay_words.Cut.{words};
ghost use Rattle.panel_desk.specs.node_lines.replay_words.Words.{are_words};
ghost use Rattle.panel_desk.specs.node_lines.Known.{known_text};
ghost use Rattle.panel_desk.specs.node_lines.declared.operator_line.Known.{Known as Thing};
ghost use Rattle.node_panel.specs.Lines.{IsOf, closings_lost, closings_not_kept, told_said};
ghost use Rattle.panel_desk.specs.run_numbers.Lines.{number_text};
ghost use Rattle.panel_desk.specs.run_numbers.declared.row.Row.{Row as Number};
ghost use Rattle.node_panel.specs.declared.told.ClosingsTold.TheVariants.{Lost, NotKept};
ghost use Rattle.node_panel.specs.declared.told.Told.TheVariants.{Counts, Process, Tells};

use panel_desk::node_lines::closings::a_name_names_what_has_it;
use panel_desk::node_lines::replay_words::a_number_is_read_again;
use panel_desk::run_numbers::numbers_are_read_again;
use panel_desk::{joined_words_are_read_again, names_are_read_again, names_are_words};

/// What an interlocking writes of one thing is read as this.
pub fn lines_are_read_again()
    ensures { (site : Site) → Once site → IsStation site → (known : Thing) → IsOf site known → told_said site (words (known_text site known)) ≡ Ok (Tells known) }
{
    joined_words_are_read_again();
    names_are_read_again();
    names_are_words();
    a_name_names_what_has_it();
    a_number_is_read_again();
}

/// The line of a number is heard as this number of this row.
pub fn numbers_are_heard()
    ensures { (site : Site) (row : Number) (value : ℕ) → value < 2 ^ 64 → told_said site (words (number_text row value)) ≡ Ok (Counts row value) }
{
    numbers_are_read_again();
}

/// What the process of an interlocking writes of its file of closings is heard as this, whatever the cause of a loss is.
pub fn closings_of_the_process_are_heard()
    ensures lost { (site : Site) (cause : List (List ℕ)) → 0 < length cause → are_words cause ≡ true → told_said site (words (closings_lost cause)) ≡ Ok (Process Lost) }
    ensures not_kept { (site : Site) → told_said site (words closings_not_kept) ≡ Ok (Process NotKept) }
{
    joined_words_are_read_again();
}
