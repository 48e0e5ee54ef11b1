//! What holds of the table and of its lines.

ghost use Rattle.std.specs.Prelude.{◌≡◌, ◌<◌, ◌^◌, ℕ, Ok, Some, slice_get};
ghost use Rattle.replay_words.specs.Cut.{words};
ghost use Rattle.run_numbers.specs.Lines.{number_said, number_text, number_words, row_said};
ghost use Rattle.run_numbers.specs.Rows.{label_of, name_of, place_of, rows};
ghost use Rattle.run_numbers.specs.declared.row.Row.{Row as Number};

use replay_words::{a_number_is_read_again, joined_words_are_read_again};

/// The line of a number is read as this number of this row.
pub fn numbers_are_read_again()
    ensures read { (row : Number) (value : ℕ) → value < 2 ^ 64 → number_said (words (number_text row value)) ≡ Ok (row, value) }
    ensures words { (row : Number) (value : ℕ) → value < 2 ^ 64 → words (number_text row value) ≡ number_words row value }
{
    a_number_is_read_again();
    joined_words_are_read_again();
}

/// Each row stands in the table at its place.
#[tactic(auto, using(crate::proofs::Table::stands_there))]
pub fn rows_are_at_their_places()
    ensures { (row : Number) → slice_get rows (place_of row) ≡ Some row }
{}

/// No other row has the name and the label of a row.
#[tactic(auto, using(crate::proofs::Table::row_read))]
pub fn rows_have_words_of_their_own()
    ensures { (row : Number) → row_said (name_of row) (label_of row) ≡ Ok row }
{}
