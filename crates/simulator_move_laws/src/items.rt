//! What items say, joined and written.

ghost use Rattle.std.specs.Prelude.{◌≡◌, ℕ, List, [], ◌∷◌, ◌++◌};
ghost use Rattle.sci_telegram.specs.Telegrams.{IsTelegram, writing};
ghost use Rattle.sci_telegram.specs.declared.telegram.Telegram.{Telegram};
ghost use Rattle.simulator_move_laws.specs.Items.{aspects_in, aspects_of, moves_in, moves_of, reports_in, reports_of};

use sci_telegram::written_is_read;

/// What two lists of items say, one after the other, is what the one says and then the other.
pub fn items_join()
    ensures aspects { (first others : List (List ℕ)) → aspects_in (first ++ others) ≡ aspects_in first ++ aspects_in others }
    ensures moves { (first others : List (List ℕ)) → moves_in (first ++ others) ≡ moves_in first ++ moves_in others }
    ensures reports { (first others : List (List ℕ)) → reports_in (first ++ others) ≡ reports_in first ++ reports_in others }
{}

/// A telegram that was written is read as what its message says.
pub fn written_items_are_read()
    ensures aspects { (telegram : Telegram) → IsTelegram telegram → aspects_in (writing telegram ∷ []) ≡ aspects_of telegram.message }
    ensures moves { (telegram : Telegram) → IsTelegram telegram → moves_in (writing telegram ∷ []) ≡ moves_of telegram.message }
    ensures reports { (telegram : Telegram) → IsTelegram telegram → reports_in (writing telegram ∷ []) ≡ reports_of telegram.message }
{
    written_is_read();
}
