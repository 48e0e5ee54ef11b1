//! What the words of telegrams say is these telegrams.

ghost use Rattle.std.specs.Prelude.{◌≡◌, ℕ, List, Some};
ghost use Rattle.ixl_spec.specs.sci_telegram.Telegrams.{IsTelegram};
ghost use Rattle.ixl_spec.specs.sci_telegram.declared.telegram.Telegram.{Telegram};
ghost use Rattle.station_decode.specs.ReadBack.{telegram_said};
ghost use Rattle.station_decode.specs.Telegrams.{telegram_text};

use replay_words::{a_number_is_read_again, joined_words_are_read_again};

/// The words of a telegram are read back as this telegram, whatever the PDU calls its ends. So two telegrams in PDUs
/// between the same ends have the same words only if they are one.
pub fn telegrams_are_read_back()
    ensures read { (sender receiver : List ℕ) (telegram : Telegram) → IsTelegram telegram → telegram_said sender receiver (telegram_text sender receiver telegram) ≡ Some telegram }
    ensures apart { (sender receiver : List ℕ) (one other : Telegram) → IsTelegram one → IsTelegram other → telegram_text sender receiver one ≡ telegram_text sender receiver other → one ≡ other }
{
    a_number_is_read_again();
    joined_words_are_read_again();
}
