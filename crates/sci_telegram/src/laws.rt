//! What holds of reading and writing as functions of values, for the models of crates above.

ghost use Rattle.std.specs.Prelude.{◌≡◌, ◌≤◌, ℕ, List, length, Ok, Err};
ghost use Rattle.rasta_pdu.specs.Items.{IsItem};
ghost use Rattle.rasta_pdu.specs.Values.{IsBytes};
ghost use Rattle.sci_telegram.specs.Faults.{IsFault};
ghost use Rattle.sci_telegram.specs.TelegramRead.{reading};
ghost use Rattle.sci_telegram.specs.Telegrams.{IsTelegram, Spells, writing};
ghost use Rattle.sci_telegram.specs.declared.fault.SciFault.{SciFault};
ghost use Rattle.sci_telegram.specs.declared.telegram.Telegram.{Telegram};

/// No bytes spell two telegrams, and no telegram has two spellings.
pub fn one_spelling_each()
    ensures values { (t u : Telegram) (bytes : List ℕ) → Spells t bytes → Spells u bytes → t ≡ u }
    ensures spellings { (t : Telegram) (bytes others : List ℕ) → Spells t bytes → Spells t others → bytes ≡ others }
{}

/// What is written is an item of 43 bytes and more, and is read as the same telegram again.
pub fn written_is_read()
    ensures item { (t : Telegram) → IsTelegram t → IsItem (writing t) }
    ensures least { (t : Telegram) → IsTelegram t → 43 ≤ length (writing t) }
    ensures read { (t : Telegram) → IsTelegram t → reading (writing t) ≡ Ok t }
{}

/// What is read was written so.
pub fn read_was_written()
    ensures { (bytes : List ℕ) (t : Telegram) → IsBytes bytes → reading bytes ≡ Ok t
        → IsTelegram t × (bytes ≡ writing t) }
{}

/// Reading answers a fault exactly where its test is the first that fails.
pub fn first_fault_is_read()
    ensures means { (bytes : List ℕ) (fault : SciFault) → reading bytes ≡ Err fault → IsFault bytes fault }
    ensures told { (bytes : List ℕ) (fault : SciFault) → IsFault bytes fault → reading bytes ≡ Err fault }
{}
