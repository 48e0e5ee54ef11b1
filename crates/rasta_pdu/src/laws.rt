//! What holds of reading and writing as functions of values, for the models of crates above.

ghost use Rattle.std.specs.Prelude.{◌≡◌, ◌≤◌, ◌↔◌, ℕ, List, length, Ok, Err, IsTrue};
ghost use Rattle.rasta_pdu.specs.Faults.{IsFault};
ghost use Rattle.rasta_pdu.specs.Header.{sender_of};
ghost use Rattle.rasta_pdu.specs.PduRead.{reading};
ghost use Rattle.rasta_pdu.specs.SafetyCode.{IsIntact, intact};
ghost use Rattle.rasta_pdu.specs.Spelling.{Spells, writing};
ghost use Rattle.rasta_pdu.specs.Values.{IsBytes, IsPdu};
ghost use Rattle.rasta_pdu.specs.declared.fault.PduFault.{PduFault};
ghost use Rattle.rasta_pdu.specs.declared.key.Key.{Key};
ghost use Rattle.rasta_pdu.specs.declared.pdu.Pdu.{Pdu};

/// No bytes spell two PDUs, and no PDU has two spellings.
pub fn one_spelling_each()
    ensures values { (p q : Pdu) (bytes : List ℕ) → Spells p bytes → Spells q bytes → p ≡ q }
    ensures spellings { (p : Pdu) (bytes others : List ℕ) → Spells p bytes → Spells p others → bytes ≡ others }
{}

/// What is written under a key has 36 to 225 bytes, is intact, and is read as the same PDU again.
pub fn written_is_read()
    ensures least { (key : Key) (pdu : Pdu) → 36 ≤ length (writing key pdu) }
    ensures most { (key : Key) (pdu : Pdu) → IsPdu pdu → length (writing key pdu) ≤ 225 }
    ensures intact { (key : Key) (pdu : Pdu) → IsPdu pdu → IsIntact key (writing key pdu) }
    ensures read { (key : Key) (pdu : Pdu) → IsPdu pdu → reading key (writing key pdu) ≡ Ok pdu }
{}

/// What is read under a key is intact, and was written so.
pub fn read_was_written()
    ensures intact { (key : Key) (bytes : List ℕ) (pdu : Pdu) → reading key bytes ≡ Ok pdu → IsIntact key bytes }
    ensures written { (key : Key) (bytes : List ℕ) (pdu : Pdu) → IsBytes bytes → reading key bytes ≡ Ok pdu
        → IsPdu pdu × (bytes ≡ writing key pdu) }
{}

/// The fault that is told under a key is the one whose test is the first to fail.
pub fn the_first_fault_is_told()
    ensures { (key : Key) (bytes : List ℕ) (fault : PduFault) → IsBytes bytes
        → (reading key bytes ≡ Err fault) ↔ IsFault key bytes fault }
{}

/// What is read has the sender that its first bytes tell.
pub fn the_sender_is_told()
    ensures { (key : Key) (bytes : List ℕ) (pdu : Pdu) → reading key bytes ≡ Ok pdu → sender_of bytes ≡ pdu.sender }
{}

/// The test for intact bytes is true exactly of intact bytes.
pub fn intact_is_tested()
    ensures { (key : Key) (bytes : List ℕ) → IsTrue (intact key bytes) ↔ IsIntact key bytes }
{}
