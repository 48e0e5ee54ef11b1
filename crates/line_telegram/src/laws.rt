//! No bytes say two things between two ends, and nothing is said between two versions.

ghost use Rattle.std.specs.Prelude.{◌≡◌, ◌≢◌, ◌⊎◌, ℕ, Bool, List, Some, true};
ghost use Rattle.rasta_pdu.specs.Items.{IsItem};
ghost use Rattle.sci_telegram.specs.Names.{IsName};
ghost use Rattle.line_telegram.specs.declared.message.LineMessage.{LineMessage};
ghost use Rattle.sci_telegram.specs.declared.message.Agreement.TheVariants.{Match, NoMatch};
ghost use Rattle.line_laws.specs.declared.words.Item.{Item};
ghost use Rattle.line_laws.specs.declared.words.Side.TheVariants.{First};
ghost use Rattle.line_telegram.specs.declared.message.LineMessage.TheVariants.{Line, VersionAnswer, VersionCheck};
ghost use Rattle.line_telegram.specs.declared.greeting.Heard.TheVariants.{Answered, Differed, Taken};
ghost use Rattle.line_telegram.specs.declared.greeting.Stage.TheVariants.{Agreed};
ghost use Rattle.line_telegram.specs.Greetings.{GreetingState, TellsVersion, first_waiting, greeted, hearing, new_greeting, second_told};
ghost use Rattle.line_telegram.specs.LineMessages.{IsLineMessage, reading, writing};

/// No bytes spell two messages.
pub fn one_spelling_each()
    ensures { (sender receiver : List ℕ) (one other : LineMessage) → IsName sender → IsName receiver → IsLineMessage one → IsLineMessage other
        → writing sender receiver one ≡ writing sender receiver other → one ≡ other }
{}

/// What is written is an item, and is read as the same message again.
pub fn written_is_read()
    ensures item { (sender receiver : List ℕ) (message : LineMessage) → IsName sender → IsName receiver → IsItem (writing sender receiver message) }
    ensures read { (sender receiver : List ℕ) (message : LineMessage) → IsName sender → IsName receiver → IsLineMessage message
        → reading sender receiver (writing sender receiver message) ≡ Some message }
{}

/// An item is taken only where the versions agreed, and they agree only where the partner told the own version.
pub fn items_come_after_agreement()
    ensures item { (message : LineMessage) (state : GreetingState) (item : Item) → (hearing message state).heard ≡ Taken item → (state.stage ≡ Agreed) × (message ≡ Line item) }
    ensures agreed { (message : LineMessage) (state : GreetingState) → (hearing message state).state.stage ≡ Agreed
        → (state.stage ≡ Agreed) ⊎ TellsVersion state.version message }
    ensures begins { (up : Bool) (state : GreetingState) → (greeted up state).state.stage ≡ Agreed → state.stage ≡ Agreed }
{}

/// Two ends of one version agree: the first tells its version, the second answers, and each takes items then. Where the
/// versions differ, the first closes the link for that.
pub fn ends_of_one_version_agree()
    ensures says { (version : ℕ) → (greeted true (new_greeting First version)).says ≡ Some (VersionCheck version) }
    ensures second { (version : ℕ) → (second_told version version).state.stage ≡ Agreed }
    ensures answer { (version : ℕ) → (second_told version version).heard ≡ Answered (VersionAnswer Match version) }
    ensures first { (version : ℕ) → (hearing (VersionAnswer Match version) (first_waiting version)).state.stage ≡ Agreed }
    ensures other { (own other : ℕ) → own ≢ other → (second_told own other).heard ≡ Answered (VersionAnswer NoMatch own) }
    ensures differs { (own other : ℕ) → (hearing (VersionAnswer NoMatch other) (first_waiting own)).heard ≡ Differed }
{}
