//! Laws over every step of a client.

ghost use Rattle.std.specs.Prelude.{◌≡◌, ℕ, true, List, [], ◌∷◌, ◌++◌, Err};
ghost use Rattle.sci_telegram.specs.TelegramRead.{reading};
ghost use Rattle.rasta_core.specs.Calls.{answer_to_send};
ghost use Rattle.rasta_core.specs.State.{is_client};
ghost use Rattle.rasta_core.specs.fault.SendFault.TheVariants.{WindowFull};
ghost use Rattle.ixl_client.specs.Client.{ClientState};
ghost use Rattle.ixl_client.specs.ClientSoFar.{ClientSoFar};
ghost use Rattle.ixl_client.specs.Step.{acting, clocked, commanding, hearing, ticking};
ghost use Rattle.ixl_client.specs.declared.command.Command.{Command};
ghost use Rattle.ixl_client.specs.LinkClosed.{ClosesForWindow, Fate, SendsAlone, telegram_of};
ghost use Rattle.ixl_client.specs.ExpectedTelegrams.{IsExpected};
ghost use Rattle.ixl_client.specs.LinkOpened.{AsksWhereDown, IsNotDown};
ghost use Rattle.ixl_client.specs.ItemsSaid.{SaysCommand, SaysInOrder, SaysNothing, KeepsWhatWasSaid};

/// A telegram that the window of the link refuses closes the link with reason 5, and the client is outside. No other send
/// closes it.
#[tactic(auto, using(crate::proofs::LinkClosed::command_closes, crate::proofs::LinkClosed::command_sends))]
pub fn refusals_by_the_window_close_the_link()
    ensures refused { (now : ℕ) (command : Command) (part : ClientSoFar) → answer_to_send now part.client.link ≡ Err WindowFull → ClosesForWindow (telegram_of command part) part (commanding now command part) }
    ensures sent { (now : ℕ) (command : Command) (part : ClientSoFar) → (answer_to_send now part.client.link ≡ Err WindowFull → ⊥) → SendsAlone (telegram_of command part) part (commanding now command part) }
{}

/// After a tick the link isn't down: one that was down asks for a connection. It is the same client's.
#[tactic(auto, using(crate::proofs::LinkOpened::none_down, crate::proofs::LinkOpened::down_asks, crate::proofs::LinkOpened::tick_keeps))]
pub fn ticks_open_links_that_are_down()
    ensures opened { (now : ℕ) (part : ClientSoFar) → is_client part.client.link.identity.role ≡ true → IsNotDown now (ticking now part).client.link }
    ensures asked { (now : ℕ) (part : ClientSoFar) → is_client part.client.link.identity.role ≡ true → AsksWhereDown now part (ticking now part) }
    ensures same { (now : ℕ) (part : ClientSoFar) → (ticking now part).client.link.identity ≡ part.client.link.identity }
{}

/// The telegrams of the initialisation go out in their order: the version check where the connection comes up, the request
/// for the initialisation where the answer agrees, and no other; and so it stands with what was sent in the connection.
#[tactic(auto, using(crate::proofs::ItemsSaid::hearing_says, crate::proofs::ItemsSaid::commanding_says, crate::proofs::ItemsSaid::ticking_says, crate::proofs::ItemsSaid::clock_keeps))]
pub fn initialisations_go_out_in_order()
    ensures receipt { (now : ℕ) (bytes : List ℕ) (part : ClientSoFar) → SaysInOrder part (hearing now bytes part) }
    ensures command { (now : ℕ) (command : Command) (part : ClientSoFar) → SaysCommand (telegram_of command part) part (commanding now command part) }
    ensures tick { (now : ℕ) (part : ClientSoFar) → SaysNothing part (ticking now part) }
    ensures clock { (now : ℕ) (client : ClientState) → KeepsWhatWasSaid client (clocked now client) }
{}

/// Each item that comes is acted on or closes the link: an answer to the version check that tells another version with
/// reason 4, and what comes out of the order of the initialisation with reason 1. What stands after it in the datagram is
/// dropped. What is acted on is what the stage of the connection expects.
#[tactic(auto, using(crate::proofs::Deviation::items_have_fates, crate::proofs::Deviation::expected_alone))]
pub fn deviations_close_the_link()
    ensures fate { (now : ℕ) (item : List ℕ) (part : ClientSoFar) → Fate now item part (acting now item part) }
    ensures expected { (now : ℕ) (item : List ℕ) (part : ClientSoFar) → (acting now item part).acted ≡ part.acted ++ item ∷ [] → IsExpected part.client.peer part.client.stage (reading item) }
{}
