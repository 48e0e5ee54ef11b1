//! What holds of every step of a client.

ghost use Rattle.std.specs.Prelude.{◌≡◌, ℕ, List};
ghost use Rattle.ixl_client.specs.Made.{ActsOn, MakesAfterReceipt, MakesOwn};
ghost use Rattle.ixl_client.specs.Client.{ClientState};
ghost use Rattle.ixl_client.specs.ClientSoFar.{ClientSoFar};
ghost use Rattle.ixl_client.specs.Step.{clocked, commanding, hearing, ticking};
ghost use Rattle.ixl_client.specs.declared.command.Command.{Command};

/// A step is a list of calls of the link at its clock: they are all that it does to the link and hands out. A datagram
/// is received first; all other calls are the client's own.
#[tactic(auto, using(crate::proofs::Made::hearing_made, crate::proofs::Made::commanding_own, crate::proofs::Made::ticking_own))]
pub fn step_is_calls()
    ensures receipt { (now : ℕ) (bytes : List ℕ) (part : ClientSoFar) → MakesAfterReceipt now bytes part (hearing now bytes part) }
    ensures command { (now : ℕ) (command : Command) (part : ClientSoFar) → MakesOwn now part (commanding now command part) }
    ensures tick { (now : ℕ) (part : ClientSoFar) → MakesOwn now part (ticking now part) }
{}

/// The items that a client acts on are a beginning of those that the datagram brought, and all of them where the link
/// stays open. What it hears is what they tell, each once and in order.
#[tactic(auto, using(crate::proofs::Acts::hearing_acts))]
pub fn step_hears_what_was_taken()
    ensures { (now : ℕ) (bytes : List ℕ) (part : ClientSoFar) → ActsOn now bytes part (hearing now bytes part) }
{}

/// A client speaks with one controller for good.
#[tactic(auto, using(crate::proofs::Partner::clocked_peer, crate::proofs::Partner::hearing_peer, crate::proofs::Partner::commanding_peer, crate::proofs::Partner::ticking_peer))]
pub fn step_keeps_the_peer()
    ensures clock { (now : ℕ) (client : ClientState) → (clocked now client).peer ≡ client.peer }
    ensures receipt { (now : ℕ) (bytes : List ℕ) (part : ClientSoFar) → (hearing now bytes part).client.peer ≡ part.client.peer }
    ensures command { (now : ℕ) (command : Command) (part : ClientSoFar) → (commanding now command part).client.peer ≡ part.client.peer }
    ensures tick { (now : ℕ) (part : ClientSoFar) → (ticking now part).client.peer ≡ part.client.peer }
{}
