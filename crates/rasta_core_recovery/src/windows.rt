//! How few items of an end wait: what its partner takes and says confirms them.

ghost use Rattle.std.specs.Prelude.{ℕ, ◌+◌};
ghost use Rattle.rasta_core_spec.specs.Events.{Event, May, Start, happened, started};
ghost use Rattle.rasta_core_spec.specs.Names.{AreNames, Names};
ghost use Rattle.rasta_core_spec.specs.Run.{Ends};
ghost use Rattle.rasta_core.specs.Invariant.{Timely};
ghost use Rattle.rasta_core.specs.Ordered.{Ordered};
ghost use Rattle.rasta_core_recovery.specs.Confirming.{Answers, AreIn, Confirming, FewLeft, FewWait, HasLeft, Owes};
ghost use Rattle.rasta_core_recovery.specs.ServerConfirming.{AwaitsAnswers, ClientHasLeft, ClientOwes, FewOfServerLeft, FewOfServerWait, ServerConfirming};

use crate::below::laws_below;

/// What an end takes confirms what its partner had taken when it gave that. So where a server never gives more items in its connection
/// than it has taken and so many to spare, the items that wait of its client are no more than those that this has given beyond what it has
/// taken, and as many to spare, while both are in the connection (*few*). It is so at the beginning (*starts*), and every event keeps
/// it (*kept*), where the server keeps to that after the event. Where the server leaves and the client stays, all that the server gave
/// may still be taken: so what it gave and the client hadn't taken then, and as many to spare, bounds what waits from then on (*left*).
pub fn what_is_taken_confirms()
    ensures starts { (names : Names) (start : Start) (spare : ℕ) → Confirming names spare (started names start) }
    ensures kept { (names : Names) (event : Event) (ends : Ends) (spare : ℕ) → AreNames names → Timely names ends → Ordered names ends → May names event ends → Confirming names spare ends
        → (AreIn (happened event ends) → Answers spare (happened event ends)) → Confirming names spare (happened event ends) }
    ensures few { (names : Names) (ends : Ends) (spare : ℕ) → Confirming names spare ends → AreIn ends → FewWait spare ends }
    ensures left { (names : Names) (event : Event) (ends : Ends) (spare owed : ℕ) → AreNames names → Timely names ends → Ordered names ends → May names event ends → Confirming names spare ends → FewLeft (spare + owed) ends
        → (AreIn ends → HasLeft (happened event ends) → Owes owed (happened event ends)) → FewLeft (spare + owed) (happened event ends) }
{
    laws_below();
}

/// What a server takes confirms what its client had taken when it gave that, too. So where a client never gives more items in its
/// connection than it has taken and so many to spare, the items that wait of its server are no more than those that this has given beyond
/// what it has taken, and as many to spare, while both are in the connection (*few*): at the beginning (*starts*), and after every event
/// after which the client keeps to that (*kept*). Where the client leaves and the server stays, what the client gave and the server hadn't
/// taken then, and as many to spare, bounds what waits from then on (*left*); and at every moment, also where the server has left (*ever*).
pub fn what_a_server_takes_confirms()
    ensures starts { (names : Names) (start : Start) (spare : ℕ) → ServerConfirming names spare (started names start) }
    ensures kept { (names : Names) (event : Event) (ends : Ends) (spare : ℕ) → AreNames names → Timely names ends → Ordered names ends → May names event ends → ServerConfirming names spare ends
        → (AreIn (happened event ends) → AwaitsAnswers spare (happened event ends)) → ServerConfirming names spare (happened event ends) }
    ensures few { (names : Names) (ends : Ends) (spare : ℕ) → ServerConfirming names spare ends → AreIn ends → FewOfServerWait spare ends }
    ensures left { (names : Names) (event : Event) (ends : Ends) (spare owed : ℕ) → AreNames names → Timely names ends → Ordered names ends → May names event ends → ServerConfirming names spare ends
        → FewOfServerLeft (spare + owed) ends → (AreIn ends → ClientHasLeft (happened event ends) → ClientOwes owed (happened event ends)) → FewOfServerLeft (spare + owed) (happened event ends) }
    ensures ever { (names : Names) (event : Event) (ends : Ends) (spare owed : ℕ) → AreNames names → Timely names ends → Ordered names ends → May names event ends → ServerConfirming names spare ends
        → FewOfServerLeft (spare + owed) ends → FewOfServerWait (spare + owed) ends
        → (AreIn (happened event ends) → AwaitsAnswers spare (happened event ends)) → (AreIn ends → ClientHasLeft (happened event ends) → ClientOwes owed (happened event ends))
        → FewOfServerWait (spare + owed) (happened event ends) }
{
    laws_below();
}
