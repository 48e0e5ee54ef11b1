//! Who asks for a retransmission in a connection, and who answers: few asks and answers are under way at a time.

ghost use Rattle.std.specs.Prelude.{List};
ghost use Rattle.rasta_core_spec.specs.Each.{Each};
ghost use Rattle.rasta_core_spec.specs.Events.{Event, May, MayRun, Start, happened, run, started};
ghost use Rattle.rasta_core_spec.specs.Names.{AreNames, Names};
ghost use Rattle.rasta_core_spec.specs.Run.{Ends};
ghost use Rattle.rasta_core.specs.Invariant.{Timely};
ghost use Rattle.rasta_core.specs.Ordered.{Ordered};
ghost use Rattle.rasta_core_recovery.specs.Asks.{AnAnswerComes, BothWait, EndsAskInTurn, IsComing};
ghost use Rattle.rasta_core_recovery.specs.Confirming.{AreIn};
ghost use Rattle.rasta_core_recovery.specs.Rounds.{own_work};

use crate::below::laws_below;

/// Two ends ask in turn. While both are in a connection, a retransmission request that its receiver hasn't passed by its number, or an answer that
/// the end that asked hasn't passed, is there only while this end waits; and while it waits, just one of the two is there. After its last request it
/// has neither asked nor answered, and its partner has said a PDU after the one that it expects. Each answer confirms the request that it answers;
/// and of two answers, one of each end, one was said before the request that the other answers. It is so at the beginning (*starts*), every event
/// keeps it (*kept*), and so it is after every list of events (*always*).
pub fn ends_ask_in_turn()
    ensures starts { (names : Names) (start : Start) → EndsAskInTurn names (started names start) }
    ensures kept { (names : Names) (event : Event) (ends : Ends) → AreNames names → Timely names ends → Ordered names ends
        → May names event ends → EndsAskInTurn names ends → EndsAskInTurn names (happened event ends) }
    ensures always { (names : Names) (start : Start) (events : List Event) → AreNames names → MayRun names events (started names start)
        → EndsAskInTurn names (run events (started names start)) }
{
    laws_below();
}

/// Two ends don't both wait unanswered. Datagrams come to them, and after that they do their own work, and nothing else is done. Where both wait
/// then, and each took last a PDU that the other has said meanwhile, one of them was answered, and hasn't passed the answer yet. For by what comes an
/// end that has joined says requests for a retransmission and answers to them alone, and answers don't cross. The network may still lose the answer.
pub fn two_that_wait_are_answered()
    ensures { (names : Names) (start : Start) (events more : List Event) → AreNames names → MayRun names events (started names start) → Each IsComing more
        → MayRun names more (run events (started names start)) → AreIn (run own_work (run more (run events (started names start))))
        → BothWait (run events (started names start)) (run own_work (run more (run events (started names start))))
        → AnAnswerComes names (run own_work (run more (run events (started names start)))) }
{
    laws_below();
}
