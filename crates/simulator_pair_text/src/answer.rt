//! What is written as the answer to an event line.

ghost use Rattle.std.specs.Prelude.{Some};

use simulator_pair::{PairAnswer, PairReply, Refused};
use std::fmt;

/// The answer to an event line.
#[derive(Clone, Copy, Debug)]
pub(crate) enum Answer {
    /// `ok`: the event was applied, or the flow went to its end.
    Done,
    /// `accepted`: the item was given.
    Accepted,
    /// `refused N`: the link didn't take the item.
    Refused(u8),
    /// `no N`: the event can't happen.
    No(u8),
}

impl Answer {
    ghost use Rattle.std.specs.Prelude.{◌≡◌};
    ghost use Rattle.simulator_pair_text.specs.Answers.{answer_to, told};

    /// The answer to an event.
    pub(crate) fn to_event(reply: Result<PairReply, Refused>) -> Answer
        ensures { result ≡ answer_to reply }
    {
        match reply {
            Ok(reply) => Answer::told(reply.answer),
            Err(refused) => Answer::No(refused.number()),
        }
    }

    /// The answer to an event that happened.
    fn told(answer: PairAnswer) -> Answer
        ensures { result ≡ told answer }
    {
        match answer {
            PairAnswer::Done => Answer::Done,
            PairAnswer::Given(Ok(())) => Answer::Accepted,
            PairAnswer::Given(Err(fault)) => Answer::Refused(fault as u8),
        }
    }
}

impl fmt::Display for Answer {
    ghost use Rattle.simulator_pair_text.specs.Answers.{answer_text};

    ghost output = { λ answer. Some (answer_text answer) };

    fn fmt<W: fmt::Write>(&self, f: &mut fmt::Formatter<W>) -> fmt::Result {
        match self {
            Answer::Done => write!(f, "ok"),
            Answer::Accepted => write!(f, "accepted"),
            Answer::Refused(number) => write!(f, "refused {number}"),
            Answer::No(number) => write!(f, "no {number}"),
        }
    }
}
