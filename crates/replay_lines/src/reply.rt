//! What is kept of the answer to an event.

ghost use Rattle.std.specs.Prelude.{◌≡◌};
ghost use Rattle.replay_lines.specs.Answers.{recorded};

use simulator_event::{Answer, Refused, Reply};

/// What a line tells of the answer to an event: all but how many datagrams were sent.
pub fn recorded(reply: Result<Reply, Refused>) -> Result<Answer, Refused>
    ensures { result ≡ recorded reply }
{
    match reply {
        Ok(reply) => Ok(reply.answer),
        Err(refused) => Err(refused),
    }
}
