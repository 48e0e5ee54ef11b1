//! Why a request is refused.

ghost use Rattle.std.specs.Prelude.{◌≡◌};
ghost use Rattle.panel_desk.specs.Asked.{refusal_text, status};

use node_lines::Fault;

/// Why a request is refused, in the order in which the reasons are looked for: the first one is told.
#[derive(Clone, Copy, PartialEq, Eq)]
pub enum Refusal {
    /// It was sent to another host than this panel: a page of another host may stand after it.
    ForeignHost,
    /// Nothing is there.
    NoSuchTarget,
    /// The target is asked with another method.
    WrongMethod,
    /// What stands after `after` is no number below 2^64.
    NoNumber,
    /// A command came from another page than the panel's.
    ForeignOrigin,
    /// A command came without the token that the page was given.
    NoToken,
    /// A command has more than 512 bytes.
    TooLong,
    /// A command isn't UTF-8.
    NoText,
    /// The words of a command say none: the lowest fault of its line.
    Line(Fault),
}

impl Refusal {
    /// The status with which it is told.
    pub fn status(self) -> u16
        ensures { result ≡ status self }
    {
        match self {
            Refusal::ForeignHost => 403,
            Refusal::NoSuchTarget => 404,
            Refusal::WrongMethod => 405,
            Refusal::NoNumber => 400,
            Refusal::ForeignOrigin => 403,
            Refusal::NoToken => 403,
            Refusal::TooLong => 413,
            Refusal::NoText => 400,
            Refusal::Line(_) => 400,
        }
    }

    /// What is told of it.
    pub fn text(self) -> &'static str
        ensures { result.now ≡ refusal_text self }
    {
        match self {
            Refusal::ForeignHost => "this panel isn't at that address",
            Refusal::NoSuchTarget => "nothing is there",
            Refusal::WrongMethod => "not with this method",
            Refusal::NoNumber => "the state after which number?",
            Refusal::ForeignOrigin => "commands come from the panel's own page alone",
            Refusal::NoToken => "the panel was started anew: load the page again",
            Refusal::TooLong => "a command has at most 512 bytes",
            Refusal::NoText => "a command is text",
            Refusal::Line(_) => "there is no such command",
        }
    }
}
