//! What is asked where a line is to begin, and why it doesn't.

ghost use Rattle.std.specs.Prelude.{◌≡◌};
ghost use Rattle.line_begin.specs.Asked.{first_refusal, refusal_at, why_refused};

use crate::sight::There;
use crate::typed_words::is_confirmed;
use line_file::{Name, NotKept, Side};

/// How a line is to begin.
#[derive(Clone, Copy)]
pub enum Asked<'a> {
    /// It is new. This is seen at the places of the files of its first and of its second end.
    New(There, There),
    /// It begins again, whatever stands there, and this was typed.
    Again(&'a str),
}

/// Why a line doesn't begin, where nothing was written.
#[derive(Clone, Copy, Debug, PartialEq, Eq)]
pub enum Refusal {
    /// This end has a file already.
    There(Side),
    /// The system doesn't say whether this end has one.
    Unseen(Side),
    /// What was typed isn't what was asked for.
    Unconfirmed,
}

/// Why a line doesn't begin.
#[derive(Debug, Drop)]
pub enum NotBegun {
    /// It was refused, and nothing was written.
    Refused(Refusal),
    /// The file of this end couldn't be kept.
    NotKept(Side, NotKept),
}

/// Why an end at whose place this is seen can't begin.
fn refusal_at(side: Side, there: There) -> Option<Refusal>
    ensures { result ≡ refusal_at side there }
{
    match there {
        There::Nothing => None,
        There::File => Some(Refusal::There(side)),
        There::Unseen => Some(Refusal::Unseen(side)),
    }
}

/// The refusal of the first end, or else that of the second.
fn first_refusal(first: Option<Refusal>, second: Option<Refusal>) -> Option<Refusal>
    ensures { result ≡ first_refusal first second }
{
    match first {
        Some(why) => Some(why),
        None => second,
    }
}

/// Why a line of this name isn't begun, if it isn't.
pub(crate) fn why_refused(name: &Name, asked: Asked<'_>) -> Option<Refusal>
    ensures { result ≡ why_refused name.now asked.entry }
{
    match asked {
        Asked::New(first, second) => first_refusal(
            refusal_at(Side::First, first),
            refusal_at(Side::Second, second),
        ),
        Asked::Again(typed) => {
            if is_confirmed(name, typed) {
                None
            } else {
                Some(Refusal::Unconfirmed)
            }
        }
    }
}
