//! The text of an answer.

ghost use Rattle.std.specs.Prelude.{◌≡◌, Some};
ghost use Rattle.std.specs.Option.{option_map};
ghost use Rattle.replay_lines.specs.Answers.{refusal_name, refusal_side};

use crate::{point_word, route_word, section_word};
use ixl_spec::{Layout, Named, Refusal, Side, side_word};
use simulator_event::{Answer, Refused};
use std::fmt;

/// The answer to an event of a station with this layout, as its line tells it.
#[derive(Clone, Copy)]
pub struct AnswerText<'a> {
    pub layout: &'a Layout,
    pub answer: Result<Answer, Refused>,
}

impl<'a> fmt::Display for AnswerText<'a> {
    ghost use Rattle.replay_lines.specs.Answers.{answer_text};

    ghost output = { λ text. Some (answer_text text.layout.now text.answer) };

    fn fmt<W: fmt::Write>(&self, f: &mut fmt::Formatter<W>) -> fmt::Result {
        match self.answer {
            Ok(Answer::Done) => write!(f, "ok"),
            Ok(Answer::Accepted) => write!(f, "accepted"),
            Ok(Answer::Refused(refusal)) => {
                let layout = self.layout;
                let refusal = RefusalText { layout, refusal };
                write!(f, "{refusal}")
            }
            Err(refused) => {
                let number = refused.number();
                write!(f, "no {number}")
            }
        }
    }
}

/// Why a command was refused, as the answer tells it.
#[derive(Clone, Copy)]
struct RefusalText<'a> {
    layout: &'a Layout,
    refusal: Refusal,
}

impl<'a> fmt::Display for RefusalText<'a> {
    ghost use Rattle.replay_lines.specs.Answers.{refusal_text};

    ghost output = { λ text. Some (refusal_text text.layout.now text.refusal) };

    fn fmt<W: fmt::Write>(&self, f: &mut fmt::Formatter<W>) -> fmt::Result {
        let number = self.refusal.number();
        let name = refusal_name(self.layout, self.refusal);
        match (name, refusal_side(self.refusal)) {
            (Some(name), Some(side)) => {
                let side = side_word(side);
                write!(f, "refused {number} {name} {side}")
            }
            (Some(name), None) => write!(f, "refused {number} {name}"),
            (None, _) => write!(f, "refused {number}"),
        }
    }
}

// The name of what a command was refused for, if it is told.
fn refusal_name(layout: &Layout, refusal: Refusal) -> Option<&str>
    ensures { option_map (λ name. name.now) result ≡ refusal_name layout.now refusal }
{
    match refusal {
        Refusal::Conflict(route) => Some(route_word(layout, route)),
        Refusal::NotClear(section) => Some(section_word(layout, section)),
        Refusal::PointUnavailable(point) => Some(point_word(layout, point)),
        Refusal::Closed(thing) => Some(Named::One(thing).name_word(layout)),
        Refusal::Held(route) => Some(route_word(layout, route)),
        _ => None,
    }
}

// The side that is told behind the name, of a closed point.
fn refusal_side(refusal: Refusal) -> Option<Side>
    ensures { result ≡ refusal_side refusal }
{
    match refusal {
        Refusal::Closed(thing) => Named::One(thing).side(),
        _ => None,
    }
}
