//! The version check with which a connection of a line begins.

ghost use Rattle.std.specs.Prelude.{◌≡◌, ◌↔◌, IsTrue};

use crate::message::LineMessage;
use line_laws::{Item, Side};
use sci_telegram::Agreement;
use std::marker::Model;

/// How far a connection has come.
#[derive(Clone, Copy, Debug)]
pub enum Stage {
    /// The link isn't up.
    Outside,
    /// The first end is to tell its version.
    AwaitsCheck,
    /// The second end is to answer.
    AwaitsAnswer,
    /// Both have one version: what comes is for the end.
    Agreed,
    /// The versions don't match: nothing more is taken.
    Differs,
}

/// What comes of a message.
#[derive(Clone, Copy, Debug)]
pub enum Heard {
    /// It is for the end.
    Taken(Item),
    /// This is to be given to the link.
    Answered(LineMessage),
    /// The versions match.
    Matched,
    /// The partner has another version: the link is to be closed with reason 4.
    Differed,
    /// It comes out of the order: the link is to be closed with reason 1.
    Violated,
}

/// The version check of an end: the first tells its version as its first item, the second answers, and then alone the two
/// tell each other anything else.
#[derive(Clone, Copy, Debug)]
pub struct Greeting {
    side: Side,
    version: u8,
    stage: Stage,
}

impl Model for Greeting {
    ghost use Rattle.line_telegram.specs.Greetings.{GreetingState};

    ghost Value = { GreetingState };

    ghost view = { λ greeting. record { side = greeting.side; version = greeting.version; stage = greeting.stage } };

    ghost inverse = { λ state. record { side = state.side; version = state.version; stage = state.stage } };
}

impl Greeting {
    ghost use Rattle.line_telegram.specs.declared.greeting.Stage.TheVariants.{Outside, Agreed};
    ghost use Rattle.line_telegram.specs.Greetings.{checked, greeted, hearing, told};

    /// Out of any connection. `version` is that of the telegrams.
    pub fn new(side: Side, version: u8) -> Greeting
        ensures { result ≡ record { side = side; version = version; stage = Outside } }
    {
        Greeting {
            side,
            version,
            stage: Stage::Outside,
        }
    }

    /// Whether both ends have one version. Only then is the link up for the end of the line.
    pub fn is_agreed(&self) -> bool
        ensures { IsTrue result ↔ (self.now.stage ≡ Agreed) }
    {
        matches!(self.stage, Stage::Agreed)
    }

    /// The link is up or isn't. Where it has come up, this is what the first end is to give to it before all else.
    pub fn link(&mut self, up: bool) -> Option<LineMessage>
        ensures state { self.new ≡ (greeted up self.old).state }
        ensures says { result ≡ (greeted up self.old).says }
    {
        match (up, self.stage, self.side) {
            (false, _, _) => {
                self.stage = Stage::Outside;
                None
            }
            (true, Stage::Outside, Side::First) => {
                self.stage = Stage::AwaitsAnswer;
                Some(LineMessage::VersionCheck {
                    version: self.version,
                })
            }
            (true, Stage::Outside, Side::Second) => {
                self.stage = Stage::AwaitsCheck;
                None
            }
            (true, _, _) => None,
        }
    }

    /// The second end answers the check.
    fn answer(&mut self, version: u8) -> Heard
        ensures state { self.new ≡ (checked version self.old).state }
        ensures heard { result ≡ (checked version self.old).heard }
    {
        let (agreement, stage) = if version == self.version {
            (Agreement::Match, Stage::Agreed)
        } else {
            (Agreement::NoMatch, Stage::Differs)
        };
        self.stage = stage;
        Heard::Answered(LineMessage::VersionAnswer {
            agreement,
            version: self.version,
        })
    }

    /// The first end hears the answer.
    fn hear_answer(&mut self, agreement: Agreement, version: u8) -> Heard
        ensures state { self.new ≡ (told agreement version self.old).state }
        ensures heard { result ≡ (told agreement version self.old).heard }
    {
        if matches!(agreement, Agreement::Match) && version == self.version {
            self.stage = Stage::Agreed;
            Heard::Matched
        } else {
            self.stage = Stage::Differs;
            Heard::Differed
        }
    }

    /// A message of the partner.
    pub fn hear(&mut self, message: LineMessage) -> Heard
        ensures state { self.new ≡ (hearing message self.old).state }
        ensures heard { result ≡ (hearing message self.old).heard }
    {
        match (self.stage, message) {
            (Stage::AwaitsCheck, LineMessage::VersionCheck { version }) => self.answer(version),
            (Stage::AwaitsAnswer, LineMessage::VersionAnswer { agreement, version }) => {
                self.hear_answer(agreement, version)
            }
            (Stage::Agreed, LineMessage::Line(item)) => Heard::Taken(item),
            _ => Heard::Violated,
        }
    }
}
