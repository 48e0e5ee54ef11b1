//! What a telegram says, in words.

ghost use Rattle.std.specs.Prelude.{◌≡◌, ◌++◌, OnOk, string_bytes};
ghost use Rattle.std.specs.List.{join_with_byte};
ghost use Rattle.ixl_spec.specs.sci_telegram.declared.message.Message.TheVariants as says;
ghost use Rattle.station_decode.specs.Telegrams.{message_words, step_words};

use crate::word_table::{agreement_word, protocol_word};
use ixl_spec::Protocol;
use sci_telegram::{DetectionMessage, Initialisation, Message, PointMessage, SignalMessage};
use std::alloc::AllocError;

/// Adds what a telegram says.
pub(crate) fn push_message(text: &mut String, message: &Message) -> Result<(), AllocError>
    ensures { OnOk result (string_bytes text.new ≡ string_bytes text.old ++ join_with_byte 32 (message_words message.now)) }
{
    match message {
        Message::Initialisation(protocol, message) => {
            push_initialisation(text, *protocol, message)
        }
        Message::Point(message) => push_point(text, message),
        Message::Signal(message) => push_signal(text, message),
        Message::Detection(message) => push_detection(text, message),
    }
}

/// Adds a telegram that every protocol has.
fn push_initialisation(
    text: &mut String,
    protocol: Protocol,
    message: &Initialisation,
) -> Result<(), AllocError>
    ensures { OnOk result (string_bytes text.new ≡ string_bytes text.old ++ join_with_byte 32 (message_words (says.Initialisation protocol message.now))) }
{
    text.push_str(protocol_word(protocol))?;
    text.push_str(" ")?;
    push_step(text, message)
}

/// Adds which step of an initialisation a telegram is.
fn push_step(text: &mut String, step: &Initialisation) -> Result<(), AllocError>
    ensures { OnOk result (string_bytes text.new ≡ string_bytes text.old ++ join_with_byte 32 (step_words step.now)) }
{
    match step {
        Initialisation::InitialisationRequest => text.push_str("initialisation request"),
        Initialisation::StartInitialisation => text.push_str("start initialisation"),
        Initialisation::InitialisationCompleted => text.push_str("initialisation completed"),
        Initialisation::VersionCheck { version } => write!(text, "version check {version}"),
        Initialisation::VersionAnswer { agreement, version } => {
            let agreement = agreement_word(*agreement);
            write!(text, "version answer {agreement} {version}")
        }
    }
}

/// Adds a telegram to or from a point.
fn push_point(text: &mut String, message: &PointMessage) -> Result<(), AllocError>
    ensures { OnOk result (string_bytes text.new ≡ string_bytes text.old ++ join_with_byte 32 (message_words (says.Point message.now))) }
{
    match message {
        PointMessage::MovePoint(side) => {
            let side = side.word();
            write!(text, "move point {side}")
        }
        PointMessage::PointPosition(position) => {
            let position = position.word();
            write!(text, "point position {position}")
        }
        PointMessage::Timeout => text.push_str("point timeout"),
    }
}

/// Adds a telegram to or from a signal.
fn push_signal(text: &mut String, message: &SignalMessage) -> Result<(), AllocError>
    ensures { OnOk result (string_bytes text.new ≡ string_bytes text.old ++ join_with_byte 32 (message_words (says.Signal message.now))) }
{
    let (words, aspect) = match message {
        SignalMessage::IndicateAspect(aspect) => ("indicate aspect", aspect),
        SignalMessage::IndicatedAspect(aspect) => ("indicated aspect", aspect),
    };
    let aspect = aspect.word();
    write!(text, "{words} {aspect}")
}

/// Adds a telegram of a detector.
fn push_detection(text: &mut String, message: &DetectionMessage) -> Result<(), AllocError>
    ensures { OnOk result (string_bytes text.new ≡ string_bytes text.old ++ join_with_byte 32 (message_words (says.Detection message.now))) }
{
    match message {
        DetectionMessage::OccupancyStatus(occupancy) => {
            let occupancy = occupancy.word();
            write!(text, "occupancy status {occupancy}")
        }
    }
}
