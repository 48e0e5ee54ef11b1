//! What a panel counts of its station.

use panel_desk::node_lines::{Known, LinkState, counted_after};
use panel_desk::run_numbers::{Numbers, NumbersTold, Outcome, Reason, Row};
use panel_desk::{Answer, AuxiliaryCounts, Event, MICROS, PanelLine, Refused};
use std::alloc::{AllocError, Global};

/// The numbers that a panel of a played station tells.
const TOLD: [Row; 27] = [
    Row::LinksUp,
    Row::Commands(Outcome::Accepted),
    Row::Commands(Outcome::Refused1),
    Row::Commands(Outcome::Refused2),
    Row::Commands(Outcome::Refused3),
    Row::Commands(Outcome::Refused4),
    Row::Commands(Outcome::Refused5),
    Row::Commands(Outcome::Refused6),
    Row::Commands(Outcome::Refused7),
    Row::Commands(Outcome::Refused8),
    Row::Commands(Outcome::Refused9),
    Row::Commands(Outcome::Refused10),
    Row::Commands(Outcome::Refused11),
    Row::Commands(Outcome::Refused12),
    Row::Commands(Outcome::Refused13),
    Row::Commands(Outcome::Refused14),
    Row::AsksSent,
    Row::ClosingsSent(Reason::User),
    Row::ClosingsSent(Reason::State),
    Row::ClosingsSent(Reason::Sequence),
    Row::ClosingsSent(Reason::Time),
    Row::ClosingsSent(Reason::Version),
    Row::ClosingsSent(Reason::Window),
    Row::ClosingsSent(Reason::Other),
    Row::Rounds,
    Row::RoundsLate,
    Row::SentMemory,
];

/// A turn is counted at a reading of the clock, with how many links are ready, and how much memory is taken.
pub(crate) fn count_turn(numbers: &mut Numbers, reading: u64, ready: u64, bytes: u64) {
    numbers.begin(reading / MICROS);
    numbers.put(Row::LinksUp, ready);
    numbers.put(Row::SentMemory, bytes);
}

/// Commands are counted by what a station answered to them.
pub(crate) fn count_answers(numbers: &mut Numbers, answers: &[Result<Answer, Refused>]) {
    for answer in answers {
        match *answer {
            Ok(Answer::Accepted) => numbers.count(Row::Commands(Outcome::Accepted)),
            Ok(Answer::Refused(refusal)) => {
                numbers.count(Row::Commands(Outcome::refused(refusal.number())));
            }
            Ok(Answer::Done) | Err(_) => (),
        }
    }
}

/// The auxiliary commands among events that were accepted are counted.
pub(crate) fn count_auxiliaries(
    counts: AuxiliaryCounts,
    events: &[Event],
    answers: &[Result<Answer, Refused>],
) -> AuxiliaryCounts {
    let mut all = counts;
    for place in 0..events.len().min(answers.len()) {
        all = counted_by(all, &events[place], answers[place]);
    }
    all
}

/// An event is counted if it is an auxiliary command that was accepted.
fn counted_by(
    counts: AuxiliaryCounts,
    event: &Event,
    answer: Result<Answer, Refused>,
) -> AuxiliaryCounts {
    match (event, answer) {
        (Event::Request(command), Ok(Answer::Accepted)) => counted_after(*command, counts),
        _ => counts,
    }
}

/// How many links are ready by what is seen of a station.
pub(crate) fn ready_links(lines: &[PanelLine]) -> u64 {
    let mut ready: u64 = 0;
    for line in lines {
        if is_ready_link(*line) {
            ready = ready.saturating_add(1);
        }
    }
    ready
}

/// Whether a line tells that a link is ready.
fn is_ready_link(line: PanelLine) -> bool {
    matches!(
        line,
        PanelLine::Known(Known::Link {
            node: _,
            state: LinkState::Ready,
        })
    )
}

/// What is told of these numbers.
pub(crate) fn told(alloc: Global, numbers: &Numbers) -> Result<NumbersTold, AllocError> {
    let mut all = NumbersTold::nothing(alloc)?;
    for row in &TOLD {
        all.tell(*row, numbers.value(*row));
    }
    Ok(all)
}
