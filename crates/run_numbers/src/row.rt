//! A number of the table, with its words.

ghost use Rattle.std.specs.Prelude.{◌≡◌, ◌<◌};
ghost use Rattle.run_numbers.specs.Rows.{begins, help_of, key_of, kind_of, label_of, name_of, place_of, row_count};

use crate::labels::{Fate, Outcome, Reason};

/// A number of the table.
#[derive(Clone, Copy, Debug, PartialEq, Eq)]
pub enum Row {
    /// How many links are ready.
    LinksUp,
    /// How often a link that was ready was lost.
    LinksLost,
    /// Datagrams that a link judged so.
    Datagrams(Fate),
    /// Retransmission requests that were taken from partners.
    AsksTaken,
    /// Disconnection requests with this reason that were taken from partners.
    ClosingsTaken(Reason),
    /// Commands that were answered so.
    Commands(Outcome),
    /// Retransmission requests that were sent.
    AsksSent,
    /// Disconnection requests with this reason that were sent.
    ClosingsSent(Reason),
    /// Datagrams that came from the address of no node of the station.
    Strangers,
    /// Datagrams that were thrown away, since they may have been too old.
    TooOld,
    /// Rounds that began.
    Rounds,
    /// Rounds that began 20 ms after the one before, or later.
    RoundsLate,
    /// How many bytes of memory the process takes.
    Memory,
    /// How many bytes the datagrams of a played station take.
    SentMemory,
}

impl Row {
    /// Its name, as a line has it. Prometheus has `zendurai_` in front of it.
    pub fn name(self) -> &'static str
        ensures { result.now ≡ name_of self }
    {
        match self {
            Row::LinksUp => "links_up",
            Row::LinksLost => "links_lost_total",
            Row::Datagrams(_) => "datagrams_total",
            Row::AsksTaken => "asks_taken_total",
            Row::ClosingsTaken(_) => "closings_taken_total",
            Row::Commands(_) => "commands_total",
            Row::AsksSent => "asks_sent_total",
            Row::ClosingsSent(_) => "closings_sent_total",
            Row::Strangers => "strangers_total",
            Row::TooOld => "too_old_total",
            Row::Rounds => "rounds_total",
            Row::RoundsLate => "rounds_late_total",
            Row::Memory => "memory_bytes",
            Row::SentMemory => "sent_memory_bytes",
        }
    }

    /// What tells it apart from others of its name; a hyphen where there are none.
    pub fn label(self) -> &'static str
        ensures { result.now ≡ label_of self }
    {
        match self {
            Row::Datagrams(fate) => fate.word(),
            Row::ClosingsTaken(reason) | Row::ClosingsSent(reason) => reason.word(),
            Row::Commands(outcome) => outcome.word(),
            _ => "-",
        }
    }

    /// What its label tells, if it has one.
    pub(crate) fn key(self) -> &'static str
        ensures { result.now ≡ key_of self }
    {
        match self {
            Row::Datagrams(_) => "verdict",
            Row::ClosingsTaken(_) | Row::ClosingsSent(_) => "reason",
            Row::Commands(_) => "answer",
            _ => "",
        }
    }

    /// What it is, in a sentence.
    pub(crate) fn help(self) -> &'static str
        ensures { result.now ≡ help_of self }
    {
        match self {
            Row::LinksUp => "Links that are ready.",
            Row::LinksLost => "How often a link that was ready was lost.",
            Row::Datagrams(_) => "Datagrams that came, by what their link said of them.",
            Row::AsksTaken => "Retransmission requests that were taken from partners.",
            Row::ClosingsTaken(_) => {
                "Disconnection requests that were taken from partners, by reason."
            }
            Row::Commands(_) => "Commands to the interlocking, by their answer.",
            Row::AsksSent => "Retransmission requests that were sent.",
            Row::ClosingsSent(_) => "Disconnection requests that were sent, by reason.",
            Row::Strangers => "Datagrams that came from the address of no node of the station.",
            Row::TooOld => "Datagrams that were thrown away since they may have been too old.",
            Row::Rounds => "Rounds that began.",
            Row::RoundsLate => "Rounds that began 20 ms or more after the one before.",
            Row::Memory => "Resident memory of the process.",
            Row::SentMemory => "Memory for the datagrams of a played station.",
        }
    }

    /// Whether it counts what happened, so that it never falls while a process runs, or tells what is so now.
    pub(crate) fn kind(self) -> &'static str
        ensures { result.now ≡ kind_of self }
    {
        match self {
            Row::LinksUp | Row::Memory | Row::SentMemory => "gauge",
            _ => "counter",
        }
    }

    /// Whether it is the first of its name.
    pub(crate) fn begins(self) -> bool
        ensures { result ≡ begins self }
    {
        match self {
            Row::Datagrams(fate) => fate.place() == 0,
            Row::ClosingsTaken(reason) | Row::ClosingsSent(reason) => reason.place() == 0,
            Row::Commands(outcome) => outcome.place() == 0,
            _ => true,
        }
    }

    /// Its place in the table.
    pub fn place(self) -> usize
        ensures place { result ≡ place_of self }
        ensures within { result < row_count }
    {
        match self {
            Row::LinksUp => 0,
            Row::LinksLost => 1,
            Row::Datagrams(fate) => 2 + fate.place(),
            Row::AsksTaken => 13,
            Row::ClosingsTaken(reason) => 14 + reason.place(),
            Row::Commands(outcome) => 21 + outcome.place(),
            Row::AsksSent => 36,
            Row::ClosingsSent(reason) => 37 + reason.place(),
            Row::Strangers => 44,
            Row::TooOld => 45,
            Row::Rounds => 46,
            Row::RoundsLate => 47,
            Row::Memory => 48,
            Row::SentMemory => 49,
        }
    }
}
