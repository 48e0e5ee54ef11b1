//! The line for what becomes of a datagram.

ghost use Rattle.std.specs.Prelude.{◌≡◌, IfOk, Some, string_bytes};
ghost use Rattle.station_record.specs.Lines.{line_text};

use crate::fate::Fate;
use control_table::Layout;
use replay::NodeId;
use station_decode::datagram_words;
use std::alloc::{AllocError, Global};
use std::fmt;

/// True time as a line tells it, in milliseconds.
#[derive(Clone, Copy)]
struct TimeText {
    /// In microseconds.
    time: u64,
}

impl fmt::Display for TimeText {
    ghost use Rattle.station_record.specs.Lines.{time_text};

    ghost output = { λ text. Some (time_text text.time) };

    fn fmt<W: fmt::Write>(&self, f: &mut fmt::Formatter<W>) -> fmt::Result {
        let whole = self.time / 1000;
        let tenths = self.time / 100 % 10;
        let hundredths = self.time / 10 % 10;
        let thousandths = self.time % 10;
        write!(f, "{whole}.{tenths}{hundredths}{thousandths}")
    }
}

/// A node as a line calls it: by its name, and by `_` where the layout lacks it.
#[derive(Clone, Copy)]
struct NodeText<'a> {
    layout: &'a Layout,
    node: NodeId,
}

impl<'a> fmt::Display for NodeText<'a> {
    ghost use Rattle.station_record.specs.Lines.{node_text};

    ghost output = { λ text. Some (node_text text.layout.now text.node) };

    fn fmt<W: fmt::Write>(&self, f: &mut fmt::Formatter<W>) -> fmt::Result {
        match self.layout.node_name(self.node) {
            Some(name) => {
                let name = name.as_str();
                write!(f, "{name}")
            }
            None => write!(f, "_"),
        }
    }
}

/// What becomes of a datagram, as a line tells it.
#[derive(Clone, Copy)]
struct FateText<'a> {
    layout: &'a Layout,
    fate: Fate,
}

impl<'a> fmt::Display for FateText<'a> {
    ghost use Rattle.station_record.specs.Lines.{fate_text};

    ghost output = { λ text. Some (fate_text text.layout.now text.fate) };

    fn fmt<W: fmt::Write>(&self, f: &mut fmt::Formatter<W>) -> fmt::Result {
        let layout = self.layout;
        match self.fate {
            Fate::Sent { sender, receiver } => {
                let sender = NodeText {
                    layout,
                    node: sender,
                };
                let receiver = NodeText {
                    layout,
                    node: receiver,
                };
                write!(f, "sent by {sender} to {receiver}")
            }
            Fate::Delivered { receiver, refused } => {
                let receiver = NodeText {
                    layout,
                    node: receiver,
                };
                match refused {
                    None => write!(f, "delivered to {receiver}"),
                    Some(why) => {
                        let why = why.number();
                        write!(f, "not delivered to {receiver}, no {why}")
                    }
                }
            }
            Fate::Lost { refused: None } => write!(f, "lost"),
            Fate::Lost { refused: Some(why) } => {
                let why = why.number();
                write!(f, "not lost, no {why}")
            }
        }
    }
}

/// The line for what becomes of a datagram at a moment.
pub(crate) fn line(
    alloc: Global,
    layout: &Layout,
    time: u64,
    fate: Fate,
    bytes: &[u8],
) -> Result<String, AllocError>
    ensures { IfOk result (λ line. string_bytes line ≡ line_text layout.now (record { time = time; fate = fate; bytes = bytes.now })) }
{
    let words = datagram_words(alloc, Some(layout), bytes)?;
    let words = words.as_str();
    let time = TimeText { time };
    let fate = FateText { layout, fate };
    format!(in alloc; "{time} {fate}: {words}\n")
}
