//! The words for what a line tells.

ghost use Rattle.std.specs.Prelude.{◌≡◌};
ghost use Rattle.node_lines.specs.Known.{signal_word};
ghost use Rattle.panel_desk.specs.ShownLines.{closing_kind, driven_words, lost_word, mode_word, network_letter, yes_or_no};

use crate::panel_line::{Mode, PanelNetwork};
use node_lines::{Layout, Side, SignalId, Thing};

/// What stands after the position of a point that is driven.
pub(crate) fn driven_words(driven: Option<Side>) -> &'static str
    ensures { result.now ≡ driven_words driven }
{
    match driven {
        None => "",
        Some(Side::Right) => " driven right",
        Some(Side::Left) => " driven left",
    }
}

pub(crate) fn mode_word(mode: Mode) -> &'static str
    ensures { result.now ≡ mode_word mode }
{
    match mode {
        Mode::Ready => "ready",
        Mode::Holding => "holding",
        Mode::WaitingForResume => "resume",
    }
}

pub(crate) fn network_letter(network: PanelNetwork) -> &'static str
    ensures { result.now ≡ network_letter network }
{
    match network {
        PanelNetwork::A => "a",
        PanelNetwork::B => "b",
    }
}

pub(crate) fn lost_word(is_lost: bool) -> &'static str
    ensures { result.now ≡ lost_word is_lost }
{
    if is_lost { "lost" } else { "back" }
}

pub(crate) fn yes_or_no(is_so: bool) -> &'static str
    ensures { result.now ≡ yes_or_no is_so }
{
    if is_so { "yes" } else { "no" }
}

/// What kind of thing is closed; a point has a word for each side.
pub(crate) fn closing_kind(thing: Thing) -> &'static str
    ensures { result.now ≡ closing_kind thing }
{
    match thing {
        Thing::Section(_) => "section",
        Thing::Point(_, Side::Left) => "left",
        Thing::Point(_, Side::Right) => "right",
        Thing::Signal(_) => "signal",
        Thing::Route(_) => "route",
    }
}

/// The word that stands for a signal: its name, or `_` where the layout lacks it.
pub(crate) fn signal_word(layout: &Layout, signal: SignalId) -> &str
    ensures { result.now ≡ signal_word layout.now signal }
{
    match layout.signals().get(signal.0) {
        Some(signal) => signal.name.as_str(),
        None => "_",
    }
}
