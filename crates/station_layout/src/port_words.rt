//! The words for ports.

ghost use Rattle.std.specs.Prelude.{◌≡◌, Some};
ghost use Rattle.station_layout.specs.PortWords.{port_words};

use layout_text::PortName;
use std::fmt;

/// The words for the ports of an element.
pub(crate) const END_WORDS: &[&str; 6] = &["a", "b", "tip", "left", "right", "end"];

/// A port as it is written.
#[derive(Clone, Copy)]
pub(crate) struct PortWords(pub(crate) PortName);

impl fmt::Display for PortWords {
    ghost output = { λ port. Some (port_words port.0) };

    #[tactic(auto, unfolding(crate::specs::PortWords::end_word, crate::specs::PortWords::port_words))]
    fn fmt<W: fmt::Write>(&self, f: &mut fmt::Formatter<W>) -> fmt::Result {
        let element = self.0.element.as_str();
        let end = END_WORDS[self.0.end as usize];
        write!(f, "{element}.{end}")
    }
}
