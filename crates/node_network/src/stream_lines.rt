//! Lines on two streams.

ghost use Rattle.std.specs.Prelude.{◌≡◌, not, true};

use crate::line_input::LineInput;

/// Lines that come on one stream, and are written to another.
#[derive(Drop)]
pub(crate) struct StreamLines<I, O> {
    pub(crate) input: LineInput<I>,
    pub(crate) output: O,
}

/// The lines of an operator on two streams, who listens from the beginning.
#[derive(Drop)]
pub(crate) struct OperatorLines<I, O> {
    pub(crate) streams: StreamLines<I, O>,
    /// Whether it was told that the operator listens.
    pub(crate) told: bool,
}

impl<I, O> OperatorLines<I, O> {
    /// Whether the operator began to listen since the last question.
    pub(crate) fn has_listener(&mut self) -> bool
        ensures first { result ≡ not self.old.told }
        ensures told { self.new.told ≡ true }
        ensures streams { self.new.streams ≡ self.old.streams }
    {
        let told = self.told;
        self.told = true;
        !told
    }
}
