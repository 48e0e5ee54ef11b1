//! The numbers that calls from C answer with, which are those of the controllers, and two more. Any but `OK` changed nothing.

ghost use Rattle.std.specs.Prelude.{◌≡◌};
ghost use Rattle.interlocking_c.specs.Answers.{number_of};

use embedded_ixl::CallRefusal;

pub(crate) const OK: u32 = 0;
/// No interlocking was started in the handle.
pub(crate) const NOT_STARTED: u32 = 1;
/// An interlocking was started in the handle.
pub(crate) const STARTED: u32 = 2;
/// There is less room than has to be.
pub(crate) const ROOM: u32 = 3;
/// Memory was refused.
pub(crate) const MEMORY: u32 = 5;
/// The clock has fallen.
pub(crate) const CLOCK: u32 = 6;
/// It is quiet for 2000 ms after its start.
pub(crate) const SOON: u32 = 7;
/// What came may be too old.
pub(crate) const OLD: u32 = 8;
/// There is no such thing.
pub(crate) const PLACE: u32 = 10;
/// A number stands for no kind of thing.
pub(crate) const VALUE: u32 = 11;
/// The text is no layout, or its control table isn't sound: its first fault is told.
pub(crate) const LAYOUT: u32 = 12;
/// The text isn't UTF-8.
pub(crate) const UTF8: u32 = 13;

/// The room that a datagram has at most.
pub(crate) const LONGEST: usize = 256;

/// The number of an answer.
pub(crate) fn number_of(answer: Result<(), CallRefusal>) -> u32
    ensures { result ≡ number_of answer }
{
    match answer {
        Ok(()) => OK,
        Err(CallRefusal::ClockFell) => CLOCK,
        Err(CallRefusal::TooSoon) => SOON,
        Err(CallRefusal::TooOld) => OLD,
    }
}
