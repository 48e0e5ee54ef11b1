//! The numbers that calls from C answer with. Any but `OK` changed nothing.

ghost use Rattle.std.specs.Prelude.{◌≡◌};
ghost use Rattle.controllers_c.specs.Answers.{number_of};

use embedded_host::Refusal;

pub(crate) const OK: u32 = 0;
/// No controller of this kind was started in the handle.
pub(crate) const NOT_STARTED: u32 = 1;
/// A controller was started in the handle.
pub(crate) const STARTED: u32 = 2;
/// There is less room than has to be.
pub(crate) const ROOM: u32 = 3;
/// A name isn't one.
pub(crate) const NAME: u32 = 4;
/// Memory was refused.
pub(crate) const MEMORY: u32 = 5;
/// The clock has fallen.
pub(crate) const CLOCK: u32 = 6;
/// It is quiet for 2000 ms after its start.
pub(crate) const SOON: u32 = 7;
/// What came may be too old.
pub(crate) const OLD: u32 = 8;
/// The order of the last step isn't in force yet.
pub(crate) const NOT_DONE: u32 = 9;
/// There is no such place, or more sections than a detector has.
pub(crate) const PLACE: u32 = 10;
/// A number stands for no position, or for no state of a section.
pub(crate) const VALUE: u32 = 11;

/// The room that a datagram has at most.
pub(crate) const LONGEST: usize = 256;

/// The number of an answer.
pub(crate) fn number_of(answer: Result<(), Refusal>) -> u32
    ensures { result ≡ number_of answer }
{
    match answer {
        Ok(()) => OK,
        Err(Refusal::ClockFell) => CLOCK,
        Err(Refusal::TooSoon) => SOON,
        Err(Refusal::TooOld) => OLD,
        Err(Refusal::NotInForce) => NOT_DONE,
    }
}
