//! Whether clocks may go on.

ghost use Rattle.std.specs.Prelude.{◌≡◌, ◌+◌, nat_le};
ghost use Rattle.line_world.specs.Events.{keeps_time};
ghost use Rattle.rasta_core.specs.time.TheConstants.{CLOCK_LIMIT};

use rasta_core::CLOCK_LIMIT;

/// Whether a clock that goes on by so much in a true time keeps within one part in a thousand of it.
pub(crate) fn keeps_time(elapsed: u64, of_clock: u64) -> bool
    ensures { result ≡ keeps_time elapsed of_clock }
{
    let (elapsed, of_clock) = (u128::from(elapsed), u128::from(of_clock));
    999 * elapsed <= 1000 * of_clock && 1000 * of_clock <= 1001 * elapsed
}

/// Whether a clock that goes on by so much stays within the limit.
pub(crate) fn is_within(now: u64, elapsed: u64) -> bool
    ensures { result ≡ nat_le (now + elapsed) CLOCK_LIMIT }
{
    now.saturating_add(elapsed) <= CLOCK_LIMIT
}
