//! Lines of events, applied to a world as it lies when it is started.

ghost use Rattle.std.specs.Prelude.{◌≡◌, ◌≤◌};
ghost use Rattle.station_check.specs.Failures.{ExplainedParts};
ghost use Rattle.replay.specs.Transcript.{CanPlay, Explains};
ghost use Rattle.replay.specs.Simulated.{IsSimulated};

use crate::laws::{played_worlds_are_safe, stations_lie_as_lines_say};
use crate::play::play;
use station_check::tell;
use std::alloc::Global;
use std::io::Write;

/// Applies the lines of `events` to a world of this layout, which lies as they say when it is started, and writes the answer
/// of each to `out`. Both texts are judged before the first event, the layout first: where one is faulty, `out` stays as it
/// is. The status is 0, or 1 where anything failed; `err` is then told why, unless an answer couldn't be written.
pub fn sim_text<W: Write, E: Write>(
    alloc: Global,
    layout: &str,
    events: &str,
    out: &mut W,
    err: &mut E,
) -> u8
    ensures status { result ≤ 1 }
    // What the lines say, done one after the other to the world that lies as they say when it is started, is what was
    // written, and whatever is seen of the world is safe.
    ensures done { result ≡ 0 → IsSimulated layout.now events.now (W.contents out.old) (W.contents out.new) }
    ensures faulty { (CanPlay layout.now events.now → ⊥) → (result ≡ 1) × (out.new ≡ out.old) }
    ensures silent { result ≡ 0 → err.new ≡ err.old }
    // Only a beginning of the line was told where a write to `err` failed.
    ensures explains { result ≡ 1 → ExplainedParts (Explains layout.now events.now) result out.old out.new (E.contents err.old) (E.contents err.new) }
{
    stations_lie_as_lines_say();
    played_worlds_are_safe();
    match play(alloc, layout, events, out) {
        Ok(()) => 0,
        Err(failure) => tell(&failure, err),
    }
}
