//! A recorded session, applied again to a new world.

ghost use Rattle.std.specs.Prelude.{◌≡◌, ◌⊎◌, ℕ, IsErr, IfErr, IfOk, OnOk, Some};
ghost use Rattle.std.specs.Io.KnownBytes.{Appends};
ghost use Rattle.replay_lines.specs.declared.agreement.Replayed.TheVariants.{Same, Differs as DiffersAt};
ghost use Rattle.station_check.specs.Failures.{Explained, Leaves};
ghost use Rattle.replay.specs.ReplayedSession.{CanReplay, Explains, IsReplayed, verdict_line, verdict_text};

use crate::laws::played_worlds_are_safe;
use crate::replayed_world::replay;
use replay_lines::{Replayed, read_session};
use station_check::{Failure, table_of, tell};
use std::alloc::Global;
use std::io::Write;
use std::{fmt, io};

/// Applies a recorded session again to a new world of this layout, and writes to `out` whether each event answers as it
/// was recorded. Both texts are judged before the first event, the layout first: where one is faulty, `out` stays as it
/// is. The status is 0 where all answers are the same, 3 where one differs, and 1 where anything failed; `err` is then
/// told why, unless the verdict couldn't be written.
pub fn replay_text<W: Write, E: Write>(
    alloc: Global,
    layout: &str,
    recording: &str,
    out: &mut W,
    err: &mut E,
) -> u8
    ensures status { (result ≡ 0) ⊎ ((result ≡ 1) ⊎ (result ≡ 3)) }
    ensures same { result ≡ 0 → IsReplayed layout.now recording.now Same (W.contents out.old) (W.contents out.new) }
    ensures differs { result ≡ 3 → (line : ℕ) × IsReplayed layout.now recording.now (DiffersAt line) (W.contents out.old) (W.contents out.new) }
    ensures faulty { (CanReplay layout.now recording.now → ⊥) → (result ≡ 1) × (out.new ≡ out.old) }
    ensures silent { (result ≡ 1 → ⊥) → err.new ≡ err.old }
    // Only a beginning of the line was told where a write to `err` failed.
    ensures explains { result ≡ 1 → Explained (Explains layout.now recording.now) result out.old out.new (E.contents err.old) (E.contents err.new) }
{
    match verdict(alloc, layout, recording, out) {
        Ok(Replayed::Same) => 0,
        Ok(Replayed::Differs { .. }) => 3,
        Err(failure) => tell(&failure, err),
    }
}

/// Judges the texts, applies the session, and writes the verdict.
fn verdict<W: Write>(
    alloc: Global,
    layout: &str,
    recording: &str,
    out: &mut W,
) -> Result<Replayed, Failure>
    ensures done { IfOk result (λ verdict. IsReplayed layout.now recording.now verdict (W.contents out.old) (W.contents out.new)) }
    ensures faulty { (CanReplay layout.now recording.now → ⊥) → IsErr result × (out.new ≡ out.old) }
    ensures explains { IfErr result (λ failure. Explains layout.now recording.now failure × Leaves failure out.old out.new) }
{
    played_worlds_are_safe();
    let table = table_of(alloc, layout)?;
    let entries = read_session(alloc, &table, recording)?;
    let verdict = replay(alloc, table, &entries)?;
    write_verdict(verdict, out)?;
    Ok(verdict)
}

/// Writes a verdict.
fn write_verdict<W: Write>(verdict: Replayed, out: &mut W) -> io::Result<()>
    ensures { OnOk result (Appends (W.contents out.old) (W.contents out.new) (verdict_line verdict)) }
{
    out.writeln(VerdictText(verdict))?;
    out.flush()?;
    Ok(())
}

/// A verdict as it is told.
#[derive(Clone, Copy)]
struct VerdictText(Replayed);

impl fmt::Display for VerdictText {
    ghost output = { λ verdict. Some (verdict_text verdict.0) };

    fn fmt<W: fmt::Write>(&self, f: &mut fmt::Formatter<W>) -> fmt::Result {
        match self.0 {
            Replayed::Same => write!(f, "same"),
            Replayed::Differs { line } => write!(f, "differs at line {line}"),
        }
    }
}
