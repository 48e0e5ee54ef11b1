//! The run of a text, with its answers written.

ghost use Rattle.std.specs.Prelude.{◌≡◌, ◌≤◌, ℕ, List, IfErr, IsErr, IsOk, OnOk};
ghost use Rattle.std.specs.Io.KnownBytes.{Appends};
ghost use Rattle.simulator_pair_text.specs.Text.{run_of};
ghost use Rattle.simulator_pair_text.specs.Told.{Explained, Explains, Leaves};
ghost use Rattle.simulator_pair_text.specs.Transcript.{IsWritten, Writes};

use crate::failure::{Failure, tell};
use crate::line::{PairLine, read_line};
use crate::picture::Picture;
use crate::run::Run;
use crate::text::{LineFault, judge};
use replay_words::{Lines, is_passed_over};
use std::alloc::Global;
use std::io;
use std::io::Write;

/// Runs a text of event lines over a new pair, and writes an answer for each line to `out`. The whole text
/// is judged before the first event: where a line is faulty, `out` stays as it is. The status is 0, or 1 where
/// anything failed; `err` is then told why, unless an answer couldn't be written.
pub fn pair_text<W: Write, E: Write>(alloc: Global, text: &str, out: &mut W, err: &mut E) -> u8
    ensures status { result ≤ 1 }
    // What the lines say, carried out one after the other by a new pair, is what was written.
    ensures done { result ≡ 0 → IsWritten text.now (W.contents out.old) (W.contents out.new) }
    ensures faulty { IsErr (run_of text.now) → (result ≡ 1) × (out.new ≡ out.old) }
    ensures silent { result ≡ 0 → err.new ≡ err.old }
    // Only a beginning of the line was told where a write to `err` failed.
    ensures explains { result ≡ 1 → Explained text.now out.old out.new (E.contents err.old) (E.contents err.new) }
{
    match run(alloc, text, out) {
        Ok(()) => 0,
        Err(failure) => {
            tell(&failure, err);
            1
        }
    }
}

/// Judges a text, and then carries it out.
#[tactic(auto, using(crate::proofs::Judged::judged_ok))]
fn run<W: Write>(alloc: Global, text: &str, out: &mut W) -> Result<(), Failure>
    ensures done { OnOk result (IsWritten text.now (W.contents out.old) (W.contents out.new)) }
    ensures faulty { IsErr (run_of text.now) → IsErr result × (out.new ≡ out.old) }
    ensures explains { IfErr result (λ failure. Explains text.now failure × Leaves failure out.old out.new) }
{
    judge(text)?;
    perform(alloc, text, out)
}

/// Carries out the lines of a text without a fault.
fn perform<W: Write>(alloc: Global, text: &str, out: &mut W) -> Result<(), Failure>
    requires { IsOk (run_of text.now) }
    ensures done { OnOk result (IsWritten text.now (W.contents out.old) (W.contents out.new)) }
    ensures explains { IfErr result (λ failure. Explains text.now failure × Leaves failure out.old out.new) }
{
    let mut run = Run::new(alloc)?;
    for (number, line) in Lines::of(text) {
        if is_passed_over(line) {
            continue;
        }
        let said = match read_line(line) {
            Ok(said) => said,
            Err(fault) => {
                return Err(Failure::Faulty(LineFault {
                    line: number,
                    fault,
                }));
            }
        };
        carry_out(&mut run, &said, out)?;
    }
    out.flush()?;
    Ok(())
}

/// Carries out a line, and writes its answer or the picture.
fn carry_out<W: Write>(run: &mut Run, line: &PairLine, out: &mut W) -> io::Result<()>
    ensures { OnOk result ((text : List ℕ) × Writes run.old line.now text run.new × Appends (W.contents out.old) (W.contents out.new) text) }
{
    match line {
        PairLine::Event(event) => out.writeln(run.event(event)),
        PairLine::Flow(length) => out.writeln(run.flow(*length)),
        PairLine::Picture => out.writeln(Picture::of(&run.pair)),
    }
}
