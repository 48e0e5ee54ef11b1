//! A line of a file, carried out on a station.

ghost use Rattle.std.specs.Prelude.{ℕ, List, IfErr, OnOk};
ghost use Rattle.std.specs.Io.KnownBytes.{Appends};
ghost use Rattle.simulator.specs.World.{IsPicture};
ghost use Rattle.station_check.specs.Failures.{IsLate};
ghost use Rattle.replay.specs.Transcript.{Writes, answer_line, feed};
ghost use Rattle.replay.specs.inside.Runs.{flowing_of};

use crate::run::Run;
use replay_lines::{AnswerText, SimLine};
use simulator::{Answer, Refused};
use station_check::Failure;
use std::alloc::Global;
use std::io::Write;

/// Carries out a line, and writes its answer or the picture.
pub(crate) fn carry_out<W: Write>(
    alloc: Global,
    run: &mut Run,
    line: &SimLine,
    out: &mut W,
) -> Result<(), Failure>
    ensures done { OnOk result ((text : List ℕ) × Writes (flowing_of run.old) line.now text (flowing_of run.new) × Appends (W.contents out.old) (W.contents out.new) text) }
    ensures failed { IfErr result IsLate }
{
    match line {
        // So the station has begun.
        SimLine::Begins(_) => write_answer(run, Ok(Answer::Done), out),
        SimLine::Event(event) => {
            let answer = run.event(event);
            write_answer(run, answer, out)
        }
        SimLine::Flow(length) => {
            let answer = run.flow(alloc, *length);
            write_answer(run, answer, out)
        }
        SimLine::Picture => write_picture(alloc, run, out),
    }
}

/// Writes an answer.
fn write_answer<W: Write>(
    run: &Run,
    answer: Result<Answer, Refused>,
    out: &mut W,
) -> Result<(), Failure>
    ensures done { OnOk result (Appends (W.contents out.old) (W.contents out.new) (answer_line answer (flowing_of run.now))) }
    ensures failed { IfErr result IsLate }
{
    let layout = run.world.table().layout();
    out.writeln(AnswerText { layout, answer })?;
    Ok(())
}

/// Writes the picture.
fn write_picture<W: Write>(alloc: Global, run: &Run, out: &mut W) -> Result<(), Failure>
    ensures done { OnOk result ((text : List ℕ) × IsPicture run.now.world.sited run.now.world.run text × Appends (W.contents out.old) (W.contents out.new) (feed text)) }
    ensures failed { IfErr result IsLate }
{
    let picture = run.world.picture(alloc)?;
    out.writeln(picture.as_str())?;
    Ok(())
}
