//! An event is applied, what it adds is sent, and its line is recorded.

ghost use Rattle.std.specs.Prelude.{◌≡◌, ◌↔◌, IsTrue, Err, [], ◌∷◌, IfOk, OnOk, OnErr, map, drop, take, string_bytes, ℕ};
ghost use Rattle.std.specs.Io.KnownBytes.{Appends};
ghost use Rattle.std.specs.Option.{option_map};
ghost use Rattle.replay_lines.specs.Answers.{answer_text};
ghost use Rattle.simulator_event.specs.refused.Refused.TheVariants as refused;
ghost use Rattle.station_drive.specs.Told.{Carried, Sends};
ghost use Rattle.station_drive.specs.Doings.{Applying, recorded_line};
ghost use Rattle.station_drive.specs.Engines.{EnginePerforms, EngineStops};

use crate::datagrams::Datagrams;
use crate::engine::Engine;
use crate::fault::DriveFault;
use control_table::Checked;
use replay_lines::{AnswerText, recorded, write_event};
use replay_words::write_as_taken;
use simulator_event::{Answer, Event, Refused, Station};
use std::alloc::{AllocError, Global};
use std::io::Write;

impl<S: Station, N: Datagrams, W: Write> Engine<S, N, W> {
    /// Applies an event, sends the datagrams that it adds, and records it with its answer.
    pub(crate) fn perform(&mut self, event: &Event) -> Result<(), DriveFault>
        ensures done { OnOk result (EnginePerforms S.Station N.Datagrams (Applying event.now ∷ []) self.old self.new) }
        ensures stopped { OnErr result (EngineStops S.Station N.Datagrams (Applying event.now ∷ []) self.old self.new) }
    {
        let line = write_event(self.alloc, self.station.table(), event)?;
        let before = self.station.sent_count();
        let answer = recorded(self.station.apply(event));
        if lacks_memory(answer) {
            return Err(DriveFault::OutOfMemory);
        }
        send_from(&self.station, &mut self.net, before);
        write_line(
            self.alloc,
            self.station.table(),
            line,
            answer,
            &mut self.recorder,
        )
    }

    /// What was written is handed on.
    pub(crate) fn flush(&mut self) -> Result<(), DriveFault>
        ensures { EnginePerforms S.Station N.Datagrams [] self.old self.new }
    {
        match self.recorder.flush() {
            Ok(()) => Ok(()),
            Err(_) => Err(DriveFault::WriteFailed),
        }
    }
}

/// Whether memory was lacking for an event.
fn lacks_memory(answer: Result<Answer, Refused>) -> bool
    ensures { IsTrue result ↔ (answer ≡ Err refused.OutOfMemory) }
{
    matches!(answer, Err(Refused::OutOfMemory))
}

/// Sends the datagrams from a place on. Where the network fails they are lost.
fn send_from<S: Station, N: Datagrams>(station: &S, net: &mut N, first: usize)
    ensures { Carried N.carries (N.told net.old) (N.told net.new) (map (λ one. Sends one.0 one.1) (drop first (S.does.sent (S.state station.now)))) }
{
    for place in first..station.sent_count() {
        let Some(outgoing) = station.sent_at(place) else {
            continue;
        };
        let _ = net.send(outgoing.to, outgoing.bytes);
    }
}

/// The line of an event with its answer; nothing where the event has none.
fn whole_line(
    alloc: Global,
    table: &Checked,
    line: Option<String>,
    answer: Result<Answer, Refused>,
) -> Result<String, AllocError>
    ensures { IfOk result (λ text. string_bytes text ≡ recorded_line (option_map string_bytes line) (answer_text table.now answer)) }
{
    let layout = table.layout();
    let answer = AnswerText { layout, answer };
    match line {
        Some(line) => format!(in alloc; "{line} = {answer}\n"),
        None => String::from_str(alloc, ""),
    }
}

/// Records the line of an event with its answer. Where that fails a beginning of it was written.
fn write_line<W: Write>(
    alloc: Global,
    table: &Checked,
    line: Option<String>,
    answer: Result<Answer, Refused>,
    recorder: &mut W,
) -> Result<(), DriveFault>
    ensures done { OnOk result (Appends (W.contents recorder.old) (W.contents recorder.new) (recorded_line (option_map string_bytes line) (answer_text table.now answer))) }
    ensures stopped { OnErr result ((taken : ℕ) × Appends (W.contents recorder.old) (W.contents recorder.new) (take taken (recorded_line (option_map string_bytes line) (answer_text table.now answer)))) }
{
    let text = whole_line(alloc, table, line, answer)?;
    let bytes = text.as_str().as_bytes();
    if write_as_taken(bytes, recorder) < bytes.len() {
        return Err(DriveFault::WriteFailed);
    }
    Ok(())
}
