//! An end of a line as it runs.

ghost use Rattle.std.specs.Prelude.{◌≡◌, ◌+◌, ◌*◌, ◌<◌, ◌≤◌, ◌^◌, ◌++◌, ◌⊎◌, false, IfNone, IfSome, Some, None, length};
ghost use Rattle.std.specs.Vec.{vec_len, vec_capacity};
ghost use Rattle.line_laws.specs.End.{file_of};
ghost use Rattle.line_world.specs.Events.{is_at_work, occasion_of};
ghost use Rattle.line_world.specs.Happens.{end_later, end_looked, file_after, process_after};
ghost use Rattle.line_world.specs.Promise.{tells_clear};
ghost use Rattle.line_world.specs.inside.AtWork.{all_sent, handed_out};

use crate::ending::Ending;
use crate::flying::{Flying, send_all};
use line_end::Kept;
use line_host::{Input, LineHost, Millis, Seen};
use rasta_core::MICROS;
use std::marker::Model;

/// An end of a line as it runs: its process, none where that has ended, what its file has, and its exact clock.
#[derive(Drop)]
pub(crate) struct EndRun {
    process: Option<LineHost>,
    kept: Kept,
    /// In microseconds.
    clock: u64,
}

impl Model for EndRun {
    ghost use Rattle.line_world.specs.State as spec;
    ghost use Rattle.line_world.specs.inside.AtWork.{IsAtWork};
    ghost use Rattle.std.specs.Prelude.{IfSome};

    ghost Value = { spec.EndRun };

    ghost view = { λ e. record { process = e.process; file = e.kept; clock = e.clock } };

    ghost invariant = { λ e. IfSome e.process (IsAtWork e.clock e.kept) };
}

impl EndRun {
    /// An end whose process has just begun from its file, with its clock in milliseconds.
    pub(crate) fn new(process: LineHost, kept: Kept, clock: Millis) -> EndRun
        requires fits { clock * 1000 < 2 ^ 64 }
        requires clock { process.talk.link.clock ≤ clock }
        requires going { process.over ≡ false }
        requires kept { kept ≡ file_of process.end.end }
        ensures { result ≡ record { process = Some process; file = kept; clock = clock * 1000 } }
    {
        EndRun {
            process: Some(process),
            kept,
            clock: clock * MICROS,
        }
    }

    /// Whether its process runs.
    pub(crate) fn is_at_work(&self) -> bool
        ensures { result ≡ is_at_work self.now }
    {
        self.process.is_some()
    }

    /// What its file has on disk.
    pub(crate) fn kept(&self) -> Kept
        ensures { result ≡ self.now.file }
    {
        self.kept
    }

    /// Its exact clock, in microseconds.
    pub(crate) fn clock(&self) -> u64
        ensures { result ≡ self.now.clock }
    {
        self.clock
    }

    /// Whether it tells its station that the line is clear.
    pub(crate) fn tells_clear(&self) -> bool
        ensures { result ≡ tells_clear self.now }
    {
        match &self.process {
            Some(process) => match process.report() {
                Some(report) => report.clear,
                None => false,
            },
            None => false,
        }
    }

    /// Its clock goes on, in microseconds.
    pub(crate) fn pass(&mut self, elapsed: u64)
        requires { self.old.clock + elapsed < 2 ^ 64 }
        ensures { self.new ≡ end_later elapsed self.old }
    {
        self.clock += elapsed;
    }

    /// Its process makes a step at its clock, if it has one, and its file is kept, if it is to be. What the step hands out is still
    /// there.
    fn step(&mut self, input: &Input, seen: &Seen)
        ensures end { IfSome self.old.process (λ process. self.new ≡ record self.old { process = Some (process_after (occasion_of input.now) seen.now self.old process); file = file_after (occasion_of input.now) seen.now self.old process }) }
        ensures few { length (handed_out self.new.process) ≤ 44 }
        ensures ended { IfNone self.old.process (self.new ≡ self.old) }
        ensures lock { (self.new.file.lock ≡ self.old.file.lock) ⊎ (seen.now.drive ≡ Some self.new.file.lock) }
    {
        let now = self.clock / MICROS;
        if let Some(process) = &mut self.process {
            match process.step_kept_by_caller(now, input, seen) {
                Some(kept) => self.kept = kept,
                None => {}
            }
        }
    }

    /// What its process handed out is sent.
    fn send(&mut self, flying: &mut Vec<Flying>)
        requires { vec_len flying.old + length (handed_out self.old.process) ≤ vec_capacity flying.old }
        ensures end { self.new ≡ all_sent self.old }
        ensures flying { flying.new.items ≡ flying.old.items ++ handed_out self.old.process }
        ensures len { vec_len flying.new ≡ vec_len flying.old + length (handed_out self.old.process) }
        ensures capacity { vec_capacity flying.new ≡ vec_capacity flying.old }
    {
        if let Some(process) = &mut self.process {
            send_all(process, flying);
        }
    }

    /// Its process ends.
    fn end(&mut self)
        ensures { self.new ≡ record self.old { process = None } }
    {
        self.process = None;
    }

    /// It looks. Where its process has ended nothing happens.
    #[tactic(auto, unfolding(crate::specs::Happens::end_looked))]
    pub(crate) fn look(
        &mut self,
        input: &Input,
        seen: &Seen,
        ending: Ending,
        flying: &mut Vec<Flying>,
    )
        requires { vec_len flying.old + 44 ≤ vec_capacity flying.old }
        ensures end { self.new ≡ (end_looked (occasion_of input.now) seen.now ending self.old).end }
        ensures flying { flying.new.items ≡ flying.old.items ++ (end_looked (occasion_of input.now) seen.now ending self.old).sent }
        ensures lock { (self.new.file.lock ≡ self.old.file.lock) ⊎ (seen.now.drive ≡ Some self.new.file.lock) }
        ensures len { vec_len flying.new ≤ vec_len flying.old + 44 }
        ensures capacity { vec_capacity flying.new ≡ vec_capacity flying.old }
    {
        match ending {
            Ending::Whole => {
                self.step(input, seen);
                self.send(flying);
            }
            Ending::Unwritten => self.end(),
            Ending::Written => {
                self.step(input, seen);
                self.end();
            }
        }
    }
}
