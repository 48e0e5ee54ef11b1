//! Runs that a file ends, and records in parts.

use crate::run_bench::{Drive, SMALL, is_same, run_over_memory, run_over_sockets};
use crate::runs::{WHOLE, read};
use run_files::{InParts, PartFiles, PartsFault, file_there, record_file, with_further_parts};
use station_command::{Failure, files_of};
use station_run::{RunFiles, RunOptions};
use std::alloc::Global;
use std::io::Write;
use std::time::Duration;
use std::{fs, io, thread};

/// Parts over memory. At most three bytes are taken at once.
#[derive(Drop)]
struct Shelf {
    alloc: Global,
    parts: Vec<Vec<u8>>,
}

impl PartFiles for Shelf {
    ghost use Rattle.std.specs.Prelude.{None};

    ghost parts = { λ _. None };

    fn begin(&mut self) -> io::Result<()> {
        self.parts.push(Vec::new(self.alloc))?;
        Ok(())
    }

    fn append(&mut self, bytes: &[u8]) -> io::Result<usize> {
        let (front, _) = bytes.split_at(bytes.len().min(3));
        if self.parts.is_empty() {
            self.parts.push(Vec::new(self.alloc))?;
        }
        match self.parts.last_mut() {
            Some(last) => last.extend_from_slice(front)?,
            None => return Ok(0),
        }
        Ok(front.len())
    }

    fn flush(&mut self) -> io::Result<()> {
        if self.parts.len() < 3 {
            return Err(io::Error::from(io::ErrorKind::StorageFull));
        }
        Ok(())
    }
}

/// A writer in parts of four bytes, over memory.
fn writer_over_memory(alloc: Global) -> InParts<Shelf> {
    let parts = Vec::new(alloc);
    InParts::new(Shelf { alloc, parts }, 4)
}

#[test]
fn parts_end_with_lines(rt: HostRuntime) {
    let mut writer = writer_over_memory(rt.alloc());
    assert!(rt; writer.write_all(b"a\nbcdef\n").is_ok());
    assert!(rt; writer.flush().is_err());
    assert!(rt; writer.write_all(b"g\n\n\nhi").is_ok());
    // "a\nbcdef\n", "g\n\n\n" and "hi"
    assert!(rt; writer.flush().is_ok());
}

/// Whether a file has just this text.
fn has(rt: &HostRuntime, file: &str, text: &str) -> bool {
    read(rt, file).as_slice() == text.as_bytes()
}

/// The text of a record with all its parts.
fn text_of(rt: &HostRuntime, record: &str) -> Result<String, PartsFault> {
    match fs::read_to_string(rt, record) {
        Ok(first) => with_further_parts(rt, record, first),
        Err(_) => Err(PartsFault::OutOfMemory),
    }
}

/// Whether a record has just this text with all its parts.
fn has_text(found: &Result<String, PartsFault>, text: &str) -> bool {
    match found {
        Ok(read) => read.as_str() == text,
        Err(_) => false,
    }
}

/// The part that is said to end within a line.
fn cut_part(found: &Result<String, PartsFault>) -> &str {
    match found {
        Err(PartsFault::CutOff(name)) => name.as_str(),
        _ => "",
    }
}

/// The part that is said to be missing.
fn missing_part(found: &Result<String, PartsFault>) -> &str {
    match found {
        Err(PartsFault::Missing(name)) => name.as_str(),
        _ => "",
    }
}

/// Writes a record in parts of four bytes.
fn write_parts(rt: &HostRuntime, text: &[u8]) -> io::Result<()> {
    let mut record = record_file(rt, "parts", Some(4))?;
    record.write_all(text)
}

/// Whether these lines stand in a record of three parts.
fn stand_in_parts(rt: &HostRuntime) -> bool {
    let written = write_parts(rt, b"one\ntwo, three\nfo").is_ok();
    let found = text_of(rt, "parts");
    written
        && has(rt, "parts", "one\n")
        && has(rt, "parts.2", "two, three\n")
        && has(rt, "parts.3", "fo")
        && has_text(&found, "one\ntwo, three\nfo")
}

/// Whether a part that is cut is told by its name.
fn is_cut_told(rt: &HostRuntime) -> bool {
    let cut = fs::write(rt, "parts.2", b"tw").is_ok();
    let found = text_of(rt, "parts");
    cut && cut_part(&found) == "parts.2"
}

/// Whether a part that is missing is told by its name.
fn is_missing_told(rt: &HostRuntime) -> bool {
    let gone = fs::remove_file(rt, "parts.2").is_ok();
    let found = text_of(rt, "parts");
    gone && missing_part(&found) == "parts.2"
}

#[test]
fn parts_are_read_again(rt: HostRuntime) {
    assert!(rt; stand_in_parts(&rt));
    assert!(rt; is_cut_told(&rt));
    assert!(rt; is_missing_told(&rt));
    // A record that is there isn't written over in parts, and is without them.
    assert!(rt; record_file(&rt, "parts", Some(4)).is_err());
    assert!(rt; record_file(&rt, "parts", None).is_ok() && has(&rt, "parts", ""));
    assert!(rt; matches!(file_there(&rt, "parts"), Ok(Some(_))));
}

/// A run over memory that is stopped where its clock reads so many microseconds.
const fn stopped(stops: u64) -> Drive<'static> {
    Drive { stops, ..WHOLE }
}

#[test]
fn a_stopped_run_is_one_of_its_time(rt: HostRuntime) {
    let stopped = run_over_memory(&rt, rt.alloc(), stopped(500_000));
    let timed = Drive {
        for_ms: 500,
        ..WHOLE
    };
    let timed = run_over_memory(&rt, rt.alloc(), timed);
    assert!(rt; (stopped.status, timed.status) == (0, 0));
    assert!(rt; !timed.record.is_empty() && stopped.record.as_slice() == timed.record.as_slice());
    assert!(rt; stopped.out.as_slice() == timed.out.as_slice());
}

/// A run for twelve seconds, with a record in parts, that a file ends.
const ENDED: RunOptions<'static> = RunOptions {
    layout: SMALL,
    script: "",
    record: "run",
    for_ms: 12_000,
    files: RunFiles {
        record_size: Some(4096),
        stop_file: Some("end"),
    },
};

/// Makes the file that ends the run, after two seconds.
fn end(rt: &HostRuntime) -> bool {
    thread::sleep(rt, Duration::from_secs(2));
    fs::write(rt, "end", b"").is_ok()
}

/// Whether a record with all its parts is the same once more.
fn is_record_same(rt: &HostRuntime, record: &str) -> bool {
    match &text_of(rt, record) {
        Ok(text) => is_same(rt.alloc(), text.as_str().as_bytes()),
        Err(_) => false,
    }
}

#[test]
fn a_file_ends_a_run(rt: HostRuntime) {
    let (told, made) = thread::join(&rt, || run_over_sockets(&rt, &ENDED), || end(&rt));
    assert!(rt; made && told.status == 0 && told.err.is_empty());
    // It went on for less than ten of its twelve seconds, and more than one.
    assert!(rt; told.out.starts_with(b"time ") && told.out.get(9) == Some(&b'\n'));
    assert!(rt; fs::read_to_string(&rt, "run.3").is_ok());
    assert!(rt; is_record_same(&rt, "run"));
}

/// What a run with these files is told.
fn refusal(rt: &HostRuntime, record: Option<&str>, size: Option<u64>, stop: &str) -> u8 {
    let files = RunFiles {
        record_size: size,
        stop_file: Some(stop),
    };
    match files_of(rt, record, files) {
        Ok(_) => 0,
        Err(Failure::StopFile(_)) => 1,
        Err(Failure::PartThere(_)) => 2,
        Err(Failure::NoRecord) => 3,
        Err(_) => 4,
    }
}

#[test]
fn a_run_does_not_begin_over_its_files(rt: HostRuntime) {
    assert!(rt; fs::write(&rt, "there", b"").is_ok() && fs::write(&rt, "r.2", b"").is_ok());
    assert!(rt; refusal(&rt, None, None, "there") == 1);
    assert!(rt; refusal(&rt, Some("there"), Some(4096), "none") == 2);
    assert!(rt; refusal(&rt, Some("r"), Some(4096), "none") == 2);
    assert!(rt; refusal(&rt, None, Some(4096), "none") == 3);
    assert!(rt; refusal(&rt, Some("there"), None, "none") == 0);
}
