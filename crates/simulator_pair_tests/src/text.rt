//! Texts whose run lacks memory, or a writer. A run is made again where memory is lacking, so the tests also hold with any one
//! allocation refused: it then ends with status 1 and says so, or answers `no 6` to a line and goes on.

use arrayvec::ArrayVec;
use replay_words::Fault;
use simulator_pair_text::{Failure, LineFault, pair_text, tell};
use std::alloc::{AllocError, Global};
use std::io::Write;
use std::process::Abort;
use std::{io, str};

/// A text, in which a line stands so many times between two parts: the first part, the line, how often, and the last part.
type Text = (&'static str, &'static str, usize, &'static str);

/// The lines of a run whose answers are known: the client opens at 6000 ms, and both ends are up at 6030.
const FIRST_RUN: &str = "flow 6030
give C 04
flow 10
picture
time 1769000
picture
time 1000
picture
";

const FIRST_ANSWERS: &str = "ok
accepted
ok
time 6040
lamp proceed
C up given 1 taken 0
S up given 0 taken 1
ok
time 7809
lamp proceed
C closed given 1 taken 0
S up given 0 taken 1
ok
time 7810
lamp stop
C closed given 1 taken 0
S closed given 0 taken 1
";

/// A text of each kind of line that no flow stands in.
const FORMS: &str = "time 0010 S=10
time 1000 C=1001
time 1000 C=1002
time 9000000000000000
tick C
deliver S -
deliver C aBcD
lose 00
close S 5
restart C 9000000000000 4294967295
give S 0401";

const ANSWERS_OF_FORMS: &str = "ok
ok
no 3
no 5
ok
ok
ok
no 2
ok
ok
refused 1
";

const WHOLE: &str = "time 46030
lamp proceed
C up given 2000 taken 0
S up given 0 taken 2000
";

/// What a text is answered, the status, and what is told of a failure.
const RUNS: &[(Text, Text, u8, &str)] = &[
    ((FIRST_RUN, "", 0, ""), (FIRST_ANSWERS, "", 0, ""), 0, ""),
    ((FORMS, "", 0, ""), (ANSWERS_OF_FORMS, "", 0, ""), 0, ""),
    (
        ("flow 10\n\n# a comment\ntick\npicture C\n", "", 0, ""),
        ("", "", 0, ""),
        1,
        "session fault 1 at line 4\n",
    ),
    (("", "tick C\n", 20000, ""), ("", "ok\n", 20000, ""), 0, ""),
    // The server's heartbeats come every 300 ms, so at most 17 items wait for a confirmation.
    (
        ("flow 6030\n", "give C 04\nflow 20\n", 2000, "picture\n"),
        ("ok\n", "accepted\nok\n", 2000, WHOLE),
        0,
        "",
    ),
];

fn once(alloc: Global, text: Text) -> Result<String, AllocError> {
    let (first, line, count, last) = text;
    let mut text = String::from_str(alloc, first)?;
    for _ in 0..count {
        text.push_str(line)?;
    }
    text.push_str(last)?;
    Ok(text)
}

/// A text; where memory is lacking it is asked for once more.
fn made(rt: &impl Abort, alloc: Global, text: Text) -> String {
    match once(alloc, text) {
        Ok(text) => text,
        Err(_) => once(alloc, text).expect(rt, "there is memory"),
    }
}

/// How a run ended, and what it told by a writer that needs no memory.
#[derive(Drop)]
struct Ended {
    status: u8,
    told: ArrayVec<u8, 64>,
}

/// Runs a text whose answers go to this writer.
fn run<W: Write>(alloc: Global, text: &str, out: &mut W) -> Ended {
    let mut told = ArrayVec::new();
    let status = pair_text(alloc, text, out, &mut told);
    Ended { status, told }
}

/// Whether an answer is that an event lacked memory.
fn has_no_6(answers: &[u8]) -> bool {
    match str::from_utf8(answers) {
        Ok(answers) => answers.contains("no 6\n"),
        Err(_) => false,
    }
}

impl Ended {
    fn is(&self, status: u8, told: &str) -> bool {
        self.status == status && self.told.as_slice() == told.as_bytes()
    }

    /// Whether the run had no memory for something, or its writer had none.
    fn lacks_memory(&self, answers: &[u8]) -> bool {
        self.is(1, "out of memory\n") || self.is(1, "") || has_no_6(answers)
    }
}

/// What comes out of the run of a text.
#[derive(Drop)]
struct Written {
    ended: Ended,
    out: Vec<u8>,
}

fn write(alloc: Global, text: &str) -> Written {
    let mut out = Vec::new(alloc);
    let ended = run(alloc, text, &mut out);
    Written { ended, out }
}

/// What comes out of the run of a text, where it has the memory for it.
fn write_with_memory(rt: &impl Abort, alloc: Global, text: &str) -> Written {
    let first = write(alloc, text);
    if !first.ended.lacks_memory(&first.out) {
        return first;
    }
    let again = write(alloc, text);
    assert!(rt; !again.ended.lacks_memory(&again.out), "there is memory");
    again
}

#[test]
fn texts_are_answered_where_memory_was_lacking_once(rt: HostRuntime) {
    for row in RUNS {
        let (text, answers, status, told) = *row;
        let text = made(&rt, rt.alloc(), text);
        let answers = made(&rt, rt.alloc(), answers);
        let run = write_with_memory(&rt, rt.alloc(), text.as_str());
        assert!(rt; run.ended.is(status, told));
        assert!(rt; run.out.as_slice() == answers.as_bytes());
    }
}

/// A writer that takes what it has room for, and can't pass it on.
#[derive(Drop)]
struct Stuck {
    taken: ArrayVec<u8, 512>,
}

impl Write for Stuck {
    fn write(&mut self, buf: &[u8]) -> io::Result<usize> {
        self.taken.write(buf)
    }

    fn flush(&mut self) -> io::Result<()> {
        Err(io::Error::from(io::ErrorKind::BrokenPipe))
    }
}

/// A run whose answers are all taken, if it had the memory to make them.
fn run_stuck(alloc: Global) -> Option<Ended> {
    let mut out = Stuck {
        taken: ArrayVec::new(),
    };
    let ended = run(alloc, FIRST_RUN, &mut out);
    let has_all = out.taken.as_slice() == FIRST_ANSWERS.as_bytes();
    has_all.then_some(ended)
}

#[test]
fn answers_that_are_not_passed_on_have_status_1(rt: HostRuntime) {
    let ended = match run_stuck(rt.alloc()) {
        Some(ended) => ended,
        None => run_stuck(rt.alloc()).expect(&rt, "there is memory"),
    };
    assert!(rt; ended.is(1, ""));
}

/// What is told of a failure.
fn line_of(failure: &Failure) -> ArrayVec<u8, 64> {
    let mut told = ArrayVec::new();
    tell(failure, &mut told);
    told
}

/// What is told of a fault of the last line that a text can have.
fn line_of_fault(fault: Fault) -> ArrayVec<u8, 64> {
    let line = u64::MAX;
    line_of(&Failure::Faulty(LineFault { line, fault }))
}

const FAULTS: &[(Fault, &str)] = &[
    (
        Fault::Words,
        "session fault 1 at line 18446744073709551615\n",
    ),
    (
        Fault::Name,
        "session fault 2 at line 18446744073709551615\n",
    ),
    (
        Fault::Number,
        "session fault 3 at line 18446744073709551615\n",
    ),
    (
        Fault::Hexadecimal,
        "session fault 4 at line 18446744073709551615\n",
    ),
    (
        Fault::Answer,
        "session fault 5 at line 18446744073709551615\n",
    ),
    (
        Fault::Order,
        "session fault 6 at line 18446744073709551615\n",
    ),
    (
        Fault::Memory,
        "session fault 7 at line 18446744073709551615\n",
    ),
];

#[test]
fn failures_have_their_lines_and_a_failed_write_none(rt: HostRuntime) {
    for (fault, line) in FAULTS {
        assert!(rt; line_of_fault(*fault).as_slice() == line.as_bytes());
    }
    assert!(rt; line_of(&Failure::NotWritten).is_empty());
    assert!(rt; line_of(&Failure::OutOfMemory).as_slice() == b"out of memory\n".as_slice());
}
