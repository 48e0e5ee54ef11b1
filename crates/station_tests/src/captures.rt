//! A capture of a session in a file of its own.

use crate::command_bench::expect_of;
use crate::run_bench::SMALL;
use crate::runs::read;
use station_run::station_record::{CaptureOptions, capture_session, capture_to_file};
use std::alloc::Global;
use std::fs;

/// The file of the tests' capture.
const OUT: &str = "capture";

/// The interlocking asks each of its five controllers for a connection.
const SESSION: &str = "time 6000000 = ok\ntick IXL1 = ok\n";

/// A session with a line that isn't one, of which a capture is to be written over another.
const FAULTY: CaptureOptions<'static> = CaptureOptions {
    layout: SMALL,
    recording: "tick IXL1",
    endpoints: &[],
    out: OUT,
    force: true,
};

/// What is told where a file is there, and where it can't be written.
const EXISTS: &str = "capture fault 2 Exists\n";

const UNWRITTEN: &str = "cannot write\n";

/// What is asked of the session, with a file to which its capture goes.
const fn asked(out: &str, force: bool) -> CaptureOptions<'_> {
    CaptureOptions {
        layout: SMALL,
        recording: SESSION,
        endpoints: &[],
        out,
        force,
    }
}

/// Whether a capture ends with this status, and just this text is told.
fn ends(rt: &HostRuntime, asked: &CaptureOptions<'_>, status: u8, text: &str) -> bool {
    let mut err = Vec::new(rt.alloc());
    let ended = capture_to_file(rt, asked, &mut err);
    ended == status && err.as_slice() == text.as_bytes()
}

/// The bytes of a session's capture.
fn capture(alloc: Global, layout: &str, session: &str) -> Vec<u8> {
    let (mut out, mut err) = (Vec::new(alloc), Vec::new(alloc));
    capture_session(alloc, layout, session, &[], &mut out, &mut err);
    out
}

/// Whether the file of the capture has these bytes.
fn holds(rt: &HostRuntime, bytes: &[u8]) -> bool {
    let written = read(rt, OUT);
    written.as_slice() == bytes
}

#[test]
fn a_capture_is_written_over_where_that_is_wanted(rt: HostRuntime) {
    let capture = capture(rt.alloc(), SMALL, SESSION);
    assert!(rt; ends(&rt, &asked(OUT, false), 0, ""));
    assert!(rt; capture.len() == 608 && holds(&rt, &capture));
    assert!(rt; fs::write(&rt, OUT, b"kept").is_ok());
    assert!(rt; ends(&rt, &asked(OUT, false), 1, EXISTS));
    assert!(rt; ends(&rt, &FAULTY, 1, "session fault 1 at line 1\n"));
    assert!(rt; holds(&rt, b"kept"));
    assert!(rt; ends(&rt, &asked(OUT, true), 0, ""));
    assert!(rt; holds(&rt, &capture));
    assert!(rt; fs::remove_file(&rt, OUT).is_ok());
}

/// Paths of which none can be written: in a folder that isn't there, a folder, and a disk without room. Two of them are there.
const NO_CAPTURES: [(&str, bool, &str); 6] = [
    ("no/such/folder/capture", false, UNWRITTEN),
    ("no/such/folder/capture", true, UNWRITTEN),
    (".", false, EXISTS),
    (".", true, UNWRITTEN),
    ("/dev/full", false, EXISTS),
    ("/dev/full", true, UNWRITTEN),
];

#[test]
fn what_cannot_be_written_is_told(rt: HostRuntime) {
    for (out, force, text) in &NO_CAPTURES {
        let is_so = ends(&rt, &asked(*out, *force), 1, *text);
        expect_of(&rt, is_so, &[*out, *text]);
    }
}
