//! A small station that runs.

use crate::command_bench::expect_of;
use crate::run_bench::{
    Drive, Left, SMALL, Told, is_same, lacks_delivery, run_over_memory, run_over_sockets,
    whole_lines,
};
use station_run::{RunFiles, RunOptions};
use std::alloc::{AllocError, Global};
use std::fs::File;
use std::ops::Range;
use std::process::Abort;
use std::time::Duration;
use std::{fs, thread};

/// The picture after 12000 ms, where R1 was set in the tenth millisecond of the ninth second.
const PICTURE: &str = "time 12000
signal S1 proceed R1
signal S3 stop -
signal S4 stop -
point P1 right
section GA clear
section GP clear
section G1 clear
section G2 clear
route R1 set
route R2 free
route R3 free
safe
";

/// R1 is set in the round after the one in which the restart hold is ended.
const SCRIPT: &str = "at 8000 resume\nat 8010 set R1\n";

pub(crate) const WHOLE: Drive<'static> = Drive {
    layout: SMALL,
    script: SCRIPT,
    begins: 10_000,
    for_ms: 12_000,
    stops: u64::MAX,
    room: usize::MAX,
    failing: 0,
};

/// Whether a run whose record has no more room failed, and left a beginning of the whole record, which answers the same again.
fn is_cut(alloc: Global, left: &Left, whole: &[u8], room: usize) -> bool {
    left.status == 1
        && left.out.is_empty()
        && left.err.as_slice() == b"cannot run\n".as_slice()
        && left.record.len() == room
        && whole.starts_with(&left.record)
        && is_same(alloc, whole_lines(&left.record))
}

/// For how many bytes of a record there is room.
const ROOMS: [usize; 4] = [0, 1, 3000, 100_007];

// A route is set and its record answers the same again.
#[test]
fn a_run_over_memory_is_recorded(rt: HostRuntime) {
    let whole = run_over_memory(&rt, rt.alloc(), WHOLE);
    assert!(rt; whole.status == 0 && whole.err.is_empty());
    assert!(rt; whole.out.as_slice() == PICTURE.as_bytes());
    assert!(rt; is_same(rt.alloc(), &whole.record));
    for room in &ROOMS {
        let drive = Drive {
            room: *room,
            ..WHOLE
        };
        let left = run_over_memory(&rt, rt.alloc(), drive);
        let is_cut = is_cut(rt.alloc(), &left, &whole.record, *room);
        assert!(rt; is_cut, "room for {room} bytes");
    }
}

/// The links open in the second round, and R1 is set as soon as they are ready.
const OPENING: Drive<'static> = Drive {
    script: "at 6060 resume\nat 6070 set R1\n",
    begins: 5_990_000,
    for_ms: 7000,
    ..WHOLE
};

/// Whether one call of a network failed and the record replays as the same session. Where it isn't that of a run in which none fails,
/// it differs first by a delivery that isn't there.
fn lacks_at_most_a_delivery(alloc: Global, left: &Left, whole: &[u8]) -> bool {
    left.status == 0
        && left.faults == 1
        && left.err.is_empty()
        && is_same(alloc, &left.record)
        && (left.record.as_slice() == whole || lacks_delivery(&left.record, whole))
}

/// Runs the station while one call of its network fails, and answers whether its record differs from that of a run in which none fails.
fn fail_one(rt: &impl Abort, alloc: Global, whole: &[u8], failing: u64) -> bool {
    let left = run_over_memory(rt, alloc, Drive { failing, ..OPENING });
    assert!(rt;
        lacks_at_most_a_delivery(alloc, &left, whole),
        "where call {failing} fails"
    );
    left.record.as_slice() != whole
}

/// Runs the station once for each call of some that fails, counted from 0 at the first that sends. It answers how many records differ
/// from that of a run in which none fails.
fn fail_each(rt: &impl Abort, alloc: Global, calls: Range<u64>) -> u64 {
    let whole = run_over_memory(rt, alloc, OPENING);
    assert!(rt; (whole.status, whole.faults) == (0, 0));
    assert!(rt; whole.out.starts_with(b"time 7000\nsignal S1 proceed R1\n"));
    let mut differing: u64 = 0;
    for call in calls {
        let failing = whole.first_sent.saturating_add(call);
        let differs = fail_one(rt, alloc, &whole.record, failing);
        differing = differing.saturating_add(u64::from(differs));
    }
    differing
}

// 300 calls are those of some 40 rounds. They are dealt to several tests, since each test has a minute.
#[test]
fn a_call_that_fails_shows_in_a_missing_delivery_alone(rt: HostRuntime) {
    assert!(rt; fail_each(&rt, rt.alloc(), 0..60) > 0);
}

#[test]
fn so_does_one_of_the_next_60_calls(rt: HostRuntime) {
    fail_each(&rt, rt.alloc(), 60..120);
}

#[test]
fn so_does_one_from_the_121st_to_the_180th(rt: HostRuntime) {
    fail_each(&rt, rt.alloc(), 120..180);
}

#[test]
fn so_does_one_from_the_181st_to_the_240th(rt: HostRuntime) {
    fail_each(&rt, rt.alloc(), 180..240);
}

#[test]
fn so_does_one_from_the_241st_to_the_300th(rt: HostRuntime) {
    fail_each(&rt, rt.alloc(), 240..300);
}

/// A record that is never written, since nothing is opened.
const UNWRITTEN: &str = "unwritten";

/// R1 is set a while after the hold.
const LATE_SCRIPT: &str = "at 8000 resume\nat 8100 set R1\n";

/// What is asked of the small station, with a record.
const fn asked(record: &str) -> RunOptions<'_> {
    RunOptions {
        layout: SMALL,
        script: LATE_SCRIPT,
        record,
        for_ms: 12_000,
        files: RunFiles {
            record_size: None,
            stop_file: None,
        },
    }
}

/// A track with a route that leaves it by the wrong end.
const BROKEN: &str = r#"section = ["GA"]
track = [{name="A1",section="GA"}]
point = []
border = ["W", "E"]
joint = [["W.end","A1.a"], ["A1.b","E.end"]]
signal = [{name="S1",id=2,at="W.end"}]
detector = [{name="D1",id=3,sections=["GA"]}]
route = [{name="R1",entry="S1",exit="E",path=["A1.a"],points={}}]
[station]
name = "IXL1"
id = 1
"#;

/// A layout, a script and a record, and what is told.
type Failed = (&'static str, &'static str, &'static str, &'static str);

/// Layouts, scripts and records of runs that fail, with what is told. The layout is judged before the script, and the script before
/// anything is opened. No record is written in a folder that isn't there, in place of a folder, or on a disk without room.
const FAILED: &[Failed] = &[
    ("section = ", "at", UNWRITTEN, "layout fault 1 Toml\n"),
    (
        BROKEN,
        "at",
        UNWRITTEN,
        "table fault 1 PathBroken at route R1\n",
    ),
    (
        SMALL,
        "at 0 tick S1",
        UNWRITTEN,
        "session fault 1 at line 1\n",
    ),
    (
        SMALL,
        "at 0 resume\nat 0 occupy R1",
        UNWRITTEN,
        "session fault 2 at line 2\n",
    ),
    (
        SMALL,
        "at 500 resume\nat 400 set R1\n",
        UNWRITTEN,
        "session fault 6 at line 2\n",
    ),
    (SMALL, LATE_SCRIPT, "no/such/folder/record", "cannot run\n"),
    (SMALL, LATE_SCRIPT, ".", "cannot run\n"),
    (SMALL, LATE_SCRIPT, "/dev/full", "cannot run\n"),
];

/// Whether a run fails, and tells just this text.
fn is_told(rt: &HostRuntime, asked: &RunOptions<'_>, text: &str) -> bool {
    let told = run_over_sockets(rt, asked);
    told.status == 1 && told.out.is_empty() && told.err.as_slice() == text.as_bytes()
}

/// Takes every file that the system gives to a program.
fn take_all_files(rt: &HostRuntime) -> Result<Vec<File>, AllocError> {
    let mut files = Vec::new(rt.alloc());
    for _ in 0..10_000_000 {
        match File::open(rt, "/dev/null") {
            Ok(file) => files.push(file)?,
            Err(_) => break,
        }
    }
    Ok(files)
}

/// Whether a run fails where the system gives no sockets.
fn needs_sockets(rt: &HostRuntime) -> bool {
    let files = take_all_files(rt);
    let is_told = is_told(rt, &asked(UNWRITTEN), "cannot run\n");
    files.is_ok() && is_told
}

/// The first of these texts that isn't told, if one isn't.
fn first_untold(rt: &HostRuntime, failed: &[Failed]) -> Option<&'static str> {
    for (layout, script, record, text) in failed {
        let asked = RunOptions {
            layout: *layout,
            script: *script,
            ..asked(*record)
        };
        if !is_told(rt, &asked, *text) {
            return Some(*text);
        }
    }
    None
}

#[test]
fn why_a_run_fails_is_told(rt: HostRuntime) {
    let untold = first_untold(&rt, FAILED);
    expect_of(&rt, untold.is_none(), &[untold.unwrap_or("")]);
    assert!(rt; needs_sockets(&rt));
    assert!(rt; fs::read_to_string(&rt, UNWRITTEN).is_err());
}

/// The record of a run, as far as it is written after some seconds; nothing where it can't be read.
fn seen_after(rt: &HostRuntime, seconds: u64, record: &str) -> Vec<u8> {
    thread::sleep(rt, Duration::from_secs(seconds));
    read(rt, record)
}

/// What is written in a file; nothing where it can't be read.
pub(crate) fn read(rt: &HostRuntime, file: &str) -> Vec<u8> {
    fs::read(rt, file).unwrap_or(Vec::new(rt.alloc()))
}

/// Whether a run of 12000 ms came to its end, with a record that answers the same again. Its file is removed.
fn is_whole(rt: &HostRuntime, told: &Told, record: &str) -> bool {
    let written = read(rt, record);
    told.status == 0
        && told.out.starts_with(b"time 1")
        && told.out.ends_with(b"\nsafe\n")
        && told.err.is_empty()
        && is_same(rt.alloc(), &written)
        && fs::remove_file(rt, record).is_ok()
}

/// Whether what is left of a run that is stopped in between is a beginning of its record that answers the same again.
fn is_beginning(rt: &HostRuntime, seen: &[u8], record: &str) -> bool {
    let written = read(rt, record);
    !seen.is_empty() && written.starts_with(seen) && is_same(rt.alloc(), whole_lines(seen))
}

// Two runs at once, and what is left of one of them if it is stopped in between.
#[test]
fn two_runs_over_sockets_are_recorded(rt: HostRuntime) {
    let ((one, other), seen) = thread::join(
        &rt,
        || {
            thread::join(
                &rt,
                || run_over_sockets(&rt, &asked("one")),
                || run_over_sockets(&rt, &asked("other")),
            )
        },
        || seen_after(&rt, 5, "one"),
    );
    assert!(rt; is_beginning(&rt, &seen, "one"));
    assert!(rt; is_whole(&rt, &one, "one"));
    assert!(rt; is_whole(&rt, &other, "other"));
}
