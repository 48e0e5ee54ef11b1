//! Lines and a session are answered as they should be, or want of memory is told: with all memory, with any one allocation
//! refused, and with all refused from any one on. So nothing here takes memory but what is tried, and the room for answers.

use station_run::{replay_text, sim_text};
use std::alloc::Global;

/// One track with a route over it.
const LAYOUT: &str = "section = [\"GA\"]
track = [{name=\"A1\",section=\"GA\"}]
point = []
border = [\"W\", \"E\"]
joint = [[\"W.end\",\"A1.a\"], [\"A1.b\",\"E.end\"]]
signal = [{name=\"S1\",id=2,at=\"W.end\"}]
detector = [{name=\"D1\",id=3,sections=[\"GA\"]}]
route = [{name=\"R1\",entry=\"S1\",exit=\"E\",path=[\"A1.b\"],points={}}]
[station]
name = \"IXL1\"
id = 1
";

/// An event, the same once more, and what is seen then.
const LINES: &str = "occupy GA\noccupy GA\npicture\n";

/// The statuses and answers that may come. An event that lacks memory changes nothing: given again, it answers as it would
/// have.
const ANSWERS: [(u8, &str); 6] = [
    (
        0,
        "ok\nok\ntime 0\nsignal S1 stop -\nsection GA occupied\nroute R1 free\nsafe\n",
    ),
    (
        0,
        "no 6\nok\ntime 0\nsignal S1 stop -\nsection GA occupied\nroute R1 free\nsafe\n",
    ),
    (1, "ok\nok\n"),
    (1, "no 6\nok\n"),
    (1, "no 6\nno 6\n"),
    (1, ""),
];

/// The same events as they were recorded.
const SESSION: &str = "occupy GA = ok\noccupy GA = ok\n";

const VERDICTS: [(u8, &str); 2] = [(0, "same\n"), (1, "")];

/// What is told where memory is lacking.
const LACKING: [&str; 5] = [
    "out of memory\n",
    "session fault 7 at line 1\n",
    "session fault 7 at line 2\n",
    "layout fault 8 OutOfMemory\n",
    "table fault 10 OutOfMemory\n",
];

/// Whether want of memory was told.
fn is_lacking(told: &[u8]) -> bool {
    for line in LACKING {
        if line.as_bytes() == told {
            return true;
        }
    }
    false
}

/// Whether this status and this answer may come, and nothing is told but want of memory with status 1.
fn may_come(answers: &[(u8, &str)], status: u8, out: &[u8], err: &[u8]) -> bool {
    for (wanted, answer) in answers {
        if *wanted == status && answer.as_bytes() == out {
            return if status == 0 {
                err.is_empty()
            } else {
                is_lacking(err)
            };
        }
    }
    false
}

/// Whether lines are answered as they may be.
fn are_lines_answered(
    alloc: Global,
    lines: &str,
    layout: &str,
    out: &mut Vec<u8>,
    err: &mut Vec<u8>,
) -> bool {
    let status = sim_text(alloc, layout, lines, out, err);
    may_come(&ANSWERS, status, out.as_slice(), err.as_slice())
}

/// Whether a session is answered as it may be.
fn is_session_answered(
    alloc: Global,
    session: &str,
    layout: &str,
    out: &mut Vec<u8>,
    err: &mut Vec<u8>,
) -> bool {
    let status = replay_text(alloc, layout, session, out, err);
    may_come(&VERDICTS, status, out.as_slice(), err.as_slice())
}

#[test]
fn texts_are_answered_or_want_of_memory_is_told(rt: HostRuntime) {
    let out: Result<_, _> = Vec::with_capacity(rt.alloc(), 128);
    let err: Result<_, _> = Vec::with_capacity(rt.alloc(), 64);
    let (Ok(mut out), Ok(mut err)) = (out, err) else {
        return;
    };
    assert!(rt; are_lines_answered(rt.alloc(), LINES, LAYOUT, &mut out, &mut err));
    out.clear();
    err.clear();
    assert!(rt; is_session_answered(rt.alloc(), SESSION, LAYOUT, &mut out, &mut err));
}
