//! What a check says of a railway, by what the checks of its layouts say.

use crate::read::{RAILWAY, STATION};
use crate::told::texts;
use railway_check::railway_layout::{is_railway, read_text};
use railway_check::{Verdict, layout_file, railway_verdict, text_verdict};
use std::alloc::Global;
use std::process::Abort;

/// A railway, the pieces of its layouts, what the check of each layout says, whether faults are explained, and what is said then.
#[derive(Clone, Copy)]
struct Row {
    railway: &'static str,
    layouts: &'static [&'static [&'static str]],
    verdicts: &'static [(u8, &'static str)],
    explained: bool,
    status: u8,
    out: &'static str,
    err: &'static str,
}

/// A verdict: where nothing is wrong this is the report, else it is what is wrong.
fn verdict(alloc: Global, said: &(u8, &str)) -> Option<Verdict> {
    let (status, text) = *said;
    let text = Vec::from_slice(alloc, text.as_bytes()).ok()?;
    Some(if status == 0 {
        Verdict {
            status,
            out: text,
            err: Vec::new(alloc),
        }
    } else {
        Verdict {
            status,
            out: Vec::new(alloc),
            err: text,
        }
    })
}

/// Some verdicts.
fn verdicts(alloc: Global, said: &[(u8, &str)]) -> Option<Vec<Verdict>> {
    let mut verdicts = Vec::new(alloc);
    for one in said {
        verdicts.push(verdict(alloc, one)?).ok()?;
    }
    Some(verdicts)
}

/// What is said of a railway. None where memory is lacking.
fn said(alloc: Global, row: &Row) -> Option<Verdict> {
    let written = match read_text(alloc, row.railway) {
        Ok(written) => written,
        Err(fault) => return text_verdict(alloc, &fault, row.explained).ok(),
    };
    let layouts = texts(alloc, row.layouts)?;
    if layouts.len() != written.stations.len() {
        return None;
    }
    let verdicts = verdicts(alloc, row.verdicts)?;
    railway_verdict(alloc, &written, &layouts, &verdicts, row.explained).ok()
}

/// Whether a row has this verdict.
fn has(row: &Row, verdict: &Verdict) -> bool {
    verdict.status == row.status
        && verdict.out.as_slice() == row.out.as_bytes()
        && verdict.err.as_slice() == row.err.as_bytes()
}

/// Checks that what is said of a railway is what its row has. Otherwise it tells what is said to be wrong.
fn check(rt: &impl Abort, alloc: Global, row: &Row) {
    let verdict = said(alloc, row).expect(rt, "there is memory");
    let err = str::from_utf8(&verdict.err).unwrap_or("no text");
    assert!(rt; has(row, &verdict), "{err}");
}

/// The railway with both ends of its line at one border.
const ONE_BORDER: &str =
    r#"station = [{ name = "A", layout = "a.toml" }, { name = "B", layout = "b.toml" }]
[[line]]
name = "A"
first = { station = "A", border = "E", lock = "K", clear = "GL", part = ["GA", "GX"], id = 1 }
second = { station = "A", border = "E", lock = "K", clear = "GL", part = ["GA", "GX"], id = 2 }
"#;

/// Railways that could be read.
const RAILWAYS: &[Row] = &[
    Row {
        railway: RAILWAY,
        layouts: &[&[STATION], &[STATION]],
        verdicts: &[(0, "ok: of A\n"), (0, "ok: of B\n")],
        explained: true,
        status: 0,
        out: "station A a.toml
ok: of A
station B b.toml
ok: of B
ok: 2 stations, 1 lines
line L: A at E, B at E
",
        err: "",
    },
    Row {
        railway: RAILWAY,
        layouts: &[&["="], &[STATION]],
        verdicts: &[(1, "layout fault 1 Toml\n"), (0, "ok: of B\n")],
        explained: false,
        status: 1,
        out: "station B b.toml
ok: of B
",
        err: "station A a.toml
layout fault 1 Toml
railway fault 8 Unseen at line 1 first
",
    },
    Row {
        railway: ONE_BORDER,
        layouts: &[&[STATION], &[STATION]],
        verdicts: &[(0, "ok: of A\n"), (0, "ok: of B\n")],
        explained: true,
        status: 1,
        out: "station A a.toml
ok: of A
station B b.toml
ok: of B
",
        err: "railway fault 4 DoubleName at line 1: A
line A: stations and lines have names of their own, and a part has each section once
railway fault 9 SameStation at line 1
line A: a line joins two stations
",
    },
];

#[test]
fn a_railway_is_judged(rt: HostRuntime) {
    for row in RAILWAYS {
        check(&rt, rt.alloc(), row);
    }
}

/// Texts that are no railway's, and what is said of each.
const TEXTS: &[(&str, &str)] = &[
    (
        "line = []",
        "railway fault 2 MissingKey at station 0
the key `station` is missing: it has to be an array of tables
",
    ),
    (
        "station = [{ name = 'A' }]\nline = []",
        "railway fault 2 MissingKey at station 1
entry 1 of `station` lacks a key: it has to be a table with `name`, up to 20 letters, digits and hyphens, and `layout`, the file of its layout
",
    ),
    (
        "station = []\nline = [1]",
        "railway fault 3 WrongKind at line 1
entry 1 of `line` is or has a value of another kind or form: it has to be a table with `name`, up to 20 letters, digits and hyphens, and `first` and `second`, the tables of its two ends
",
    ),
    (
        "station = []\nline = [{ name = 'L', first = {} }]",
        "railway fault 2 MissingKey at line 1 first
`first` of entry 1 of `line` is missing, or lacks a key: it has to be a table with `station`, `border`, `lock` and `clear`, which are names, `part`, an array of names, and `id`, from 1 to 4294967295
",
    ),
];

#[test]
fn a_text_that_is_no_railway_is_explained(rt: HostRuntime) {
    for (railway, err) in TEXTS {
        let row = Row {
            railway,
            layouts: &[],
            verdicts: &[],
            explained: true,
            status: 1,
            out: "",
            err,
        };
        check(&rt, rt.alloc(), &row);
    }
}

/// Texts, and whether they are a railway's.
const KINDS: &[(&str, bool)] = &[
    ("", false),
    ("line = [", false),
    ("line = 1", true),
    ("station = []", false),
    (STATION, false),
    (RAILWAY, true),
];

#[test]
fn a_text_with_lines_is_a_railway(rt: HostRuntime) {
    for (text, wanted) in KINDS {
        let is = is_railway(rt.alloc(), text).expect(&rt, "there is memory");
        assert!(rt; is == *wanted, "{text}");
    }
}

/// The file of a railway, what its text calls a layout, and the file of this.
const FILES: &[(&str, &str, &str)] = &[
    ("railway.toml", "a.toml", "a.toml"),
    ("-", "a.toml", "a.toml"),
    ("x/railway.toml", "a.toml", "x/a.toml"),
    ("/railway.toml", "../a.toml", "/../a.toml"),
    ("x/railway.toml", "/y/a.toml", "/y/a.toml"),
];

#[test]
fn a_layout_lies_beside_its_railway(rt: HostRuntime) {
    for (railway, layout, wanted) in FILES {
        let file = layout_file(rt.alloc(), railway, layout).expect(&rt, "there is memory");
        assert!(rt; file.as_str() == *wanted, "{file}");
    }
}
