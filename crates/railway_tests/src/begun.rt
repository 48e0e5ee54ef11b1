//! A line that begins: which line, which files, what they have, and that no second token comes where a call fails or the power is cut.

use crate::read::{RAILWAY, STATION};
use crate::told::texts;
use line_begin::{
    Asked, Name, NoLine, NotBegun, Place, Refusal, Side, Verdict, begin, confirmation,
    end_file_name, line_named, look,
};
use railway_check::railway_layout::read_text;
use std::alloc::Global;
use std::process::Abort;
use whole_file::{MemoryPlace, keep};

/// The files of a line L that has begun.
const FIRST: &str = "line L\nside first\ntoken here\nlock left\nend\n";

const SECOND: &str = "line L\nside second\ntoken away\nlock left\nend\n";

/// Files that may stand there when it begins again.
const OLD_FIRST: &str = "line L\nside first\ntoken away\nlock left\nend\n";

const OLD_SECOND: &str = "line L\nside second\ntoken here\nlock right\nend\n";

/// What is typed then.
const TYPED: &str =
    "no route onto or from line L is set, their lamps are dark, and both ends are stopped";

/// The name of the line.
fn line() -> Option<Name> {
    Name::of(b"L")
}

/// A place at which this file is on disk, or none.
fn place(alloc: Global, file: &str) -> Option<MemoryPlace> {
    let mut place = MemoryPlace::new(alloc);
    if !file.is_empty() {
        keep(&mut place, file.as_bytes()).ok()?;
    }
    Some(place)
}

/// Whether this is found at a place.
fn has(place: &MemoryPlace, file: &str) -> bool {
    match place.read() {
        Ok(Some(bytes)) => bytes.as_slice() == file.as_bytes(),
        Ok(None) => file.is_empty(),
        Err(_) => false,
    }
}

/// How a line is asked to begin: anew where nothing is typed.
fn asked<'a>(first: &MemoryPlace, second: &MemoryPlace, typed: &'a str) -> Asked<'a> {
    if typed.is_empty() {
        Asked::New(look(first), look(second))
    } else {
        Asked::Again(typed)
    }
}

/// What comes of it, in a word.
fn word(begun: &Result<(), NotBegun>) -> &'static str {
    match begun {
        Ok(()) => "begun",
        Err(NotBegun::Refused(Refusal::There(Side::First))) => "first there",
        Err(NotBegun::Refused(Refusal::There(Side::Second))) => "second there",
        Err(NotBegun::Refused(Refusal::Unconfirmed)) => "unconfirmed",
        Err(NotBegun::Refused(_)) => "unseen",
        Err(NotBegun::NotKept(Side::First, _)) => "first not kept",
        Err(NotBegun::NotKept(Side::Second, _)) => "second not kept",
    }
}

/// The files that are there, what is typed, what comes of it, and the files that are there then.
const BEGINNINGS: &[(&str, &str, &str, &str, &str, &str)] = &[
    ("", "", "", "begun", FIRST, SECOND),
    (OLD_FIRST, "", "", "first there", OLD_FIRST, ""),
    ("", "line", "", "second there", "", "line"),
    (OLD_FIRST, OLD_SECOND, TYPED, "begun", FIRST, SECOND),
    ("", "", TYPED, "begun", FIRST, SECOND),
    (
        OLD_FIRST,
        OLD_SECOND,
        "no route onto or from line M is set, their lamps are dark, and both ends are stopped",
        "unconfirmed",
        OLD_FIRST,
        OLD_SECOND,
    ),
    (
        OLD_FIRST,
        OLD_SECOND,
        "yes",
        "unconfirmed",
        OLD_FIRST,
        OLD_SECOND,
    ),
];

/// Whether a line begins so.
fn begins_so(alloc: Global, row: &(&str, &str, &str, &str, &str, &str)) -> Option<bool> {
    let (first, second, typed, told, first_then, second_then) = *row;
    let mut first = place(alloc, first)?;
    let mut second = place(alloc, second)?;
    let asked = asked(&first, &second, typed);
    let begun = begin(&mut first, &mut second, &line()?, asked);
    Some(word(&begun) == told && has(&first, first_then) && has(&second, second_then))
}

#[test]
fn a_line_begins(rt: HostRuntime) {
    for row in BEGINNINGS {
        assert!(rt;
            begins_so(rt.alloc(), row) == Some(true),
            "{} {}",
            row.0,
            row.2
        );
    }
}

/// How many of the two files say that the token is there.
fn tokens(first: &MemoryPlace, second: &MemoryPlace) -> u8 {
    let here = has(first, FIRST) as u8;
    let there = has(second, OLD_SECOND) as u8;
    here + there
}

/// Whether no second token comes where so many calls are done at each place, and the power is cut then. The call that fails has its
/// effect all the same where `happens`.
fn is_cut_off(alloc: Global, first_done: u32, second_done: u32, happens: bool) -> Option<bool> {
    let mut first = place(alloc, OLD_FIRST)?;
    let mut second = place(alloc, OLD_SECOND)?;
    first.fail_after(first_done, happens);
    second.fail_after(second_done, happens);
    let begun = begin(&mut first, &mut second, &line()?, Asked::Again(TYPED));
    let before = tokens(&first, &second);
    first.cut_power(b"").ok()?;
    second.cut_power(b"").ok()?;
    Some(
        begun.is_err() == (first_done < 4 || second_done < 4)
            && before < 2
            && tokens(&first, &second) < 2,
    )
}

/// The same for each number of calls at both places.
fn are_cut_off(alloc: Global, happens: bool) -> Option<bool> {
    for calls in 0..25u32 {
        if !is_cut_off(alloc, calls / 5, calls % 5, happens)? {
            return Some(false);
        }
    }
    Some(true)
}

#[test]
fn no_second_token_comes(rt: HostRuntime) {
    assert!(rt; are_cut_off(rt.alloc(), false) == Some(true));
    assert!(rt; are_cut_off(rt.alloc(), true) == Some(true));
}

/// A check that ends so.
fn verdict(alloc: Global, status: u8) -> Verdict {
    Verdict {
        status,
        out: Vec::new(alloc),
        err: Vec::new(alloc),
    }
}

/// What is found of a line in a railway of two stations, of which the check of the second ends so.
fn found(alloc: Global, railway: &str, status: u8, name: &str) -> Option<&'static str> {
    let railway = read_text(alloc, railway).ok()?;
    let layouts = texts(alloc, &[&[STATION], &[STATION]])?;
    if layouts.len() != railway.stations.len() {
        return None;
    }
    let mut verdicts = Vec::new(alloc);
    verdicts.push(verdict(alloc, 0)).ok()?;
    verdicts.push(verdict(alloc, status)).ok()?;
    Some(
        match line_named(alloc, &railway, &layouts, &verdicts, name) {
            Ok(line) => {
                if line.first.id == 901 {
                    "line"
                } else {
                    "another line"
                }
            }
            Err(NoLine::Faulty(_)) => "faulty",
            Err(NoLine::Unknown) => "unknown",
            Err(NoLine::OutOfMemory) => "out of memory",
        },
    )
}

#[test]
fn a_line_is_found(rt: HostRuntime) {
    let alloc = rt.alloc();
    assert!(rt; found(alloc, RAILWAY, 0, "L") == Some("line"));
    assert!(rt; found(alloc, RAILWAY, 0, "M") == Some("unknown"));
    assert!(rt; found(alloc, RAILWAY, 1, "L") == Some("faulty"));
    assert!(rt; found(alloc, ONE_STATION, 0, "L") == Some("faulty"));
}

/// The same railway, with both ends of its line at one station.
const ONE_STATION: &str =
    r#"station = [{ name = "A", layout = "a.toml" }, { name = "B", layout = "b.toml" }]
[[line]]
name = "L"
first = { station = "A", border = "E", lock = "K", clear = "GL", part = ["GA", "GX", "GW"], id = 901 }
second = { station = "A", border = "E", lock = "K", clear = "GL", part = ["GW", "GA"], id = 902 }
"#;

/// Whether these are the name of the file of a line's end, and what is to be typed for this line.
fn are_named(alloc: Global, station: &str, file: &str) -> Option<bool> {
    let line = line()?;
    let name = end_file_name(alloc, &line, &Name::of(station.as_bytes())?).ok()?;
    Some(name.as_str() == file && confirmation(&line).as_slice() == TYPED.as_bytes())
}

#[test]
fn files_are_named_by_line_and_station(rt: HostRuntime) {
    assert!(rt; are_named(rt.alloc(), "A", "L.A.end") == Some(true));
    assert!(rt; are_named(rt.alloc(), "a-1", "L.a-1.end") == Some(true));
}
