//! The text of a railway: what it writes, and the first fault of one that writes something else.

use crate::told::told;
use std::process::Abort;

/// Two stations of one shape, and the line between them.
pub(crate) const RAILWAY: &str = r#"[[station]]
name = "A"
layout = "a.toml"

[[station]]
name = "B"
layout = "b.toml"

[[line]]
name = "L"
first = { station = "A", border = "E", lock = "K", clear = "GL", part = ["GA", "GX", "GW"], id = 901 }
second = { station = "B", border = "E", lock = "K", clear = "GL", part = ["GW", "GA"], id = 902 }
"#;

/// The layout of both.
pub(crate) const STATION: &str = r#"section = ["G1", "G2", "GW", "GX", "GA", "GL"]
border = ["B1", "B2", "E"]
joint = [
  ["B1.end", "T1.a"], ["T1.b", "W.left"],
  ["B2.end", "T2.a"], ["T2.b", "W.right"],
  ["W.tip", "X.a"], ["X.b", "K.tip"],
  ["K.right", "LO.a"], ["LO.b", "E.end"],
  ["K.left", "LI.a"],
]
track = [
  { name = "T1", section = "G1" }, { name = "T2", section = "G2" }, { name = "X", section = "GX" },
  { name = "LO", section = "GL" }, { name = "LI", section = "GA" },
]
point = [{ name = "W", id = 10, section = "GW" }, { name = "K", id = 11, section = "GX" }]
signal = [
  { name = "N1", id = 2, at = "T1.b" }, { name = "N2", id = 3, at = "T2.b" },
  { name = "F", id = 4, at = "LI.a" }, { name = "FX", id = 5, at = "LO.a" },
]
detector = [{ name = "D1", id = 20, sections = ["G1", "G2", "GW", "GX", "GA"] }, { name = "DL", id = 21, sections = ["GL"] }]
route = [
  { name = "N1-E", entry = "N1", exit = "E", path = ["W.tip", "X.b", "K.right", "LO.b"], points = { W = "left", K = "right" }, approach = ["G1"] },
  { name = "N2-E", entry = "N2", exit = "E", path = ["W.tip", "X.b", "K.right", "LO.b"], points = { W = "right", K = "right" }, approach = ["G2"] },
  { name = "F-1", entry = "F", exit = "B1", path = ["K.tip", "X.a", "W.left", "T1.a"], points = { K = "left", W = "left" }, approach = ["GA"] },
  { name = "F-2", entry = "F", exit = "B2", path = ["K.tip", "X.a", "W.right", "T2.a"], points = { K = "left", W = "right" }, approach = ["GA"] },
]
[station]
name = "AA"
id = 1
"#;

/// What stands where, counted from 0.
const PLACES: &str = "L
station 0 border 2 lock 1 clear 5 id 901 part 4 3 2
station 1 border 2 lock 1 clear 5 id 902 part 2 4
";

#[test]
fn a_railway_is_read(rt: HostRuntime) {
    let layouts: &[&[&str]] = &[&[STATION], &[STATION]];
    let told = told(rt.alloc(), RAILWAY, layouts).expect(&rt, "there is memory");
    assert!(rt; told.as_str() == PLACES, "{told}");
}

/// Texts that are no railway's, and their first faults.
const FAULTY: &[(&str, &str)] = &[
    ("line = [", "1 Toml\n"),
    ("line = []", "2 MissingKey at station 0\n"),
    ("station = []", "2 MissingKey at line 0\n"),
    ("station = {}\nline = 1", "3 WrongKind at station 0\n"),
    ("station = [{ name = 'A' }]", "2 MissingKey at station 1\n"),
    (
        "station = [{ name = 'A', layout = 'a' }, { name = 'A B', layout = 'b' }]",
        "3 WrongKind at station 2\n",
    ),
    (
        "station = []\nline = [{ first = {}, second = {} }]",
        "2 MissingKey at line 1\n",
    ),
    (
        "station = []\nline = [{ name = 'L', first = {} }]",
        "2 MissingKey at line 1 first\n",
    ),
    (
        "station = []\n[[line]]\nname = 'L'\nfirst = { station = 'A', border = 'E', lock = 'K', clear = 'G', part = [], id = 4294967295 }\nsecond = { station = 'B', border = 'E', lock = 'K', clear = 'G', part = ['G', 1] }",
        "3 WrongKind at line 1 second\n",
    ),
    (
        "station = []\n[[line]]\nname = 'L'\nfirst = { station = 'A', border = 'E', lock = 'K', clear = 'G', part = [], id = 0 }",
        "3 WrongKind at line 1 first\n",
    ),
    (
        "station = []\n[[line]]\nname = 'L'\nfirst = { station = 'A', border = 'E', lock = 'K', clear = 'G', part = [], id = 4294967296 }",
        "3 WrongKind at line 1 first\n",
    ),
];

#[test]
fn the_first_fault_of_a_text_is_told(rt: HostRuntime) {
    for (railway, fault) in FAULTY {
        let told = told(rt.alloc(), railway, &[]).expect(&rt, "there is memory");
        assert!(rt; told.as_str() == *fault, "{told}");
    }
}
