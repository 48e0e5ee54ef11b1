//! Faulty railways, and all that is told of each.

use crate::told::told;
use std::process::Abort;

/// The tracks of a station, whose line begins at the border W.
const TRACK: &str = r#"border = ["B", "W"]
joint = [["B.end", "T.a"], ["T.b", "X.a"], ["X.b", "K.tip"], ["K.right", "LO.a"], ["LO.b", "W.end"], ["K.left", "LI.a"]]
track = [
  { name = "T", section = "G1" }, { name = "X", section = "GX" },
  { name = "LO", section = "GL" }, { name = "LI", section = "GA" },
]
point = [{ name = "K", id = 10, section = "GX" }]
signal = [{ name = "N", id = 2, at = "T.b" }, { name = "F", id = 3, at = "LI.a" }, { name = "FX", id = 4, at = "LO.a" }]
station = { name = "CC", id = 1 }
"#;

/// Its sections, and what reports them.
const DETECTORS: &str = r#"section = ["G1", "GX", "GA", "GL"]
detector = [{ name = "D1", id = 20, sections = ["G1", "GX", "GA"] }, { name = "DL", id = 21, sections = ["GL"] }]
"#;

/// The route onto the line, and one in.
const OUT: &str = r#"[[route]]
name = "N-W"
entry = "N"
exit = "W"
path = ["X.b", "K.right", "LO.b"]
points = { K = "right" }
approach = ["G1"]
"#;

const IN: &str = r#"[[route]]
name = "F-B"
entry = "F"
exit = "B"
path = ["K.tip", "X.a", "T.a"]
points = { K = "left" }
approach = ["GA"]
"#;

/// The whole station.
const WHOLE: &[&str] = &[DETECTORS, TRACK, OUT, IN];

/// Two of them, and the line between them.
const LINE: &str = r#"station = [{ name = "A", layout = "a" }, { name = "B", layout = "b" }]
[[line]]
name = "L"
first = { station = "A", border = "W", lock = "K", clear = "GL", part = ["GA", "GX"], id = 1 }
second = { station = "B", border = "W", lock = "K", clear = "GL", part = ["GA"], id = 2 }
"#;

/// A railway, the pieces of its layouts, and what is told.
struct Row {
    railway: &'static str,
    layouts: &'static [&'static [&'static str]],
    told: &'static str,
}

/// At each of these one rule of names is broken, or several are.
const NAMES: &[Row] = &[
    Row {
        railway: r#"station = [{ name = "A", layout = "a" }, { name = "A", layout = "b" }]
line = [
  { name = "A", first = { station = "A", border = "W", lock = "K", clear = "GL", part = ["GA"], id = 9 }, second = { station = "A", border = "X", lock = "Y", clear = "Z", part = ["GA", "GA", "Q"], id = 9 } },
  { name = "M", first = { station = "D", border = "W", lock = "K", clear = "GL", part = ["GA"], id = 1 }, second = { station = "A", border = "W", lock = "K", clear = "GL", part = ["GA"], id = 2 } },
]"#,
        layouts: &[WHOLE, WHOLE],
        told: "4 DoubleName at station 2: A
4 DoubleName at line 1: A
9 SameStation at line 1
10 DoubleId at line 1
7 UnknownName at line 1 second: X
7 UnknownName at line 1 second: Y
7 UnknownName at line 1 second: Z
4 DoubleName at line 1 second: GA
7 UnknownName at line 1 second: Q
7 UnknownName at line 2 first: D
11 DoubleBorder at line 2 second
",
    },
    Row {
        railway: r#"station = [{ name = "A", layout = "a" }, { name = "B", layout = "b" }]
line = [
  { name = "L", first = { station = "A", border = "W", lock = "K", clear = "GL", part = ["GA"], id = 1 }, second = { station = "B", border = "W", lock = "K", clear = "GL", part = ["GA"], id = 2 } },
  { name = "L", first = { station = "B", border = "W", lock = "K", clear = "GL", part = ["GA"], id = 1 }, second = { station = "A", border = "W", lock = "K", clear = "GL", part = ["GA"], id = 2 } },
]"#,
        layouts: &[WHOLE, WHOLE],
        told: "4 DoubleName at line 2: L
11 DoubleBorder at line 2 first
11 DoubleBorder at line 2 second
",
    },
    Row {
        railway: LINE,
        layouts: &[&["="], &[DETECTORS, TRACK, OUT, IN, "[[route]]"]],
        told: "5 Layout at station 1: 1 Toml
5 Layout at station 2: 2 MissingKey at route 3
8 Unseen at line 1 first
8 Unseen at line 1 second
",
    },
];

/// The route onto the line, without its point.
const POINTLESS: &str = r#"[[route]]
name = "N-W"
entry = "N"
exit = "W"
path = ["X.b", "K.right", "LO.b"]
points = {}
approach = ["G1"]
"#;

/// A route that comes in over the right leg of the lock.
const IN_AT_THE_RIGHT: &str = r#"[[route]]
name = "FX-B"
entry = "FX"
exit = "B"
path = ["K.tip", "X.a", "T.a"]
points = { K = "right" }
approach = ["GL"]
"#;

/// A signal at the far end of the track at the left leg, and the route to it: it leads onto the line with the lock at the left.
const TRACK_WITH_EXIT: &str = r#"border = ["B", "W"]
joint = [["B.end", "T.a"], ["T.b", "X.a"], ["X.b", "K.tip"], ["K.right", "LO.a"], ["LO.b", "W.end"], ["K.left", "LI.a"]]
track = [
  { name = "T", section = "G1" }, { name = "X", section = "GX" },
  { name = "LO", section = "GL" }, { name = "LI", section = "GA" },
]
point = [{ name = "K", id = 10, section = "GX" }]
signal = [{ name = "N", id = 2, at = "T.b" }, { name = "F", id = 3, at = "LI.a" }, { name = "FX", id = 4, at = "LO.a" }, { name = "Z", id = 5, at = "LI.b" }]
station = { name = "CC", id = 1 }
"#;

const OUT_AT_THE_LEFT: &str = r#"[[route]]
name = "N-Z"
entry = "N"
exit = "Z"
path = ["X.b", "K.left", "LI.b"]
points = { K = "left" }
approach = ["G1"]
"#;

/// Two tracks between lock and border, and a signal between them: so the route from there doesn't lead over the lock.
const TWO_TRACKS: &str = r#"border = ["B", "W"]
joint = [["B.end", "T.a"], ["T.b", "X.a"], ["X.b", "K.tip"], ["K.right", "LO.a"], ["LO.b", "LP.a"], ["LP.b", "W.end"], ["K.left", "LI.a"]]
track = [
  { name = "T", section = "G1" }, { name = "X", section = "GX" },
  { name = "LO", section = "GX" }, { name = "LP", section = "GL" }, { name = "LI", section = "GA" },
]
point = [{ name = "K", id = 10, section = "GX" }]
signal = [{ name = "N", id = 2, at = "T.b" }, { name = "F", id = 3, at = "LI.a" }, { name = "FX", id = 4, at = "LO.a" }, { name = "Z", id = 5, at = "LO.b" }]
station = { name = "CC", id = 1 }
"#;

const OUT_BEHIND_THE_LOCK: &str = r#"[[route]]
name = "Z-W"
entry = "Z"
exit = "W"
path = ["LP.b"]
points = {}
approach = ["GX"]
"#;

/// A point between the lock and the border.
const SWITCHED: &str = r#"border = ["B", "W", "S"]
joint = [["B.end", "T.a"], ["T.b", "X.a"], ["X.b", "K.tip"], ["K.right", "LO.a"], ["LO.b", "P.tip"], ["P.left", "W.end"], ["P.right", "S.end"], ["K.left", "LI.a"]]
track = [
  { name = "T", section = "G1" }, { name = "X", section = "GX" },
  { name = "LO", section = "GL" }, { name = "LI", section = "GA" },
]
point = [{ name = "K", id = 10, section = "GX" }, { name = "P", id = 11, section = "GL" }]
signal = [{ name = "N", id = 2, at = "T.b" }, { name = "F", id = 3, at = "LI.a" }, { name = "FX", id = 4, at = "LO.a" }]
station = { name = "CC", id = 1 }
"#;

/// The sections, all reported by one detector.
const ONE_DETECTOR: &str = r#"section = ["G1", "GX", "GA", "GL"]
detector = [{ name = "D1", id = 20, sections = ["GL", "G1", "GX", "GA"] }]
"#;

/// At each of these the first end breaks rules, and the second end none.
const RULES: &[Row] = &[
    Row {
        railway: LINE,
        layouts: &[&[DETECTORS, TRACK, POINTLESS, IN], WHOLE],
        told: "6 Table at station 1: 3 PointMissing at route N-W\n8 Unseen at line 1 first\n",
    },
    Row {
        railway: LINE,
        layouts: &[&[DETECTORS, TRACK, OUT, IN_AT_THE_RIGHT], WHOLE],
        told: "14 LockNotLeft at line 1 first: route FX-B\n15 NoRouteIn at line 1 first\n",
    },
    Row {
        railway: LINE,
        layouts: &[
            &[DETECTORS, TRACK_WITH_EXIT, OUT, IN, OUT_AT_THE_LEFT],
            WHOLE,
        ],
        told: "13 LockNotRight at line 1 first: route N-Z\n",
    },
    Row {
        railway: LINE,
        layouts: &[&[DETECTORS, TWO_TRACKS, OUT_BEHIND_THE_LOCK, IN], WHOLE],
        told: "13 LockNotRight at line 1 first: route Z-W\n",
    },
    Row {
        railway: LINE,
        layouts: &[&[DETECTORS, SWITCHED, IN], WHOLE],
        told: "12 NotJoined at line 1 first\n",
    },
    Row {
        railway: LINE,
        layouts: &[&[ONE_DETECTOR, TRACK, OUT, IN], WHOLE],
        told: "17 ClearNotAlone at line 1 first\n",
    },
    Row {
        railway: r#"station = [{ name = "A", layout = "a" }, { name = "B", layout = "b" }]
[[line]]
name = "L"
first = { station = "A", border = "B", lock = "K", clear = "GX", part = ["GX"], id = 1 }
second = { station = "B", border = "W", lock = "K", clear = "GL", part = ["GA"], id = 2 }
"#,
        layouts: &[WHOLE, WHOLE],
        told: "18 PartHasClear at line 1 first
12 NotJoined at line 1 first
13 LockNotRight at line 1 first: route F-B
17 ClearNotAlone at line 1 first
19 PartLacksTrack at line 1 first
",
    },
    Row {
        railway: r#"station = [{ name = "A", layout = "a" }, { name = "B", layout = "b" }]
line = [
  { name = "L", first = { station = "A", border = "W", lock = "K", clear = "GL", part = ["GA"], id = 1 }, second = { station = "B", border = "W", lock = "K", clear = "GL", part = ["GA"], id = 2 } },
  { name = "M", first = { station = "A", border = "B", lock = "K", clear = "G1", part = ["GA", "GL"], id = 1 }, second = { station = "B", border = "W", lock = "K", clear = "GL", part = ["GA"], id = 2 } },
]"#,
        layouts: &[WHOLE, WHOLE],
        told: "18 PartHasClear at line 2 first
12 NotJoined at line 2 first
13 LockNotRight at line 2 first: route F-B
17 ClearNotAlone at line 2 first
11 DoubleBorder at line 2 second
",
    },
    Row {
        railway: r#"station = [{ name = "A", layout = "a" }, { name = "B", layout = "b" }]
[[line]]
name = "L"
first = { station = "A", border = "W", lock = "K", clear = "GA", part = [], id = 1 }
second = { station = "B", border = "W", lock = "K", clear = "GL", part = ["GX", "GA"], id = 2 }
"#,
        layouts: &[WHOLE, WHOLE],
        told: "16 ClearElsewhere at line 1 first
17 ClearNotAlone at line 1 first
19 PartLacksTrack at line 1 first
",
    },
    Row {
        railway: LINE,
        layouts: &[
            &[
                "section = [\"GX\", \"GA\", \"GL\"]\ndetector = [{ name = \"D1\", id = 20, sections = [\"GX\", \"GA\"] }, { name = \"DL\", id = 21, sections = [\"GL\"] }]\n",
                SPREAD,
            ],
            WHOLE,
        ],
        told: "15 NoRouteIn at line 1 first\n16 ClearElsewhere at line 1 first\n",
    },
];

/// The section that the end tells has a track of the station, too.
const SPREAD: &str = r#"border = ["B", "W"]
joint = [["B.end", "T.a"], ["T.b", "X.a"], ["X.b", "K.tip"], ["K.right", "LO.a"], ["LO.b", "W.end"], ["K.left", "LI.a"]]
track = [
  { name = "T", section = "GL" }, { name = "X", section = "GX" },
  { name = "LO", section = "GL" }, { name = "LI", section = "GA" },
]
point = [{ name = "K", id = 10, section = "GX" }]
signal = []
route = []
station = { name = "CC", id = 1 }
"#;

#[test]
fn all_that_is_wrong_with_names_is_told(rt: HostRuntime) {
    for row in NAMES {
        let told = told(rt.alloc(), row.railway, row.layouts).expect(&rt, "there is memory");
        assert!(rt; told.as_str() == row.told, "{told}");
    }
}

#[test]
fn all_that_is_wrong_with_an_end_is_told(rt: HostRuntime) {
    for row in RULES {
        let told = told(rt.alloc(), row.railway, row.layouts).expect(&rt, "there is memory");
        assert!(rt; told.as_str() == row.told, "{told}");
    }
}
