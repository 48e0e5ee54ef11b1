//! The stations that are run.

/// One point, three routes.
pub(crate) const SMALL: &str = r#"section = ["GA", "GP", "G1", "G2"]
border = ["W", "E1", "E2"]
joint = [["W.end","A1.a"], ["A1.b","P1.tip"], ["P1.left","T1.a"],
  ["P1.right","T2.a"], ["T1.b","E1.end"], ["T2.b","E2.end"]]
track = [{name="A1",section="GA"}, {name="T1",section="G1"},
  {name="T2",section="G2"}]
point = [{name="P1",id=10,section="GP"}]
signal = [{name="S1",id=2,at="A1.b"}, {name="S3",id=3,at="T1.a"},
  {name="S4",id=4,at="T2.a"}]
detector = [{name="D1",id=20,sections=["GA","GP","G1","G2"]}]
route = [
  {name="R1",entry="S1",exit="E2",path=["P1.right","T2.b"],points={P1="right"},approach=["GA"]},
  {name="R2",entry="S1",exit="E1",path=["P1.left","T1.b"],points={P1="left"},approach=["GA"]},
  {name="R3",entry="S3",exit="W",path=["P1.tip","A1.a"],points={P1="left"},approach=["G1"]}]
[station]
name = "IXL1"
id = 1
"#;

/// A junction of two lines with a crossover: five points, fourteen routes, flank points, points that face one another, and
/// two routes that are kept apart by `extra` alone.
pub(crate) const JUNCTION: &str =
    r#"section = ["GA1", "GP1", "GB1", "GP4", "GP5", "GC1", "GA2", "GP2", "GB2", "GB3"]
border = ["W1", "W2", "E1", "E2", "E3"]
joint = [
  ["W1.end", "A1.a"], ["A1.b", "P1.tip"],
  ["P1.left", "B1.a"], ["B1.b", "P4.tip"],
  ["P4.left", "P5.right"], ["P4.right", "P5.left"],
  ["P5.tip", "C1.a"], ["C1.b", "E1.end"],
  ["P1.right", "P2.right"],
  ["W2.end", "A2.a"], ["A2.b", "P2.left"],
  ["P2.tip", "P3.tip"],
  ["P3.left", "B2.a"], ["B2.b", "E2.end"],
  ["P3.right", "B3.a"], ["B3.b", "E3.end"],
]
track = [
  { name = "A1", section = "GA1" },
  { name = "B1", section = "GB1" },
  { name = "C1", section = "GC1" },
  { name = "A2", section = "GA2" },
  { name = "B2", section = "GB2" },
  { name = "B3", section = "GB3" },
]
point = [
  { name = "P1", id = 11, section = "GP1" },
  { name = "P2", id = 12, section = "GP2" },
  { name = "P3", id = 13, section = "GP2" },
  { name = "P4", id = 14, section = "GP4" },
  { name = "P5", id = 15, section = "GP5" },
]
signal = [
  { name = "S1", id = 21, at = "A1.b" },
  { name = "S2", id = 22, at = "A2.b" },
  { name = "S3", id = 23, at = "B1.a" },
  { name = "S4", id = 24, at = "B2.a" },
  { name = "S5", id = 25, at = "B3.a" },
  { name = "S6", id = 26, at = "B1.b" },
  { name = "S7", id = 27, at = "C1.a" },
]
detector = [
  { name = "D1", id = 31, sections = ["GA1", "GP1", "GB1", "GP4", "GP5", "GC1"] },
  { name = "D2", id = 32, sections = ["GA2", "GP2", "GB2", "GB3"] },
]
[[route]]
name = "R1"
entry = "S1"
exit = "S6"
path = ["P1.left", "B1.b"]
points = { P1 = "left" }
flank = { P2 = "left" }
approach = ["GA1"]
[[route]]
name = "R2"
entry = "S1"
exit = "E2"
path = ["P1.right", "P2.tip", "P3.left", "B2.b"]
points = { P1 = "right", P2 = "right", P3 = "left" }
approach = ["GA1"]
[[route]]
name = "R3"
entry = "S1"
exit = "E3"
path = ["P1.right", "P2.tip", "P3.right", "B3.b"]
points = { P1 = "right", P2 = "right", P3 = "right" }
approach = ["GA1"]
[[route]]
name = "R4"
entry = "S2"
exit = "E2"
path = ["P2.tip", "P3.left", "B2.b"]
points = { P2 = "left", P3 = "left" }
flank = { P1 = "left" }
approach = ["GA2"]
[[route]]
name = "R5"
entry = "S2"
exit = "E3"
path = ["P2.tip", "P3.right", "B3.b"]
points = { P2 = "left", P3 = "right" }
flank = { P1 = "left" }
approach = ["GA2"]
extra = ["R6"]
[[route]]
name = "R6"
entry = "S6"
exit = "E1"
path = ["P4.left", "P5.tip", "C1.b"]
points = { P4 = "left", P5 = "right" }
approach = ["GB1"]
extra = ["R5"]
[[route]]
name = "R7"
entry = "S6"
exit = "E1"
path = ["P4.right", "P5.tip", "C1.b"]
points = { P4 = "right", P5 = "left" }
approach = ["GB1"]
[[route]]
name = "R8"
entry = "S7"
exit = "S3"
path = ["P5.right", "P4.tip", "B1.a"]
points = { P5 = "right", P4 = "left" }
approach = ["GC1"]
[[route]]
name = "R9"
entry = "S7"
exit = "S3"
path = ["P5.left", "P4.tip", "B1.a"]
points = { P5 = "left", P4 = "right" }
approach = ["GC1"]
[[route]]
name = "R10"
entry = "S3"
exit = "W1"
path = ["P1.tip", "A1.a"]
points = { P1 = "left" }
flank = { P2 = "left" }
approach = ["GB1"]
[[route]]
name = "R11"
entry = "S4"
exit = "W1"
path = ["P3.tip", "P2.right", "P1.tip", "A1.a"]
points = { P3 = "left", P2 = "right", P1 = "right" }
approach = ["GB2"]
[[route]]
name = "R12"
entry = "S4"
exit = "W2"
path = ["P3.tip", "P2.left", "A2.a"]
points = { P3 = "left", P2 = "left" }
flank = { P1 = "left" }
approach = ["GB2"]
[[route]]
name = "R13"
entry = "S5"
exit = "W1"
path = ["P3.tip", "P2.right", "P1.tip", "A1.a"]
points = { P3 = "right", P2 = "right", P1 = "right" }
approach = ["GB3"]
[[route]]
name = "R14"
entry = "S5"
exit = "W2"
path = ["P3.tip", "P2.left", "A2.a"]
points = { P3 = "right", P2 = "left" }
flank = { P1 = "left" }
approach = ["GB3"]
[station]
name = "JUNCTION"
id = 1
key = "0123456789abcdeffedcba9876543210"
"#;

/// A single line that widens to three tracks. Track 1 is straight; the others are passed slowly.
///
/// ```text
///                           left          left
/// W -- AW -- P1 ------------- T1 ------------- P4 -- AE -- E
///        A>    \ right    <C1    D1>    right /    <B
///               L ---- P2 --- T2 --- P3 ---- M
///             <K    right \ <C2 D2> / right    N>
///                          --- T3 ---
///                            <C3 D3>
/// ```
pub(crate) const LOOP: &str =
    r#"section = ["GW", "GP1", "GL", "GP2", "G1", "G2", "G3", "GP3", "GM", "GP4", "GE"]
border = ["W", "E"]
joint = [
  ["W.end", "AW.a"], ["AW.b", "P1.tip"],
  ["P1.left", "T1.a"], ["P1.right", "L.a"], ["L.b", "P2.tip"],
  ["P2.left", "T2.a"], ["P2.right", "T3.a"],
  ["T1.b", "P4.left"], ["T2.b", "P3.left"], ["T3.b", "P3.right"],
  ["P3.tip", "M.a"], ["M.b", "P4.right"],
  ["P4.tip", "AE.a"], ["AE.b", "E.end"],
]
track = [
  { name = "AW", section = "GW" }, { name = "L", section = "GL" },
  { name = "T1", section = "G1" }, { name = "T2", section = "G2" }, { name = "T3", section = "G3" },
  { name = "M", section = "GM" }, { name = "AE", section = "GE" },
]
point = [
  { name = "P1", id = 101, section = "GP1" }, { name = "P2", id = 102, section = "GP2" },
  { name = "P3", id = 103, section = "GP3" }, { name = "P4", id = 104, section = "GP4" },
]
signal = [
  { name = "A", id = 201, at = "AW.b" }, { name = "K", id = 202, at = "L.a" },
  { name = "C1", id = 203, at = "T1.a" }, { name = "C2", id = 204, at = "T2.a" },
  { name = "C3", id = 205, at = "T3.a" }, { name = "D1", id = 206, at = "T1.b" },
  { name = "D2", id = 207, at = "T2.b" }, { name = "D3", id = 208, at = "T3.b" },
  { name = "N", id = 209, at = "M.b" }, { name = "B", id = 210, at = "AE.a" },
]
detector = [
  { name = "DW", id = 301, sections = ["GW", "GP1", "GL", "GP2"] },
  { name = "DT", id = 302, sections = ["G1", "G2", "G3"] },
  { name = "DE", id = 303, sections = ["GP3", "GM", "GP4", "GE"] },
]
route = [
  { name = "A-1", entry = "A", exit = "D1", path = ["P1.left", "T1.b"], points = { P1 = "left" }, approach = ["GW"] },
  { name = "A-2", entry = "A", exit = "D2", path = ["P1.right", "L.b", "P2.left", "T2.b"], points = { P1 = "right", P2 = "left" }, approach = ["GW"], aspect = "slow" },
  { name = "A-3", entry = "A", exit = "D3", path = ["P1.right", "L.b", "P2.right", "T3.b"], points = { P1 = "right", P2 = "right" }, approach = ["GW"], aspect = "slow" },
  { name = "K-W", entry = "K", exit = "W", path = ["P1.tip", "AW.a"], points = { P1 = "right" }, approach = ["GL"], aspect = "slow" },
  { name = "C1-W", entry = "C1", exit = "W", path = ["P1.tip", "AW.a"], points = { P1 = "left" }, approach = ["G1"] },
  { name = "C2-K", entry = "C2", exit = "K", path = ["P2.tip", "L.a"], points = { P2 = "left" }, approach = ["G2"], aspect = "slow" },
  { name = "C3-K", entry = "C3", exit = "K", path = ["P2.tip", "L.a"], points = { P2 = "right" }, approach = ["G3"], aspect = "slow" },
  { name = "D1-E", entry = "D1", exit = "E", path = ["P4.tip", "AE.b"], points = { P4 = "left" }, approach = ["G1"] },
  { name = "D2-N", entry = "D2", exit = "N", path = ["P3.tip", "M.b"], points = { P3 = "left" }, approach = ["G2"], aspect = "slow" },
  { name = "D3-N", entry = "D3", exit = "N", path = ["P3.tip", "M.b"], points = { P3 = "right" }, approach = ["G3"], aspect = "slow" },
  { name = "N-E", entry = "N", exit = "E", path = ["P4.tip", "AE.b"], points = { P4 = "right" }, aspect = "slow" },
  { name = "B-1", entry = "B", exit = "C1", path = ["P4.left", "T1.a"], points = { P4 = "left" }, approach = ["GE"] },
  { name = "B-2", entry = "B", exit = "C2", path = ["P4.right", "M.a", "P3.left", "T2.a"], points = { P4 = "right", P3 = "left" }, approach = ["GE"], aspect = "slow" },
  { name = "B-3", entry = "B", exit = "C3", path = ["P4.right", "M.a", "P3.right", "T3.a"], points = { P4 = "right", P3 = "right" }, approach = ["GE"], aspect = "slow" },
]
[station]
name = "LOOP"
id = 7
"#;

/// A passing station on a single line: two tracks, of which one is entered slowly and ends at both sides in a trap point.
pub(crate) const HALDEN: &str = r#"section = ["GBW", "GAW", "GW1", "G1", "G2", "GW2", "GAE", "GBE"]
border = ["West", "East"]
joint = [
  ["West.end", "BW.a"],
  ["BW.b", "AW.a"],
  ["AW.b", "W1.tip"],
  ["W1.left", "T1.a"],
  ["W1.right", "W3.right"],
  ["W3.tip", "T2.a"],
  ["T1.b", "W2.right"],
  ["T2.b", "W4.tip"],
  ["W4.left", "W2.left"],
  ["W2.tip", "AE.a"],
  ["AE.b", "BE.a"],
  ["BE.b", "East.end"],
]
track = [
  { name = "BW", section = "GBW" },
  { name = "AW", section = "GAW" },
  { name = "T1", section = "G1" },
  { name = "T2", section = "G2" },
  { name = "AE", section = "GAE" },
  { name = "BE", section = "GBE" },
]
point = [
  { name = "W1", id = 21, section = "GW1" },
  { name = "W2", id = 22, section = "GW2" },
  { name = "W3", id = 23, section = "GW1" },
  { name = "W4", id = 24, section = "GW2" },
]
signal = [
  { name = "A", id = 11, at = "AW.b" },
  { name = "F", id = 12, at = "AE.a" },
  { name = "N1", id = 13, at = "T1.b" },
  { name = "N2", id = 14, at = "T2.b" },
  { name = "P1", id = 15, at = "T1.a" },
  { name = "P2", id = 16, at = "T2.a" },
]
detector = [
  { name = "D1", id = 31, sections = ["GBW", "GAW", "GW1", "G1", "G2", "GW2", "GAE", "GBE"] },
]

[[route]]
name = "A-N1"
entry = "A"
exit = "N1"
path = ["W1.left", "T1.b"]
points = { W1 = "left" }
flank = { W3 = "left" }
approach = ["GBW", "GAW"]

[[route]]
name = "A-N2"
entry = "A"
exit = "N2"
path = ["W1.right", "W3.tip", "T2.b"]
points = { W1 = "right", W3 = "right" }
approach = ["GBW", "GAW"]
aspect = "slow"

[[route]]
name = "F-P1"
entry = "F"
exit = "P1"
path = ["W2.right", "T1.a"]
points = { W2 = "right" }
flank = { W4 = "right" }
approach = ["GBE", "GAE"]

[[route]]
name = "F-P2"
entry = "F"
exit = "P2"
path = ["W2.left", "W4.tip", "T2.a"]
points = { W2 = "left", W4 = "left" }
approach = ["GBE", "GAE"]
aspect = "slow"

[[route]]
name = "N1-East"
entry = "N1"
exit = "East"
path = ["W2.tip", "AE.b", "BE.b"]
points = { W2 = "right" }
flank = { W4 = "right" }
approach = ["G1"]

[[route]]
name = "N2-East"
entry = "N2"
exit = "East"
path = ["W4.left", "W2.tip", "AE.b", "BE.b"]
points = { W4 = "left", W2 = "left" }
approach = ["G2"]
aspect = "slow"

[[route]]
name = "P1-West"
entry = "P1"
exit = "West"
path = ["W1.tip", "AW.a", "BW.a"]
points = { W1 = "left" }
flank = { W3 = "left" }
approach = ["G1"]

[[route]]
name = "P2-West"
entry = "P2"
exit = "West"
path = ["W3.right", "W1.tip", "AW.a", "BW.a"]
points = { W3 = "right", W1 = "right" }
approach = ["G2"]
aspect = "slow"

[station]
name = "HALDEN"
id = 1
"#;
