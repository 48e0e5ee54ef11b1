//! One round of a run over memory in which all comes that a round can have.

use crate::run_bench::{Drive, run_over_memory};

/// A point behind a signal, with a route over its right leg.
const STATION: &str = r#"section = ["GA", "GP"]
border = ["W", "E1", "E2"]
joint = [["W.end","A1.a"], ["A1.b","P1.tip"], ["P1.left","E1.end"], ["P1.right","E2.end"]]
track = [{name="A1",section="GA"}]
point = [{name="P1",id=10,section="GP"}]
signal = [{name="S1",id=2,at="A1.b"}, {name="S2",id=3,at="E1.end"}]
detector = [{name="D1",id=20,sections=["GA","GP"]}]
route = [{name="R1",entry="S1",exit="E2",path=["P1.right"],points={P1="right"}}]
[station]
name = "IXL1"
id = 1
"#;

/// All links are ready at 6040. The move goes out at 6050, and P1 is driven from 6060 on. The detector tells at 6550 that GA is
/// occupied.
const SCRIPT: &str = "at 6050 resume
at 6050 set R1
at 6550 occupy GA
at 6560 clear GA
";

/// The round at 6560: time, what was sent before, the line that is due, the point that was driven for 500 ms, and the ticks.
const ROUND: &str = "time 10000 = ok
deliver IXL1 520060180100000014000000070000000400000096190000ba1800002c0020070047415f5f5f5f5f5f5f5f5f5f5f5f5f5f5f5f5f5f49584c315f5f5f5f5f5f5f5f5f5f5f5f5f5f5f5f02f5c4473e55fff438 = ok
clear GA = ok
reach P1 right = ok
tick IXL1 = ok
tick S1 = ok
tick S2 = ok
tick P1 = ok
tick D1 = ok
";

/// The first 6560 ms of the station, in rounds of 10 ms.
const DRIVE: Drive<'static> = Drive {
    layout: STATION,
    script: SCRIPT,
    begins: 10_000,
    for_ms: 6560,
    stops: u64::MAX,
    room: usize::MAX,
    failing: 0,
};

#[test]
fn a_round_is_time_deliveries_lines_points_and_ticks(rt: HostRuntime) {
    let left = run_over_memory(&rt, rt.alloc(), DRIVE);
    assert!(rt; left.record.ends_with(ROUND.as_bytes()));
}
