// What is done again and again.

ghost use Rattle.ixl_state.specs.State.{MayStepAll};

use ixl::{Input, Interlocking, Reply, steps_may_follow_at_later_clocks};
use ixl_state::{Datagram, Key, Millis, Verdict};
use rasta_pdu::Pdu;

/// Two reports follow each other before the same one has its turn again.
const TURN: u32 = 2;

/// A report is written, and gets its next number.
fn written(key: &Key, report: &mut Pdu) -> Datagram {
    let datagram = ixl_state::ixl_spec::rasta_pdu::write(key, report);
    report.sequence_number = report.sequence_number.wrapping_add(TURN);
    datagram
}

/// So many ticks at one clock. It answers how many were answered as ticks.
pub fn tick(ixl: &mut Interlocking, now: Millis, times: u32) -> u32
    requires { MayStepAll now ixl.old.state }
{
    steps_may_follow_at_later_clocks();
    let mut done: u32 = 0;
    for _pass in 0..times {
        if let Reply::Ticked = ixl.step(now, Input::Tick) {
            done = done.wrapping_add(1);
        }
    }
    done
}

/// The reports come to the interlocking so often, one after another. It answers how many were taken.
pub fn report(
    ixl: &mut Interlocking,
    now: Millis,
    key: &Key,
    reports: &mut Vec<Pdu>,
    times: u32,
) -> u32
    requires { MayStepAll now ixl.old.state }
{
    steps_may_follow_at_later_clocks();
    let mut done: u32 = 0;
    for _pass in 0..times {
        for place in 0..reports.len() {
            let datagram = written(key, &mut reports[place]);
            let input = Input::Datagram(datagram.as_slice());
            if let Reply::Received(Verdict::Taken) = ixl.step(now, input) {
                done = done.wrapping_add(1);
            }
        }
    }
    done
}

/// The reports are written and read so often. It answers how many could be read.
pub fn read(key: &Key, reports: &mut Vec<Pdu>, times: u32) -> u32 {
    let mut done: u32 = 0;
    for _pass in 0..times {
        for place in 0..reports.len() {
            let datagram = written(key, &mut reports[place]);
            if ixl_state::ixl_spec::rasta_pdu::read(key, datagram.as_slice()).is_ok() {
                done = done.wrapping_add(1);
            }
        }
    }
    done
}

/// The reports are written so often. It answers how many end with another byte than 0.
pub fn write(key: &Key, reports: &mut Vec<Pdu>, times: u32) -> u32 {
    let mut done: u32 = 0;
    for _pass in 0..times {
        for place in 0..reports.len() {
            let datagram = written(key, &mut reports[place]);
            if datagram.as_slice().last() != Some(&0) {
                done = done.wrapping_add(1);
            }
        }
    }
    done
}
