//! Panels beside something else, over sockets.

use crate::panel_bench::page;
use crate::run_bench::{SMALL, is_same};
use crate::runs::read;
use station_panel::{Limits, Loopback, PageAsked};
use station_run::{Beside, PanelOptions, PlayedBeside, attend_alone, panel_beside};
use std::fs;

/// The record of a panel in a test.
const RECORD: &str = "beside.session";

/// What turns once it was attended some times.
#[derive(Drop)]
struct Bystander {
    /// How often it is attended before it turns.
    left: u64,
    turns: bool,
}

impl Bystander {
    fn new(left: u64) -> Bystander {
        Bystander { left, turns: false }
    }
}

impl Beside for Bystander {
    ghost turns = { λ bystander. bystander.turns };

    fn attend(&mut self, _reading: u64) {
        self.turns = self.left == 0;
        self.left = self.left.saturating_sub(1);
    }

    fn is_turning(&self) -> bool {
        self.turns
    }
}

/// Plays a panel of a layout beside a bystander. What it writes goes to `out`.
fn play(
    rt: &HostRuntime,
    layout: &str,
    listener: Loopback,
    bystander: Bystander,
    out: &mut Vec<u8>,
) -> PlayedBeside<Bystander> {
    let mut listener = listener;
    let page = PageAsked {
        layout,
        record: RECORD,
        ..page(8080)
    };
    let limits = Limits {
        for_ms: 60_000,
        memory: 1 << 30,
    };
    panel_beside(
        rt,
        &PanelOptions { page, limits },
        &mut listener,
        bystander,
        out,
    )
}

#[test]
fn what_stands_alone_is_attended_until_it_turns(rt: HostRuntime) {
    let mut bystander = Bystander::new(3);
    assert!(rt; attend_alone(&rt, &mut bystander).is_ok());
    assert!(rt; bystander.turns && bystander.left == 0);
}

#[test]
fn a_panel_ends_as_what_stands_beside_it_turns(rt: HostRuntime) {
    let mut out = Vec::new(rt.alloc());
    let listener = Loopback::open(&rt, 0).expect(&rt, "a port is free");
    let PlayedBeside { ended, beside } = play(&rt, SMALL, listener, Bystander::new(100), &mut out);
    assert!(rt; ended.is_ok());
    assert!(rt; beside.turns && beside.left == 0);
    assert!(rt; out.as_slice() == "http://127.0.0.1:8080/\n".as_bytes());
    assert!(rt; is_same(rt.alloc(), &read(&rt, RECORD)));
    assert!(rt; fs::remove_file(&rt, RECORD).is_ok());
}

#[test]
fn a_panel_of_a_faulty_layout_leaves_what_stands_beside_it(rt: HostRuntime) {
    let mut out = Vec::new(rt.alloc());
    let listener = Loopback::open(&rt, 0).expect(&rt, "a port is free");
    let faulty = "station = 7";
    let PlayedBeside { ended, beside } = play(&rt, faulty, listener, Bystander::new(100), &mut out);
    assert!(rt; ended.is_err());
    assert!(rt; !beside.turns && beside.left == 100);
    assert!(rt; out.is_empty());
    assert!(rt; fs::read(&rt, RECORD).is_err());
}
