//! Stations of layouts. What takes memory is done again where it is lacking, so the tests of room and of snapshots also hold
//! with any one allocation refused.

use simulator::{Checked, Layout, World, check};
use std::alloc::Global;
use std::env;
use std::process::Abort;

/// The table of a layout, where memory is there.
fn table_once(alloc: Global, text: &str) -> Option<Checked> {
    let layout = Layout::read(alloc, text).ok()?;
    check(alloc, layout).ok()
}

/// The table of a layout.
pub(crate) fn table(rt: &impl Abort, alloc: Global, text: &str) -> Checked {
    match table_once(alloc, text) {
        Some(table) => table,
        None => table_once(alloc, text).expect(rt, "it is sound, and there is memory"),
    }
}

/// The first world of a layout.
pub(crate) fn station(rt: &impl Abort, alloc: Global, text: &str) -> World {
    match World::new(alloc, table(rt, alloc, text)) {
        Ok(world) => world,
        Err(_) => World::new(alloc, table(rt, alloc, text)).expect(rt, "there is memory"),
    }
}

/// A number among the words of the program: after the name of the test stand the first seed and the number of runs.
pub(crate) fn word(rt: &HostRuntime, place: usize) -> Option<u64> {
    let mut words = env::args(rt).ok()?.skip(place);
    words.next()?.as_str().parse::<u64>().ok()
}
