//! Texts of a file of closings: what they close, and what is told of one that isn't taken at its word.

use crate::run_bench::SMALL;
use station_node::closings_file::{
    AuxiliaryCounts, Closings, FileFault, Found, Keeper, Layout, Named,
};
use std::alloc::Global;
use std::process::Abort;

/// What stands first in many texts.
const HEAD: &[u8] = b"layout 6f2a\ncounted release 1\ncounted open 2\n";

/// Texts that aren't taken at their word, each in two pieces.
const FAULTY: [(&[u8], &[u8], FileFault); 22] = [
    (b"", b"", FileFault::CutOff),
    (b"", b"layout 6f2a\n", FileFault::CutOff),
    (HEAD, b"closed GP\nend", FileFault::CutOff),
    (b"", b"layout 6f2b\nend\n", FileFault::OtherLayout),
    (b"", b"layout 6f2\nend\n", FileFault::OtherLayout),
    (HEAD, b"closed G9\nend\n", FileFault::NotThere),
    (HEAD, b"closed G1 left\nend\n", FileFault::NotThere),
    (HEAD, b"closed P1 up\nend\n", FileFault::NotThere),
    (HEAD, b"closed \xff\nend\n", FileFault::NotThere),
    (HEAD, b"closed P1 left \nend\n", FileFault::NotThere),
    (HEAD, b"open GP\nend\n", FileFault::Damaged),
    (HEAD, b"closed GP\n\nend\n", FileFault::Damaged),
    (HEAD, b"end\nclosed GP\n", FileFault::Damaged),
    (b"", b"closed GP\nend\n", FileFault::Damaged),
    (b"layout 6f2a\n", b"counted release 1\n", FileFault::CutOff),
    (
        b"layout 6f2a\ncounted release 1\n",
        b"counted open 2",
        FileFault::CutOff,
    ),
    (b"layout 6f2a\n", b"end\n", FileFault::Damaged),
    (
        b"layout 6f2a\ncounted open 2\n",
        b"counted release 1\nend\n",
        FileFault::Damaged,
    ),
    (
        b"layout 6f2a\ncounted release +1\n",
        b"counted open 2\nend\n",
        FileFault::Damaged,
    ),
    (
        b"layout 6f2a\ncounted release \n",
        b"counted open 2\nend\n",
        FileFault::Damaged,
    ),
    (
        b"layout 6f2a\ncounted release 1\n",
        b"counted open \xff\nend\n",
        FileFault::Damaged,
    ),
    (
        b"layout 6f2a\ncounted release 1\n",
        b"counted open 18446744073709551616\nend\n",
        FileFault::Damaged,
    ),
];

/// What is found in a file of these two pieces.
fn found_in(rt: &impl Abort, alloc: Global, layout: &Layout, pieces: [&[u8]; 2]) -> Found {
    let keeper = Keeper::new(alloc, "6f2a").expect(rt, "there is memory");
    let mut bytes = Vec::new(alloc);
    for piece in pieces {
        bytes.extend_from_slice(piece).expect(rt, "there is memory");
    }
    keeper.found(layout, Ok(Some(bytes)))
}

/// Whether just this is closed.
fn closes(alloc: Global, layout: &Layout, found: &Found, wanted: &Closings) -> bool {
    let closed = found.closings.things(alloc, layout);
    match (closed, wanted.things(alloc, layout)) {
        (Ok(closed), Ok(wanted)) => closed.as_slice() == wanted.as_slice(),
        _ => false,
    }
}

#[test]
fn a_text_closes_what_it_names(rt: HostRuntime) {
    let layout = Layout::read(rt.alloc(), SMALL).expect(&rt, "a layout");
    let mut wanted = Closings::none();
    for words in ["GP", "P1", "S1", "R1"] {
        let named = Named::read(&layout, words).expect(&rt, "a thing");
        wanted = wanted.close(named);
    }
    let pieces: [&[u8]; 2] = [
        b"layout 6f2a\ncounted release 007\ncounted open 18446744073709551615\n",
        b"closed GP\nclosed P1\nclosed S1\nclosed R1\nend\n",
    ];
    let found = found_in(&rt, rt.alloc(), &layout, pieces);
    assert!(rt; found.fault.is_none());
    assert!(rt; found.counts.releases == 7 && found.counts.opens == u64::MAX);
    assert!(rt; closes(rt.alloc(), &layout, &found, &wanted));
}

#[test]
fn a_text_that_is_not_taken_at_its_word_closes_all_track(rt: HostRuntime) {
    let layout = Layout::read(rt.alloc(), SMALL).expect(&rt, "a layout");
    let all = Closings::all_track(&layout);
    for (place, (first, then, fault)) in FAULTY.into_iter().enumerate() {
        let found = found_in(&rt, rt.alloc(), &layout, [first, then]);
        assert!(rt; found.fault == Some(fault), "{place}");
        assert!(rt; found.counts == AuxiliaryCounts::none(), "{place}");
        assert!(rt; closes(rt.alloc(), &layout, &found, &all), "{place}");
    }
}
