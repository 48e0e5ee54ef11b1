//! All nodes of the small station in one process: each is driven by its own engine, over memory or over a socket of its own, with
//! field equipment that is played too.

mod any_node;
mod changes;
mod desk;
mod driven;
mod gear;
mod kept_closings;
mod place;
mod plant;
mod records;
mod script;
mod station;
mod stories;

use crate::node_stories::kept_closings::{
    failing_disks_leave_what_was_accepted, killed_processes_leave_what_they_accepted,
    killed_processes_leave_what_they_take_over, locks_are_closed_in_the_next_process,
};
use crate::node_stories::records::records_are_same;
use crate::node_stories::station::{Station, free_addresses};
use crate::node_stories::stories::{
    calls_that_fail_change_nothing, nothing_old_is_heard, rests, stories_are_seen,
    stories_over_sockets_are_seen,
};
use crate::run_bench::SMALL;
use station_run::table_of;
use std::net::SocketAddr;

/// What is tried with the small station.
#[derive(Clone, Copy)]
enum Trial {
    Stories,
    /// Those over sockets, in two networks.
    StoriesOverTwo,
    LateDatagrams,
    FailingCalls,
    Records,
    /// The interlocking's process is killed, also as it takes over what its file has, its disk fails, and its locks are kept.
    Kills,
    KillsWhileItTakesOver,
    FailingDisks,
    Locks,
    /// It rests for so many rounds.
    Rest(u64),
}

/// Whether a trial comes out as it has to.
fn comes_out(rt: &HostRuntime, trial: Trial) -> bool {
    let alloc = rt.alloc();
    let (Some(addresses), Some(second)) = (free_addresses(rt, 0), free_addresses(rt, 1)) else {
        return false;
    };
    let Ok(table) = table_of(alloc, SMALL) else {
        return false;
    };
    let second: &[SocketAddr] = match trial {
        Trial::StoriesOverTwo => &second,
        _ => &[],
    };
    let station = Station {
        rt,
        alloc,
        table: &table,
        addresses: &addresses,
        second,
    };
    match trial {
        Trial::Stories => stories_are_seen(station),
        Trial::StoriesOverTwo => stories_over_sockets_are_seen(station),
        Trial::LateDatagrams => nothing_old_is_heard(station),
        Trial::FailingCalls => calls_that_fail_change_nothing(station),
        Trial::Records => records_are_same(station),
        Trial::Kills => killed_processes_leave_what_they_accepted(station),
        Trial::KillsWhileItTakesOver => killed_processes_leave_what_they_take_over(station),
        Trial::FailingDisks => failing_disks_leave_what_was_accepted(station),
        Trial::Locks => locks_are_closed_in_the_next_process(station),
        Trial::Rest(rounds) => rests(station, rounds),
    }
}

#[test]
fn each_story_is_seen_as_it_is_told(rt: HostRuntime) {
    assert!(rt; comes_out(&rt, Trial::Stories));
}

#[test]
fn each_story_is_seen_over_two_networks(rt: HostRuntime) {
    assert!(rt; comes_out(&rt, Trial::StoriesOverTwo));
}

#[test]
fn a_node_that_is_stopped_or_flooded_hears_nothing_old(rt: HostRuntime) {
    assert!(rt; comes_out(&rt, Trial::LateDatagrams));
}

#[test]
fn a_call_of_the_network_that_fails_changes_nothing(rt: HostRuntime) {
    assert!(rt; comes_out(&rt, Trial::FailingCalls));
}

#[test]
fn the_record_of_each_node_is_the_same_once_more(rt: HostRuntime) {
    assert!(rt; comes_out(&rt, Trial::Records));
}

#[test]
fn what_was_accepted_outlives_a_kill_between_any_two_calls(rt: HostRuntime) {
    assert!(rt; comes_out(&rt, Trial::Kills));
}

#[test]
fn what_is_taken_over_outlives_a_kill_between_any_two_calls(rt: HostRuntime) {
    assert!(rt; comes_out(&rt, Trial::KillsWhileItTakesOver));
}

#[test]
fn what_was_accepted_outlives_each_call_that_fails(rt: HostRuntime) {
    assert!(rt; comes_out(&rt, Trial::FailingDisks));
}

#[test]
fn what_a_route_locks_is_closed_in_the_next_process(rt: HostRuntime) {
    assert!(rt; comes_out(&rt, Trial::Locks));
}

#[test]
fn links_stay_up_for_20000_rounds_at_rest(rt: HostRuntime) {
    assert!(rt; comes_out(&rt, Trial::Rest(20_000)));
}

#[test]
fn links_stay_up_for_a_million_rounds_at_rest(rt: HostRuntime) {
    assert!(rt; comes_out(&rt, Trial::Rest(1_000_000)));
}
