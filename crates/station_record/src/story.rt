//! A session, applied again to a world, and what changes in it.

ghost use Rattle.std.specs.Prelude.{◌≡◌, ◌++◌, IfErr, IfOk, List, OnOk, ◌↔◌, IsTrue, map};
ghost use Rattle.replay.specs.World.{AnswersSame, IsFirst, played};
ghost use Rattle.replay.specs.simulator_spec.Interlocking.{held_of};
ghost use Rattle.replay.specs.simulator_spec.Tried.{Played};
ghost use Rattle.station_record.specs.Changes.{TellsLane, TellsLanes, watch_of};
ghost use Rattle.station_record.specs.Differences.{DiffersFrom, DiffersIn};
ghost use Rattle.station_record.specs.Seen.{seen_at};
ghost use Rattle.station_record.specs.Story.{IsStoryOf};
ghost use Rattle.station_record.specs.inside.FirstChanges.{first_change};
ghost use Rattle.lane_chart.specs.declared.change.Change.{Change as ChangeTold};

use crate::happening::add_happening;
use crate::lane_list::lanes_of;
use crate::seen::seen_at;
use crate::watch::Watch;
use control_table::Checked;
use lane_chart::{Change, Happening, Lane, Seen};
use replay::replay_lines::agrees;
use replay::{Entry, Failure, Held, World, first_world};
use std::alloc::{AllocError, Global};

/// What happens in a session.
#[derive(Drop)]
pub struct Story {
    /// What each lane shows at first, and then each change, in the order of the session.
    pub changes: Vec<Change>,
    /// The commands and restarts, in their order.
    pub happenings: Vec<Happening>,
    /// True time at its end, in microseconds.
    pub end: u64,
}

fn is_same(one: Seen, other: Seen) -> bool
    ensures { IsTrue result ↔ (one ≡ other) }
{
    one == other
}

/// Looks at a lane, and adds that it changed, if it did.
#[tactic(auto, using(crate::proofs::Looks::nothing_told, crate::proofs::Looks::change_told))]
fn look(
    world: &World,
    held: &[Held],
    line: usize,
    watch: Watch,
    changes: &mut Vec<Change>,
) -> Result<Seen, AllocError>
    requires held { held.now ≡ held_of world.now.sited.table world.now.run.interlocking world.now.run.frozen }
    ensures seen { IfOk result (λ seen. seen ≡ seen_at (played world.now) watch.lane) }
    ensures told { OnOk result ((told : List ChangeTold) × TellsLane line (played world.now) watch told × (changes.new.items ≡ changes.old.items ++ told)) }
{
    let lane = watch.lane;
    let seen = seen_at(world, held, lane);
    if is_same(watch.seen, seen) {
        return Ok(seen);
    }
    let time = world.time();
    changes.push(Change {
        line,
        time,
        lane,
        seen,
    })?;
    Ok(seen)
}

/// Looks at each lane after an event, and adds what changed.
fn look_at_all(
    alloc: Global,
    world: &World,
    line: usize,
    watches: &[Watch],
    changes: &mut Vec<Change>,
) -> Result<Vec<Watch>, AllocError>
    ensures next { IfOk result (λ next. next.items ≡ map (λ watch. watch_of (played world.now) watch.lane) watches.now) }
    ensures told { OnOk result ((told : List ChangeTold) × TellsLanes line (played world.now) watches.now told × (changes.new.items ≡ changes.old.items ++ told)) }
{
    let held = world.held();
    let mut next = Vec::with_capacity(alloc, watches.len())?;
    for watch in watches {
        let seen = look(world, &held, line, *watch, changes)?;
        next.push(Watch {
            lane: watch.lane,
            seen,
        })?;
    }
    Ok(next)
}

/// What the lanes show at first.
fn first_watches(alloc: Global, world: &World, lanes: &[Lane]) -> Result<Vec<Watch>, AllocError>
    ensures { IfOk result (λ watches. watches.items ≡ map (watch_of (played world.now)) lanes.now) }
{
    let held = world.held();
    let mut watches = Vec::new(alloc);
    for lane in lanes {
        let seen = seen_at(world, &held, *lane);
        watches.push(Watch { lane: *lane, seen })?;
    }
    Ok(watches)
}

/// That the lanes show this at first.
fn first_changes(alloc: Global, time: u64, watches: &[Watch]) -> Result<Vec<Change>, AllocError>
    ensures { IfOk result (λ changes. changes.items ≡ map (first_change time) watches.now) }
{
    let mut changes = Vec::new(alloc);
    for watch in watches {
        let Watch { lane, seen } = *watch;
        changes.push(Change {
            line: 0,
            time,
            lane,
            seen,
        })?;
    }
    Ok(changes)
}

/// Applies the events of a session to a world, and tells what happens, unless an event answers otherwise than it was
/// recorded.
fn story_from(alloc: Global, world: &mut World, entries: &[Entry]) -> Result<Story, Failure>
    ensures agree { OnOk result (AnswersSame (played world.old) entries.now) }
    ensures told { IfOk result (IsStoryOf (played world.old) entries.now) }
    ensures differs { IfErr result (DiffersFrom (played world.old) entries.now) }
{
    let lanes = lanes_of(alloc, world.table().layout())?;
    let mut watches = first_watches(alloc, world, &lanes)?;
    let mut changes = first_changes(alloc, world.time(), &watches)?;
    let mut happenings = Vec::new(alloc);
    for (place, entry) in entries.iter().enumerate() {
        add_happening(alloc, world, place + 1, entry, &mut happenings)?;
        if !agrees(world, entry)? {
            return Err(Failure::Differs(place as u64 + 1));
        }
        let next = look_at_all(alloc, world, place + 1, &watches, &mut changes)?;
        watches = next;
    }
    Ok(Story {
        changes,
        happenings,
        end: world.time(),
    })
}

/// What happens in a session on a station of this table, from its first world on, where each event answers as it was
/// recorded. Otherwise the error tells of the first that doesn't, or memory was refused.
pub fn story_of(alloc: Global, table: Checked, entries: &[Entry]) -> Result<Story, Failure>
    ensures told { IfOk result (λ story. (first : Played) × IsFirst table first × AnswersSame first entries.now × IsStoryOf first entries.now story) }
    ensures differs { IfErr result (DiffersIn table entries.now) }
{
    let mut world = first_world(alloc, table)?;
    let story = story_from(alloc, &mut world, entries);
    drop(world);
    story
}
