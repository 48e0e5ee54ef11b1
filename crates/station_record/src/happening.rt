//! Commands and restarts of a session, with their answers.

ghost use Rattle.std.specs.Prelude.{◌≡◌, ◌++◌, IfOk, OnOk, map, string_bytes};
ghost use Rattle.replay.specs.World.{played};
ghost use Rattle.station_record.specs.Marks.{is_marked, mark_of, node_of, seen_mark, words_of};

use control_table::Checked;
use lane_chart::Happening;
use replay::{AnswerText, Entry, Event, World, write_event};
use std::alloc::{AllocError, Global};

/// Whether an event is marked: a command, or a node that is made anew.
fn is_marked(event: &Event) -> bool
    ensures { result ≡ is_marked event.now }
{
    matches!(event, Event::Request(_) | Event::Restart { .. })
}

/// The node that an event makes anew.
fn node_of(event: &Event) -> Option<usize>
    ensures { result ≡ node_of event.now }
{
    match event {
        Event::Restart { node, .. } => Some(node.0),
        _ => None,
    }
}

/// The words of an event and of its answer.
fn words_of(alloc: Global, table: &Checked, entry: &Entry) -> Result<String, AllocError>
    ensures { IfOk result (λ words. string_bytes words ≡ words_of table.now entry.now) }
{
    let layout = table.layout();
    let answer = entry.answer;
    let answer = AnswerText { layout, answer };
    match write_event(alloc, table, &entry.event)? {
        Some(event) => format!(in alloc; "{event} = {answer}"),
        None => format!(in alloc; "{answer}"),
    }
}

/// Adds the mark of an event that is to happen to this world, if it has one.
pub(crate) fn add_happening(
    alloc: Global,
    world: &World,
    line: usize,
    entry: &Entry,
    happenings: &mut Vec<Happening>,
) -> Result<(), AllocError>
    ensures { OnOk result (map seen_mark happenings.new.items ≡ map seen_mark happenings.old.items ++ mark_of line (played world.now) entry.now) }
{
    if !is_marked(&entry.event) {
        return Ok(());
    }
    let words = words_of(alloc, world.table(), entry)?;
    happenings.push(Happening {
        line,
        time: world.time(),
        node: node_of(&entry.event),
        words,
    })?;
    Ok(())
}
