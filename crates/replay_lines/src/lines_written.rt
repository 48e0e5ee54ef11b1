//! The line of an event.

ghost use Rattle.std.specs.Prelude.{◌≡◌, ◌++◌, IfOk, OnOk, slice_get, string_bytes};
ghost use Rattle.std.specs.Option.{option_map};
ghost use Rattle.std.specs.List.{join_with_byte};
ghost use Rattle.simulator_event.specs.declared.event.Event.TheVariants.{Deliver, Occupy, Reach, Restart, Tick, Time};
ghost use Rattle.ixl_spec.specs.closings.Words.{words_of};
ghost use Rattle.replay_lines.specs.Names.{node_names};
ghost use Rattle.replay_lines.specs.Written.{command_words, event_line, lose_words, occupancy_verb};
ghost use Rattle.replay_lines.specs.inside.Clocks.{clock_text};

use crate::{point_word, route_word};
use ixl_spec::{
    Checked, Command, LATEST_CLOCK, LONGEST_DATAGRAM, Layout, Named, Occupancy, PointId, Position,
    SectionId, side_word,
};
use replay_words::hex_word;
use simulator_event::{Event, NodeId};
use std::alloc::{AllocError, Global};

/// The line of an event, without a line feed. There is none where a node, a section or a point isn't
/// there, or a number or a length lies outside the bounds of a line.
pub fn write_event(
    alloc: Global,
    table: &Checked,
    event: &Event,
) -> Result<Option<String>, AllocError>
    ensures { IfOk result (λ line. option_map string_bytes line ≡ event_line table.now event.now) }
{
    let layout = table.layout();
    match event {
        Event::Request(command) => Ok(Some(command_line(alloc, layout, *command)?)),
        Event::Occupy { section, occupancy } => occupy_line(alloc, layout, *section, *occupancy),
        Event::Tick(node) => tick_line(alloc, layout, *node),
        Event::Time { elapsed, clocks } => time_line(alloc, layout, *elapsed, clocks.as_slice()),
        Event::Deliver { node, bytes } => deliver_line(alloc, layout, *node, bytes.as_slice()),
        Event::Lose(bytes) => lose_line(alloc, bytes.as_slice()),
        Event::Reach { point, position } => reach_line(alloc, layout, *point, *position),
        Event::Restart {
            node,
            clock,
            first_sequence_number,
        } => restart_line(alloc, layout, *node, *clock, *first_sequence_number),
    }
}

fn command_line(alloc: Global, layout: &Layout, command: Command) -> Result<String, AllocError>
    ensures { IfOk result (λ line. string_bytes line ≡ join_with_byte 32 (command_words layout.now command)) }
{
    match command {
        Command::Request(route) => {
            let route = route_word(layout, route);
            format!(in alloc; "set {route}")
        }
        Command::Cancel(route) => {
            let route = route_word(layout, route);
            format!(in alloc; "cancel {route}")
        }
        Command::Resume => String::from_str(alloc, "resume"),
        Command::Release(route) => {
            let route = route_word(layout, route);
            format!(in alloc; "release {route}")
        }
        Command::Move(point, side) => {
            let point = point_word(layout, point);
            let side = side_word(side);
            format!(in alloc; "move {point} {side}")
        }
        Command::Close(named) => named_line(alloc, layout, "close ", named),
        Command::Open(named) => named_line(alloc, layout, "open ", named),
    }
}

// The line of a close or an open.
fn named_line(
    alloc: Global,
    layout: &Layout,
    verb: &str,
    named: Named,
) -> Result<String, AllocError>
    ensures { IfOk result (λ line. string_bytes line ≡ verb.now ++ words_of layout.now named) }
{
    let mut line = String::from_str(alloc, verb)?;
    named.write(layout, &mut line)?;
    Ok(line)
}

/// The verb by which an event and a contact say what becomes of a section. It isn't the word for its state.
pub fn occupancy_verb(occupancy: Occupancy) -> &'static str
    ensures { result.now ≡ occupancy_verb occupancy }
{
    match occupancy {
        Occupancy::Occupied => "occupy",
        Occupancy::Clear => "clear",
    }
}

fn occupy_line(
    alloc: Global,
    layout: &Layout,
    section: SectionId,
    occupancy: Occupancy,
) -> Result<Option<String>, AllocError>
    ensures { IfOk result (λ line. option_map string_bytes line ≡ event_line layout.now (Occupy section occupancy)) }
{
    let Some(name) = layout.sections().get(section.0) else {
        return Ok(None);
    };
    let word = occupancy_verb(occupancy);
    let name = name.as_str();
    Ok(Some(format!(in alloc; "{word} {name}")?))
}

fn tick_line(alloc: Global, layout: &Layout, node: NodeId) -> Result<Option<String>, AllocError>
    ensures { IfOk result (λ line. option_map string_bytes line ≡ event_line layout.now (Tick node)) }
{
    let Some(name) = layout.node_name(node) else {
        return Ok(None);
    };
    let name = name.as_str();
    Ok(Some(format!(in alloc; "tick {name}")?))
}

fn time_line(
    alloc: Global,
    layout: &Layout,
    elapsed: u64,
    steps: &[u64],
) -> Result<Option<String>, AllocError>
    ensures { IfOk result (λ line. option_map string_bytes line ≡ event_line layout.now (Time elapsed steps.now)) }
{
    if steps.len() != layout.nodes() {
        return Ok(None);
    }
    let mut line = format!(in alloc; "time {elapsed}")?;
    for (place, step) in steps.iter().enumerate() {
        push_clock(&mut line, layout, NodeId(place), elapsed, *step)?;
    }
    Ok(Some(line))
}

// Adds the word of a clock that goes on otherwise than true time.
fn push_clock(
    line: &mut String,
    layout: &Layout,
    node: NodeId,
    elapsed: u64,
    step: u64,
) -> Result<(), AllocError>
    ensures { OnOk result (string_bytes line.new ≡ string_bytes line.old ++ clock_text (slice_get (node_names layout.now) node.0) elapsed step) }
{
    if step == elapsed {
        return Ok(());
    }
    match layout.node_name(node) {
        Some(name) => {
            let name = name.as_str();
            write!(line, " {name}={step}")
        }
        None => Ok(()),
    }
}

fn deliver_line(
    alloc: Global,
    layout: &Layout,
    node: NodeId,
    bytes: &[u8],
) -> Result<Option<String>, AllocError>
    ensures { IfOk result (λ line. option_map string_bytes line ≡ event_line layout.now (Deliver node bytes.now)) }
{
    if bytes.len() > LONGEST_DATAGRAM {
        return Ok(None);
    }
    let Some(name) = layout.node_name(node) else {
        return Ok(None);
    };
    let name = name.as_str();
    let word = hex_word(alloc, bytes)?;
    let word = word.as_str();
    Ok(Some(format!(in alloc; "deliver {name} {word}")?))
}

fn lose_line(alloc: Global, bytes: &[u8]) -> Result<Option<String>, AllocError>
    ensures { IfOk result (λ line. option_map string_bytes line ≡ option_map (join_with_byte 32) (lose_words bytes.now)) }
{
    if bytes.is_empty() || bytes.len() > LONGEST_DATAGRAM {
        return Ok(None);
    }
    let word = hex_word(alloc, bytes)?;
    let word = word.as_str();
    Ok(Some(format!(in alloc; "lose {word}")?))
}

fn reach_line(
    alloc: Global,
    layout: &Layout,
    point: PointId,
    position: Position,
) -> Result<Option<String>, AllocError>
    ensures { IfOk result (λ line. option_map string_bytes line ≡ event_line layout.now (Reach point position)) }
{
    let Some(point) = layout.points().get(point.0) else {
        return Ok(None);
    };
    let word = position.word();
    let name = point.name.as_str();
    Ok(Some(format!(in alloc; "reach {name} {word}")?))
}

fn restart_line(
    alloc: Global,
    layout: &Layout,
    node: NodeId,
    clock: u64,
    number: u32,
) -> Result<Option<String>, AllocError>
    ensures { IfOk result (λ line. option_map string_bytes line ≡ event_line layout.now (Restart node clock number)) }
{
    if clock > LATEST_CLOCK {
        return Ok(None);
    }
    let Some(name) = layout.node_name(node) else {
        return Ok(None);
    };
    let name = name.as_str();
    Ok(Some(format!(in alloc; "restart {name} {clock} {number}")?))
}
