//! The lines of what an operator asks for at a panel.

ghost use Rattle.std.specs.Prelude.{◌≡◌};
ghost use Rattle.node_lines.specs.replay_words.Cut.{words};
ghost use Rattle.panel_desk.specs.CommandLines.{automatic, cancel, cut, delay, dropped, event, jam, manual, mend, panel_said, queue, route_there, said_by, unjam, up_to};

use crate::panel_command::{Disturbance, PanelCommand};
use crate::standing_order::StandingOrder;
use node_lines::{
    Fault, LIFETIME, Layout, RouteId, Words, decimal, node_named, point_named, read_script_event,
    route_named,
};

/// What a line asks for, or the lowest fault of its words.
pub fn read_panel_command(layout: &Layout, line: &str) -> Result<PanelCommand, Fault>
    ensures { result ≡ panel_said layout.now (words line.now) }
{
    let mut rest = Words::of(line);
    match rest.next() {
        Some(first) => said_by(layout, Words::of(line), first, rest),
        None => event(layout, Words::of(line)),
    }
}

/// What all words ask for, by the first and those after it.
fn said_by(
    layout: &Layout,
    whole: Words<'_>,
    first: &str,
    rest: Words<'_>,
) -> Result<PanelCommand, Fault>
    ensures { result ≡ said_by layout.now whole.entry first.now rest.entry }
{
    match first {
        "cancel" => cancel(layout, whole, rest),
        "cut" => cut(layout, rest),
        "mend" => mend(layout, rest),
        "drop" => dropped(rest),
        "delay" => delay(rest),
        "jam" => jam(layout, rest),
        "unjam" => unjam(layout, rest),
        "automatic" => automatic(layout, rest),
        "queue" => queue(layout, rest),
        "manual" => manual(layout, rest),
        _ => event(layout, whole),
    }
}

/// The event that words say in a script.
fn event(layout: &Layout, words: Words<'_>) -> Result<PanelCommand, Fault>
    ensures { result ≡ event layout.now words.entry }
{
    Ok(PanelCommand::Event(read_script_event(layout, words)?))
}

/// What the words after `cancel` ask for.
fn cancel(layout: &Layout, whole: Words<'_>, mut rest: Words<'_>) -> Result<PanelCommand, Fault>
    ensures { result ≡ cancel layout.now whole.entry rest.entry }
{
    match (rest.next(), rest.next()) {
        (Some("all"), None) => Ok(PanelCommand::CancelAll),
        _ => event(layout, whole),
    }
}

fn cut(layout: &Layout, mut words: Words<'_>) -> Result<PanelCommand, Fault>
    ensures { result ≡ cut layout.now words.entry }
{
    let (Some(node), None) = (words.next(), words.next()) else {
        return Err(Fault::Words);
    };
    let node = node_named(layout, node)?;
    Ok(PanelCommand::Disturb(Disturbance::Cut(node)))
}

fn mend(layout: &Layout, mut words: Words<'_>) -> Result<PanelCommand, Fault>
    ensures { result ≡ mend layout.now words.entry }
{
    let (Some(node), None) = (words.next(), words.next()) else {
        return Err(Fault::Words);
    };
    let node = node_named(layout, node)?;
    Ok(PanelCommand::Disturb(Disturbance::Mend(node)))
}

fn dropped(mut words: Words<'_>) -> Result<PanelCommand, Fault>
    ensures { result ≡ dropped words.entry }
{
    let (Some(number), None) = (words.next(), words.next()) else {
        return Err(Fault::Words);
    };
    let one_in = decimal(number)?;
    Ok(PanelCommand::Disturb(Disturbance::Drop { one_in }))
}

fn delay(mut words: Words<'_>) -> Result<PanelCommand, Fault>
    ensures { result ≡ delay words.entry }
{
    let (Some(number), None) = (words.next(), words.next()) else {
        return Err(Fault::Words);
    };
    let millis = up_to_longest(number)?;
    Ok(PanelCommand::Disturb(Disturbance::Delay { millis }))
}

/// A delay, in milliseconds: no datagram is delivered later than its lifetime.
fn up_to_longest(word: &str) -> Result<u64, Fault>
    ensures { result ≡ up_to LIFETIME word.now }
{
    let millis = decimal(word)?;
    if millis > LIFETIME {
        return Err(Fault::Number);
    }
    Ok(millis)
}

fn jam(layout: &Layout, mut words: Words<'_>) -> Result<PanelCommand, Fault>
    ensures { result ≡ jam layout.now words.entry }
{
    let (Some(point), None) = (words.next(), words.next()) else {
        return Err(Fault::Words);
    };
    let point = point_named(layout, point)?;
    Ok(PanelCommand::Disturb(Disturbance::Jam(point)))
}

fn unjam(layout: &Layout, mut words: Words<'_>) -> Result<PanelCommand, Fault>
    ensures { result ≡ unjam layout.now words.entry }
{
    let (Some(point), None) = (words.next(), words.next()) else {
        return Err(Fault::Words);
    };
    let point = point_named(layout, point)?;
    Ok(PanelCommand::Disturb(Disturbance::Unjam(point)))
}

/// The route of the table that words name, and nothing more.
fn route_there(layout: &Layout, mut words: Words<'_>) -> Result<RouteId, Fault>
    ensures { result ≡ route_there layout.now words.entry }
{
    let (Some(route), None) = (words.next(), words.next()) else {
        return Err(Fault::Words);
    };
    let route = route_named(layout, route);
    if route.0 < layout.routes().len() {
        Ok(route)
    } else {
        Err(Fault::Name)
    }
}

fn automatic(layout: &Layout, words: Words<'_>) -> Result<PanelCommand, Fault>
    ensures { result ≡ automatic layout.now words.entry }
{
    let route = route_there(layout, words)?;
    Ok(PanelCommand::Stand(StandingOrder::Automatic(route)))
}

fn queue(layout: &Layout, words: Words<'_>) -> Result<PanelCommand, Fault>
    ensures { result ≡ queue layout.now words.entry }
{
    let route = route_there(layout, words)?;
    Ok(PanelCommand::Stand(StandingOrder::Queue(route)))
}

fn manual(layout: &Layout, words: Words<'_>) -> Result<PanelCommand, Fault>
    ensures { result ≡ manual layout.now words.entry }
{
    let route = route_there(layout, words)?;
    Ok(PanelCommand::Stand(StandingOrder::Manual(route)))
}
