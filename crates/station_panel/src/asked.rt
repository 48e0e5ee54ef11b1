//! What the commands of a round ask for.

ghost use Rattle.std.specs.Prelude.{◌≡◌, ◌++◌, ◌/◌, IfOk, OnOk, map};
ghost use Rattle.std.specs.List.{flat_map};
ghost use Rattle.panel_desk.specs.StandingOrders.{Tried};
ghost use Rattle.panel_desk.specs.declared.panel_command.PanelCommand.TheVariants.{Event as Wants};
ghost use Rattle.station_panel.specs.Asked.{cancels, events_by, faults_after, faults_by, may_be_asked, requested};

use crate::faults::Faults;
use panel_desk::{Command, Event, MICROS, PanelCommand, Pictured, RouteId, StandingOrders};
use station_drive::Station;
use std::alloc::{AllocError, Global};

/// Whether an operator may ask for an event: a command, an occupancy, or a restart.
pub(crate) fn may_be_asked(event: &Event) -> bool
    ensures { result ≡ may_be_asked event.now }
{
    match event {
        Event::Request(_) | Event::Occupy { .. } | Event::Restart { .. } => true,
        _ => false,
    }
}

/// Adds the events that commands ask for, one after the other.
pub(crate) fn add_events(
    events: &mut Vec<Event>,
    routes: usize,
    commands: &[PanelCommand],
) -> Result<(), AllocError>
    ensures { OnOk result (events.new.items ≡ events.old.items ++ flat_map (events_by routes) commands.now) }
{
    for command in commands {
        add_events_by(events, routes, command)?;
    }
    Ok(())
}

/// Adds the events for which one command asks.
fn add_events_by(
    events: &mut Vec<Event>,
    routes: usize,
    command: &PanelCommand,
) -> Result<(), AllocError>
    ensures { OnOk result (events.new.items ≡ events.old.items ++ events_by routes command.now) }
{
    match command {
        PanelCommand::Event(event) => add_event(events, event),
        PanelCommand::CancelAll => add_cancels(events, routes),
        PanelCommand::Disturb(_) | PanelCommand::Stand(_) => Ok(()),
    }
}

/// Adds an event, if an operator may ask for it.
fn add_event(events: &mut Vec<Event>, event: &Event) -> Result<(), AllocError>
    ensures { OnOk result (events.new.items ≡ events.old.items ++ events_by 0 (Wants event.now)) }
{
    let copy = match event {
        Event::Request(command) => Event::Request(*command),
        Event::Occupy { section, occupancy } => Event::Occupy {
            section: *section,
            occupancy: *occupancy,
        },
        Event::Restart {
            node,
            clock,
            first_sequence_number,
        } => Event::Restart {
            node: *node,
            clock: *clock,
            first_sequence_number: *first_sequence_number,
        },
        _ => return Ok(()),
    };
    events.push(copy)?;
    Ok(())
}

/// The routes that a panel tries to set by itself at a reading of its clock, by the picture of its station.
pub(crate) fn routes_by_itself<S: Station + Pictured>(
    alloc: Global,
    station: &S,
    orders: &mut StandingOrders,
    reading: u64,
) -> Result<Vec<RouteId>, AllocError>
    ensures { IfOk result (λ routes. Tried (S.site station.now) (S.lines station.now) (reading / 1000) orders.old routes.items orders.new) }
{
    if orders.is_empty() {
        return Ok(Vec::new(alloc));
    }
    let lines = station.picture(alloc)?;
    let millis = reading / MICROS;
    orders.try_routes(alloc, station.table(), &lines, millis)
}

/// Adds a request of each of these routes, in their order.
pub(crate) fn add_requests(events: &mut Vec<Event>, routes: &[RouteId]) -> Result<(), AllocError>
    ensures { OnOk result (events.new.items ≡ events.old.items ++ map requested routes.now) }
{
    for route in routes {
        events.push(Event::Request(Command::Request(*route)))?;
    }
    Ok(())
}

/// Adds a cancel of each of so many routes, in their order.
fn add_cancels(events: &mut Vec<Event>, routes: usize) -> Result<(), AllocError>
    ensures { OnOk result (events.new.items ≡ events.old.items ++ cancels 0 routes) }
{
    for place in 0..routes {
        events.push(Event::Request(Command::Cancel(RouteId(place))))?;
    }
    Ok(())
}

/// What commands disturb is disturbed, one after the other.
pub(crate) fn disturb_by(faults: &mut Faults, commands: &[PanelCommand])
    ensures { faults.new ≡ faults_after commands.now faults.old }
{
    for command in commands {
        disturb_by_one(faults, command);
    }
}

/// What one command disturbs is disturbed.
fn disturb_by_one(faults: &mut Faults, command: &PanelCommand)
    ensures { faults.new ≡ faults_by command.now faults.old }
{
    if let PanelCommand::Disturb(disturbance) = command {
        faults.disturb(*disturbance);
    }
}
