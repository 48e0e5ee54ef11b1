//! A panel of an interlocking's node is attended.

ghost use Rattle.std.specs.Prelude.{◌≡◌, ◌≤◌, ◌++◌, IfOk, List, OnOk};
ghost use Rattle.node_drive.specs.Calls.{Call, Calls};
ghost use Rattle.node_panel.specs.Heard.{pictured};
ghost use Rattle.node_panel.specs.Turns.{Asks, IsLived, Turns};
ghost use Rattle.panel_desk.specs.Boards.{Notes, shown_all};
ghost use Rattle.panel_desk.specs.StandingOrders.{Tried, obeyed_all, standing_lines};

use crate::asking::{ask_each, ask_numbers, ask_routes};
use crate::heard::Heard;
use crate::hearing::hear_lines;
use node_drive::Outside;
use panel_connections::{Connections, Listens};
use panel_desk::{Checked, Desk, PanelCommand, Pictured, RouteId, StandingOrders, show_lines};
use std::alloc::{AllocError, Global};
use std::random::RandomSource;

/// What a panel knows of its node, by the table of the station, what it does by itself, and the desk that shows it.
pub struct Room<'a> {
    pub table: &'a Checked,
    pub heard: Heard,
    pub orders: StandingOrders,
    pub desk: Desk,
}

// Written by hand, so that it is proved and compiled here alone.
impl Drop for Room<'_> {
    fn drop(self) {
        let Self {
            table: _,
            heard: _,
            orders: _,
            desk: _,
        } = self;
    }
}

/// Attends a panel of an interlocking's node until its clock reads `until`, in milliseconds. Each reading makes a turn: the requests
/// that have come are answered, what the node has told is heard, each command is asked of it once and in order, the routes are asked for
/// that the panel sets by itself, its numbers are asked for where that is due, and the desk shows what is known.
pub fn attend_node<O: Outside, R: RandomSource, L: Listens>(
    rt: &R,
    alloc: Global,
    outside: &mut O,
    listener: &mut L,
    room: &mut Room<'_>,
    until: u64,
) -> Result<(), AllocError>
    ensures turns { OnOk result ((calls : List Call) × Calls (O.told outside.old) (O.told outside.new) calls × Turns room.old.table.now (record { heard = room.old.heard; orders = room.old.orders; desk = room.old.desk }) calls (record { heard = room.new.heard; orders = room.new.orders; desk = room.new.desk })) }
    ensures over { OnOk result (until ≤ (O.told outside.new).latest) }
{
    let mut connections = Connections::new(alloc);
    for _ in 0..u64::MAX {
        outside.rest();
        let reading = outside.read_clock();
        connections.serve(rt, alloc, listener, &mut room.desk, reading);
        turn(alloc, outside, reading, room)?;
        if reading >= until {
            return Ok(());
        }
    }
    // No panel stands so long.
    Err(AllocError)
}

/// What a turn does after the answers to its requests.
fn turn<O: Outside>(
    alloc: Global,
    outside: &mut O,
    reading: u64,
    room: &mut Room<'_>,
) -> Result<(), AllocError>
    ensures table { room.new.table ≡ room.old.table }
    ensures lived { OnOk result ((calls : List Call) × Calls (O.told outside.old) (O.told outside.new) calls × IsLived room.old.table.now reading calls (record { heard = room.old.heard; orders = room.old.orders; desk = room.old.desk }) (record { heard = room.new.heard; orders = room.new.orders; desk = room.new.desk })) }
{
    let table = room.table;
    let layout = table.layout();
    let began = outside.has_listener();
    room.heard.begin(began, reading);
    let commands = room.desk.take();
    room.desk.count();
    hear_lines(
        alloc,
        layout,
        outside,
        reading,
        &mut room.heard,
        &mut room.desk,
    )?;
    ask_all(alloc, outside, reading, &commands, room)?;
    ask_numbers(outside, &mut room.heard);
    show(alloc, room)
}

/// Asks each command of the node, and then the routes that the panel tries to set by itself.
fn ask_all<O: Outside>(
    alloc: Global,
    outside: &mut O,
    reading: u64,
    commands: &[PanelCommand],
    room: &mut Room<'_>,
) -> Result<(), AllocError>
    ensures table { room.new.table ≡ room.old.table }
    ensures asked { OnOk result ((calls : List Call) × Calls (O.told outside.old) (O.told outside.new) calls × Asks room.old.table.now reading commands.now (record { heard = room.old.heard; orders = room.old.orders }) calls (record { heard = room.new.heard; orders = room.new.orders }) × Notes room.old.desk room.new.desk) }
{
    let table = room.table;
    let layout = table.layout();
    ask_each(
        alloc,
        layout,
        outside,
        commands,
        &mut room.heard,
        &mut room.desk,
    )?;
    let routes = routes_by_itself(alloc, reading, commands, room)?;
    ask_routes(
        alloc,
        layout,
        outside,
        &routes,
        &mut room.heard,
        &mut room.desk,
    )
}

/// What commands ask of the panel itself is done. Hands out the routes that it tries to set.
fn routes_by_itself(
    alloc: Global,
    reading: u64,
    commands: &[PanelCommand],
    room: &mut Room<'_>,
) -> Result<Vec<RouteId>, AllocError>
    ensures kept { room.new ≡ record room.old { orders = room.new.orders } }
    ensures tried { IfOk result (λ routes. Tried room.old.table.now (pictured room.old.heard) reading (obeyed_all commands.now room.old.orders) routes.items room.new.orders) }
{
    let table = room.table;
    room.orders.obey(commands)?;
    let lines = room.heard.picture(alloc)?;
    room.orders.try_routes(alloc, table, &lines, reading)
}

/// Shows what is known, and what the panel does by itself, and has the numbers that were told.
fn show(alloc: Global, room: &mut Room<'_>) -> Result<(), AllocError>
    ensures table { room.new.table ≡ room.old.table }
    ensures shown { OnOk result (room.new ≡ record room.old { desk = record room.old.desk { board = shown_all room.old.table.now 0 (pictured room.old.heard ++ standing_lines room.old.orders) room.old.desk.board; numbers = room.old.heard.numbers } }) }
{
    let table = room.table;
    let mut lines = room.heard.picture(alloc)?;
    room.orders.add_lines(&mut lines)?;
    let numbers = room.heard.numbers.copy(alloc)?;
    room.desk.tell_numbers(numbers);
    show_lines(alloc, table.layout(), &lines, &mut room.desk)
}
