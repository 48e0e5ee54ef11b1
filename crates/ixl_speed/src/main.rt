// Gives an interlocking ticks or reports as often as it is told, for a script that times it: `ixl_speed LAYOUT ROUTES WORK
// TIMES`. The links to all controllers of the layout are open, and its first ROUTES routes show proceed. WORK is
//
// - `tick`: TIMES ticks at one clock, at which nothing is due;
// - `report`: TIMES rounds of two datagrams from each detector, which tell that its first section is occupied, and clear again;
// - `read`, `write`: such datagrams are written and read, or written alone, without an interlocking.
//
// It prints how many signals show proceed, and how often what is done went as it has to.
#![tactic(auto)]

mod controllers;
mod passes;
mod station;

use crate::station::{Station, Work};
use anyhow::{Context, bail};
use control_table::check;
use ixl_state::{Checked, Layout};
use std::alloc::Global;
use std::{env, fs};

const USAGE: &str =
    "usage: ixl_speed LAYOUT ROUTES WORK TIMES, where WORK is tick, report, read or write";

/// How much of which work is done, after how many routes that show proceed.
#[derive(Clone, Copy)]
struct Asked {
    routes: usize,
    work: Work,
    times: u32,
}

fn layout_in(alloc: Global, text: &str) -> Option<Layout> {
    match Layout::read(alloc, text) {
        Ok(layout) => Some(layout),
        Err(_) => None,
    }
}

fn table_of(alloc: Global, layout: Layout) -> Option<Checked> {
    match check(alloc, layout) {
        Ok(table) => Some(table),
        Err(_) => None,
    }
}

fn work_of(word: &str) -> Option<Work> {
    match word {
        "tick" => Some(Work::Tick),
        "report" => Some(Work::Report),
        "read" => Some(Work::Read),
        "write" => Some(Work::Write),
        _ => None,
    }
}

fn read_words(routes: &str, work: &str, times: &str) -> Option<Asked> {
    Some(Asked {
        routes: routes.parse().ok()?,
        work: work_of(work)?,
        times: times.parse().ok()?,
    })
}

/// How many signals show proceed on a station of the layout in a text, and how often what was done went as it has to.
fn measured(alloc: Global, text: &str, asked: Asked) -> Option<(usize, u32)> {
    let table = table_of(alloc, layout_in(alloc, text)?)?;
    let mut station = Station::new(alloc, table).ok()?;
    Some(station.measured(alloc, asked.routes, asked.work, asked.times))
}

/// Does what is asked on a station of the layout in a file, and prints what came of it.
fn measure(rt: &HostRuntime, path: &str, asked: Asked) -> anyhow::Result<()> {
    let text = fs::read_to_string(rt, path)?;
    let (proceeding, done) = measured(rt.alloc(), text.as_str(), asked).context("no sound table")?;
    println!(rt; "{proceeding} {done}")?;
    Ok(())
}

fn main(rt: HostRuntime) -> anyhow::Result<()> {
    let mut args = env::args(&rt)?.skip(1);
    let (Some(path), Some(routes), Some(work), Some(times)) = (
        args.next(),
        args.next(),
        args.next(),
        args.next(),
    ) else {
        bail!(USAGE);
    };
    match read_words(routes.as_str(), work.as_str(), times.as_str()) {
        Some(asked) => measure(&rt, path.as_str(), asked),
        None => bail!(USAGE),
    }
}
