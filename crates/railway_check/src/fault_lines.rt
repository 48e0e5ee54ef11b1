//! The lines of faults.

ghost use Rattle.std.specs.Prelude.{◌≡◌, ◌++◌, IfOk, OnOk, string_bytes};
ghost use Rattle.railway_check.specs.FaultLines.{all_told, fault_line, fault_lines, is_of_layout, place_of, told_of, words_line};
ghost use Rattle.railway_check.specs.Verdicts.{told_if};

use crate::place_words::PlaceWords;
use railway_layout::{Place, RailwayFault, WrittenRailway};
use std::alloc::{AllocError, Global};

/// Where a fault is.
fn place_of(fault: &RailwayFault) -> Place
    ensures { result ≡ place_of fault.now }
{
    match fault {
        RailwayFault::DoubleName(place, _) => *place,
        RailwayFault::Layout(place, _) => *place,
        RailwayFault::Table(place, _) => *place,
        RailwayFault::UnknownName(place, _) => *place,
        RailwayFault::LockNotRight(place, _) => *place,
        RailwayFault::LockNotLeft(place, _) => *place,
        RailwayFault::Unseen(place)
        | RailwayFault::SameStation(place)
        | RailwayFault::DoubleId(place)
        | RailwayFault::DoubleBorder(place)
        | RailwayFault::NotJoined(place)
        | RailwayFault::NoRouteIn(place)
        | RailwayFault::ClearElsewhere(place)
        | RailwayFault::ClearNotAlone(place)
        | RailwayFault::PartHasClear(place)
        | RailwayFault::PartLacksTrack(place) => *place,
    }
}

/// Whether the check of a layout tells a fault.
fn is_of_layout(fault: &RailwayFault) -> bool
    ensures { result ≡ is_of_layout fault.now }
{
    matches!(fault, RailwayFault::Layout(..) | RailwayFault::Table(..))
}

/// Adds a line to a text.
pub(crate) fn add_line(text: &mut Vec<u8>, line: &str) -> Result<(), AllocError>
    ensures { OnOk result (text.new.items ≡ text.old.items ++ line.now) }
{
    text.extend_from_slice(line.as_bytes())
}

/// The line of a fault: its number and name, and its place.
fn fault_line(alloc: Global, fault: &RailwayFault) -> Result<String, AllocError>
    ensures { IfOk result (λ line. string_bytes line ≡ fault_line fault.now) }
{
    format!(in alloc; "railway fault {fault}\n")
}

/// What a fault means, and what to do, in a line.
fn words_line(
    alloc: Global,
    railway: &WrittenRailway,
    fault: &RailwayFault,
) -> Result<String, AllocError>
    ensures { IfOk result (λ line. string_bytes line ≡ words_line railway.now fault.now) }
{
    let place = place_of(fault);
    let place = PlaceWords { railway, place };
    let advice = fault.advice();
    format!(in alloc; "{place}: {advice}\n")
}

/// Adds what a fault means, where that is asked for.
fn add_words(
    alloc: Global,
    text: &mut Vec<u8>,
    railway: &WrittenRailway,
    explained: bool,
    fault: &RailwayFault,
) -> Result<(), AllocError>
    ensures { OnOk result (text.new.items ≡ text.old.items ++ told_if explained (words_line railway.now fault.now)) }
{
    if !explained {
        return Ok(());
    }
    let line = words_line(alloc, railway, fault)?;
    add_line(text, line.as_str())
}

/// Adds what is told of a fault.
#[tactic(auto, using(crate::proofs::Added::two_added))]
fn add_lines(
    alloc: Global,
    text: &mut Vec<u8>,
    railway: &WrittenRailway,
    explained: bool,
    fault: &RailwayFault,
) -> Result<(), AllocError>
    ensures { OnOk result (text.new.items ≡ text.old.items ++ fault_lines explained railway.now fault.now) }
{
    let line = fault_line(alloc, fault)?;
    add_line(text, line.as_str())?;
    add_words(alloc, text, railway, explained, fault)
}

/// Adds what is told of a fault, where the check of a layout doesn't tell it.
fn add_fault(
    alloc: Global,
    text: &mut Vec<u8>,
    railway: &WrittenRailway,
    explained: bool,
    fault: &RailwayFault,
) -> Result<(), AllocError>
    ensures { OnOk result (text.new.items ≡ text.old.items ++ told_of explained railway.now fault.now) }
{
    if is_of_layout(fault) {
        return Ok(());
    }
    add_lines(alloc, text, railway, explained, fault)
}

/// Adds what is told of these faults, one after the other.
pub(crate) fn add_faults(
    alloc: Global,
    text: &mut Vec<u8>,
    railway: &WrittenRailway,
    explained: bool,
    faults: &[RailwayFault],
) -> Result<(), AllocError>
    ensures { OnOk result (text.new.items ≡ text.old.items ++ all_told explained railway.now faults.now) }
{
    for fault in faults {
        add_fault(alloc, text, railway, explained, fault)?;
    }
    Ok(())
}
