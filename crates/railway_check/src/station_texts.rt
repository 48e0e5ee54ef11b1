//! What is told of the stations.

ghost use Rattle.std.specs.Prelude.{◌≡◌, ◌++◌, IfOk, OnOk, string_bytes};
ghost use Rattle.railway_check.specs.StationTexts.{all_faults, all_reports, faults_at, faults_of, headed, heading, report_at, report_of};

use crate::fault_lines::add_line;
use crate::verdict::{Verdict, is_sound};
use railway_layout::WrittenStation;
use std::alloc::{AllocError, Global};

/// The line before what is told of a station: its name, and the file of its layout.
fn heading(alloc: Global, station: &WrittenStation) -> Result<String, AllocError>
    ensures { IfOk result (λ line. string_bytes line ≡ heading station.now) }
{
    let name = station.name.as_str();
    let layout = station.layout.as_str();
    format!(in alloc; "station {name} {layout}\n")
}

/// Adds what is told of a station.
#[tactic(auto, using(crate::proofs::Added::two_added))]
fn add_headed(
    alloc: Global,
    text: &mut Vec<u8>,
    station: &WrittenStation,
    told: &[u8],
) -> Result<(), AllocError>
    ensures { OnOk result (text.new.items ≡ text.old.items ++ headed station.now told.now) }
{
    let heading = heading(alloc, station)?;
    add_line(text, heading.as_str())?;
    text.extend_from_slice(told)
}

/// Adds the report on a station, where its layout is sound.
fn add_report_of(
    alloc: Global,
    text: &mut Vec<u8>,
    station: &WrittenStation,
    verdict: &Verdict,
) -> Result<(), AllocError>
    ensures { OnOk result (text.new.items ≡ text.old.items ++ report_of station.now verdict.now) }
{
    if !is_sound(verdict) {
        return Ok(());
    }
    add_headed(alloc, text, station, &verdict.out)
}

/// Adds what is wrong with a station, where its layout isn't sound.
fn add_faults_of(
    alloc: Global,
    text: &mut Vec<u8>,
    station: &WrittenStation,
    verdict: &Verdict,
) -> Result<(), AllocError>
    ensures { OnOk result (text.new.items ≡ text.old.items ++ faults_of station.now verdict.now) }
{
    if is_sound(verdict) {
        return Ok(());
    }
    add_headed(alloc, text, station, &verdict.err)
}

/// Adds the report on the station of a number.
fn add_report(
    alloc: Global,
    text: &mut Vec<u8>,
    verdicts: &[Verdict],
    number: usize,
    station: &WrittenStation,
) -> Result<(), AllocError>
    ensures { OnOk result (text.new.items ≡ text.old.items ++ report_at verdicts.now number station.now) }
{
    match verdicts.get(number) {
        Some(verdict) => add_report_of(alloc, text, station, verdict),
        None => Ok(()),
    }
}

/// Adds what is wrong with the station of a number.
fn add_faults(
    alloc: Global,
    text: &mut Vec<u8>,
    verdicts: &[Verdict],
    number: usize,
    station: &WrittenStation,
) -> Result<(), AllocError>
    ensures { OnOk result (text.new.items ≡ text.old.items ++ faults_at verdicts.now number station.now) }
{
    match verdicts.get(number) {
        Some(verdict) => add_faults_of(alloc, text, station, verdict),
        None => Ok(()),
    }
}

/// Adds the reports on the stations whose layouts are sound.
pub(crate) fn add_reports(
    alloc: Global,
    text: &mut Vec<u8>,
    verdicts: &[Verdict],
    stations: &[WrittenStation],
) -> Result<(), AllocError>
    ensures { OnOk result (text.new.items ≡ text.old.items ++ all_reports verdicts.now stations.now) }
{
    for (number, station) in stations.iter().enumerate() {
        add_report(alloc, text, verdicts, number, station)?;
    }
    Ok(())
}

/// Adds what is wrong with the stations whose layouts aren't sound.
pub(crate) fn add_all_faults(
    alloc: Global,
    text: &mut Vec<u8>,
    verdicts: &[Verdict],
    stations: &[WrittenStation],
) -> Result<(), AllocError>
    ensures { OnOk result (text.new.items ≡ text.old.items ++ all_faults verdicts.now stations.now) }
{
    for (number, station) in stations.iter().enumerate() {
        add_faults(alloc, text, verdicts, number, station)?;
    }
    Ok(())
}
