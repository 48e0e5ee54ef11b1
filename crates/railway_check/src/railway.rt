//! What a check says of a railway.

ghost use Rattle.std.specs.Prelude.{◌≡◌, [], IfOk, length, map, string_bytes};
ghost use Rattle.railway_check.specs.RailwayVerdict.{AreFaults, HasRailway, IsVerdict, are_sound, is_all_sound, is_nothing, told_err, told_out, verdict_by};

use crate::fault_lines::add_faults;
use crate::station_texts::{add_all_faults, add_reports};
use crate::summary::add_summary;
use crate::verdict::{Verdict, is_sound, status_of};
use railway_layout::{Railway, RailwayFault, Refused, WrittenRailway};
use std::alloc::{AllocError, Global};

/// All that is wrong with a railway.
fn faults_of(
    alloc: Global,
    railway: &WrittenRailway,
    layouts: &[String],
) -> Result<Vec<RailwayFault>, AllocError>
    requires { length layouts.now ≡ length railway.now.stations }
    ensures { IfOk result (λ faults. AreFaults railway.now (map string_bytes layouts.now) faults.items) }
{
    match Railway::read(alloc, railway, layouts) {
        Ok(_) => Ok(Vec::new(alloc)),
        Err(Refused::Faults(faults)) => Ok(faults),
        Err(Refused::OutOfMemory) => Err(AllocError),
    }
}

/// Whether there is no fault.
fn is_nothing(faults: &[RailwayFault]) -> bool
    ensures { result ≡ is_nothing faults.now }
{
    match faults.split_first() {
        Some(_) => false,
        None => true,
    }
}

/// Whether each check says that nothing is wrong.
fn are_sound(verdicts: &[Verdict]) -> bool
    ensures { result ≡ are_sound verdicts.now }
{
    verdicts.iter().all(|verdict| is_sound(verdict))
}

/// Whether nothing is wrong with the railway, and each check of a layout says so too.
fn is_all_sound(faults: &[RailwayFault], verdicts: &[Verdict]) -> bool
    ensures { result ≡ is_all_sound faults.now verdicts.now }
{
    is_nothing(faults) && are_sound(verdicts)
}

/// The reports on the stations, and where all is sound, how many stations and lines there are, and each line with its ends.
fn told_out(
    alloc: Global,
    railway: &WrittenRailway,
    verdicts: &[Verdict],
    sound: bool,
) -> Result<Vec<u8>, AllocError>
    ensures { IfOk result (λ text. text.items ≡ told_out railway.now verdicts.now sound) }
{
    let mut text = Vec::new(alloc);
    add_reports(alloc, &mut text, verdicts, &railway.stations)?;
    add_summary(alloc, &mut text, railway, sound)?;
    Ok(text)
}

/// What is wrong with the layouts, and then with the railway.
fn told_err(
    alloc: Global,
    railway: &WrittenRailway,
    verdicts: &[Verdict],
    faults: &[RailwayFault],
    explained: bool,
) -> Result<Vec<u8>, AllocError>
    ensures { IfOk result (λ text. text.items ≡ told_err explained railway.now verdicts.now faults.now) }
{
    let mut text = Vec::new(alloc);
    add_all_faults(alloc, &mut text, verdicts, &railway.stations)?;
    add_faults(alloc, &mut text, railway, explained, faults)?;
    Ok(text)
}

/// What is said where these faults were found.
fn verdict_by(
    alloc: Global,
    railway: &WrittenRailway,
    verdicts: &[Verdict],
    faults: &[RailwayFault],
    explained: bool,
) -> Result<Verdict, AllocError>
    ensures { IfOk result (λ verdict. verdict ≡ verdict_by explained railway.now verdicts.now faults.now) }
{
    let sound = is_all_sound(faults, verdicts);
    Ok(Verdict {
        status: status_of(sound),
        out: told_out(alloc, railway, verdicts, sound)?,
        err: told_err(alloc, railway, verdicts, faults, explained)?,
    })
}

/// The verdict on a railway, by the text of the layout of each station, in the order of the railway's text, and by what the check of
/// each of these says. First comes what is told of each station, under a heading; then each fault of the railway that no check of a
/// layout tells, once and in order, or where all is sound how many stations and lines there are. It fails only where memory was
/// refused.
pub fn railway_verdict(
    alloc: Global,
    railway: &WrittenRailway,
    layouts: &[String],
    verdicts: &[Verdict],
    explained: bool,
) -> Result<Verdict, AllocError>
    requires { length layouts.now ≡ length railway.now.stations }
    ensures told { IfOk result (IsVerdict explained railway.now (map string_bytes layouts.now) verdicts.now) }
    ensures sound { IfOk result (λ verdict. verdict.status ≡ 0 → HasRailway railway.now (map string_bytes layouts.now)) }
    ensures silent { IfOk result (λ verdict. verdict.status ≡ 0 → verdict.err ≡ []) }
{
    let faults = faults_of(alloc, railway, layouts)?;
    verdict_by(alloc, railway, verdicts, &faults, explained)
}
