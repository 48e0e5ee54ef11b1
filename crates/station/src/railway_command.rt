//! What `station check` does with a railway: the file of each layout is read and checked, and then the whole is judged.

ghost use Rattle.std.specs.Prelude.{◌≡◌, ◌∷◌, ◌++◌, [], IfOk, OnOk, length};
ghost use Rattle.station_run.specs.station_record.replay.layout.Entries.{Site};
ghost use Rattle.station_run.specs.station_record.replay.station_check.Report.{IsSound};

use crate::INPUT;
use line_begin::{
    Verdict, WrittenRailway, WrittenStation, layout_file, railway_verdict, read_text, text_verdict,
};
use station_command::{CheckArguments, Failure, text_of};
use station_layout::explain_text;
use station_run::check_text;
use std::alloc::{AllocError, Global};
use std::io::Write;

/// `check RAILWAY [--explain]`, for the text of the railway.
pub(crate) fn check_railway<W: Write>(
    rt: &HostRuntime,
    arguments: CheckArguments<'_>,
    text: &str,
    out: &mut W,
) -> Result<u8, Failure> {
    if arguments.complete || arguments.digest {
        return Err(Failure::Railway);
    }
    let verdict = match read_text(rt.alloc(), text) {
        Ok(railway) => judged(rt, arguments, &railway)?,
        Err(fault) => made(text_verdict(rt.alloc(), &fault, arguments.explained))?,
    };
    Ok(tell(rt, &verdict, out))
}

/// What was made, where memory was there.
pub(crate) fn made<T>(made: Result<T, AllocError>) -> Result<T, Failure> {
    match made {
        Ok(made) => Ok(made),
        Err(_) => Err(Failure::OutOfMemory),
    }
}

/// The verdict on a railway.
fn judged(
    rt: &HostRuntime,
    arguments: CheckArguments<'_>,
    railway: &WrittenRailway,
) -> Result<Verdict, Failure> {
    let explained = arguments.explained;
    let layouts = layouts_of(rt, arguments.layout, &railway.stations)?;
    let verdicts = made(verdicts_on(rt.alloc(), &layouts, explained))?;
    made(railway_verdict(rt.alloc(), railway, &layouts, &verdicts, explained))
}

/// Adds a text.
fn add(texts: &mut Vec<String>, text: String) -> Result<(), Failure>
    ensures { OnOk result (texts.new.items ≡ texts.old.items ++ text ∷ []) }
{
    match texts.push(text) {
        Ok(()) => Ok(()),
        Err(_) => Err(Failure::OutOfMemory),
    }
}

/// The text of a layout of the railway in a file. Standard input is none.
fn layout_of(rt: &HostRuntime, railway: &str, layout: &str) -> Result<String, Failure> {
    let file = made(layout_file(rt.alloc(), railway, layout))?;
    if file.as_str() == INPUT {
        return Err(Failure::File(file));
    }
    text_of(rt, file.as_str())
}

/// The texts of the layouts of these stations.
pub(crate) fn layouts_of(
    rt: &HostRuntime,
    railway: &str,
    stations: &[WrittenStation],
) -> Result<Vec<String>, Failure>
    ensures { IfOk result (λ layouts. length layouts.items ≡ length stations.now) }
{
    let mut layouts = Vec::new(rt.alloc());
    for station in stations {
        let text = layout_of(rt, railway, station.layout.as_str())?;
        add(&mut layouts, text)?;
    }
    Ok(layouts)
}

/// Checks a layout.
fn checked(alloc: Global, layout: &str, explained: bool, out: &mut Vec<u8>, err: &mut Vec<u8>) -> u8
    ensures { result ≡ 0 → (site : Site) × IsSound layout.now site }
{
    if explained {
        return explain_text(alloc, layout, out, err);
    }
    check_text(alloc, layout, out, err)
}

/// What the check of a layout says.
fn verdict_on(alloc: Global, layout: &str, explained: bool) -> Result<Verdict, AllocError>
    ensures { IfOk result (λ verdict. verdict.status ≡ 0 → (site : Site) × IsSound layout.now site) }
{
    let mut out = Vec::new(alloc);
    let mut err = Vec::new(alloc);
    let status = checked(alloc, layout, explained, &mut out, &mut err);
    // Nothing is told where there was no room for the report.
    if status != 0 && err.is_empty() {
        return Err(AllocError);
    }
    Ok(Verdict { status, out, err })
}

/// What the check of each of these layouts says.
pub(crate) fn verdicts_on(
    alloc: Global,
    layouts: &[String],
    explained: bool,
) -> Result<Vec<Verdict>, AllocError> {
    let mut verdicts = Vec::new(alloc);
    for layout in layouts {
        verdicts.push(verdict_on(alloc, layout.as_str(), explained)?)?;
    }
    Ok(verdicts)
}

/// Writes a verdict, and answers its status.
pub(crate) fn tell<W: Write>(rt: &HostRuntime, verdict: &Verdict, out: &mut W) -> u8 {
    match out.write_all(&verdict.out).and_then(|()| out.flush()) {
        Ok(()) => (),
        Err(_) => return 1,
    }
    // Where this can't be written, the status has to do.
    let _ = rt.stderr().write_all(&verdict.err);
    verdict.status
}
