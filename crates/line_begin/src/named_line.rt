//! The line of a name in a railway with which nothing is wrong.

ghost use Rattle.std.specs.Prelude.{◌≡◌, IfErr, IfOk, Some, false, find, length, map, string_bytes};
ghost use Rattle.std.specs.Option.{option_map};
ghost use Rattle.railway_check.specs.railway_layout.Faults.{is_at_one_station, is_line_called};
ghost use Rattle.railway_check.specs.RailwayVerdict.{HasRailway};
ghost use Rattle.line_begin.specs.NamedLine.{Explains};

use railway_check::railway_layout::{WrittenLine, WrittenRailway};
use railway_check::{Verdict, railway_verdict};
use std::alloc::{AllocError, Global};

/// Why there is no line to begin.
#[derive(Drop)]
pub enum NoLine {
    /// Something is wrong with the railway, of which its check says this.
    Faulty(Verdict),
    /// It has no line of this name.
    Unknown,
    OutOfMemory,
}

impl From<AllocError> for NoLine {
    ghost use Rattle.line_begin.specs.declared.named_line.NoLine.TheVariants.{OutOfMemory};

    ghost from_gives = { λ _ why. why ≡ OutOfMemory };

    fn from(_error: AllocError) -> NoLine {
        NoLine::OutOfMemory
    }
}

/// The line of this name among these.
fn line_called<'a>(lines: &'a [WrittenLine], name: &str) -> Option<&'a WrittenLine>
    ensures { option_map (λ line. line.now) result ≡ find (is_line_called name.now) lines.now }
{
    lines.iter().find(|line| line.name.as_str() == name)
}

/// The line of this name in a railway whose layouts have these texts, of which their checks say this. There is none where anything is
/// wrong with the railway.
pub fn line_named<'a>(
    alloc: Global,
    railway: &'a WrittenRailway,
    layouts: &[String],
    verdicts: &[Verdict],
    name: &str,
) -> Result<&'a WrittenLine, NoLine>
    requires { length layouts.now ≡ length railway.now.stations }
    ensures sound { IfOk result (λ line. HasRailway railway.now (map string_bytes layouts.now)) }
    ensures line { IfOk result (λ line. find (is_line_called name.now) railway.now.lines ≡ Some line.now) }
    // Its ends are at two stations.
    ensures apart { IfOk result (λ line. is_at_one_station line.now ≡ false) }
    ensures none { IfErr result (Explains railway.now (map string_bytes layouts.now) verdicts.now name.now) }
{
    let verdict = railway_verdict(alloc, railway, layouts, verdicts, false)?;
    if verdict.status != 0 {
        return Err(NoLine::Faulty(verdict));
    }
    match line_called(&railway.lines, name) {
        Some(line) => Ok(line),
        None => Err(NoLine::Unknown),
    }
}
