//! What `check --explain --complete` says of a text.

ghost use Rattle.std.specs.Prelude.{◌≡◌, IfOk};
ghost use Rattle.station_run.specs.station_record.replay.layout.Entries.{Site};
ghost use Rattle.station_run.specs.station_record.replay.station_check.Report.{IsSound};

use draw_desk::{OwnText, Verdict};
use station_layout::explain_text;
use std::alloc::{AllocError, Global};
use table_review::review_text;

/// What `check --explain --complete` says of a text: its status, and what it writes to its two outputs.
pub(crate) fn verdict_of(alloc: Global, text: &str) -> Result<Verdict, AllocError>
    ensures { IfOk result (λ verdict. verdict.status ≡ 0 → (site : Site) × IsSound text.now site) }
{
    let mut out = Vec::new(alloc);
    let mut err = Vec::new(alloc);
    let checked = explain_text(alloc, text, &mut out, &mut err);
    let status = reviewed(alloc, text, checked, &mut out, &mut err)?;
    Ok(Verdict {
        status,
        out: own_text(alloc, &out)?,
        err: own_text(alloc, &err)?,
    })
}

/// Adds to what was told of a text what its table lacks, or why nothing is said of that, where its check ended well, and answers the
/// status of both.
fn reviewed(
    alloc: Global,
    text: &str,
    checked: u8,
    out: &mut Vec<u8>,
    err: &mut Vec<u8>,
) -> Result<u8, AllocError>
    ensures { IfOk result (λ status. status ≡ 0 → checked ≡ 0) }
{
    if checked != 0 {
        return Ok(checked);
    }
    match review_text(alloc, text) {
        Ok(found) => {
            out.extend_from_slice(&found)?;
            Ok(0)
        }
        Err(fault) => {
            let line = format!(in alloc; "{fault}\n")?;
            err.extend_from_slice(line.as_bytes())?;
            Ok(1)
        }
    }
}

/// What was written, which is text.
fn own_text(alloc: Global, written: &[u8]) -> Result<OwnText, AllocError> {
    OwnText::of(alloc, str::from_utf8(written).unwrap_or(""))
}
