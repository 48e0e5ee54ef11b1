//! A recorded session, drawn over true time.

ghost use Rattle.std.specs.Prelude.{◌≡◌, ◌⊎◌, IfErr, IfOk, OnOk};
ghost use Rattle.replay.specs.ReplayedSession.{CanReplay};
ghost use Rattle.replay.specs.station_check.Failures.{Explained, Leaves};
ghost use Rattle.station_record.specs.ChartedSession.{Explains, IsCharted, IsFaulty, IsSessionChart, IsTextOf, micros_or, window_of};
ghost use Rattle.station_record.specs.Differences.{DiffersIn};
ghost use Rattle.station_record.specs.inside.ChartedTexts.{IsChartedBy};

use crate::story::{Story, story_of};
use crate::texts::{Texts, read_texts};
use control_table::Layout;
use drawing::svg;
use lane_chart::{Window, chart, drawn_rows};
use replay::{Failure, MICROS, tell};
use std::alloc::{AllocError, Global};
use std::io::Write;

/// Which part of a session is drawn, in milliseconds of true time. Without them it begins with the session, and it ends with it
/// at the latest.
#[derive(Clone, Copy)]
pub struct Cut {
    /// Where it begins.
    pub from: Option<u64>,
    /// Where it ends.
    pub to: Option<u64>,
}

/// Applies a recorded session again to a new world of this layout, and writes its chart over true time to `out`, as SVG.
/// Both texts are judged before the first event, the layout first. The status is 0 where the chart was written, 3 where an
/// event answers otherwise than it was recorded, and 1 where anything else failed. Where no chart was begun `out` stays as
/// it is; `err` is then told why.
pub fn chart_text<W: Write, E: Write>(
    alloc: Global,
    layout: &str,
    recording: &str,
    cut: Cut,
    out: &mut W,
    err: &mut E,
) -> u8
    ensures status { (result ≡ 0) ⊎ ((result ≡ 1) ⊎ (result ≡ 3)) }
    ensures done { result ≡ 0 → IsCharted layout.now recording.now cut (W.contents out.old) (W.contents out.new) }
    ensures faulty { (CanReplay layout.now recording.now → ⊥) → (result ≡ 1) × (out.new ≡ out.old) }
    ensures silent { result ≡ 0 → err.new ≡ err.old }
    // Only a beginning of the line was told where a write to `err` failed.
    ensures explains { (result ≡ 0 → ⊥) → Explained (Explains layout.now recording.now) result out.old out.new (E.contents err.old) (E.contents err.new) }
{
    match write_chart(alloc, layout, recording, cut, out) {
        Ok(()) => 0,
        Err(failure) => tell(&failure, err),
    }
}

/// Writes the chart of a session at once.
fn write_chart<W: Write>(
    alloc: Global,
    layout: &str,
    recording: &str,
    cut: Cut,
    out: &mut W,
) -> Result<(), Failure>
    ensures done { OnOk result (IsCharted layout.now recording.now cut (W.contents out.old) (W.contents out.new)) }
    ensures faulty { (CanReplay layout.now recording.now → ⊥) → IsFaulty result × (out.new ≡ out.old) }
    ensures explains { IfErr result (λ failure. Explains layout.now recording.now failure × Leaves failure out.old out.new) }
{
    let text = session_chart(alloc, layout, recording, cut)?;
    out.write_all(&text)?;
    out.flush()?;
    Ok(())
}

/// Judges the texts, applies the session, and draws what happens in it.
fn session_chart(alloc: Global, layout: &str, recording: &str, cut: Cut) -> Result<Vec<u8>, Failure>
    ensures drawn { IfOk result (λ text. IsSessionChart layout.now recording.now cut text.items) }
    ensures replays { OnOk result (CanReplay layout.now recording.now) }
    ensures faulty { (CanReplay layout.now recording.now → ⊥) → IsFaulty result }
    ensures explains { IfErr result (Explains layout.now recording.now) }
{
    let texts = read_texts(alloc, layout, recording)?;
    let chart = chart_of(alloc, &texts, cut);
    drop(texts);
    chart
}

/// Applies the session of texts, and draws what happens in it.
fn chart_of(alloc: Global, texts: &Texts, cut: Cut) -> Result<Vec<u8>, Failure>
    ensures drawn { IfOk result (λ text. IsChartedBy texts.now.table texts.now.entries.items cut text.items) }
    ensures differs { IfErr result (DiffersIn texts.now.table texts.now.entries.items) }
{
    let copy = texts.table.copy(alloc)?;
    let story = story_of(alloc, copy, &texts.entries)?;
    let text = text_of(alloc, texts.table.layout(), cut, &story);
    drop(story);
    Ok(text?)
}

/// A time in microseconds, or another one where none is given.
fn micros_or(otherwise: u64, millis: Option<u64>) -> u64
    ensures { result ≡ micros_or otherwise millis }
{
    match millis {
        Some(millis) => millis.saturating_mul(MICROS),
        None => otherwise,
    }
}

/// The part of true time that is drawn: no time after the end of the session.
fn window_of(cut: Cut, end: u64) -> Window
    ensures { result ≡ window_of cut end }
{
    Window {
        from: micros_or(0, cut.from),
        to: micros_or(end, cut.to).min(end),
    }
}

/// The chart of a session, as SVG.
fn text_of(alloc: Global, layout: &Layout, cut: Cut, story: &Story) -> Result<Vec<u8>, AllocError>
    ensures { IfOk result (λ text. IsTextOf layout.now cut story.now text.items) }
{
    let window = window_of(cut, story.end);
    let rows = drawn_rows(alloc, layout, window, &story.changes)?;
    let picture = chart(alloc, layout, window, &rows, &story.happenings)?;
    let text = svg(alloc, &picture)?;
    Ok(text)
}
