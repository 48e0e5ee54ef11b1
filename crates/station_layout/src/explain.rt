//! The check of a text, with what it finds explained.

ghost use Rattle.std.specs.Prelude.{◌≡◌, ◌≤◌};
ghost use Rattle.control_table.specs.layout.Entries.{Site};
ghost use Rattle.station_check.specs.Report.{IsSound, Reported};
ghost use Rattle.station_layout.specs.AdviceTold.{ExplainedTwice, Advised};

use crate::advice::line;
use crate::advised::advice_for;
use replay_words::write_as_taken;
use station_check::check_text;
use std::alloc::Global;
use std::io::Write;

/// Checks the text of a layout as `check_text` does, with the same output, the same first line on `err` and the same status.
/// Where it isn't sound, or the text is no layout, `err` is told a second line after it: what is wrong, in words.
pub fn explain_text<W: Write, E: Write>(alloc: Global, layout: &str, out: &mut W, err: &mut E) -> u8
    ensures status { result ≤ 1 }
    ensures done { result ≡ 0 → (site : Site) × IsSound layout.now site × Reported site (W.contents out.old) (W.contents out.new) }
    ensures faulty { ((site : Site) → IsSound layout.now site → ⊥) → (result ≡ 1) × (out.new ≡ out.old) }
    ensures silent { result ≡ 0 → err.new ≡ err.old }
    // Only a beginning of each line was told where a write to `err` failed.
    ensures explains { result ≡ 1 → ExplainedTwice result layout.now out.old out.new (E.contents err.old) (E.contents err.new) }
{
    let status = check_text(alloc, layout, out, err);
    if status != 0 {
        advise(alloc, layout, err);
    }
    status
}

/// Tells the advice for a text, or as much of it as the writer takes.
fn advise<E: Write>(alloc: Global, text: &str, err: &mut E)
    ensures { Advised text.now (E.contents err.old) (E.contents err.new) }
{
    let advice = advice_for(alloc, text);
    if let Ok(line) = line(&advice) {
        write_as_taken(line.as_str().as_bytes(), err);
    }
}
