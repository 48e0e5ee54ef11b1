//! What a page lacks, as JSON.

ghost use Rattle.std.specs.Prelude.{◌≡◌, IfOk, Some, string_bytes};
ghost use Rattle.serde_json.specs.Data.{array};
ghost use Rattle.serde_json.specs.Read.{read};
ghost use Rattle.serde_json.specs.View.{items_of, view};
ghost use Rattle.panel_desk.specs.State.{newer, newer_lines, pair_of, state_of};

use crate::noted::Noted;
use serde_json::{Value, json};
use std::alloc::{AllocError, Global};

/// The text of the state, of which a page knows all that was told up to a number.
pub(crate) fn state_text(
    alloc: Global,
    after: u64,
    number: u64,
    shown: &[Noted],
    log: &[Noted],
) -> Result<String, AllocError>
    ensures { IfOk result (λ text. read (string_bytes text) ≡ Some (state_of after number shown.now log.now)) }
{
    let value = state_value(alloc, after, number, shown, log)?;
    let text = value.to_string(alloc)?;
    Ok(text)
}

/// The state, of which a page knows all that was told up to a number.
fn state_value(
    alloc: Global,
    after: u64,
    number: u64,
    shown: &[Noted],
    log: &[Noted],
) -> Result<Value, AllocError>
    ensures { IfOk result (λ value. view value ≡ state_of after number shown.now log.now) }
{
    let changed = changed(alloc, after, shown)?;
    let lines = lines(alloc, after, log)?;
    json!(in alloc; {"changed": &changed, "log": &lines, "number": number})
}

/// The lines that a page lacks, each with its place.
fn changed(alloc: Global, after: u64, shown: &[Noted]) -> Result<Value, AllocError>
    ensures { IfOk result (λ value. view value ≡ array (items_of (newer after 0 shown.now))) }
{
    let mut pairs = Vec::new(alloc);
    for (place, noted) in shown.iter().enumerate() {
        if noted.since() > after {
            pairs.push(pair(alloc, place, noted.text())?)?;
        }
    }
    Ok(Value::Array(pairs))
}

/// A line with its place.
fn pair(alloc: Global, place: usize, text: &str) -> Result<Value, AllocError>
    ensures { IfOk result (λ value. view value ≡ pair_of place text.now) }
{
    json!(in alloc; [place, text])
}

/// The lines of the log that a page lacks.
fn lines(alloc: Global, after: u64, log: &[Noted]) -> Result<Value, AllocError>
    ensures { IfOk result (λ value. view value ≡ array (items_of (newer_lines after log.now))) }
{
    let mut lines = Vec::new(alloc);
    for line in log {
        if line.since() > after {
            lines.push(Value::String(String::from_str(alloc, line.text())?))?;
        }
    }
    Ok(Value::Array(lines))
}
