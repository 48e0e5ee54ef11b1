//! What a page is told, as JSON.

ghost use Rattle.std.specs.Prelude.{◌≡◌, [], IfOk, OnOk, Some, string_bytes};
ghost use Rattle.std.specs.Fmt.{decimal};
ghost use Rattle.serde_json.specs.Data.{object, string, put as with_member};
ghost use Rattle.serde_json.specs.Read.{read};
ghost use Rattle.serde_json.specs.View.{members_view, view};
ghost use Rattle.draw_desk.specs.Answers.{layout_told, verdict_told};

use crate::outside::Verdict;
use serde_json::{Map, ToValue, Value, json, put};
use std::alloc::{AllocError, Global};

/// What a page is told of the file.
#[derive(Clone, Copy)]
pub(crate) struct LayoutTold<'a> {
    pub(crate) file: &'a str,
    pub(crate) known: u64,
    pub(crate) running: bool,
    pub(crate) text: &'a str,
    pub(crate) token: &'a str,
    pub(crate) version: &'a str,
}

/// What a page is told of the file, as JSON.
pub(crate) fn layout_text(alloc: Global, told: &LayoutTold<'_>) -> Result<String, AllocError>
    ensures { IfOk result (λ text. read (string_bytes text) ≡ Some (layout_told told.now.file.now told.now.known told.now.running told.now.text.now told.now.token.now told.now.version.now)) }
{
    let value = layout_value(alloc, told)?;
    let text = value.to_string(alloc)?;
    Ok(text)
}

/// The same as a value.
fn layout_value(alloc: Global, told: &LayoutTold<'_>) -> Result<Value, AllocError>
    ensures { IfOk result (λ value. view value ≡ layout_told told.now.file.now told.now.known told.now.running told.now.text.now told.now.token.now told.now.version.now) }
{
    let mut members = Map::new(alloc);
    put_layout(alloc, &mut members, told)?;
    Ok(Value::Object(members))
}

/// Puts what a page is told of the file under its keys.
fn put_layout(
    alloc: Global,
    members: &mut Map<String, Value>,
    told: &LayoutTold<'_>,
) -> Result<(), AllocError>
    requires { members.old.entries ≡ [] }
    ensures { OnOk result (object (members_view members.new.entries) ≡ layout_told told.now.file.now told.now.known told.now.running told.now.text.now told.now.token.now told.now.version.now) }
{
    put_text(alloc, members, "file", told.file)?;
    put_number(alloc, members, "known", told.known)?;
    put(members, alloc, "running", Value::Bool(told.running))?;
    put_text(alloc, members, "text", told.text)?;
    put_text(alloc, members, "token", told.token)?;
    put_text(alloc, members, "version", told.version)
}

/// Puts a text under a key.
fn put_text(
    alloc: Global,
    members: &mut Map<String, Value>,
    key: &str,
    text: &str,
) -> Result<(), AllocError>
    ensures { OnOk result (members_view members.new.entries ≡ with_member key.now (string text.now) (members_view members.old.entries)) }
{
    let value = text.to_value(alloc)?;
    put(members, alloc, key, value)
}

/// Puts a number under a key, as a text: a page says it again as it was told.
fn put_number(
    alloc: Global,
    members: &mut Map<String, Value>,
    key: &str,
    number: u64,
) -> Result<(), AllocError>
    ensures { OnOk result (members_view members.new.entries ≡ with_member key.now (string (decimal number)) (members_view members.old.entries)) }
{
    let text = format!(in alloc; "{number}")?;
    put_text(alloc, members, key, text.as_str())
}

/// What is said of a text, as JSON.
pub(crate) fn verdict_text(
    alloc: Global,
    verdict: &Verdict,
    running: bool,
) -> Result<String, AllocError>
    ensures { IfOk result (λ text. read (string_bytes text) ≡ Some (verdict_told verdict.now running)) }
{
    let value = verdict_value(alloc, verdict, running)?;
    let text = value.to_string(alloc)?;
    Ok(text)
}

/// The same as a value.
fn verdict_value(alloc: Global, verdict: &Verdict, running: bool) -> Result<Value, AllocError>
    ensures { IfOk result (λ value. view value ≡ verdict_told verdict.now running) }
{
    let (err, out) = (verdict.err.as_str(), verdict.out.as_str());
    let status = u64::from(verdict.status);
    json!(in alloc; {"err": err, "out": out, "running": running, "status": status})
}
