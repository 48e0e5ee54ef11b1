//! What a page is told once, as JSON.

ghost use Rattle.std.specs.Prelude.{◌≡◌, IfOk, Some, string_bytes};
ghost use Rattle.serde_json.specs.Read.{read};
ghost use Rattle.serde_json.specs.View.{view};
ghost use Rattle.panel_desk.specs.Abouts.{about_of};

use serde_json::{Value, json};
use std::alloc::{AllocError, Global};

/// What doesn't change while a panel runs.
#[derive(Clone, Copy)]
pub struct About<'a> {
    /// The name of the station.
    pub name: &'a str,
    /// The version of the program.
    pub version: &'a str,
    /// What stands behind the panel.
    pub kind: &'a str,
    /// What a command has to come with.
    pub token: &'a str,
    /// The path of the record.
    pub record: &'a str,
    /// The track plan, as SVG.
    pub plan: &'a str,
    /// The text of the layout.
    pub layout: &'a str,
}

/// What doesn't change while a panel runs, as JSON.
pub fn about_text(alloc: Global, told: &About<'_>) -> Result<String, AllocError>
    ensures { IfOk result (λ text. read (string_bytes text) ≡ Some (about_of told.now)) }
{
    let value = about_value(alloc, told)?;
    let text = value.to_string(alloc)?;
    Ok(text)
}

/// The same as a value.
fn about_value(alloc: Global, told: &About<'_>) -> Result<Value, AllocError>
    ensures { IfOk result (λ value. view value ≡ about_of told.now) }
{
    let About {
        name,
        version,
        kind,
        token,
        record,
        plan,
        layout,
    } = *told;
    json!(in alloc; {
        "kind": kind,
        "layout": layout,
        "name": name,
        "record": record,
        "svg": plan,
        "token": token,
        "version": version
    })
}
