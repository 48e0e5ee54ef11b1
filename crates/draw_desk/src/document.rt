//! The page, as it is served: its parts, one after the other. They stand in four texts, since one would be too long for the prover.

mod body;
mod changes;
mod files;
mod grid;
mod hand;
mod lists;
mod names;
mod notes;
mod opening;
mod placing;
mod plan;
mod reading;
mod style;
mod table;
mod toml_text;
mod whole;

use crate::document::body::body;
use crate::document::changes::changes;
use crate::document::files::files;
use crate::document::grid::grid;
use crate::document::hand::hand;
use crate::document::lists::lists;
use crate::document::names::names;
use crate::document::notes::notes;
use crate::document::opening::opening;
use crate::document::placing::placing;
use crate::document::plan::plan;
use crate::document::reading::reading;
use crate::document::style::style;
use crate::document::table::table;
use crate::document::toml_text::toml_text;
use crate::document::whole::whole;
use std::alloc::{AllocError, Global};

/// Its style, its body, and the layout as text and as a table.
fn texts() -> &'static str {
    style!([] body toml_text table grid whole)
}

/// How a layout is read, named and opened.
fn layouts() -> &'static str {
    reading!([] names opening whole)
}

/// Where things are placed, how they change, and what is said of them.
fn things() -> &'static str {
    placing!([] changes notes whole)
}

/// What is seen and done by hand.
fn hands() -> &'static str {
    plan!([] lists hand files whole)
}

/// The page on which a station is drawn: HTML with its style and its script, and with nothing from elsewhere.
pub fn page(alloc: Global) -> Result<String, AllocError> {
    let mut page = String::new(alloc);
    page.push_str(texts())?;
    page.push_str(layouts())?;
    page.push_str(things())?;
    page.push_str(hands())?;
    Ok(page)
}
