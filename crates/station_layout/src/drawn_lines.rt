//! Where a layout is drawn, by the table `drawing` of its text.

use layout_text::document;
use station_plan::DrawnLine;
use std::alloc::{AllocError, Global};
use toml::{Table, Value};

/// The key of the table.
const DRAWING: &str = "drawing";

/// The numbers of a line, if it has nothing else.
fn numbers_in(alloc: Global, value: &Value) -> Result<Option<Vec<i64>>, AllocError> {
    let Some(items) = value.as_array() else {
        return Ok(None);
    };
    let mut numbers = Vec::new(alloc);
    for item in items.iter() {
        match item.as_integer() {
            Some(number) => numbers.push(number)?,
            None => return Ok(None),
        }
    }
    Ok(Some(numbers))
}

/// The lines of a table.
fn lines_of(alloc: Global, table: &Table) -> Result<Vec<DrawnLine>, AllocError> {
    let mut lines = Vec::new(alloc);
    for (name, value) in table.iter() {
        if let Some(numbers) = numbers_in(alloc, value)? {
            let name = String::from_str(alloc, name.as_str())?;
            lines.push(DrawnLine { name, numbers })?;
        }
    }
    Ok(lines)
}

/// The lines along which a layout is drawn, by its text: none where it doesn't say so.
pub(crate) fn lines_in(alloc: Global, text: &str) -> Result<Vec<DrawnLine>, AllocError> {
    let Ok(document) = document(alloc, text) else {
        return Ok(Vec::new(alloc));
    };
    match document.get(DRAWING).and_then(|value| value.as_table()) {
        Some(table) => lines_of(alloc, table),
        None => Ok(Vec::new(alloc)),
    }
}
