//! The text in which Prometheus reads numbers.

ghost use Rattle.std.specs.Prelude.{◌≡◌, ◌++◌, IfOk, OnOk, string_bytes};
ghost use Rattle.std.specs.List.{flat_map};
ghost use Rattle.run_numbers.specs.Metrics.{head_if, help_text, labels_text, metrics_text, row_text, sample_text, text_of, type_text};
ghost use Rattle.run_numbers.specs.Rows.{begins, key_of};

use crate::row::Row;
use crate::rows::ROWS;
use crate::told::NumbersTold;
use std::alloc::{AllocError, Global};

/// The numbers that were told, as Prometheus reads them.
pub fn metrics_text(alloc: Global, told: &NumbersTold) -> Result<String, AllocError>
    ensures { IfOk result (λ text. string_bytes text ≡ metrics_text told.now) }
{
    let mut text = String::new(alloc);
    push_rows(alloc, &mut text, told, &ROWS)?;
    Ok(text)
}

/// Adds what was told of these rows.
fn push_rows(
    alloc: Global,
    text: &mut String,
    told: &NumbersTold,
    rows: &[Row],
) -> Result<(), AllocError>
    ensures { OnOk result (string_bytes text.new ≡ string_bytes text.old ++ flat_map (text_of told.now) rows.now) }
{
    for row in rows {
        push_row(alloc, text, *row, told.value(*row))?;
    }
    Ok(())
}

/// Adds a number, if it was told.
fn push_row(
    alloc: Global,
    text: &mut String,
    row: Row,
    value: Option<u64>,
) -> Result<(), AllocError>
    ensures { OnOk result (string_bytes text.new ≡ string_bytes text.old ++ row_text row value) }
{
    let Some(value) = value else {
        return Ok(());
    };
    push_head(alloc, text, row)?;
    push_sample(alloc, text, row, value)
}

/// Adds what is said of a name, in front of its first number.
fn push_head(alloc: Global, text: &mut String, row: Row) -> Result<(), AllocError>
    ensures { OnOk result (string_bytes text.new ≡ string_bytes text.old ++ head_if (begins row) row) }
{
    if !row.begins() {
        return Ok(());
    }
    push_help(text, row)?;
    push_kind(alloc, text, row)
}

/// Adds the line that says what the numbers of a name are.
fn push_help(text: &mut String, row: Row) -> Result<(), AllocError>
    ensures { OnOk result (string_bytes text.new ≡ string_bytes text.old ++ help_text row) }
{
    text.push_str("# HELP zendurai_")?;
    text.push_str(row.name())?;
    text.push_str(" ")?;
    text.push_str(row.help())?;
    text.push_str("\n")
}

/// Adds the line that says whether they count.
fn push_kind(alloc: Global, text: &mut String, row: Row) -> Result<(), AllocError>
    ensures { OnOk result (string_bytes text.new ≡ string_bytes text.old ++ type_text row) }
{
    let kind = row.kind();
    text.push_str("# TYPE zendurai_")?;
    text.push_str(row.name())?;
    let kind = format!(in alloc; " {kind}\n")?;
    text.push_str(kind.as_str())
}

/// Adds the line of a number.
fn push_sample(alloc: Global, text: &mut String, row: Row, value: u64) -> Result<(), AllocError>
    ensures { OnOk result (string_bytes text.new ≡ string_bytes text.old ++ sample_text row value) }
{
    text.push_str("zendurai_")?;
    text.push_str(row.name())?;
    push_label(text, row)?;
    let value = format!(in alloc; " {value}\n")?;
    text.push_str(value.as_str())
}

/// Adds what tells a number apart from others of its name, if anything has to.
fn push_label(text: &mut String, row: Row) -> Result<(), AllocError>
    ensures { OnOk result (string_bytes text.new ≡ string_bytes text.old ++ labels_text (key_of row) row) }
{
    let key = row.key();
    if key.is_empty() {
        return Ok(());
    }
    text.push_str("{")?;
    text.push_str(key)?;
    text.push_str("=\"")?;
    text.push_str(row.label())?;
    text.push_str("\"}")
}
