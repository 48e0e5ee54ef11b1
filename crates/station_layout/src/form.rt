//! How a table is written.

/// How a table is written.
#[derive(Clone, Copy)]
pub enum Form {
    /// In Markdown: each line with a bar round each cell, and a rule below the heads.
    Markdown,
    /// As CSV: one line of heads, and a line for each route.
    Csv,
}
