//! The cases of a file, one after the other.

use crate::asked::Asked;
use crate::contents::show_contents;
use crate::failure::Failure;
use crate::files::{NOTHING, parts, read};
use crate::kind::Kind;
use std::alloc::{AllocError, Global};
use std::io::Write;

/// The folder of the layouts that cases name.
const LAYOUTS: &str = "layouts/";

/// What parts two cases.
const EMPTY_LINE: &str = "\n\n";

/// What stands before the part of a text that is changed.
const OLD: &str = "\n-";

/// What stands before that which comes in its place.
const NEW: &str = "\n+";

/// How many lines of comment make a long text.
const MANY: usize = 2000;

/// Shows each case of a file as a line of the list asks for.
pub(crate) fn carry_out<W: Write>(
    rt: &HostRuntime,
    kind: Kind,
    file: &str,
    out: &mut W,
) -> Result<(), Failure> {
    let cases = read(rt, file)?;
    for case in cases.as_str().trim_end().split(EMPTY_LINE) {
        show(rt, kind, case, out)?;
    }
    Ok(())
}

/// Shows one case, after its first line.
fn show<W: Write>(rt: &HostRuntime, kind: Kind, case: &str, out: &mut W) -> Result<(), Failure> {
    let title = title_of(case);
    let text = text_of(rt, title, case)?;
    out.writeln(title)?;
    show_as(rt.alloc(), kind, text.as_str(), out)?;
    out.writeln("")?;
    Ok(())
}

/// The first line of a case.
fn title_of(case: &str) -> &str {
    match case.split_once("\n") {
        Some((title, _)) => title,
        None => case,
    }
}

/// Shows a text as it is asked for.
fn show_as<W: Write>(alloc: Global, kind: Kind, text: &str, out: &mut W) -> Result<(), Failure> {
    match kind {
        Kind::Contents => show_contents(alloc, text, out),
        Kind::Commented => {
            let text = behind_comments(alloc, text)?;
            show_checked(alloc, Kind::Report, text.as_str(), out)
        }
        _ => show_checked(alloc, kind, text, out),
    }
}

/// Shows the report on a text, with a fault explained where that is asked for.
fn show_checked<W: Write>(
    alloc: Global,
    kind: Kind,
    layout: &str,
    out: &mut W,
) -> Result<(), Failure> {
    let asked = Asked {
        kind,
        layout,
        text: "",
        word: NOTHING,
        last: NOTHING,
    };
    asked.show(alloc, out)
}

/// The text after many lines of comment.
fn behind_comments(alloc: Global, text: &str) -> Result<String, AllocError> {
    let mut long = String::new(alloc);
    for _ in 0..MANY {
        long.push_str("# nothing stands here\n")?;
    }
    long.push_str(text)?;
    Ok(long)
}

/// The text of the layout that a title names, with the changes of a case, one after the other.
fn text_of(rt: &HostRuntime, title: &str, case: &str) -> Result<String, Failure> {
    let mut text = layout_of(rt, title)?;
    for change in case.split(OLD).skip(1) {
        text = changed(rt.alloc(), text.as_str(), change)?;
    }
    Ok(text)
}

/// The text of the layout that a title names.
fn layout_of(rt: &HostRuntime, title: &str) -> Result<String, Failure> {
    let (file, _) = parts(title, ": ")?;
    let path = format!(in rt.alloc(); "{LAYOUTS}{file}")?;
    read(rt, path.as_str())
}

/// The text with one part in place of another.
fn changed(alloc: Global, text: &str, change: &str) -> Result<String, Failure> {
    let (old, new) = parts(change, NEW)?;
    match text.split_once(old) {
        Some((before, after)) => Ok(joined(alloc, [before, new, after])?),
        None => Err(Failure::Change),
    }
}

/// Three texts in one.
fn joined(alloc: Global, parts: [&str; 3]) -> Result<String, AllocError> {
    let [before, new, after] = parts;
    format!(in alloc; "{before}{new}{after}")
}
