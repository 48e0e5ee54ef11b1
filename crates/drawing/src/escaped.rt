//! Texts within SVG.

ghost use Rattle.std.specs.Prelude.{◌≡◌, ◌++◌, ℕ, IfOk, List, OnOk, string_bytes};
ghost use Rattle.drawing.specs.Escaped.{escaped, escaped_byte};

use std::alloc::AllocError;

/// Adds a byte of a text, so that it is no markup.
fn push_escaped_byte(svg: &mut Vec<u8>, byte: u8) -> Result<(), AllocError>
    ensures { OnOk result (svg.new.items ≡ svg.old.items ++ escaped_byte byte) }
{
    if byte == b'&' {
        return svg.extend_from_slice(b"&amp;");
    }
    if byte == b'<' {
        return svg.extend_from_slice(b"&lt;");
    }
    if byte == b'>' {
        return svg.extend_from_slice(b"&gt;");
    }
    if byte == b'"' {
        return svg.extend_from_slice(b"&quot;");
    }
    if byte < b' ' {
        return svg.extend_from_slice(b" ");
    }
    svg.extend_from_slice(&[byte])
}

/// Adds a text, so that none of it is markup.
pub(crate) fn push_escaped(svg: &mut Vec<u8>, text: &str) -> Result<(), AllocError>
    ensures { OnOk result (svg.new.items ≡ svg.old.items ++ escaped text.now) }
{
    for byte in text.as_bytes() {
        push_escaped_byte(svg, *byte)?;
    }
    Ok(())
}

/// Adds a text between two others, so that none of it is markup.
pub(crate) fn push_between(
    svg: &mut Vec<u8>,
    before: &[u8],
    text: &str,
    behind: &[u8],
) -> Result<(), AllocError>
    ensures { OnOk result (svg.new.items ≡ svg.old.items ++ (before.now ++ (escaped text.now ++ behind.now))) }
{
    svg.extend_from_slice(before)?;
    push_escaped(svg, text)?;
    svg.extend_from_slice(behind)
}

/// Adds a text as it was formatted, if there was memory for it.
pub(crate) fn push_text(
    svg: &mut Vec<u8>,
    text: Result<String, AllocError>,
) -> Result<(), AllocError>
    ensures { (added : List ℕ) → IfOk text (λ text. string_bytes text ≡ added) → OnOk result (svg.new.items ≡ svg.old.items ++ added) }
{
    let text = text?;
    svg.extend_from_slice(text.as_bytes())
}
