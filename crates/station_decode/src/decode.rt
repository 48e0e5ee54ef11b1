//! A datagram that is given in hexadecimal digits, put into words.

ghost use Rattle.std.specs.Prelude.{◌≡◌, ◌≤◌, IfErr, IfOk, IsErr, OnOk, option_copied, string_bytes};
ghost use Rattle.station_check.specs.Failures.{Explained, Leaves};
ghost use Rattle.station_decode.specs.DecodedLine.{CanDecode, Explains, IsDecoded, IsLayout, IsNoLayout};
ghost use Rattle.station_decode.specs.inside.Decoded.{AreWords};

use crate::datagram::datagram_words;
use ixl_spec::Layout;
use layout::LayoutFault;
use replay_words::hexadecimal_or_none;
use station_check::{Failure, tell};
use std::alloc::Global;
use std::io::Write;

/// Puts the bytes of a datagram into words, and writes them as one line to `out`. The bytes are given as a word of
/// hexadecimal digits, or a hyphen for none. With the text of a layout, its key and its names are used; without one, the
/// standard start of MD4 and identities. The status is 0 where the line was written, also where it tells by which fault
/// the bytes are no PDU. Where the layout's text is no layout, or the word has no such digits, `out` stays as it is, `err`
/// is told the fault, and the status is 1. It is 1 also where memory is lacking, which is told, and where the line couldn't
/// be written, of which nothing is told.
pub fn decode_text<W: Write, E: Write>(
    alloc: Global,
    layout: Option<&str>,
    word: &str,
    out: &mut W,
    err: &mut E,
) -> u8
    ensures status { result ≤ 1 }
    ensures done { result ≡ 0 → IsDecoded (option_copied layout.entry) word.now (W.contents out.old) (W.contents out.new) }
    ensures faulty { (CanDecode (option_copied layout.entry) word.now → ⊥) → (result ≡ 1) × (out.new ≡ out.old) }
    ensures silent { result ≡ 0 → err.new ≡ err.old }
    // Only a beginning of the line was told where a write to `err` failed.
    ensures explains { result ≡ 1 → Explained (Explains (option_copied layout.entry) word.now) result out.old out.new (E.contents err.old) (E.contents err.new) }
{
    match decode(alloc, layout, word, out) {
        Ok(()) => 0,
        Err(failure) => tell(&failure, err),
    }
}

/// Writes the line for a datagram.
#[tactic(auto, using(crate::proofs::DecodedWords::can_decode))]
fn decode<W: Write>(
    alloc: Global,
    layout: Option<&str>,
    word: &str,
    out: &mut W,
) -> Result<(), Failure>
    ensures done { OnOk result (IsDecoded (option_copied layout.entry) word.now (W.contents out.old) (W.contents out.new)) }
    ensures faulty { (CanDecode (option_copied layout.entry) word.now → ⊥) → IsErr result × (out.new ≡ out.old) }
    ensures explains { IfErr result (λ failure. Explains (option_copied layout.entry) word.now failure × Leaves failure out.old out.new) }
{
    let words = decoded(alloc, layout, word)?;
    out.writeln(words.as_str())?;
    out.flush()?;
    Ok(())
}

/// Judges the layout and then the word, and puts the bytes into words.
fn decoded(alloc: Global, layout: Option<&str>, word: &str) -> Result<String, Failure>
    ensures said { IfOk result (λ text. AreWords (option_copied layout.entry) word.now (string_bytes text)) }
    ensures explains { IfErr result (Explains (option_copied layout.entry) word.now) }
{
    let layout = read_layout(alloc, layout)?;
    let words = match hexadecimal_or_none(word) {
        Ok(bytes) => datagram_words(alloc, layout.as_ref(), &bytes).map_err(Failure::from),
        Err(_) => Err(Failure::Hex),
    };
    drop(layout);
    words
}

/// The layout of a text, where there is a text.
fn read_layout(alloc: Global, text: Option<&str>) -> Result<Option<Layout>, LayoutFault>
    ensures read { IfOk result (λ layout. IsLayout (option_copied text.entry) layout) }
    ensures fault { IfErr result (λ fault. IsNoLayout fault (option_copied text.entry)) }
{
    match text {
        Some(text) => Ok(Some(Layout::read(alloc, text)?)),
        None => Ok(None),
    }
}
