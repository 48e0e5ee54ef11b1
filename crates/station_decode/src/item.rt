//! The items of a data PDU, in words.

ghost use Rattle.std.specs.Prelude.{◌≡◌, ◌++◌, IfOk, OnOk, string_bytes};
ghost use Rattle.hex.specs.Hex.{encode_lower};
ghost use Rattle.station_decode.specs.Datagrams.{items_text, other_text, others_text};
ghost use Rattle.station_decode.specs.Telegrams.{fault_text, item_text, name_words, telegram_text};
ghost use Rattle.station_decode.specs.inside.Spaced.{spaced};

use crate::message::push_message;
use crate::word_table::telegram_fault_words;
use ixl_spec::Name;
use ixl_spec::rasta_pdu::{Item, Items};
use sci_telegram::{SciFault, Telegram, read};
use std::alloc::{AllocError, Global};

/// By which words a PDU calls its sender and its receiver.
#[derive(Clone, Copy)]
pub(crate) struct Ends<'a> {
    pub(crate) sender: &'a str,
    pub(crate) receiver: &'a str,
}

/// Adds the items of a PDU, one after the other.
pub(crate) fn push_items(
    alloc: Global,
    text: &mut String,
    ends: Ends<'_>,
    items: &Items,
) -> Result<(), AllocError>
    ensures { OnOk result (string_bytes text.new ≡ string_bytes text.old ++ items_text ends.entry.sender.now ends.entry.receiver.now items.now) }
{
    let Some((first, others)) = items.as_slice().split_first() else {
        return Ok(());
    };
    text.push_str(": ")?;
    push_item(alloc, text, ends, first)?;
    push_others(alloc, text, ends, others)
}

/// Adds the items after the first.
fn push_others(
    alloc: Global,
    text: &mut String,
    ends: Ends<'_>,
    others: &[Item],
) -> Result<(), AllocError>
    ensures { OnOk result (string_bytes text.new ≡ string_bytes text.old ++ others_text ends.entry.sender.now ends.entry.receiver.now others.now) }
{
    for item in others {
        push_other(alloc, text, ends, item)?;
    }
    Ok(())
}

/// Adds an item after others.
fn push_other(
    alloc: Global,
    text: &mut String,
    ends: Ends<'_>,
    item: &Item,
) -> Result<(), AllocError>
    ensures { OnOk result (string_bytes text.new ≡ string_bytes text.old ++ other_text ends.entry.sender.now ends.entry.receiver.now item.now) }
{
    text.push_str("; ")?;
    push_item(alloc, text, ends, item)
}

/// Adds what an item says.
fn push_item(
    alloc: Global,
    text: &mut String,
    ends: Ends<'_>,
    item: &Item,
) -> Result<(), AllocError>
    ensures { OnOk result (string_bytes text.new ≡ string_bytes text.old ++ item_text ends.entry.sender.now ends.entry.receiver.now item.now) }
{
    match read(item.bytes()) {
        Ok(telegram) => push_telegram(text, ends, &telegram),
        Err(fault) => push_fault(alloc, text, fault, item.bytes()),
    }
}

/// Adds the fault of an item that is no telegram, and its bytes.
fn push_fault(
    alloc: Global,
    text: &mut String,
    fault: SciFault,
    item: &[u8],
) -> Result<(), AllocError>
    ensures { OnOk result (string_bytes text.new ≡ string_bytes text.old ++ fault_text fault item.now) }
{
    let fault = telegram_fault_words(fault);
    let digits = hex_digits(alloc, item)?;
    let digits = digits.as_str();
    write!(text, "no telegram: fault {fault} {digits}")
}

/// Bytes in hexadecimal digits.
fn hex_digits(alloc: Global, bytes: &[u8]) -> Result<String, AllocError>
    ensures { IfOk result (λ digits. string_bytes digits ≡ encode_lower bytes.now) }
{
    hex::encode(alloc, bytes)
}

/// Adds the words of a telegram.
fn push_telegram(text: &mut String, ends: Ends<'_>, telegram: &Telegram) -> Result<(), AllocError>
    ensures { OnOk result (string_bytes text.new ≡ string_bytes text.old ++ telegram_text ends.entry.sender.now ends.entry.receiver.now telegram.now) }
{
    push_message(text, &telegram.message)?;
    push_name(text, "from", ends.sender, &telegram.sender)?;
    push_name(text, "to", ends.receiver, &telegram.receiver)?;
    Ok(())
}

/// Adds a name after a word for it, where the PDU calls that end otherwise.
fn push_name(text: &mut String, word: &str, called: &str, name: &Name) -> Result<(), AllocError>
    ensures { OnOk result (string_bytes text.new ≡ string_bytes text.old ++ spaced (name_words word.now called.now name.now)) }
{
    let name = name.as_str();
    if name == called {
        return Ok(());
    }
    write!(text, " {word} {name}")
}
