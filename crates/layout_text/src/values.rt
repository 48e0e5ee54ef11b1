//! The values of a TOML text, in the forms that a layout has.

ghost use Rattle.std.specs.Prelude.{◌≡◌, map};
ghost use Rattle.toml.specs.View.{view, table_view};
ghost use Rattle.layout_text.specs.FirstFault.{Gives};
ghost use Rattle.layout_text.specs.Values.{field_at, text_at, array_at, table_at, name_of, name_at, id_at, end_of, port_of, port_at, side_at, aspect_at, key_of, key_at};

use crate::entries::{End, PortName};
use crate::fault::{LayoutFault, Place};
use hex::FromHex;
use sci_telegram::{Aspect, Name, Side};
use toml::{Table, Value};

/// The value of a field that has to be there.
pub(crate) fn field<'a>(table: &'a Table, key: &str, place: Place) -> Result<&'a Value, LayoutFault>
    ensures { Gives (λ v. view v.now) result (field_at key.now place (table_view table.now)) }
{
    match table.get(key) {
        Some(value) => Ok(value),
        None => Err(LayoutFault::MissingKey(place)),
    }
}

/// A text.
pub(crate) fn text(value: &Value, place: Place) -> Result<&str, LayoutFault>
    ensures { Gives (λ s. s.now) result (text_at place (view value.now)) }
{
    match value.as_str() {
        Some(text) => Ok(text),
        None => Err(LayoutFault::WrongKind(place)),
    }
}

/// The items of an array.
pub(crate) fn array(value: &Value, place: Place) -> Result<&[Value], LayoutFault>
    ensures { Gives (λ s. map view s.now) result (array_at place (view value.now)) }
{
    match value.as_array() {
        Some(items) => Ok(items.as_slice()),
        None => Err(LayoutFault::WrongKind(place)),
    }
}

/// A table.
pub(crate) fn table(value: &Value, place: Place) -> Result<&Table, LayoutFault>
    ensures { Gives (λ t. table_view t.now) result (table_at place (view value.now)) }
{
    match value.as_table() {
        Some(table) => Ok(table),
        None => Err(LayoutFault::WrongKind(place)),
    }
}

/// A text that has the form of a name.
pub(crate) fn name_in(text: &str, place: Place) -> Result<Name, LayoutFault>
    ensures { Gives (λ n. n) result (name_of place text.now) }
{
    match Name::of(text.as_bytes()) {
        Some(name) => Ok(name),
        None => Err(LayoutFault::WrongKind(place)),
    }
}

/// A name.
#[tactic(auto, unfolding(crate::specs::Values::name_at))]
pub(crate) fn name(value: &Value, place: Place) -> Result<Name, LayoutFault>
    ensures { Gives (λ n. n) result (name_at place (view value.now)) }
{
    name_in(text(value, place)?, place)
}

/// The greatest identity.
const GREATEST_ID: i64 = 4_294_967_295;

/// An identity: 1 to 4294967295.
pub(crate) fn id(value: &Value, place: Place) -> Result<u32, LayoutFault>
    ensures { Gives (λ n. n) result (id_at place (view value.now)) }
{
    match value.as_integer() {
        Some(id) if 1 <= id && id <= GREATEST_ID => Ok(id as u32),
        _ => Err(LayoutFault::WrongKind(place)),
    }
}

/// The word of a port.
fn end(word: &str) -> Option<End>
    ensures { result ≡ end_of word.now }
{
    if word == "a" {
        Some(End::A)
    } else if word == "b" {
        Some(End::B)
    } else if word == "tip" {
        Some(End::Tip)
    } else if word == "left" {
        Some(End::Left)
    } else if word == "right" {
        Some(End::Right)
    } else if word == "end" {
        Some(End::End)
    } else {
        None
    }
}

/// A port, written as the name of its element, a dot and its word.
#[tactic(auto, unfolding(crate::specs::Values::port_of))]
fn port_in(text: &str, place: Place) -> Result<PortName, LayoutFault>
    ensures { Gives (λ p. p) result (port_of place text.now) }
{
    match text.split_once('.') {
        Some((element, word)) => {
            let element = name_in(element, place)?;
            match end(word) {
                Some(end) => Ok(PortName { element, end }),
                None => Err(LayoutFault::WrongKind(place)),
            }
        }
        None => Err(LayoutFault::WrongKind(place)),
    }
}

/// A port.
#[tactic(auto, unfolding(crate::specs::Values::port_at))]
pub(crate) fn port(value: &Value, place: Place) -> Result<PortName, LayoutFault>
    ensures { Gives (λ p. p) result (port_at place (view value.now)) }
{
    port_in(text(value, place)?, place)
}

/// A side of a point: `left` or `right`.
#[tactic(auto, unfolding(crate::specs::Values::side_at))]
pub(crate) fn side(value: &Value, place: Place) -> Result<Side, LayoutFault>
    ensures { Gives (λ s. s) result (side_at place (view value.now)) }
{
    Side::of_word(text(value, place)?).ok_or(LayoutFault::WrongKind(place))
}

/// The aspect of a route: `proceed` or `slow`.
#[tactic(auto, unfolding(crate::specs::Values::aspect_at))]
pub(crate) fn aspect(value: &Value, place: Place) -> Result<Aspect, LayoutFault>
    ensures { Gives (λ a. a) result (aspect_at place (view value.now)) }
{
    match Aspect::of_word(text(value, place)?) {
        None | Some(Aspect::Stop) => Err(LayoutFault::WrongKind(place)),
        Some(aspect) => Ok(aspect),
    }
}

/// How many bytes the four registers of a key have.
const KEY_LENGTH: usize = 16;

/// Four registers in 32 hexadecimal digits, each register with its low-order byte first.
fn key_in(text: &str, place: Place) -> Result<[u32; 4], LayoutFault>
    ensures { Gives (λ k. k) result (key_of place text.now) }
{
    match <[u8; KEY_LENGTH] as FromHex>::from_hex(text) {
        Ok(b) => Ok([
            u32::from_le_bytes([b[0], b[1], b[2], b[3]]),
            u32::from_le_bytes([b[4], b[5], b[6], b[7]]),
            u32::from_le_bytes([b[8], b[9], b[10], b[11]]),
            u32::from_le_bytes([b[12], b[13], b[14], b[15]]),
        ]),
        Err(_) => Err(LayoutFault::WrongKind(place)),
    }
}

/// A key.
#[tactic(auto, unfolding(crate::specs::Values::key_at))]
pub(crate) fn key(value: &Value, place: Place) -> Result<[u32; 4], LayoutFault>
    ensures { Gives (λ k. k) result (key_at place (view value.now)) }
{
    key_in(text(value, place)?, place)
}
