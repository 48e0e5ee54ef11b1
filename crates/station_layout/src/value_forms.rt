//! Whether values have the form that their key wants.

ghost use Rattle.std.specs.Prelude.{◌≡◌};
ghost use Rattle.std.specs.Char.{is_ascii_hexdigit};
ghost use Rattle.std.specs.List.{list_all};
ghost use Rattle.toml.specs.View.{items_view, view, table_view};
ghost use Rattle.layout_text.specs.Values.{is_name};
ghost use Rattle.station_layout.specs.inside.WordLists.{is_among};
ghost use Rattle.station_layout.specs.ValueForms.{fits, is_aspect_word, is_id, is_port_text, misfit, side_fits, sides_fit, text_fits, unfit_item};

use crate::advice::{EntryAdvice, Spot};
use crate::field_key::{FieldKey, kind_of};
use crate::port_words::END_WORDS;
use control_table::{Aspect, Name, Side};
use layout_text::Place;
use toml::{Table, Value};

/// Whether a text has the form of a name.
fn is_name(text: &str) -> bool
    ensures { result ≡ is_name text.now }
{
    match Name::of(text.as_bytes()) {
        Some(_) => true,
        None => false,
    }
}

/// The greatest identity.
const GREATEST_ID: i64 = 4_294_967_295;

/// Whether a value is an identity.
fn is_id(value: &Value) -> bool
    ensures { result ≡ is_id (view value.now) }
{
    match value.as_integer() {
        Some(id) if 1 <= id && id <= GREATEST_ID => true,
        _ => false,
    }
}

/// Whether a word is one of these.
fn is_among(words: &[&str], word: &str) -> bool
    ensures { result ≡ is_among words.now word.now }
{
    words.contains(&word)
}

/// Whether a text has the form of a port.
fn is_port_text(text: &str) -> bool
    ensures { result ≡ is_port_text text.now }
{
    match text.split_once('.') {
        Some((element, word)) => is_name(element) && is_among(END_WORDS, word),
        None => false,
    }
}

/// Whether a word is that of an aspect that a route may have.
fn is_aspect_word(word: &str) -> bool
    ensures { result ≡ is_aspect_word word.now }
{
    match Aspect::of_word(word) {
        None | Some(Aspect::Stop) => false,
        Some(_) => true,
    }
}

/// How many digits the key of the safety code has.
const DIGITS: usize = 32;

/// Whether bytes are hexadecimal digits.
fn are_digits(text: &[u8]) -> bool
    ensures { result ≡ list_all is_ascii_hexdigit text.now }
{
    for byte in text {
        if !byte.is_ascii_hexdigit() {
            return false;
        }
    }
    true
}

/// Whether a text has the form that its key wants.
#[tactic(auto, unfolding(crate::specs::ValueForms::text_fits))]
fn text_fits(key: FieldKey, text: &str) -> bool
    ensures { result ≡ text_fits key text.now }
{
    match key {
        FieldKey::Name | FieldKey::Section | FieldKey::Entry | FieldKey::Exit => is_name(text),
        FieldKey::At => is_port_text(text),
        FieldKey::Code => text.len() == DIGITS && are_digits(text.as_bytes()),
        FieldKey::Aspect => is_aspect_word(text),
        _ => false,
    }
}

/// Whether a member of a table is a point with its side.
fn side_fits(point: &str, side: &Value) -> bool
    ensures { result ≡ side_fits point.now (view side.now) }
{
    match side.as_str() {
        Some(word) => is_name(point) && Side::of_word(word).is_some(),
        None => false,
    }
}

/// Whether the members of a table are points with their sides.
fn sides_fit(members: &Table) -> bool
    ensures { result ≡ sides_fit (table_view members.now) }
{
    for (point, side) in members {
        if !side_fits(point.as_str(), side) {
            return false;
        }
    }
    true
}

/// Whether a value that is no array has the form that its key wants.
#[tactic(auto, unfolding(crate::specs::ValueForms::fits))]
fn fits(key: FieldKey, value: &Value) -> bool
    ensures { result ≡ fits key (view value.now) }
{
    match key {
        FieldKey::Id => is_id(value),
        FieldKey::Points | FieldKey::Flank => match value.as_table() {
            Some(members) => sides_fit(members),
            None => false,
        },
        _ => match value.as_str() {
            Some(text) => text_fits(key, text),
            None => false,
        },
    }
}

/// What is wrong with the first item of the array under a key that isn't as another key wants its value.
fn unfit_item(place: Place, key: FieldKey, one: FieldKey, items: &[Value]) -> Option<EntryAdvice>
    ensures { result ≡ unfit_item place key one 0 (items_view items.now) }
{
    let mut at: usize = 0;
    for item in items {
        at = at.saturating_add(1);
        if !fits(one, item) {
            return Some(EntryAdvice::Wrong(Spot::Item(place, key, at), kind_of(item)));
        }
    }
    None
}

/// What is wrong with the value under a key, if it hasn't the form that the key wants.
#[tactic(auto, unfolding(crate::specs::ValueForms::misfit))]
pub(crate) fn misfit(place: Place, key: FieldKey, value: &Value) -> Option<EntryAdvice>
    ensures { result ≡ misfit place key (view value.now) }
{
    if let Some(one) = key.of_items() {
        if let Some(items) = value.as_array() {
            return unfit_item(place, key, one, items.as_slice());
        }
    }
    if fits(key, value) {
        return None;
    }
    Some(EntryAdvice::Wrong(Spot::Field(place, key), kind_of(value)))
}
