//! Which key of an entry is missing, or has another value than is wanted.

ghost use Rattle.std.specs.Prelude.{◌≡◌, option_map};
ghost use Rattle.toml.specs.Data.{get_member};
ghost use Rattle.toml.specs.View.{view, table_view};
ghost use Rattle.layout_text.specs.Messages.{table_text};
ghost use Rattle.station_layout.specs.EntryAdvice.{entry_data, first_lacking, first_wrong, missing_told, wrong_at, wrong_field, wrong_told};

use crate::advice::{EntryAdvice, Spot};
use crate::field_key::{FieldKey, keys_of, kind_of};
use crate::value_forms::misfit;
use layout_text::{Place, TableName};
use toml::{Table, Value};

/// The words of the keys of the layout.
const TABLE_WORDS: [&str; 9] = [
    "station", "section", "track", "point", "border", "joint", "signal", "detector", "route",
];

/// The word of a key of the layout.
fn table_word(table: TableName) -> &'static str
    ensures { result.now ≡ table_text table }
{
    TABLE_WORDS[table as usize]
}

/// What stands under a key of a table.
fn member<'a>(table: &'a Table, key: &str) -> Option<&'a Value>
    ensures { option_map (λ v. view v.now) result ≡ get_member key.now (table_view table.now) }
{
    table.get(key)
}

/// The value of an entry, or of the key itself.
#[tactic(auto, unfolding(crate::specs::EntryAdvice::entry_data))]
fn entry_data<'a>(document: &'a Table, place: Place) -> Option<&'a Value>
    ensures { option_map (λ v. view v.now) result ≡ entry_data place (table_view document.now) }
{
    let value = member(document, table_word(place.table))?;
    match place.table {
        TableName::Station => Some(value),
        _ if place.entry == 0 => Some(value),
        _ => value.get(place.entry.saturating_sub(1)),
    }
}

/// The first of these keys that an entry has to have, and lacks.
fn first_lacking(fields: &Table, keys: &[FieldKey]) -> Option<FieldKey>
    ensures { result ≡ first_lacking (table_view fields.now) keys.now }
{
    for key in keys {
        if key.is_required() && member(fields, key.word()).is_none() {
            return Some(*key);
        }
    }
    None
}

/// The advice where a key is missing at a place: the first one that the entry there has to have, and lacks.
pub(crate) fn missing_told(document: &Table, place: Place) -> Option<EntryAdvice>
    ensures { result ≡ missing_told (table_view document.now) place }
{
    if place.entry == 0 {
        return Some(EntryAdvice::Absent(place.table));
    }
    let Some(value) = entry_data(document, place) else {
        return None;
    };
    let Some(fields) = value.as_table() else {
        return None;
    };
    let Some(key) = first_lacking(fields, keys_of(place.table)) else {
        return None;
    };
    Some(EntryAdvice::Missing(place, key))
}

/// What is wrong with what stands under a key of an entry.
fn wrong_at(place: Place, fields: &Table, key: FieldKey) -> Option<EntryAdvice>
    ensures { result ≡ wrong_at place (table_view fields.now) key }
{
    misfit(place, key, member(fields, key.word())?)
}

/// What is wrong with the first of these keys of an entry under which another value stands than is wanted.
fn first_wrong(place: Place, fields: &Table, keys: &[FieldKey]) -> Option<EntryAdvice>
    ensures { result ≡ first_wrong place (table_view fields.now) keys.now }
{
    for key in keys {
        if let Some(found) = wrong_at(place, fields, *key) {
            return Some(found);
        }
    }
    None
}

/// What is wrong with a key of an entry that has this value.
#[tactic(auto, unfolding(crate::specs::EntryAdvice::wrong_field))]
fn wrong_field(place: Place, value: &Value) -> Option<EntryAdvice>
    ensures { result ≡ wrong_field place (view value.now) }
{
    if place.entry == 0 {
        return None;
    }
    let fields = value.as_table()?;
    first_wrong(place, fields, keys_of(place.table))
}

/// The advice where a value is of another kind or form than is wanted.
pub(crate) fn wrong_told(document: &Table, place: Place) -> Option<EntryAdvice>
    ensures { result ≡ wrong_told (table_view document.now) place }
{
    let value = entry_data(document, place)?;
    let itself = EntryAdvice::Wrong(Spot::Entry(place), kind_of(value));
    Some(wrong_field(place, value).unwrap_or(itself))
}
