//! The values of a railway's text, in the forms that it has.

ghost use Rattle.std.specs.Prelude.{◌≡◌, is_some, map};
ghost use Rattle.toml.specs.Data.{get_member};
ghost use Rattle.toml.specs.View.{view, table_view};
ghost use Rattle.railway_layout.specs.Reading.{Gives};
ghost use Rattle.railway_layout.specs.Text.{field_at, text_at, array_at, table_at, name_of, name_at, id_at, names_at, name_field, text_field, id_field, names_field};

use crate::fault::{Place, TextFault};
use crate::steps::{Step, each};
use control_table::Name;
use std::alloc::Global;
use toml::{Table, Value};

/// Whether a table has a key.
pub(crate) fn has_key(table: &Table, key: &str) -> bool
    ensures { result ≡ is_some (get_member key.now (table_view table.now)) }
{
    table.get(key).is_some()
}

/// The value of a field that has to be there.
pub(crate) fn field<'a>(table: &'a Table, key: &str, place: Place) -> Result<&'a Value, TextFault>
    ensures { Gives (λ v. view v.now) result (field_at key.now place (table_view table.now)) }
{
    match table.get(key) {
        Some(value) => Ok(value),
        None => Err(TextFault::MissingKey(place)),
    }
}

/// A text.
fn text(value: &Value, place: Place) -> Result<&str, TextFault>
    ensures { Gives (λ s. s.now) result (text_at place (view value.now)) }
{
    match value.as_str() {
        Some(text) => Ok(text),
        None => Err(TextFault::WrongKind(place)),
    }
}

/// The items of an array.
pub(crate) fn array(value: &Value, place: Place) -> Result<&[Value], TextFault>
    ensures { Gives (λ s. map view s.now) result (array_at place (view value.now)) }
{
    match value.as_array() {
        Some(items) => Ok(items.as_slice()),
        None => Err(TextFault::WrongKind(place)),
    }
}

/// A table.
pub(crate) fn table(value: &Value, place: Place) -> Result<&Table, TextFault>
    ensures { Gives (λ t. table_view t.now) result (table_at place (view value.now)) }
{
    match value.as_table() {
        Some(table) => Ok(table),
        None => Err(TextFault::WrongKind(place)),
    }
}

/// A text that has the form of a name.
fn name_in(text: &str, place: Place) -> Result<Name, TextFault>
    ensures { Gives (λ n. n) result (name_of place text.now) }
{
    match Name::of(text.as_bytes()) {
        Some(name) => Ok(name),
        None => Err(TextFault::WrongKind(place)),
    }
}

/// A name.
#[tactic(auto, unfolding(crate::specs::Text::name_at))]
fn name(value: &Value, place: Place) -> Result<Name, TextFault>
    ensures { Gives (λ n. n) result (name_at place (view value.now)) }
{
    name_in(text(value, place)?, place)
}

/// The greatest identity.
const GREATEST_ID: i64 = 4_294_967_295;

/// An identity: 1 to 4294967295.
fn id(value: &Value, place: Place) -> Result<u32, TextFault>
    ensures { Gives (λ n. n) result (id_at place (view value.now)) }
{
    match value.as_integer() {
        Some(id) if 1 <= id && id <= GREATEST_ID => Ok(id as u32),
        _ => Err(TextFault::WrongKind(place)),
    }
}

/// Reads a name of a list, at the place of that.
#[derive(Clone, Copy)]
struct ReadName(Place);

impl Step for ReadName {
    ghost use Rattle.railway_layout.specs.Text.{name_in_list};

    type To = Name;

    ghost gives = { λ read n d. name_in_list read.0 n d };

    fn step(&self, _alloc: Global, _number: usize, from: &Value) -> Result<Name, TextFault> {
        name(from, self.0)
    }
}

/// The names of a list.
#[tactic(auto, unfolding(crate::specs::Text::names_at))]
fn names(alloc: Global, value: &Value, place: Place) -> Result<Vec<Name>, TextFault>
    ensures { Gives (λ v. v.items) result (names_at place (view value.now)) }
{
    let items = array(value, place)?;
    each(alloc, &ReadName(place), items)
}

/// A name under a key that has to be there.
#[tactic(auto, unfolding(crate::specs::Text::name_field))]
pub(crate) fn name_field(table: &Table, key: &str, place: Place) -> Result<Name, TextFault>
    ensures { Gives (λ n. n) result (name_field key.now place (table_view table.now)) }
{
    let value = field(table, key, place)?;
    name(value, place)
}

/// A text under a key that has to be there.
#[tactic(auto, unfolding(crate::specs::Text::text_field))]
pub(crate) fn text_field<'a>(
    table: &'a Table,
    key: &str,
    place: Place,
) -> Result<&'a str, TextFault>
    ensures { Gives (λ s. s.now) result (text_field key.now place (table_view table.now)) }
{
    let value = field(table, key, place)?;
    text(value, place)
}

/// An identity under a key that has to be there.
#[tactic(auto, unfolding(crate::specs::Text::id_field))]
pub(crate) fn id_field(table: &Table, key: &str, place: Place) -> Result<u32, TextFault>
    ensures { Gives (λ n. n) result (id_field key.now place (table_view table.now)) }
{
    let value = field(table, key, place)?;
    id(value, place)
}

/// A list of names under a key that has to be there.
#[tactic(auto, unfolding(crate::specs::Text::names_field))]
pub(crate) fn names_field(
    alloc: Global,
    table: &Table,
    key: &str,
    place: Place,
) -> Result<Vec<Name>, TextFault>
    ensures { Gives (λ v. v.items) result (names_field key.now place (table_view table.now)) }
{
    let value = field(table, key, place)?;
    names(alloc, value, place)
}
