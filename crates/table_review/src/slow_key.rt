//! The key `slow` of points, which tells their slow legs.

ghost use Rattle.std.specs.Prelude.{◌≡◌, map, option_map};
ghost use Rattle.layout_text.specs.FirstFault.{Gives};
ghost use Rattle.layout_text.specs.Values.{array_at, field_at, table_at, text_at};
ghost use Rattle.toml.specs.Data.{get_member};
ghost use Rattle.toml.specs.View.{view, table_view};
ghost use Rattle.table_review.specs.SlowKey.{legs_at, legs_of_word, legs_or_none, points_in, slow_at, slow_in, slow_legs_in};

use layout_text::{LayoutFault, Place, Step, TableName, document, each};
use route_derivation::SlowLegs;
use std::alloc::Global;
use toml::{Table, Value};

/// The slow legs that a word names.
fn legs_of_word(word: &str) -> Option<SlowLegs>
    ensures { result ≡ legs_of_word word.now }
{
    match word {
        "left" => Some(SlowLegs::Left),
        "right" => Some(SlowLegs::Right),
        "both" => Some(SlowLegs::Both),
        _ => None,
    }
}

/// The value of a field that has to be there.
fn field<'a>(table: &'a Table, key: &str, place: Place) -> Result<&'a Value, LayoutFault>
    ensures { Gives (λ v. view v.now) result (field_at key.now place (table_view table.now)) }
{
    match table.get(key) {
        Some(value) => Ok(value),
        None => Err(LayoutFault::MissingKey(place)),
    }
}

/// The items of an array.
fn array(value: &Value, place: Place) -> Result<&[Value], LayoutFault>
    ensures { Gives (λ s. map view s.now) result (array_at place (view value.now)) }
{
    match value.as_array() {
        Some(items) => Ok(items.as_slice()),
        None => Err(LayoutFault::WrongKind(place)),
    }
}

/// A table.
fn table(value: &Value, place: Place) -> Result<&Table, LayoutFault>
    ensures { Gives (λ t. table_view t.now) result (table_at place (view value.now)) }
{
    match value.as_table() {
        Some(table) => Ok(table),
        None => Err(LayoutFault::WrongKind(place)),
    }
}

/// A text.
fn text(value: &Value, place: Place) -> Result<&str, LayoutFault>
    ensures { Gives (λ s. s.now) result (text_at place (view value.now)) }
{
    match value.as_str() {
        Some(text) => Ok(text),
        None => Err(LayoutFault::WrongKind(place)),
    }
}

/// The value under a key, if there is one.
fn optional_field<'a>(table: &'a Table, key: &str) -> Option<&'a Value>
    ensures { option_map (λ v. view v.now) result ≡ get_member key.now (table_view table.now) }
{
    table.get(key)
}

/// The slow legs that a value names.
fn legs(value: &Value, place: Place) -> Result<SlowLegs, LayoutFault>
    ensures { Gives (λ legs. legs) result (legs_at place (view value.now)) }
{
    legs_of_word(text(value, place)?).ok_or(LayoutFault::WrongKind(place))
}

/// The slow legs that a value names, or none where it is left out.
fn optional_legs(value: Option<&Value>, place: Place) -> Result<SlowLegs, LayoutFault>
    ensures { Gives (λ legs. legs) result (legs_or_none place (option_map (λ v. view v.now) value.entry)) }
{
    match value {
        Some(value) => legs(value, place),
        None => Ok(SlowLegs::Neither),
    }
}

/// The slow legs of a point.
#[tactic(auto, unfolding(crate::specs::SlowKey::slow_at))]
fn point_legs(value: &Value, place: Place) -> Result<SlowLegs, LayoutFault>
    ensures { Gives (λ legs. legs) result (slow_at place (view value.now)) }
{
    let fields = table(value, place)?;
    optional_legs(optional_field(fields, "slow"), place)
}

/// Reads the slow legs of a point.
struct ReadSlow;

impl Step for ReadSlow {
    ghost use Rattle.toml.specs.View.{view};
    ghost use Rattle.table_review.specs.SlowKey.{slow_at};

    type From = Value;

    type To = SlowLegs;

    ghost gives = { λ _ place v. slow_at place (view v) };

    fn step(&self, _alloc: Global, place: Place, from: &Value) -> Result<SlowLegs, LayoutFault> {
        point_legs(from, place)
    }
}

/// The points of a document.
#[tactic(auto, unfolding(crate::specs::SlowKey::points_in))]
fn points_in(document: &Table) -> Result<&[Value], LayoutFault>
    ensures { Gives (λ s. map view s.now) result (points_in (table_view document.now)) }
{
    let place = Place {
        table: TableName::Point,
        entry: 0,
    };
    let value = field(document, "point", place)?;
    array(value, place)
}

/// The slow legs of all points of a document.
#[tactic(auto, unfolding(crate::specs::SlowKey::slow_in))]
fn slow_in(alloc: Global, document: &Table) -> Result<Vec<SlowLegs>, LayoutFault>
    ensures { Gives (λ v. v.items) result (slow_in (table_view document.now)) }
{
    let points = points_in(document)?;
    each(alloc, &ReadSlow, TableName::Point, points)
}

/// The slow legs of all points of a layout's text, in its order.
#[tactic(auto, unfolding(crate::specs::SlowKey::slow_legs_in))]
pub fn slow_legs(alloc: Global, text: &str) -> Result<Vec<SlowLegs>, LayoutFault>
    ensures { Gives (λ v. v.items) result (slow_legs_in text.now) }
{
    let document = document(alloc, text)?;
    slow_in(alloc, &document)
}
