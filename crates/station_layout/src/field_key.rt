//! The keys of entries, and what may stand under them.

ghost use Rattle.std.specs.Prelude.{◌≡◌};
ghost use Rattle.toml.specs.View.{view};
ghost use Rattle.station_layout.specs.FieldKeys.{all_keys, form_words, is_required, item_key, key_text, kind_of, kind_word, kind_words};
ghost use Rattle.station_layout.specs.inside.Sentences.{part_words};

use crate::sentence::Part;
use layout_text::TableName;
use toml::Value;

/// A key of an entry.
#[derive(Clone, Copy)]
pub(crate) enum FieldKey {
    Name,
    Id,
    /// The key of the safety code.
    Code,
    Section,
    Sections,
    At,
    Entry,
    Exit,
    Path,
    Points,
    Flank,
    Approach,
    Extra,
    Aspect,
}

/// The words of the keys.
const WORDS: [&str; 14] = [
    "name", "id", "key", "section", "sections", "at", "entry", "exit", "path", "points", "flank",
    "approach", "extra", "aspect",
];

pub(crate) const NAME_FORM: &str = "a name: 1 to 20 of A to Z, a to z, 0 to 9 and `-`";

const NAMES_FORM: &str = "an array of names: each 1 to 20 of A to Z, a to z, 0 to 9 and `-`";

const SIDES_FORM: &str = "a table of points, each with `left` or `right`";

/// What has to stand under the keys.
const FORMS: [&str; 14] = [
    NAME_FORM,
    "an integer from 1 to 4294967295",
    "a text of 32 hexadecimal digits",
    NAME_FORM,
    NAMES_FORM,
    "a port: a name, a dot, and `a`, `b`, `tip`, `left`, `right` or `end`",
    NAME_FORM,
    NAME_FORM,
    "an array of ports: each a name, a dot, and `a`, `b`, `tip`, `left`, `right` or `end`",
    SIDES_FORM,
    SIDES_FORM,
    NAMES_FORM,
    NAMES_FORM,
    "`proceed` or `slow`",
];

impl FieldKey {
    /// The word of the key.
    pub(crate) fn word(self) -> &'static str
        ensures { result.now ≡ key_text self }
    {
        WORDS[self as usize]
    }

    /// What has to stand under the key.
    pub(crate) fn form(self) -> &'static str
        ensures { result.now ≡ form_words self }
    {
        FORMS[self as usize]
    }

    /// The key that wants of its value what this one wants of each item of its array.
    pub(crate) fn of_items(self) -> Option<FieldKey>
        ensures { result ≡ item_key self }
    {
        match self {
            FieldKey::Sections | FieldKey::Approach | FieldKey::Extra => Some(FieldKey::Name),
            FieldKey::Path => Some(FieldKey::At),
            _ => None,
        }
    }

    /// Whether an entry that may have the key has to have it.
    #[tactic(auto, unfolding(crate::specs::FieldKeys::is_required))]
    pub(crate) fn is_required(self) -> bool
        ensures { result ≡ is_required self }
    {
        match self {
            FieldKey::Code
            | FieldKey::Flank
            | FieldKey::Approach
            | FieldKey::Extra
            | FieldKey::Aspect => false,
            _ => true,
        }
    }
}

const STATION_KEYS: &[FieldKey] = &[FieldKey::Name, FieldKey::Id, FieldKey::Code];

const TRACK_KEYS: &[FieldKey] = &[FieldKey::Name, FieldKey::Section];

const POINT_KEYS: &[FieldKey] = &[FieldKey::Name, FieldKey::Id, FieldKey::Section];

const SIGNAL_KEYS: &[FieldKey] = &[FieldKey::Name, FieldKey::Id, FieldKey::At];

const DETECTOR_KEYS: &[FieldKey] = &[FieldKey::Name, FieldKey::Id, FieldKey::Sections];

const ROUTE_KEYS: &[FieldKey] = &[
    FieldKey::Name,
    FieldKey::Entry,
    FieldKey::Exit,
    FieldKey::Path,
    FieldKey::Points,
    FieldKey::Flank,
    FieldKey::Approach,
    FieldKey::Extra,
    FieldKey::Aspect,
];

/// The keys of an entry of a table, in the order in which they are read.
#[tactic(auto, unfolding(crate::specs::FieldKeys::all_keys))]
pub(crate) fn keys_of(table: TableName) -> &'static [FieldKey]
    ensures { result.now ≡ all_keys table }
{
    match table {
        TableName::Station => STATION_KEYS,
        TableName::Track => TRACK_KEYS,
        TableName::Point => POINT_KEYS,
        TableName::Signal => SIGNAL_KEYS,
        TableName::Detector => DETECTOR_KEYS,
        TableName::Route => ROUTE_KEYS,
        TableName::Section | TableName::Border | TableName::Joint => &[],
    }
}

/// What kind of value stands in a text.
#[derive(Clone, Copy)]
pub(crate) enum Kind {
    Text,
    /// This integer.
    Integer(i64),
    Float,
    Boolean,
    DateTime,
    Array,
    Table,
}

impl Kind {
    /// The word of the kind.
    #[tactic(auto, unfolding(crate::specs::FieldKeys::kind_word))]
    fn word(self) -> &'static str
        ensures { result.now ≡ kind_word self }
    {
        match self {
            Kind::Text => "a text",
            Kind::Integer(_) => "an integer",
            Kind::Float => "a float",
            Kind::Boolean => "a boolean",
            Kind::DateTime => "a date or a time",
            Kind::Array => "an array",
            Kind::Table => "a table",
        }
    }

    /// What is told of a value of the kind: an integer itself, of others the kind.
    #[tactic(auto, unfolding(crate::specs::FieldKeys::kind_words, crate::specs::inside::Sentences::part_words))]
    pub(crate) fn part(self) -> Part
        ensures { part_words result ≡ kind_words self }
    {
        match self {
            Kind::Integer(value) => Part::Integer(value),
            other => Part::Words(other.word()),
        }
    }
}

/// The kind of a value.
pub(crate) fn kind_of(value: &Value) -> Kind
    ensures { result ≡ kind_of (view value.now) }
{
    match value {
        Value::String(_) => Kind::Text,
        Value::Integer(value) => Kind::Integer(*value),
        Value::Float(_) => Kind::Float,
        Value::Boolean(_) => Kind::Boolean,
        Value::Datetime(_) => Kind::DateTime,
        Value::Array(_) => Kind::Array,
        Value::Table(_) => Kind::Table,
    }
}
