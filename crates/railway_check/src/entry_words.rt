//! What is wrong with the text of a railway that couldn't be read, in words.

ghost use Rattle.std.specs.Prelude.{◌≡◌, Some};
ghost use Rattle.railway_check.specs.EntryWords.{entry_form, entry_words, listed_form, listed_words, missing_of, missing_words, text_words};

use railway_layout::{Place, TextFault};
use std::fmt;

/// An entry under a key that has an array, counted from 1, or with 0 the key.
#[derive(Clone, Copy)]
struct Listed {
    key: &'static str,
    entry: usize,
}

impl fmt::Display for Listed {
    ghost output = { λ listed. Some (listed_words listed.key.now listed.entry) };

    fn fmt<W: fmt::Write>(&self, f: &mut fmt::Formatter<W>) -> fmt::Result {
        let key = self.key;
        let entry = self.entry;
        if entry == 0 {
            return write!(f, "the key `{key}`");
        }
        write!(f, "entry {entry} of `{key}`")
    }
}

/// The keys of the two lists.
const STATION: &str = "station";

const LINE: &str = "line";

/// The words for an entry of a railway's text.
#[derive(Clone, Copy)]
struct EntryWords(Place);

impl fmt::Display for EntryWords {
    ghost output = { λ words. Some (entry_words words.0) };

    fn fmt<W: fmt::Write>(&self, f: &mut fmt::Formatter<W>) -> fmt::Result {
        match self.0 {
            Place::Station(entry) => {
                let key = STATION;
                Listed { key, entry }.fmt(f)
            }
            Place::Line(entry) => {
                let key = LINE;
                Listed { key, entry }.fmt(f)
            }
            Place::First(entry) => {
                let key = LINE;
                let line = Listed { key, entry };
                write!(f, "`first` of {line}")
            }
            Place::Second(entry) => {
                let key = LINE;
                let line = Listed { key, entry };
                write!(f, "`second` of {line}")
            }
        }
    }
}

/// What has to stand under each key of a list.
const ARRAY: &str = "an array of tables";

const STATION_FORM: &str =
    "a table with `name`, up to 20 letters, digits and hyphens, and `layout`, the file of its layout";

const LINE_FORM: &str =
    "a table with `name`, up to 20 letters, digits and hyphens, and `first` and `second`, the tables of its two ends";

const END_FORM: &str =
    "a table with `station`, `border`, `lock` and `clear`, which are names, `part`, an array of names, and `id`, from 1 to 4294967295";

/// What an entry of a list has to be, or under its key the array of all.
fn listed_form(entry: usize, form: &'static str) -> &'static str
    ensures { result.now ≡ listed_form entry form.now }
{
    if entry == 0 {
        return ARRAY;
    }
    form
}

/// What has to stand at a place.
fn entry_form(place: Place) -> &'static str
    ensures { result.now ≡ entry_form place }
{
    match place {
        Place::Station(entry) => listed_form(entry, STATION_FORM),
        Place::Line(entry) => listed_form(entry, LINE_FORM),
        Place::First(_) | Place::Second(_) => END_FORM,
    }
}

/// What is missing at an entry of a list, or at its key.
fn missing_of(entry: usize) -> &'static str
    ensures { result.now ≡ missing_of entry }
{
    if entry == 0 {
        return "is missing";
    }
    "lacks a key"
}

/// What is missing at a place.
fn missing_words(place: Place) -> &'static str
    ensures { result.now ≡ missing_words place }
{
    match place {
        Place::Station(entry) | Place::Line(entry) => missing_of(entry),
        Place::First(_) | Place::Second(_) => "is missing, or lacks a key",
    }
}

/// What is wrong with a text, and what has to stand there.
#[derive(Clone, Copy)]
pub(crate) struct TextWords(pub(crate) TextFault);

impl fmt::Display for TextWords {
    ghost output = { λ words. Some (text_words words.0) };

    fn fmt<W: fmt::Write>(&self, f: &mut fmt::Formatter<W>) -> fmt::Result {
        match self.0 {
            TextFault::MissingKey(place) => {
                let entry = EntryWords(place);
                let (missing, form) = (missing_words(place), entry_form(place));
                write!(f, "{entry} {missing}: it has to be {form}")
            }
            TextFault::WrongKind(place) => {
                let entry = EntryWords(place);
                let form = entry_form(place);
                write!(
                    f,
                    "{entry} is or has a value of another kind or form: it has to be {form}"
                )
            }
            other => f.write_str(other.advice()),
        }
    }
}
