//! Keys that stand in a layout once: names, identities, ports.

ghost use Rattle.std.specs.Prelude.{◌≡◌};
ghost use Rattle.layout_text.specs.FirstFault.{Gives};
ghost use Rattle.layout.specs.Known.{double_fault, note_key, note_each, note_all};

use indexmap::IndexMap;
use layout_text::{LayoutFault, Place, TableName};
use std::hash::Hash;

/// Which fault a second use is.
#[derive(Clone, Copy, Debug)]
pub enum Double {
    /// A name or an identity is used twice, or a section reported twice.
    Name,
    /// A port is joined twice, or two signals stand at it.
    Joint,
}

/// The fault of a second use.
fn double_fault(double: Double, place: Place) -> LayoutFault
    ensures { result ≡ double_fault double place }
{
    match double {
        Double::Name => LayoutFault::DoubleName(place),
        Double::Joint => LayoutFault::DoubleJoint(place),
    }
}

/// Notes where a key stands, which isn't known yet.
pub(crate) fn note_key<K: Eq + Hash + Drop>(
    known: &mut IndexMap<K, Place>,
    double: Double,
    key: K,
    place: Place,
) -> Result<(), LayoutFault>
    ensures { Gives (λ _. known.new.entries) result (note_key K.eq double known.old.entries key place) }
{
    if known.contains_key(&key) {
        return Err(double_fault(double, place));
    }
    known.insert(key, place)?;
    Ok(())
}

/// Notes the keys of a table, each at its place there.
pub(crate) fn note_each<K: Eq + Hash + Drop + Copy>(
    known: &mut IndexMap<K, Place>,
    double: Double,
    table: TableName,
    keys: &[K],
) -> Result<(), LayoutFault>
    ensures { Gives (λ _. known.new.entries) result (note_each K.eq double table 1 keys.now known.old.entries) }
{
    for (before, key) in keys.iter().enumerate() {
        let place = Place {
            table,
            entry: before + 1,
        };
        note_key(known, double, *key, place)?;
    }
    Ok(())
}

/// Notes the keys of one entry, all at its place.
pub(crate) fn note_all<K: Eq + Hash + Drop + Copy>(
    known: &mut IndexMap<K, Place>,
    double: Double,
    place: Place,
    keys: &[K],
) -> Result<(), LayoutFault>
    ensures { Gives (λ _. known.new.entries) result (note_all K.eq double place keys.now known.old.entries) }
{
    for key in keys {
        note_key(known, double, *key, place)?;
    }
    Ok(())
}
