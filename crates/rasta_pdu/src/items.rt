//! The items of a data PDU.

ghost use Rattle.std.specs.Prelude.{◌≡◌, ◌↔◌, [], ◌∷◌, ◌≤◌, length, All, IsSome, IfSome};
ghost use Rattle.rasta_pdu.specs.Items.{AreItems, IsItem};

use crate::item::Item;
use arrayvec::ArrayVec;
use std::marker::Model;

/// The most items that a PDU carries.
pub(crate) const MOST: usize = 3;

/// The items of one data PDU, oldest first: 1 to 3.
#[derive(Debug, PartialEq, Eq, Drop)]
pub struct Items {
    items: ArrayVec<Item, MOST>,
}

impl Model for Items {
    ghost use Rattle.std.specs.Prelude.{ℕ, List};
    ghost use Rattle.rasta_pdu.specs.Items.{AreItems};

    ghost Value = { List (List ℕ) };

    ghost view = { λ i. i.items.items };

    ghost invariant = { λ i. AreItems i.items.items };

    ghost inverse = { λ items. record { items = record { items = items } } };
}

impl Items {
    /// These items, if there are 1 to 3 of them.
    pub fn of(items: &[Item]) -> Option<Items>
        ensures fits { IsSome result ↔ (1 ≤ length items.now) × (length items.now ≤ 3) }
        ensures value { IfSome result (λ held. held ≡ items.now) }
    {
        let mut held = ArrayVec::new();
        for item in items {
            held.try_push(item.copy()).ok()?;
        }
        Items::held(held)
    }

    /// One item alone.
    pub fn one(item: Item) -> Items
        ensures { result ≡ item ∷ [] }
    {
        let _ = item.bytes();
        let mut items = ArrayVec::new();
        items.push(item);
        Items { items }
    }

    /// The items of a list, if it has any.
    pub(crate) fn held(items: ArrayVec<Item, MOST>) -> Option<Items>
        requires { All IsItem items.items }
        ensures fits { IsSome result ↔ (1 ≤ length items.items) }
        ensures value { IfSome result (λ held. held ≡ items.items) }
    {
        items.first()?;
        Some(Items { items })
    }

    /// The items, oldest first.
    pub fn as_slice(&self) -> &[Item]
        ensures value { result.now ≡ self.now }
        ensures fits { AreItems self.now }
    {
        self.items.as_slice()
    }
}
