//! One message of the layer above.

ghost use Rattle.std.specs.Prelude.{◌≡◌, ◌↔◌, [], ◌∷◌, IsSome, IfSome};
ghost use Rattle.rasta_pdu.specs.Items.{IsItem};

use arrayvec::ArrayVec;
use std::marker::Model;

/// The most bytes that an item has.
const LONGEST: usize = 61;

/// A message of the layer above: 1 to 61 bytes.
#[derive(Debug, PartialEq, Eq, Drop)]
pub struct Item {
    bytes: ArrayVec<u8, LONGEST>,
}

impl Model for Item {
    ghost use Rattle.std.specs.Prelude.{ℕ, List};
    ghost use Rattle.rasta_pdu.specs.Items.{IsItem};

    ghost Value = { List ℕ };

    ghost view = { λ i. i.bytes.items };

    ghost invariant = { λ i. IsItem i.bytes.items };

    ghost inverse = { λ bytes. record { bytes = record { items = bytes } } };
}

impl Item {
    /// The item of these bytes, if there are 1 to 61 of them.
    pub fn of(bytes: &[u8]) -> Option<Item>
        ensures fits { IsSome result ↔ IsItem bytes.now }
        ensures value { IfSome result (λ item. item ≡ bytes.now) }
    {
        if bytes.is_empty() {
            return None;
        }
        let bytes = ArrayVec::try_from(bytes).ok()?;
        Some(Item { bytes })
    }

    /// Its bytes, of which there are 1 to 61.
    pub fn bytes(&self) -> &[u8]
        ensures value { result.now ≡ self.now }
        ensures fits { IsItem self.now }
    {
        self.bytes.as_slice()
    }

    /// The same item again.
    pub fn copy(&self) -> Item
        ensures value { result ≡ self.now }
        ensures fits { IsItem self.now }
    {
        let mut bytes = ArrayVec::new();
        let _ = bytes.try_extend_from_slice(self.bytes());
        Item { bytes }
    }
}

/// One byte 0, which stands in the places of a list that no item has taken yet.
impl Default for Item {
    ghost is_default = { λ item. item ≡ 0 ∷ [] };

    fn default() -> Item {
        let mut bytes = ArrayVec::new();
        bytes.push(0);
        Item { bytes }
    }
}
