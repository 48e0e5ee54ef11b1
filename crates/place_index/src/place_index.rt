//! Keys by their places.

ghost use Rattle.std.specs.Prelude.{◌≡◌, ◌≢◌, ◌+◌, ◌-◌, ◌^◌, ◌<◌, ◌≤◌, ◌++◌, [], ◌∷◌, length, slice_set, IfSome, IfNone, IfOk, IsOk, OnOk};
ghost use Rattle.place_index.specs.Places.{HasNoneBefore, HasNoneFrom, IsFirstFrom, IsLastBefore, key_at, no_key};

use crate::rings::Rings;
use std::alloc::{AllocError, Global};
use std::marker::Model;

/// What stands in place of a key that was removed.
const NO_KEY: u32 = u32::MAX;

/// The most places and the most buckets: each of them has a number of 32 bits.
const MOST_PLACES: usize = 1 << 31;

const MOST_BUCKETS: usize = 1 << 31;

/// How many places come on a bucket at most.
const MOST_IN_A_RING: usize = 4;

/// Keys by their places, which are counted from the oldest on. Contracts see it as an `IndexState`.
///
/// Each bucket and each place is a node, the buckets first. The ring of a bucket has the places whose keys fall into it.
#[derive(Debug, Drop)]
pub struct PlaceIndex {
    alloc: Global,
    buckets: usize,
    /// The key of each place.
    keys: Vec<u32>,
    rings: Rings,
    /// How many places more have their memory already.
    room: usize,
}

impl Model for PlaceIndex {
    ghost use Rattle.std.specs.Prelude.{◌+◌, ◌≤◌};
    ghost use Rattle.std.specs.Vec.{vec_len, vec_capacity};
    ghost use Rattle.place_index.specs.Places.{IndexState};

    ghost Value = { IndexState };

    ghost use Rattle.place_index.specs.inside.Rings.{IsWhole};

    ghost view = { λ i. record { keys = i.keys.items; room = i.room } };

    ghost invariant = { λ i. IsWhole i.buckets i.room i.keys.items i.rings.newer.items i.rings.older.items × (vec_len i.keys + i.room ≤ vec_capacity i.keys) × (vec_len i.rings.newer + i.room ≤ vec_capacity i.rings.newer) × (vec_len i.rings.older + i.room ≤ vec_capacity i.rings.older) };
}

impl PlaceIndex {
    /// An index of no place.
    pub fn new(alloc: Global) -> PlaceIndex
        ensures { result ≡ record { keys = []; room = 0 } }
    {
        PlaceIndex {
            alloc,
            buckets: 0,
            keys: Vec::new(alloc),
            rings: Rings {
                newer: Vec::new(alloc),
                older: Vec::new(alloc),
            },
            room: 0,
        }
    }

    /// The newest key has the next place.
    pub fn push(&mut self, key: u32)
        requires room { 0 < self.old.room }
        requires is_key { key < no_key }
        ensures { self.new ≡ record { keys = self.old.keys ++ key ∷ []; room = self.old.room - 1 } }
    {
        self.rings.join(key as usize % self.buckets);
        self.keys.push_reserved(key);
        self.room -= 1;
    }

    /// No key has the next place.
    fn pass(&mut self)
        requires { 0 < self.old.room }
        ensures { self.new ≡ record { keys = self.old.keys ++ no_key ∷ []; room = self.old.room - 1 } }
    {
        self.rings.stand_alone();
        self.keys.push_reserved(NO_KEY);
        self.room -= 1;
    }

    /// The key of a place is removed, and none has the place from then on.
    pub fn remove(&mut self, place: usize)
        requires { place < length self.old.keys }
        ensures { self.new ≡ record { keys = slice_set self.old.keys place no_key; room = self.old.room } }
    {
        if self.keys[place] != NO_KEY {
            self.rings.leave(self.buckets + place);
            self.keys[place] = NO_KEY;
        }
    }

    /// An index of no place that has so many buckets, and memory for so many places.
    fn of_buckets(alloc: Global, buckets: usize, places: usize) -> Result<PlaceIndex, AllocError>
        requires some { 0 < buckets }
        requires numbered { buckets + places ≤ 2 ^ 32 }
        ensures { IfOk result (λ index. index ≡ record { keys = []; room = places }) }
    {
        let keys = Vec::with_capacity(alloc, places)?;
        let rings = Rings::of_buckets(alloc, buckets, places)?;
        Ok(PlaceIndex {
            alloc,
            buckets,
            keys,
            rings,
            room: places,
        })
    }

    /// The same keys in so many buckets, and memory for so many places more.
    fn in_buckets(&self, buckets: usize, places: usize) -> Result<PlaceIndex, AllocError>
        requires some { 0 < buckets }
        requires numbered { buckets + length self.now.keys + places ≤ 2 ^ 32 }
        ensures { IfOk result (λ index. index ≡ record { keys = self.now.keys; room = places }) }
    {
        let mut index = PlaceIndex::of_buckets(self.alloc, buckets, self.keys.len() + places)?;
        for key in self.keys.as_slice() {
            if *key == NO_KEY {
                index.pass();
            } else {
                index.push(*key);
            }
        }
        Ok(index)
    }

    /// Makes memory for at least so many places; nothing else changes. Where there are many more places than buckets,
    /// they are put into more buckets: so a ring stays short, and a place costs the same however many there are.
    pub fn reserve(&mut self, places: usize) -> Result<(), AllocError>
        ensures room { OnOk result (places ≤ self.new.room) }
        ensures more { self.old.room ≤ self.new.room }
        ensures same { self.new.keys ≡ self.old.keys }
        ensures enough { places ≤ self.old.room → IsOk result }
    {
        if places <= self.room {
            return Ok(());
        }
        let count = self.keys.len().saturating_add(places);
        if count > MOST_PLACES || self.buckets > MOST_BUCKETS {
            return Err(AllocError);
        }
        if count > MOST_IN_A_RING * self.buckets {
            *self = self.in_buckets(count / 2 + 1, places)?;
            return Ok(());
        }
        self.keys.reserve(places)?;
        self.rings.reserve(places)?;
        self.room = places;
        Ok(())
    }

    /// The oldest place of a key.
    pub fn oldest(&self, key: u32) -> Option<usize>
        requires { key < no_key }
        ensures found { IfSome result (IsFirstFrom 0 key self.now.keys) }
        ensures none { IfNone result (HasNoneFrom 0 key self.now.keys) }
    {
        if self.buckets == 0 {
            return None;
        }
        let bucket = key as usize % self.buckets;
        self.rings
            .first_behind(self.keys.as_slice(), self.buckets, bucket, key)
    }

    /// The next newer place of the key of a place.
    pub fn newer(&self, place: usize) -> Option<usize>
        requires within { place < length self.now.keys }
        requires has_key { key_at self.now.keys place ≢ no_key }
        ensures found { IfSome result (IsFirstFrom (place + 1) (key_at self.now.keys place) self.now.keys) }
        ensures none { IfNone result (HasNoneFrom (place + 1) (key_at self.now.keys place) self.now.keys) }
    {
        let key = self.keys[place];
        self.rings.first_behind(
            self.keys.as_slice(),
            self.buckets,
            self.buckets + place,
            key,
        )
    }

    /// The newest place of a key.
    pub fn newest(&self, key: u32) -> Option<usize>
        requires { key < no_key }
        ensures found { IfSome result (IsLastBefore (length self.now.keys) key self.now.keys) }
        ensures none { IfNone result (HasNoneBefore (length self.now.keys) key self.now.keys) }
    {
        if self.buckets == 0 {
            return None;
        }
        let bucket = key as usize % self.buckets;
        self.rings
            .last_before(self.keys.as_slice(), self.buckets, bucket, key)
    }

    /// The next older place of the key of a place.
    pub fn older(&self, place: usize) -> Option<usize>
        requires within { place < length self.now.keys }
        requires has_key { key_at self.now.keys place ≢ no_key }
        ensures found { IfSome result (IsLastBefore place (key_at self.now.keys place) self.now.keys) }
        ensures none { IfNone result (HasNoneBefore place (key_at self.now.keys place) self.now.keys) }
    {
        let key = self.keys[place];
        self.rings.last_before(
            self.keys.as_slice(),
            self.buckets,
            self.buckets + place,
            key,
        )
    }
}
