//! Rings of nodes.

ghost use Rattle.std.specs.Prelude.{◌≡◌, ◌+◌, ◌^◌, ◌<◌, ◌≤◌, ◌++◌, [], ◌∷◌, length, slice_set, IfSome, IfNone, IfOk, OnOk};
ghost use Rattle.std.specs.Vec.{vec_len, vec_capacity};
ghost use Rattle.place_index.specs.Places.{HasNoneBefore, HasNoneFrom, IsFirstFrom, IsLastBefore};
ghost use Rattle.place_index.specs.inside.Rings.{AreAlone, CanSearch, at, place_behind, places_before};

use std::alloc::{AllocError, Global};

/// Nodes in rings, each of which leads from the oldest node to the newest and back to the oldest.
#[derive(Debug, Drop)]
pub(crate) struct Rings {
    /// For each node the next one of its ring.
    pub(crate) newer: Vec<u32>,
    /// For each node the one before it.
    pub(crate) older: Vec<u32>,
}

impl Rings {
    /// A new node joins the ring of a bucket, as its newest.
    pub(crate) fn join(&mut self, bucket: usize)
        requires within { bucket < length self.old.older.items }
        requires newest { at self.old.older.items bucket < length self.old.newer.items }
        requires numbered { length self.old.newer.items < 2 ^ 32 }
        requires both { length self.old.newer.items ≡ length self.old.older.items }
        requires newer_room { vec_len self.old.newer < vec_capacity self.old.newer }
        requires older_room { vec_len self.old.older < vec_capacity self.old.older }
        ensures newer { self.new.newer.items ≡ slice_set (self.old.newer.items ++ bucket ∷ []) (at self.old.older.items bucket) (length self.old.newer.items) }
        ensures older { self.new.older.items ≡ slice_set (self.old.older.items ++ at self.old.older.items bucket ∷ []) bucket (length self.old.newer.items) }
        ensures newer_len { vec_len self.new.newer ≡ vec_len self.old.newer + 1 }
        ensures older_len { vec_len self.new.older ≡ vec_len self.old.older + 1 }
        ensures newer_capacity { vec_capacity self.new.newer ≡ vec_capacity self.old.newer }
        ensures older_capacity { vec_capacity self.new.older ≡ vec_capacity self.old.older }
    {
        let node = self.newer.len() as u32;
        let newest = self.older[bucket];
        self.newer.push_reserved(bucket as u32);
        self.older.push_reserved(newest);
        self.newer[newest as usize] = node;
        self.older[bucket] = node;
    }

    /// A new node stands in no ring.
    pub(crate) fn stand_alone(&mut self)
        requires newer_room { vec_len self.old.newer < vec_capacity self.old.newer }
        requires older_room { vec_len self.old.older < vec_capacity self.old.older }
        ensures newer { self.new.newer.items ≡ self.old.newer.items ++ 0 ∷ [] }
        ensures older { self.new.older.items ≡ self.old.older.items ++ 0 ∷ [] }
        ensures newer_len { vec_len self.new.newer ≡ vec_len self.old.newer + 1 }
        ensures older_len { vec_len self.new.older ≡ vec_len self.old.older + 1 }
        ensures newer_capacity { vec_capacity self.new.newer ≡ vec_capacity self.old.newer }
        ensures older_capacity { vec_capacity self.new.older ≡ vec_capacity self.old.older }
    {
        self.newer.push_reserved(0);
        self.older.push_reserved(0);
    }

    /// A node leaves its ring: those beside it are led past it.
    pub(crate) fn leave(&mut self, node: usize)
        requires newer_within { node < length self.old.newer.items }
        requires older_within { node < length self.old.older.items }
        requires newer_there { at self.old.newer.items node < length self.old.older.items }
        requires older_there { at self.old.older.items node < length self.old.newer.items }
        ensures newer { self.new.newer.items ≡ slice_set self.old.newer.items (at self.old.older.items node) (at self.old.newer.items node) }
        ensures older { self.new.older.items ≡ slice_set self.old.older.items (at self.old.newer.items node) (at self.old.older.items node) }
        ensures newer_len { vec_len self.new.newer ≡ vec_len self.old.newer }
        ensures older_len { vec_len self.new.older ≡ vec_len self.old.older }
        ensures newer_capacity { vec_capacity self.new.newer ≡ vec_capacity self.old.newer }
        ensures older_capacity { vec_capacity self.new.older ≡ vec_capacity self.old.older }
    {
        let (newer, older) = (self.newer[node], self.older[node]);
        self.newer[older as usize] = newer;
        self.older[newer as usize] = older;
    }

    /// The first place of a key behind a node in the ring of the key's bucket.
    pub(crate) fn first_behind(
        &self,
        keys: &[u32],
        buckets: usize,
        node: usize,
        key: u32,
    ) -> Option<usize>
        requires { CanSearch buckets node key keys.now self.now.newer.items self.now.older.items }
        ensures found { IfSome result (IsFirstFrom (place_behind buckets node) key keys.now) }
        ensures none { IfNone result (HasNoneFrom (place_behind buckets node) key keys.now) }
    {
        let mut at = self.newer[node] as usize;
        while at >= buckets {
            let place = at - buckets;
            if keys[place] == key {
                return Some(place);
            }
            at = self.newer[at] as usize;
        }
        None
    }

    /// The last place of a key before a node in the ring of the key's bucket.
    pub(crate) fn last_before(
        &self,
        keys: &[u32],
        buckets: usize,
        node: usize,
        key: u32,
    ) -> Option<usize>
        requires { CanSearch buckets node key keys.now self.now.newer.items self.now.older.items }
        ensures found { IfSome result (IsLastBefore (places_before buckets (length keys.now) node) key keys.now) }
        ensures none { IfNone result (HasNoneBefore (places_before buckets (length keys.now) node) key keys.now) }
    {
        let mut at = self.older[node] as usize;
        while at >= buckets {
            let place = at - buckets;
            if keys[place] == key {
                return Some(place);
            }
            at = self.older[at] as usize;
        }
        None
    }

    /// A ring for each bucket, which has the bucket alone, and memory for so many places.
    pub(crate) fn of_buckets(
        alloc: Global,
        buckets: usize,
        places: usize,
    ) -> Result<Rings, AllocError>
        requires { buckets + places ≤ 2 ^ 32 }
        ensures rows { IfOk result (λ rings. AreAlone buckets rings.newer.items rings.older.items) }
        ensures newer_room { IfOk result (λ rings. vec_len rings.newer + places ≤ vec_capacity rings.newer) }
        ensures older_room { IfOk result (λ rings. vec_len rings.older + places ≤ vec_capacity rings.older) }
    {
        let mut newer = Vec::with_capacity(alloc, buckets + places)?;
        let mut older = Vec::with_capacity(alloc, buckets + places)?;
        for bucket in 0..buckets {
            newer.push_reserved(bucket as u32);
            older.push_reserved(bucket as u32);
        }
        Ok(Rings { newer, older })
    }

    /// Makes memory for so many places; nothing else changes.
    pub(crate) fn reserve(&mut self, places: usize) -> Result<(), AllocError>
        ensures newer { self.new.newer.items ≡ self.old.newer.items }
        ensures older { self.new.older.items ≡ self.old.older.items }
        ensures newer_room { OnOk result (vec_len self.new.newer + places ≤ vec_capacity self.new.newer) }
        ensures older_room { OnOk result (vec_len self.new.older + places ≤ vec_capacity self.new.older) }
        ensures newer_len { vec_len self.new.newer ≡ vec_len self.old.newer }
        ensures older_len { vec_len self.new.older ≡ vec_len self.old.older }
        ensures newer_capacity { vec_capacity self.old.newer ≤ vec_capacity self.new.newer }
        ensures older_capacity { vec_capacity self.old.older ≤ vec_capacity self.new.older }
    {
        self.newer.reserve(places)?;
        self.older.reserve(places)
    }
}
