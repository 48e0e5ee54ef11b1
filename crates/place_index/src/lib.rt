//! An index from keys to the places that have them: the oldest and the newest place of a key, and from each the next one,
//! in a time that doesn't grow with how many places there are.
#![tactic(auto)]

mod key;
mod place_index;
mod rings;

pub use key::key_of;
pub use place_index::PlaceIndex;
