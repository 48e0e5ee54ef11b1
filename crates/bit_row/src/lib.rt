//! Sets of small numbers, each a row of 64 bits in one machine word.
#![tactic(auto)]

mod row;

pub use row::BitRow;
