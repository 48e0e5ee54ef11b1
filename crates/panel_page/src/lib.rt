//! The page of a signaller's panel, in one file.
#![tactic(auto)]

mod document;

pub use document::page;
