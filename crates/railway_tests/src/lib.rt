//! Tests of the text of a railway: what is read of one, all that is told of faulty ones, and what a check says; and of a line of one that
//! begins.
//!
//! There is nothing here but tests.
#![tactic(auto)]

#[cfg(test)]
mod begun;
#[cfg(test)]
mod checked;
#[cfg(test)]
mod faulty;
#[cfg(test)]
mod read;
#[cfg(test)]
mod told;
