//! The networks of a node.

/// One of at most two networks. What isn't there is found empty at each question.
#[derive(Clone, Copy, Debug)]
pub enum Network {
    First,
    Second,
}
