//! Recovery of a pair: whatever events it was given, both its ends are up a bounded time after its network became good.
#![tactic(auto)]

mod law;

pub use law::a_pair_comes_up;
