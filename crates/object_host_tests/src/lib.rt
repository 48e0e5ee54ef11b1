//! Tests of the object controllers, each through a link that commands it, and of one inside a program's own loop.
#![tactic(auto)]

#[cfg(test)]
mod bench;
#[cfg(test)]
mod detection;
#[cfg(test)]
mod output;
#[cfg(test)]
mod point;
#[cfg(test)]
mod quiet_loop;
#[cfg(test)]
mod signal;
