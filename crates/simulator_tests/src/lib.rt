//! Tests of whole stations.
//!
//! Long runs under a hostile network, drifting clocks and restarts, with trains that run on set routes, all drawn from seeds.
//! After each event a plain program looks at what stands and asks whether the promise of the headline holds of it, so that its
//! meaning is seen at work.
//!
//! Stations that went through such lists recover in good rounds: links, aspects, stop, and routes that are free again, each by a
//! bound.
//!
//! And what only a program sees of a station. What can be said by lines of events is stored in `stored_runs`.
//!
//! There is nothing here but tests.
#![tactic(auto)]

#[cfg(test)]
mod events;
#[cfg(test)]
mod faults;
#[cfg(test)]
mod good_rounds;
#[cfg(test)]
mod layouts;
#[cfg(test)]
mod operations;
#[cfg(test)]
mod promise;
#[cfg(test)]
mod recovery;
#[cfg(test)]
mod room;
#[cfg(test)]
mod runs;
#[cfg(test)]
mod snapshots;
#[cfg(test)]
mod station;
#[cfg(test)]
mod tally;
#[cfg(test)]
mod trains;
#[cfg(test)]
mod watch;
