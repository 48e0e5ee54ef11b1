//! Tests of a pair, and of the texts that drive one. Long runs under a hostile network, drifting clocks, closes and restarts are
//! drawn from seeds: after each event a plain program looks at what stands and asks whether the sentences of the link's theorem
//! hold of it, so that their meaning is seen at work. There is nothing here but tests.
#![tactic(auto)]

#[cfg(test)]
mod bench;
#[cfg(test)]
mod command_line;
#[cfg(test)]
mod events;
#[cfg(test)]
mod hostile;
#[cfg(test)]
mod pair;
#[cfg(test)]
mod text;
#[cfg(test)]
mod watch;
