//! Tests of digests, PDUs and telegrams, and of one end whose partner's PDUs are made by hand.
#![tactic(auto)]

#[cfg(test)]
mod bench;
#[cfg(test)]
mod clock;
#[cfg(test)]
mod digests;
#[cfg(test)]
mod establishment;
#[cfg(test)]
mod faults;
#[cfg(test)]
mod pdu_rows;
#[cfg(test)]
mod retransmission;
#[cfg(test)]
mod telegram_rows;
#[cfg(test)]
mod verdicts;
#[cfg(test)]
mod wire;
