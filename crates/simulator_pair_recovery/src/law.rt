//! Recovery, for a pair and every list of events that it was given.

ghost use Rattle.std.specs.Prelude.{ℕ, ◌≤◌, List};
ghost use Rattle.rasta_core.specs.Each.{Each};
ghost use Rattle.rasta_core_recovery.specs.Rounds.{AreUp};
ghost use Rattle.simulator_pair.specs.declared.event.PairEvent.{PairEvent};
ghost use Rattle.simulator_pair_text.specs.Flow.{rounds};
ghost use Rattle.simulator_pair_recovery.specs.Recovery.{GivesItem, HasTime, StayBelowLimit, flow_after, recovery_rounds};

use rasta_core::{calls_hand_out_pdus, copies_are_delivered, every_run_keeps_time, starts_in_time};
use rasta_core_recovery::two_ends_come_up_whatever_comes_first;
use rasta_core_spec::{read_was_written, written_is_read};
use rasta_pdu::intact_is_tested;

/// A pair comes up whatever events it was given: after each round of `flow` from the 1561st on both its ends are up, so for
/// good 15.61 s after the flow began. That is where its clocks are away from their limits for so long, and no end comes to
/// the limit of PDUs in a connection. Some datagrams of before, how many is free, were tried by earlier flows. Of all others the first
/// round tries each: in its place comes the newest copy of its bytes that still can, be it sent before the flow or said in this very round.
pub fn a_pair_comes_up()
    ensures { (events : List PairEvent) (passed n : ℕ) → Each GivesItem events → recovery_rounds ≤ n
        → HasTime n (flow_after events passed) → StayBelowLimit n (flow_after events passed)
        → AreUp (rounds n (flow_after events passed)).pair.ends }
{
    starts_in_time();
    every_run_keeps_time();
    copies_are_delivered();
    calls_hand_out_pdus();
    written_is_read();
    read_was_written();
    intact_is_tested();
    two_ends_come_up_whatever_comes_first();
}
