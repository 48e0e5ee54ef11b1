//! Worked runs: the definitions computed, so that the theorem isn't of nothing.

ghost use Rattle.simulator_pair.specs.Worked.{Reopening, Restarting, Retransmission};

/// A lost item is asked for and comes again in its place; a link that was closed is up again in a new connection; and a
/// server that is made anew with the clock and the sequence number that it once had refuses the old datagrams, with
/// its lamp at stop.
pub fn worked_runs()
    ensures retransmission { Retransmission }
    ensures reopening { Reopening }
    ensures restarting { Restarting }
{}
