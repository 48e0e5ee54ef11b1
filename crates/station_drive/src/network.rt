//! A network over memory.

ghost use Rattle.std.specs.Prelude.{◌≡◌, [], IfOk, Some};
ghost use Rattle.station_drive.specs.Told.{Asks, Counts, Sends, heard_of};
ghost use Rattle.station_drive.specs.Log.{call_of, told_by};

use crate::datagrams_waiting::Waiting;
use crate::failures_counted::Counting;
use crate::log::{Log, NetCall};
use crate::simulator_event::NodeId;
use crate::{Datagrams, NetFault, Received};
use std::alloc::{AllocError, Global};

/// A network over memory: what is sent to a node waits until it asks. One of its calls may fail.
pub struct MemoryNetwork {
    waiting: Waiting,
    log: Log,
    counting: Counting,
    alloc: Global,
}

// Written by hand, so that it is proved and compiled here alone.
impl Drop for MemoryNetwork {
    fn drop(self) {
        let Self {
            waiting: _,
            log: _,
            counting: _,
            alloc: _,
        } = self;
    }
}

impl MemoryNetwork {
    /// A network that carries nothing yet. Its call of the number `failing` fails, counted from 1; none at 0.
    pub fn new(alloc: Global, failing: u64) -> MemoryNetwork
        ensures { told_by result.log ≡ Some [] }
    {
        MemoryNetwork {
            waiting: Waiting {
                datagrams: Vec::new(alloc),
                alloc,
            },
            log: Log {
                calls: Vec::new(alloc),
                tells: true,
            },
            counting: Counting {
                made: 0,
                failing,
                failed: 0,
            },
            alloc,
        }
    }

    /// What was asked of it so far, oldest first, as far as it was kept.
    pub fn calls(&self) -> &[NetCall]
        ensures { result.now ≡ self.now.log.calls.items }
    {
        &self.log.calls
    }

    /// What is answered to a node that asks.
    fn answer(&mut self, node: NodeId) -> Result<Option<Received>, NetFault>
        ensures counted { Counts result self.old.counting.failed self.new.counting.failed }
        ensures log { self.new.log ≡ self.old.log }
    {
        if self.counting.make() {
            return self.counting.fail(None);
        }
        Ok(self.waiting.take(node))
    }

    /// Bytes come from outside for a node.
    pub fn bring(&mut self, to: NodeId, bytes: &[u8]) -> Result<(), AllocError>
        ensures { self.new.log ≡ self.old.log }
    {
        self.waiting.add(to, bytes)
    }
}

impl Datagrams for MemoryNetwork {
    ghost use Rattle.std.specs.Prelude.{List, Option};
    ghost use Rattle.station_drive.specs.Told.{Call};
    ghost use Rattle.station_drive.specs.Log.{grows_by, told_by};

    ghost Told = { Option (List Call) };

    ghost told = { λ network. told_by network.log };

    ghost carries = { grows_by };

    ghost failed = { λ network. network.counting.failed };

    fn send(&mut self, to: NodeId, bytes: &[u8]) -> Result<(), NetFault> {
        self.log.add(sent(self.alloc, to, bytes));
        if self.counting.make() || self.waiting.add(to, bytes).is_err() {
            return self.counting.fail(());
        }
        Ok(())
    }

    fn receive(&mut self, node: NodeId) -> Result<Option<Received>, NetFault> {
        let answer = self.answer(node);
        self.log.add(asked(self.alloc, node, &answer));
        answer
    }

    fn faults(&self) -> u64 {
        self.counting.failed
    }
}

/// The call by which bytes are sent.
fn sent(alloc: Global, to: NodeId, bytes: &[u8]) -> Result<NetCall, AllocError>
    ensures { IfOk result (λ call. call_of call ≡ Sends to bytes.now) }
{
    Ok(NetCall::Sent(to, Vec::from_slice(alloc, bytes)?))
}

/// The call by which a node asked, with what was answered.
fn asked(
    alloc: Global,
    node: NodeId,
    answer: &Result<Option<Received>, NetFault>,
) -> Result<NetCall, AllocError>
    ensures { IfOk result (λ call. call_of call ≡ Asks node (heard_of (λ bytes. bytes.items) answer.now)) }
{
    match answer {
        Ok(Some(bytes)) => Ok(NetCall::Heard(node, Vec::from_slice(alloc, bytes)?)),
        Ok(None) => Ok(NetCall::Silent(node)),
        Err(_) => Ok(NetCall::Failed(node)),
    }
}
